//! Independently spelled frames.

ghost use Rattle.std.specs.Prelude.{◌≡◌, ◌<◌, length};

use crate::digits::spelled;
use crate::same::{holds, same};
use mac_frame::{
    AckPolicy, AddbaResponse, Address, AidField, BlockAck, BlockAckParameters, BufferSize, Content,
    Control, DataKind, Elements, ElementsBuf, Fault, FrameFault, MacFrame, Management, QosControl,
    Reason, SequenceNumber, Status, Tid, parse, write, written_is_read,
};
use std::alloc::Global;
use std::process::Abort;

/// A frame is written as these bytes.
fn is_spelled(rt: &impl Abort, alloc: Global, frame: MacFrame, bytes: &[u8], what: &str) {
    let mut out = Vec::new(alloc);
    write(&frame, &mut out).expect(rt, "memory");
    drop(frame);
    same(rt, out.as_slice(), bytes, what);
    drop(out);
}

/// The number of the fault of bytes. 0 if they are a frame, which is then written as these bytes.
fn number_of(rt: &impl Abort, alloc: Global, bytes: &[u8]) -> u8 {
    match parse(alloc, bytes) {
        Ok(frame) => {
            is_spelled(rt, alloc, frame, bytes, "a frame is written as it was");
            0
        }
        Err(FrameFault::Memory) => rt.panic("memory"),
        Err(FrameFault::Fault(fault)) => fault.number(),
    }
}

/// A frame's digits, the length of its header, that with its fixed fields, and the lengths at which it ends with an
/// element or within its data, the last of which is its own.
type Kind<'a> = (&'a str, usize, usize, &'a [usize]);

/// One frame of each kind, and another association request. Elements and data are nonempty if the kind may have some.
static KINDS: &[Kind<'static>] = &[
    (
        "0000aed6 a2d60169b8b7 02000000001d a2d60169b8b7 70aa 0300 0500 0003 6c6162 0104 82848b96",
        24,
        28,
        &[28, 33, 39],
    ),
    (
        "00000000 020000000001 02000000000a 020000000001 2000 0100 0a00 0003 6c6162 0104 82848b96",
        24,
        28,
        &[28, 33, 39],
    ),
    (
        "10000000 02000000000a 020000000001 020000000001 0000 0100 0000 02c0 0104 82848b96",
        24,
        30,
        &[30, 36],
    ),
    (
        "2028fbb4 020000000001 14d4c9ec2b5e 020000000001 70a1 c1fe 0000 020000000001 0001 63 0102 82bf",
        24,
        34,
        &[34, 37, 41],
    ),
    (
        "30000000 046e44818c50 ef6e44818c50 ef6e44818c50 0000 0100 0000 04c0 0102 bbac",
        24,
        30,
        &[30, 34],
    ),
    (
        "a0000000 02000000000a 020000000001 020000000001 0000 0700",
        24,
        26,
        &[26],
    ),
    (
        "b0000000 020000000001 02000000000a 020000000001 1000 0000 0100 0000",
        24,
        30,
        &[30],
    ),
    (
        "c018cff8 0a939544cafc 0450cd48d6c5 0a939544cafc 3039 0000",
        24,
        26,
        &[26],
    ),
    (
        "d0000000 020000000001 02000000000a 020000000001 4000 0300 07 0201 0000 e0ff",
        24,
        33,
        &[33],
    ),
    (
        "d0000000 02000000000a 020000000001 020000000001 0000 0301 07 2500 0200 0000",
        24,
        33,
        &[33],
    ),
    (
        "d0000000 9c0038833ad0 020000000204 9c0038833ad0 d056 0302 0008 6400",
        24,
        30,
        &[30],
    ),
    (
        "84000000 020000000001 02000000000a 0400 e0ff",
        16,
        20,
        &[20],
    ),
    (
        "94000000 02000000000a 020000000001 0400 e0ff 0700000000000000",
        16,
        28,
        &[28],
    ),
    (
        "08195f71 6e44818c50ef a422c03bb1eb f405351ab41e e0c9 a19ff50d381b2e7f",
        24,
        24,
        &[24, 25, 26, 27, 28, 29, 30, 31, 32],
    ),
    (
        "4829a94c 020000000001 1e36653f636e 0200000000ff f0e5",
        24,
        24,
        &[24],
    ),
    (
        "88396a0a 020000000001 02000000001c 020000000001 c054 0500 47",
        26,
        26,
        &[26, 27],
    ),
    (
        "c839d586 020000000001 1e36653f636e ffffffffffff 908a 0000",
        26,
        26,
        &[26],
    ),
];

/// The number of the fault of a frame of a kind that is cut at this length.
fn cut_at(kind: &Kind<'_>, len: usize) -> u8 {
    let (_, header, fixed, whole) = kind;
    match len {
        _ if len < *header => 50,
        _ if len < *fixed => 55,
        _ if whole.contains(&len) => 0,
        _ => 54,
    }
}

/// A frame of a kind, cut at each length.
fn is_cut(rt: &impl Abort, alloc: Global, bytes: &[u8], kind: &Kind<'_>) {
    for len in 0..bytes.len() + 1 {
        let number = number_of(rt, alloc, &bytes[..len]);
        same(rt, (len, number), (len, cut_at(kind, len)), kind.0);
    }
    same(rt, kind.3.last().copied(), Some(bytes.len()), kind.0);
}

/// Sets a byte of a frame to each value, and counts how often the result is read; else it has a number of 50 to 55.
fn count_read(rt: &impl Abort, alloc: Global, bytes: &mut [u8], at: usize) -> u32
    requires { at < length bytes.old }
    ensures { length bytes.new ≡ length bytes.old }
{
    let was = bytes[at];
    let mut read = 0u32;
    for value in 0..=255u8 {
        bytes[at] = value;
        let number = number_of(rt, alloc, bytes);
        holds(rt, number == 0 || (50..=55).contains(&number), "a fault");
        read = read.wrapping_add(u32::from(number == 0));
    }
    bytes[at] = was;
    read
}

/// Sets each byte of a frame to each value: each time it is read or has a fault, and now and then it is read.
fn is_changed(rt: &impl Abort, alloc: Global, bytes: &mut [u8], digits: &str) {
    let mut read = 0u32;
    for at in 0..bytes.len() {
        read = read.wrapping_add(count_read(rt, alloc, bytes, at));
    }
    holds(rt, read > 0, digits);
}

/// A frame is written, and read again unchanged.
fn is_written_and_read(rt: &impl Abort, alloc: Global, bytes: &[u8], digits: &str) {
    let frame = parse(alloc, bytes).expect(rt, digits);
    let mut out = Vec::new(alloc);
    let read = written_is_read(&frame, &mut out).expect(rt, digits);
    drop(frame);
    same(rt, out.as_slice(), bytes, digits);
    drop(out);
    is_spelled(rt, alloc, read, bytes, digits);
}

#[test]
fn every_kind_is_written_and_read_and_cut_and_changed_at_every_byte(rt: HostRuntime) {
    for kind in KINDS {
        let mut bytes = spelled(&rt, rt.alloc(), kind.0);
        is_written_and_read(&rt, rt.alloc(), &bytes, kind.0);
        is_cut(&rt, rt.alloc(), &bytes, kind);
        is_changed(&rt, rt.alloc(), bytes.as_mut_slice(), kind.0);
    }
}

/// Frames with one thing wrong each, by the number of the fault.
static REFUSED: &[(u8, &str)] = &[
    (50, "b0"),
    (50, "b0000000020000000001 02000000000a 020000000001 10"),
    (
        51,
        "b1000000020000000001 02000000000a 020000000001 1000 0000 0100 0000",
    ),
    (
        51,
        "d2000000 9c0038833ad0 020000000204 9c0038833ad0 d056 0302 0008 6400",
    ),
    (
        52,
        "d4000000 9c0038833ad0 020000000204 9c0038833ad0 d056 0302 0008 6400",
    ),
    (
        52,
        "d8000000 9c0038833ad0 020000000204 9c0038833ad0 d056 0302 0008 6400",
    ),
    (
        52,
        "f0000000 9c0038833ad0 020000000204 9c0038833ad0 d056 0302 0008 6400",
    ),
    (
        52,
        "90000000 9c0038833ad0 020000000204 9c0038833ad0 d056 0302 0008 6400",
    ),
    (
        52,
        "50000000 9c0038833ad0 020000000204 9c0038833ad0 d056 0302 0008 6400",
    ),
    (
        52,
        "4008cff8 0a939544cafc 0450cd48d6c5 0a939544cafc 3039 0000",
    ),
    (
        52,
        "8008cff8 0a939544cafc 0450cd48d6c5 0a939544cafc 3039 0000",
    ),
    (
        52,
        "d0000000 9c0038833ad0 020000000204 9c0038833ad0 d056 0202 0008 6400",
    ),
    (
        52,
        "d0000000 9c0038833ad0 020000000204 9c0038833ad0 d056 0102 0008 6400",
    ),
    (
        52,
        "d0000000 9c0038833ad0 020000000204 9c0038833ad0 d056 0303 0008 6400",
    ),
    (
        52,
        "d0000000 9c0038833ad0 020000000204 9c0038833ad0 d056 0306 0008 6400",
    ),
    (
        53,
        "d0010000 9c0038833ad0 020000000204 9c0038833ad0 d056 0302 0008 6400",
    ),
    (
        53,
        "d0020000 9c0038833ad0 020000000204 9c0038833ad0 d056 0302 0008 6400",
    ),
    (
        53,
        "d0040000 9c0038833ad0 020000000204 9c0038833ad0 d056 0302 0008 6400",
    ),
    (
        53,
        "d0400000 9c0038833ad0 020000000204 9c0038833ad0 d056 0302 0008 6400",
    ),
    (
        53,
        "d0800000 9c0038833ad0 020000000204 9c0038833ad0 d056 0302 0008 6400",
    ),
    (
        53,
        "d0000000 9c0038833ad0 020000000204 9c0038833ad0 d156 0302 0008 6400",
    ),
    (
        53,
        "d0000000 9c0038833ad0 020000000204 9c0038833ad0 d256 0302 0008 6400",
    ),
    (
        53,
        "d0000000 9c0038833ad0 020000000204 9c0038833ad0 d456 0302 0008 6400",
    ),
    (
        53,
        "d0000000 9c0038833ad0 020000000204 9c0038833ad0 d856 0302 0008 6400",
    ),
    (
        53,
        "d0000000 9c0038833ad0 020000000204 9c0038833ad0 d056 0302 0108 6400",
    ),
    (
        53,
        "d0000000 9c0038833ad0 020000000204 9c0038833ad0 d056 0302 8008 6400",
    ),
    (
        53,
        "d0000000 9c0038833ad0 020000000204 9c0038833ad0 d056 0302 0009 6400",
    ),
    (
        53,
        "d0000000 9c0038833ad0 020000000204 9c0038833ad0 d056 0302 000c 6400",
    ),
    (
        53,
        "d0000000 9c0038833ad0 020000000204 9c0038833ad0 d056 0302 0088 6400",
    ),
    (
        53,
        "c808cff8 0a939544cafc 0450cd48d6c5 0a939544cafc 3039 0000",
    ),
    (
        53,
        "c009cff8 0a939544cafc 0450cd48d6c5 0a939544cafc 3039 0000",
    ),
    (
        53,
        "c048cff8 0a939544cafc 0450cd48d6c5 0a939544cafc 3039 0000",
    ),
    (
        53,
        "c008cff8 0a939544cafc 0450cd48d6c5 0a939544cafc 3139 0000",
    ),
    (
        53,
        "c008cff8 0a939544cafc 0450cd48d6c5 0a939544cafc 3839 0000",
    ),
    (
        53,
        "082165ad 62cf65088c27 020000000902 0200000000ff cc84 e65b70e38f",
    ),
    (
        55,
        "b0000000020000000001 02000000000a 020000000001 1000 0000 0100 00",
    ),
    (
        55,
        "b0000000020000000001 02000000000a 020000000001 1000 0000 0100 0000 00",
    ),
    (
        55,
        "d0000000 8a11a326a7d9 020000000000 8a11a326a7d9 d054 0300 c0 0204 0000",
    ),
    (
        55,
        "d0000000 8a11a326a7d9 020000000000 8a11a326a7d9 d054 0300 c0 0204 0000 1000 00",
    ),
    (
        55,
        "d0000000 4a8146b14182 02000000000b 4a8146b14182 80b9 0301 93 f090 9212",
    ),
    (
        55,
        "b030a825 8a11a326a7d9 020000000000 8a11a326a7d9 b019 0000 0100 0000 00",
    ),
];

#[test]
fn the_first_fault_is_named(rt: HostRuntime) {
    for (number, digits) in REFUSED {
        let bytes = spelled(&rt, rt.alloc(), digits);
        same(&rt, number_of(&rt, rt.alloc(), &bytes), *number, digits);
    }
}

/// What is read of a frame: its digits; whether it is a retry, the station saves power, and there are more data; the
/// Duration field; address 2, the BSSID, and the destination of data; the TID and the number; the tail; and numbers by
/// kind, as `numbers` tells.
struct Row<'a> {
    digits: &'a str,
    flags: [bool; 3],
    duration: u16,
    sender: [u8; 6],
    bssid: Option<[u8; 6]>,
    destination: Option<[u8; 6]>,
    tid: Option<u8>,
    number: Option<u16>,
    tail: &'a str,
    numbers: [u64; 4],
}

static READ: &[Row<'static>] = &[
    Row {
        digits: "881937f8 6e44818c50ef a422c03bb1eb ffffffffffff d0dd 0700 d0a5",
        flags: [true, true, false],
        duration: 0xf837,
        sender: [0xa4, 0x22, 0xc0, 0x3b, 0xb1, 0xeb],
        bssid: Some([0x6e, 0x44, 0x81, 0x8c, 0x50, 0xef]),
        destination: Some([0xff; 6]),
        tid: Some(7),
        number: Some(3549),
        tail: "d0a5",
        numbers: [0, 0, 0, 0],
    },
    Row {
        digits: "8839bb4c 6e44818c50ef a422c03bb1eb ba3e521b68ac e0ad 0400 ea42e82732",
        flags: [true, true, true],
        duration: 0x4cbb,
        sender: [0xa4, 0x22, 0xc0, 0x3b, 0xb1, 0xeb],
        bssid: Some([0x6e, 0x44, 0x81, 0x8c, 0x50, 0xef]),
        destination: Some([0xba, 0x3e, 0x52, 0x1b, 0x68, 0xac]),
        tid: Some(4),
        number: Some(2782),
        tail: "ea42e82732",
        numbers: [0, 0, 0, 0],
    },
    Row {
        digits: "08010000 6e44818c50ef a422c03bb1eb f405351ab41e e0c9 a19ff50d381b2e7f",
        flags: [false, false, false],
        duration: 0x0000,
        sender: [0xa4, 0x22, 0xc0, 0x3b, 0xb1, 0xeb],
        bssid: Some([0x6e, 0x44, 0x81, 0x8c, 0x50, 0xef]),
        destination: Some([0xf4, 0x05, 0x35, 0x1a, 0xb4, 0x1e]),
        tid: None,
        number: Some(3230),
        tail: "a19ff50d381b2e7f",
        numbers: [0, 0, 0, 0],
    },
    Row {
        digits: "88010000 6e44818c50ef 020000000123 020000000123 d09c 0400 8fb0",
        flags: [false, false, false],
        duration: 0x0000,
        sender: [0x02, 0, 0, 0, 0x01, 0x23],
        bssid: Some([0x6e, 0x44, 0x81, 0x8c, 0x50, 0xef]),
        destination: Some([0x02, 0, 0, 0, 0x01, 0x23]),
        tid: Some(4),
        number: Some(2509),
        tail: "8fb0",
        numbers: [0, 0, 0, 0],
    },
    Row {
        digits: "8821be6c 6e44818c50ef 020000000123 785348a53166 9082 22c2 d9008aac43f7a7f9",
        flags: [false, false, true],
        duration: 0x6cbe,
        sender: [0x02, 0, 0, 0, 0x01, 0x23],
        bssid: Some([0x6e, 0x44, 0x81, 0x8c, 0x50, 0xef]),
        destination: Some([0x78, 0x53, 0x48, 0xa5, 0x31, 0x66]),
        tid: Some(2),
        number: Some(2089),
        tail: "d9008aac43f7a7f9",
        numbers: [0xc2, 0, 0, 0],
    },
    Row {
        digits: "8829e976 020000000001 1e36653f636e ffffffffffff 305c 7726 22d2276337ecdf96",
        flags: [true, false, true],
        duration: 0x76e9,
        sender: [0x1e, 0x36, 0x65, 0x3f, 0x63, 0x6e],
        bssid: Some([0x02, 0, 0, 0, 0, 0x01]),
        destination: Some([0xff; 6]),
        tid: Some(7),
        number: Some(1475),
        tail: "22d2276337ecdf96",
        numbers: [0x26, 1, 1, 0],
    },
    Row {
        digits: "88010000 62cf65088c27 020000000903 020000000013 c0aa 122e 692734",
        flags: [false, false, false],
        duration: 0x0000,
        sender: [0x02, 0, 0, 0, 0x09, 0x03],
        bssid: Some([0x62, 0xcf, 0x65, 0x08, 0x8c, 0x27]),
        destination: Some([0x02, 0, 0, 0, 0, 0x13]),
        tid: Some(2),
        number: Some(2732),
        tail: "692734",
        numbers: [0x2e, 1, 0, 0],
    },
    Row {
        digits: "0829152f 6e44818c50ef 020000000004 ffffffffffff 402f d7986e850c00f67f",
        flags: [true, false, true],
        duration: 0x2f15,
        sender: [0x02, 0, 0, 0, 0, 0x04],
        bssid: Some([0x6e, 0x44, 0x81, 0x8c, 0x50, 0xef]),
        destination: Some([0xff; 6]),
        tid: None,
        number: Some(756),
        tail: "d7986e850c00f67f",
        numbers: [0, 0, 0, 0],
    },
    // The bits that the link ignores are kept.
    Row {
        digits: "8839d013 6e44818c50ef 020000000123 785348a53166 9082 72fe 00",
        flags: [true, true, true],
        duration: 0x13d0,
        sender: [0x02, 0, 0, 0, 0x01, 0x23],
        bssid: Some([0x6e, 0x44, 0x81, 0x8c, 0x50, 0xef]),
        destination: Some([0x78, 0x53, 0x48, 0xa5, 0x31, 0x66]),
        tid: Some(2),
        number: Some(2089),
        tail: "00",
        numbers: [0xfe, 1, 1, 0],
    },
    Row {
        digits: "0000aed6 a2d60169b8b7 02000000001d a2d60169b8b7 70aa 0300 0500 0003 6c6162 0104 82848b96",
        flags: [false, false, false],
        duration: 0xd6ae,
        sender: [0x02, 0, 0, 0, 0, 0x1d],
        bssid: Some([0xa2, 0xd6, 0x01, 0x69, 0xb8, 0xb7]),
        destination: None,
        tid: None,
        number: Some(0xaa7),
        tail: "0003 6c6162 0104 82848b96",
        numbers: [3, 5, 1, 0],
    },
    Row {
        digits: "d0000000 020000000001 02000000000a 020000000001 4000 0300 07 0201 0000 e0ff",
        flags: [false, false, false],
        duration: 0x0000,
        sender: [0x02, 0, 0, 0, 0, 0x0a],
        bssid: Some([0x02, 0, 0, 0, 0, 0x01]),
        destination: None,
        tid: Some(0),
        number: Some(4),
        tail: "",
        numbers: [7, 4, 0, 4094],
    },
    Row {
        digits: "84000000 020000000001 02000000001c 0410 2087",
        flags: [false, false, false],
        duration: 0x0000,
        sender: [0x02, 0, 0, 0, 0, 0x1c],
        bssid: None,
        destination: None,
        tid: Some(1),
        number: None,
        tail: "",
        numbers: [0x872, 0, 0, 0],
    },
    Row {
        digits: "94000000 02000000000a 020000000001 0400 e0ff 0700000000000000",
        flags: [false, false, false],
        duration: 0x0000,
        sender: [0x02, 0, 0, 0, 0, 0x01],
        bssid: None,
        destination: None,
        tid: Some(0),
        number: None,
        tail: "",
        numbers: [4094, 7, 0, 0],
    },
];

/// Of a QoS Control field: the upper bits, whether a service period ends, and whether a block acknowledgement is asked
/// for.
fn of_qos(qos: QosControl) -> [u64; 4] {
    let is_block_ack = qos.ack_policy == AckPolicy::BlockAck;
    let is_end = qos.end_of_service_period;
    [
        u64::from(qos.upper),
        u64::from(is_end),
        u64::from(is_block_ack),
        0,
    ]
}

/// Of an association request: the capabilities, the listen interval, and whether it asks for an infrastructure network.
/// Of a request for an agreement: the token, the size, the timeout and the start.
fn of_management(body: Management) -> [u64; 4] {
    match body {
        Management::AssociationRequest {
            capability,
            listen_interval,
        } => {
            let (field, is_ess) = (capability.field(), capability.is_ess());
            [
                u64::from(field),
                u64::from(listen_interval),
                u64::from(is_ess),
                0,
            ]
        }
        Management::AddbaRequest {
            dialog_token,
            parameters,
            timeout,
            start,
        } => [
            u64::from(dialog_token),
            u64::from(parameters.buffer_size.number()),
            u64::from(timeout),
            u64::from(start.number()),
        ],
        _ => [0; 4],
    }
}

/// Of a BlockAckReq the start; of a BlockAck also the bits.
fn of_control(body: Control) -> [u64; 4] {
    match body {
        Control::BlockAckReq { start, .. } => [u64::from(start.number()), 0, 0, 0],
        Control::BlockAck { start, bitmap, .. } => [u64::from(start.number()), bitmap, 0, 0],
    }
}

/// The numbers of a frame's content, by kind.
fn numbers(content: Content) -> [u64; 4] {
    match content {
        Content::Management { body, .. } => of_management(body),
        Content::Control { body } => of_control(body),
        Content::Data { kind, .. } => match kind {
            DataKind::QosData { qos } => of_qos(qos),
            _ => [0; 4],
        },
    }
}

/// The destination of data.
fn destination(content: Content) -> Option<Address> {
    match content {
        Content::Data { destination, .. } => Some(destination),
        _ => None,
    }
}

/// A frame is read as a row says.
fn is_read(rt: &impl Abort, alloc: Global, row: &Row<'_>) {
    let bytes = spelled(rt, alloc, row.digits);
    let read = parse(alloc, &bytes).expect(rt, row.digits);
    same(rt, numbers(read.content()), row.numbers, row.digits);
    let addresses = (read.sender(), read.bssid(), destination(read.content()));
    let sender = Address::new(row.sender);
    let wanted = (
        row.bssid.map(Address::new),
        row.destination.map(Address::new),
    );
    same(rt, addresses, (sender, wanted.0, wanted.1), row.digits);
    let tid = read.tid().map(Tid::number);
    let number = read.sequence_number().map(SequenceNumber::number);
    let found = (tid, number, read.duration());
    same(rt, found, (row.tid, row.number, row.duration), row.digits);
    let flags = read.flags();
    let set = [flags.retry, flags.power_management, flags.more_data];
    same(rt, set, row.flags, row.digits);
    let tail = spelled(rt, alloc, row.tail);
    same(rt, read.into_tail().as_slice(), tail.as_slice(), row.digits);
}

#[test]
fn frames_are_read_field_by_field(rt: HostRuntime) {
    for row in READ {
        is_read(&rt, rt.alloc(), row);
    }
}

#[test]
fn elements_of_an_association_request_are_read(rt: HostRuntime) {
    let digits =
        "0000aed6 a2d60169b8b7 02000000001d a2d60169b8b7 70aa 0300 0500 0003 6c6162 0104 82848b96";
    let bytes = spelled(&rt, rt.alloc(), digits);
    let read = parse(rt.alloc(), &bytes).expect(&rt, digits);
    let ssid = read.ssid().expect(&rt, "an SSID");
    same(&rt, ssid, b"lab".as_slice(), "ssid");
    let rates = read.rates().expect(&rt, "rates");
    same(&rt, rates, RATES.as_slice(), "rates");
    holds(&rt, read.elements().first(2).is_none(), "first");
}

#[test]
fn parameters_of_an_agreement_are_read(rt: HostRuntime) {
    let digits = "d0000000 020000000001 02000000000a 020000000001 4000 0300 07 0201 0000 e0ff";
    let bytes = spelled(&rt, rt.alloc(), digits);
    let read = parse(rt.alloc(), &bytes).expect(&rt, digits);
    let zero = Tid::new(0).expect(&rt, "a TID");
    let wanted = Some(parameters(&rt, zero, 4));
    same(
        &rt,
        read.block_ack_parameters(),
        wanted,
        "immediate, no A-MSDU",
    );
}

#[test]
fn the_first_of_two_elements_counts(rt: HostRuntime) {
    let bytes = spelled(&rt, rt.alloc(), "0100 0002 6162 0001 63 0102 8284 0101 96");
    let elements = Elements::read(&bytes).expect(&rt, "elements");
    let first = elements.first(0).expect(&rt, "an SSID");
    same(&rt, first, b"ab".as_slice(), "first");
    let rates = elements.first(1).expect(&rt, "rates");
    holds(&rt, rates.is_empty(), "the first rates");
    let rates = elements.first_nonempty(1).expect(&rt, "rates");
    same(
        &rt,
        rates,
        [0x82, 0x84].as_slice(),
        "the first nonempty rates",
    );
    let cut = Elements::read(&[1, 0, 0, 2, 0x61]).is_none();
    holds(&rt, cut, "a cut element");
}

/// What the access point `020000000001` sends to station `02000000000a`. Statuses and reasons are numbers.
#[derive(Clone, Copy)]
enum Sent {
    /// For this algorithm, with this status.
    Authentication(u16, u16),
    /// With this status, this identifier, none if it is 0, and four rates.
    Association(u16, u16),
    Reassociation(u16, u16),
    Disassociation(u16),
    Deauthentication(u16),
    /// The end of the agreement for TID 5.
    Delba(u16),
    /// The answer with token 7 for TID 0, with this status and size.
    Addba(u16, u16),
    /// For TID 0: the start, and the bits.
    BlockAck(u16, u64),
}

const RATES: [u8; 4] = [0x82, 0x84, 0x8b, 0x96];

static SENT: &[(Sent, &str)] = &[
    (
        Sent::Authentication(0, 0),
        "b0000000 02000000000a 020000000001 020000000001 0000 000002000000",
    ),
    (
        Sent::Association(0, 2),
        "10000000 02000000000a 020000000001 020000000001 0000 0100 0000 02c0 0104 82848b96",
    ),
    (
        Sent::Reassociation(17, 0),
        "30000000 02000000000a 020000000001 020000000001 0000 0100 1100 0000 0104 82848b96",
    ),
    (
        Sent::Disassociation(7),
        "a0000000 02000000000a 020000000001 020000000001 0000 0700",
    ),
    (
        Sent::Deauthentication(6),
        "c0000000 02000000000a 020000000001 020000000001 0000 0600",
    ),
    (
        Sent::Delba(39),
        "d0000000 02000000000a 020000000001 020000000001 0000 0302 0050 2700",
    ),
    (
        Sent::Delba(37),
        "d0000000 02000000000a 020000000001 020000000001 0000 0302 0050 2500",
    ),
    (
        Sent::Addba(0, 4),
        "d0000000 02000000000a 020000000001 020000000001 0000 0301 07 0000 0201 0000",
    ),
    (
        Sent::Addba(37, 0),
        "d0000000 02000000000a 020000000001 020000000001 0000 0301 07 2500 0200 0000",
    ),
    (
        Sent::BlockAck(4094, 7),
        "94000000 02000000000a 020000000001 0400 e0ff 0700000000000000",
    ),
];

/// The field with this identifier, none if it is 0.
fn aid_field(identifier: u16) -> AidField {
    match identifier {
        1..=2007 => AidField::granted(identifier),
        _ => AidField::NONE,
    }
}

/// The parameters of an immediate policy for a TID with this size.
fn parameters(rt: &impl Abort, tid: Tid, size: u16) -> BlockAckParameters {
    BlockAckParameters::immediate(tid, BufferSize::new(size).expect(rt, "a size"))
}

/// The response to a (re)association request.
fn response(rt: &impl Abort, alloc: Global, ends: (Address, Address), sent: Sent) -> MacFrame {
    let (station, bssid) = ends;
    let rates = ElementsBuf::rates(alloc, &RATES).expect(rt, "memory");
    match sent {
        Sent::Association(status, aid) => {
            let status = Status::new(status);
            MacFrame::association_response(station, bssid, status, aid_field(aid), rates)
        }
        Sent::Reassociation(status, aid) => {
            let status = Status::new(status);
            MacFrame::reassociation_response(station, bssid, status, aid_field(aid), rates)
        }
        _ => rt.panic("a response"),
    }
}

/// The frame that says so.
fn frame_of(rt: &impl Abort, alloc: Global, sent: Sent) -> MacFrame {
    let station = Address::new([2, 0, 0, 0, 0, 10]);
    let bssid = Address::new([2, 0, 0, 0, 0, 1]);
    let (zero, five) = (Tid::new(0).expect(rt, "0"), Tid::new(5).expect(rt, "5"));
    match sent {
        Sent::Authentication(algorithm, status) => {
            let status = Status::new(status);
            return MacFrame::authentication(alloc, station, bssid, algorithm, status);
        }
        Sent::Association(..) | Sent::Reassociation(..) => {
            return response(rt, alloc, (station, bssid), sent);
        }
        Sent::Disassociation(reason) => {
            return MacFrame::disassociation(alloc, station, bssid, Reason::new(reason));
        }
        Sent::Deauthentication(reason) => {
            return MacFrame::deauthentication(alloc, station, bssid, Reason::new(reason));
        }
        Sent::Delba(reason) => {
            return MacFrame::delba(alloc, station, bssid, five, Reason::new(reason));
        }
        Sent::Addba(status, size) => {
            let response = AddbaResponse {
                dialog_token: 7,
                status: Status::new(status),
                parameters: parameters(rt, zero, size),
                timeout: 0,
            };
            return MacFrame::addba_response(alloc, station, bssid, response);
        }
        Sent::BlockAck(start, bitmap) => {
            let tid = zero;
            let start = SequenceNumber::new(start).expect(rt, "a number");
            return MacFrame::block_ack(alloc, station, bssid, BlockAck { tid, start, bitmap });
        }
    }
}

#[test]
fn frames_to_stations_are_spelled(rt: HostRuntime) {
    for (sent, digits) in SENT {
        let bytes = spelled(&rt, rt.alloc(), digits);
        let frame = frame_of(&rt, rt.alloc(), *sent);
        is_spelled(&rt, rt.alloc(), frame, &bytes, digits);
    }
}

#[test]
fn a_frame_has_2400_bytes_at_most(rt: HostRuntime) {
    let digits = "08195f71 6e44818c50ef a422c03bb1eb f405351ab41e e0c9 a19ff50d381b2e7f";
    let mut bytes = spelled(&rt, rt.alloc(), digits);
    bytes.resize(2400, 0x5a).expect(&rt, "memory");
    let most = number_of(&rt, rt.alloc(), &bytes);
    bytes.push(0).expect(&rt, "memory");
    let beyond = number_of(&rt, rt.alloc(), &bytes);
    same(&rt, (most, beyond), (0, 55), "2400 bytes, and 2401");
}

/// A fault has this text.
fn is_told(rt: &impl Abort, alloc: Global, fault: FrameFault, text: &str) {
    let told = fault.to_string(alloc).expect(rt, "memory");
    same(rt, told.as_str(), text, "told");
}

#[test]
fn a_fault_tells_what_it_is(rt: HostRuntime) {
    let cut = FrameFault::Fault(Fault::ElementCut);
    is_told(&rt, rt.alloc(), cut, "54: an element is cut");
    is_told(&rt, rt.alloc(), FrameFault::Memory, "out of memory");
}
