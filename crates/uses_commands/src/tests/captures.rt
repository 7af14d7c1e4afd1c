//! Captures made by hand.

use crate::tests::same::same;
use crate::tests::told::joined;
use capture::{CaptureFault, LeftOut, NewPacket, Packet, Side, read_capture, write_capture};
use std::alloc::Global;
use std::process::Abort;

/// Fails if a file isn't read as these packets.
fn reads(rt: &impl Abort, alloc: Global, file: &[u8], wanted: &[Packet<'_>]) {
    let packets = read_capture(alloc, file).ok().expect(rt, "a capture");
    same(rt, packets.as_slice(), wanted, "packets");
}

/// A section header with little-endian numbers, version 1.0 and no known length; then a little-endian interface of
/// link type 105, named `a`, that captures 3 bytes of a packet, up to the resolution of its times.
const BEGUN: &[u8] = &[
    0x0a, 0x0d, 0x0d, 0x0a, 28, 0, 0, 0, 0x4d, 0x3c, 0x2b, 0x1a, 1, 0, 0, 0, 0xff, 0xff, 0xff,
    0xff, 0xff, 0xff, 0xff, 0xff, 28, 0, 0, 0, 1, 0, 0, 0, 40, 0, 0, 0, 105, 0, 0, 0, 3, 0, 0, 0,
    2, 0, 1, 0, b'a', 0, 0, 0, 9, 0, 1, 0,
];

/// The rest of the interface; a block of type 5, which isn't read; a packet of two bytes on interface 0, at time 2^32
/// + 2 in its units; and a simple packet of three bytes.
const ENDED: &[u8] = &[
    0, 0, 0, 0, 0, 0, 0, 40, 0, 0, 0, 5, 0, 0, 0, 12, 0, 0, 0, 12, 0, 0, 0, 6, 0, 0, 0, 36, 0, 0,
    0, 0, 0, 0, 0, 1, 0, 0, 0, 2, 0, 0, 0, 2, 0, 0, 0, 2, 0, 0, 0, 0xaa, 0xbb, 0, 0, 36, 0, 0, 0,
    3, 0, 0, 0, 20, 0, 0, 0, 3, 0, 0, 0, 0xcc, 0xdd, 0xee, 0, 20, 0, 0, 0,
];

/// A section with an interface of this resolution, and two packets.
fn section(rt: &impl Abort, alloc: Global, resolution: u8) -> Vec<u8> {
    let resolution = [resolution];
    joined(rt, alloc, &[BEGUN, &resolution, ENDED])
}

/// A header with big-endian numbers, nanoseconds and link type 127, and four packets with radiotap headers.
const RADIOTAP: &[u8] = &[
    0xa1, 0xb2, 0x3c, 0x4d, 0, 2, 0, 4, 0, 0, 0, 0, 0, 0, 0, 0, 0, 4, 0, 0, 0, 0, 0, 127,
    // The time at 8, the flags at 16, and a frame of one byte before its check sequence.
    0, 0, 0, 1, 0, 0, 0, 9, 0, 0, 0, 22, 0, 0, 0, 22, 0, 0, 17, 0, 3, 0, 0, 0, 0, 0, 0, 0, 0, 0, 0,
    0, 0x10, 0x48, 1, 2, 3, 4,
    // No time, two present words, the flags at 12 without a check sequence.
    0, 0, 0, 1, 0, 0, 0, 9, 0, 0, 0, 14, 0, 0, 0, 14, 0, 0, 13, 0, 2, 0, 0, 0x80, 0, 0, 0, 0, 0,
    0x49,
    // Flags that say that the check sequence is wrong.
    0, 0, 0, 1, 0, 0, 0, 9, 0, 0, 0, 14, 0, 0, 0, 14, 0, 0, 9, 0, 2, 0, 0, 0, 0x50, 0x4a, 1, 2, 3,
    4,
    // A header that is longer than the packet.
    0, 0, 0, 1, 0, 0, 0, 9, 0, 0, 0, 8, 0, 0, 0, 8, 0, 0, 9, 0, 0, 0, 0, 0,
];

const IN_RADIOTAP: &[Packet<'_>] = &[
    Packet {
        time: Some(1_000_000_009),
        frame: Ok(&[0x48]),
    },
    Packet {
        time: Some(1_000_000_009),
        frame: Ok(&[0x49]),
    },
    Packet {
        time: Some(1_000_000_009),
        frame: Err(LeftOut::WrongCheckSequence),
    },
    Packet {
        time: Some(1_000_000_009),
        frame: Err(LeftOut::Radiotap),
    },
];

/// Two sections.
const SECTIONS: &[u8] = &[
    // The one above, in nanoseconds.
    0x0a, 0x0d, 0x0d, 0x0a, 28, 0, 0, 0, 0x4d, 0x3c, 0x2b, 0x1a, 1, 0, 0, 0, 0xff, 0xff, 0xff,
    0xff, 0xff, 0xff, 0xff, 0xff, 28, 0, 0, 0, 1, 0, 0, 0, 40, 0, 0, 0, 105, 0, 0, 0, 3, 0, 0, 0,
    2, 0, 1, 0, b'a', 0, 0, 0, 9, 0, 1, 0, 9, 0, 0, 0, 0, 0, 0, 0, 40, 0, 0, 0, 5, 0, 0, 0, 12, 0,
    0, 0, 12, 0, 0, 0, 6, 0, 0, 0, 36, 0, 0, 0, 0, 0, 0, 0, 1, 0, 0, 0, 2, 0, 0, 0, 2, 0, 0, 0, 2,
    0, 0, 0, 0xaa, 0xbb, 0, 0, 36, 0, 0, 0, 3, 0, 0, 0, 20, 0, 0, 0, 3, 0, 0, 0, 0xcc, 0xdd, 0xee,
    0, 20, 0, 0, 0,
    // Big-endian numbers and version 1.2.
    0x0a, 0x0d, 0x0d, 0x0a, 0, 0, 0, 28, 0x1a, 0x2b, 0x3c, 0x4d, 0, 1, 0, 2, 0xff, 0xff, 0xff,
    0xff, 0xff, 0xff, 0xff, 0xff, 0, 0, 0, 28,
    // An interface of link type 127 in microseconds.
    0, 0, 0, 1, 0, 0, 0, 20, 0, 127, 0, 0, 0, 0, 0, 0, 0, 0, 0, 20,
    // A packet on it whose radiotap header is cut.
    0, 0, 0, 6, 0, 0, 0, 36, 0, 0, 0, 0, 0, 0, 0, 0, 0, 0, 0, 7, 0, 0, 0, 1, 0, 0, 0, 1, 0, 0, 0,
    0, 0, 0, 0, 36,
];

const IN_SECTIONS: &[Packet<'_>] = &[
    Packet {
        time: Some(4_294_967_298),
        frame: Ok(&[0xaa, 0xbb]),
    },
    Packet {
        time: None,
        frame: Ok(&[0xcc, 0xdd, 0xee]),
    },
    Packet {
        time: Some(7_000),
        frame: Err(LeftOut::Radiotap),
    },
];

/// Captures, and their packets.
static READ: &[(&[u8], &[Packet<'_>])] = &[
    // check sequences are taken off
    (RADIOTAP, IN_RADIOTAP),
    // sections have their own byte order
    (SECTIONS, IN_SECTIONS),
];

#[test]
fn captures_made_by_hand_are_read(rt: HostRuntime) {
    for (file, packets) in READ {
        reads(&rt, rt.alloc(), file, packets);
    }
}

/// Resolutions, and the time of the first packet in nanoseconds: the units are seconds, 100 ns, tenths of a
/// nanosecond, 2^-10 s and 2^-63 s.
static RESOLUTIONS: &[(u8, u64)] = &[
    (0, 4_294_967_298_000_000_000),
    (7, 429_496_729_800),
    (10, 429_496_729),
    (0x8a, 4_194_304_001_953_125),
    (0xbf, 0),
];

#[test]
fn times_are_of_any_resolution(rt: HostRuntime) {
    let alloc = rt.alloc();
    for (resolution, time) in RESOLUTIONS {
        let file = section(&rt, alloc, *resolution);
        let wanted = [
            Packet {
                time: Some(*time),
                frame: Ok(&[0xaa, 0xbb]),
            },
            Packet {
                time: None,
                frame: Ok(&[0xcc, 0xdd, 0xee]),
            },
        ];
        reads(&rt, alloc, file.as_slice(), &wanted);
    }
}

/// The fault of a file; `None` if it is read.
fn fault_of(alloc: Global, file: &[u8]) -> Option<CaptureFault> {
    read_capture(alloc, file).err()
}

/// Where each block of a section begins, and its end.
static STARTS: &[usize] = &[0, 28, 68, 80, 116, 136];

/// The fault of a section cut at this length: that of the cut block, or `None` between blocks.
fn fault_of_cut(len: usize) -> Option<CaptureFault> {
    let mut last = 0;
    for start in STARTS {
        if *start <= len {
            last = *start;
        }
    }
    if last == len {
        None
    } else {
        Some(CaptureFault::CutBlock(last as u64))
    }
}

#[test]
fn cut_blocks_are_refused(rt: HostRuntime) {
    let alloc = rt.alloc();
    let file = section(&rt, alloc, 6);
    for len in 4..file.len() {
        let fault = fault_of(alloc, &file[..len]);
        same(&rt, (len, fault), (len, fault_of_cut(len)), "the fault");
    }
}

/// Packets of all sides. One has this many bytes, and one all but the first.
fn packets_of<'a>(long: &'a [u8], rest: &'a [u8]) -> [NewPacket<'a>; 4] {
    [
        NewPacket {
            side: Side::Out,
            time: u64::MAX,
            bytes: &[1, 2, 3],
            comment: b"line 1",
        },
        NewPacket {
            side: Side::Up,
            time: 7,
            bytes: &[4],
            comment: b"",
        },
        NewPacket {
            side: Side::In,
            time: 8,
            bytes: long,
            comment: b"long",
        },
        NewPacket {
            side: Side::In,
            time: 9,
            bytes: rest,
            comment: long,
        },
    ]
}

/// Fails if a capture of such packets isn't read. The longest packet is cut.
fn are_read_back(rt: &impl Abort, alloc: Global, long: &[u8]) {
    let rest = long.get(1..).unwrap_or(long);
    let file = write_capture(alloc, &packets_of(long, rest)).ok();
    let file = file.expect(rt, "memory");
    let wanted = [
        Packet {
            time: Some(u64::MAX),
            frame: Ok(&[1, 2, 3]),
        },
        Packet {
            time: Some(7),
            frame: Err(LeftOut::LinkType(1)),
        },
        Packet {
            time: Some(8),
            frame: Err(LeftOut::Cut),
        },
        Packet {
            time: Some(9),
            frame: Ok(rest),
        },
    ];
    reads(rt, alloc, file.as_slice(), &wanted);
}

#[test]
fn a_written_capture_is_read(rt: HostRuntime) {
    let long = [8u8].repeat(rt.alloc(), 262_145).expect(&rt, "memory");
    are_read_back(&rt, rt.alloc(), long.as_slice());
}
