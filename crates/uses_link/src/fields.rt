//! Fields of independently spelled frames.

use crate::same::same;
use mac_types::*;
use std::alloc::Global;
use std::fmt::Display;
use std::process::Abort;

/// A value is displayed as this text.
fn shows<T: Display + Copy>(rt: &impl Abort, alloc: Global, value: T, text: &str) {
    let shown = value.to_string(alloc).expect(rt, "memory");
    same(rt, shown.as_str(), text, "shown");
}

#[test]
fn values_are_shown(rt: HostRuntime) {
    let alloc = rt.alloc();
    shows(
        &rt,
        alloc,
        Address::new([2, 0, 0, 0, 0, 10]),
        "02000000000a",
    );
    shows(&rt, alloc, Tid::new(7).expect(&rt, "a TID"), "7");
    shows(&rt, alloc, BufferSize::new(64).expect(&rt, "a size"), "64");
    let number = SequenceNumber::from_control(0xffe0);
    shows(&rt, alloc, number.expect(&rt, "a number"), "4094");
    shows(&rt, alloc, Reason::END_BA, "37");
    shows(&rt, alloc, Reason::TIMEOUT, "39");
    shows(&rt, alloc, Status::TRANSACTION_SEQUENCE_ERROR, "14");
    shows(&rt, alloc, AidField::granted(2), "2");
}

/// What is read from a number.
#[derive(Clone, Copy)]
enum Field {
    Tid,
    Size,
    SequenceNumber,
    SequenceControl,
    Flags,
    FlagsToDs,
    QosControl,
    BlockAckParameters,
    DelbaParameters,
    BlockAckControl,
}

/// Names, and numbers with whether they are valid.
static FIELDS: &[(&str, Field, u16, bool)] = &[
    ("a TID", Field::Tid, 7, true),
    ("a TID", Field::Tid, 8, false),
    ("a buffer size", Field::Size, 64, true),
    ("a buffer size", Field::Size, 1024, false),
    ("a sequence number", Field::SequenceNumber, 0, true),
    ("a sequence number", Field::SequenceNumber, 4096, false),
    (
        "a Sequence Control field",
        Field::SequenceControl,
        0xffe0,
        true,
    ),
    (
        "a Sequence Control field",
        Field::SequenceControl,
        0xffe1,
        false,
    ),
    ("flags with To DS", Field::FlagsToDs, 0x39, true),
    ("flags without To DS", Field::Flags, 0, true),
    ("flags without To DS", Field::Flags, 0x01, false),
    ("flags without To DS", Field::Flags, 0x02, false),
    ("flags without To DS", Field::Flags, 0x04, false),
    ("flags without To DS", Field::Flags, 0x40, false),
    ("flags without To DS", Field::Flags, 0x80, false),
    ("a QoS Control field", Field::QosControl, 0xfe72, true),
    ("a QoS Control field", Field::QosControl, 0x0008, false),
    ("a QoS Control field", Field::QosControl, 0x0080, false),
    (
        "the parameters of an agreement",
        Field::BlockAckParameters,
        0x0102,
        true,
    ),
    (
        "the parameters of an agreement",
        Field::BlockAckParameters,
        0x0020,
        false,
    ),
    (
        "the parameters of an end",
        Field::DelbaParameters,
        0x5800,
        true,
    ),
    (
        "the parameters of an end",
        Field::DelbaParameters,
        0x5801,
        false,
    ),
    (
        "a control of a block ack",
        Field::BlockAckControl,
        0x1004,
        true,
    ),
    (
        "a control of a block ack",
        Field::BlockAckControl,
        0x1000,
        false,
    ),
    (
        "a control of a block ack",
        Field::BlockAckControl,
        0x8004,
        false,
    ),
];

/// What the flags spell, if they may be set in a frame with this To DS.
fn flags_again(octet: u16, to_ds: bool) -> Option<u16> {
    let octet = u8::try_from(octet).ok()?;
    let flags = FrameFlags::from_octet(octet, to_ds)?;
    Some(u16::from(flags.octet(to_ds)))
}

/// What is spelled again by what is read from a number, if it is valid.
fn again(field: Field, number: u16) -> Option<u16> {
    let low = u8::try_from(number).unwrap_or(u8::MAX);
    match field {
        Field::Tid => Some(u16::from(Tid::new(low)?.number())),
        Field::Size => Some(BufferSize::new(number)?.number()),
        Field::SequenceNumber => Some(SequenceNumber::new(number)?.number()),
        Field::SequenceControl => Some(SequenceNumber::from_control(number)?.control()),
        Field::Flags => flags_again(number, false),
        Field::FlagsToDs => flags_again(number, true),
        Field::QosControl => Some(QosControl::from_field(number)?.field()),
        Field::BlockAckParameters => Some(BlockAckParameters::from_field(number)?.field()),
        Field::DelbaParameters => Some(DelbaParameters::from_field(number)?.field()),
        Field::BlockAckControl => Some(Tid::from_block_ack_control(number)?.block_ack_control()),
    }
}

#[test]
fn valid_fields_are_read_and_spelled_again(rt: HostRuntime) {
    for (what, field, number, is_valid) in FIELDS {
        let wanted = if *is_valid { Some(*number) } else { None };
        let found = again(*field, *number);
        same(&rt, (*number, found), (*number, wanted), what);
    }
}

#[test]
fn fields_have_their_parts(rt: HostRuntime) {
    let station = Address::new([0x02, 0, 0, 0, 0, 0x0a]);
    let group = Address::new([0x33, 0x33, 0, 0, 0, 1]);
    let later = Address::new([2, 0, 0, 0, 1, 0]) > station;
    let found = (
        station.octets(),
        station.is_group(),
        group.is_group(),
        later,
    );
    same(
        &rt,
        found,
        ([2, 0, 0, 0, 0, 10], false, true, true),
        "addresses",
    );
    let number = SequenceNumber::from_control(0xffe0).expect(&rt, "a number");
    let found = (number.number(), SequenceNumber::ZERO.number());
    same(&rt, found, (4094, 0), "sequence numbers");
    let flags = FrameFlags::from_octet(0x39, true).expect(&rt, "flags");
    let found = (flags.retry, flags.power_management, flags.more_data);
    same(&rt, found, (true, true, true), "flags");
    same(&rt, FrameFlags::NONE.octet(false), 0, "no flags");
    let tid = Tid::from_block_ack_control(0x1004).expect(&rt, "a control");
    same(&rt, tid.number(), 1, "the TID of a block ack");
}

#[test]
fn controls_and_parameters_have_their_parts(rt: HostRuntime) {
    let five = Tid::new(5).expect(&rt, "a TID");
    let qos = QosControl {
        tid: Tid::new(2).expect(&rt, "a TID"),
        end_of_service_period: true,
        ack_policy: AckPolicy::BlockAck,
        upper: 0xfe,
    };
    same(&rt, QosControl::from_field(0xfe72), Some(qos), "QoS");
    let asked = BlockAckParameters::from_field(0x0102).expect(&rt, "parameters");
    let size = BufferSize::new(4).expect(&rt, "a size");
    let wanted = BlockAckParameters::immediate(asked.tid, size);
    same(&rt, asked, wanted, "an agreement");
    let end = DelbaParameters {
        initiator: true,
        tid: five,
    };
    same(
        &rt,
        DelbaParameters::from_field(0x5800),
        Some(end),
        "an end",
    );
}

#[test]
fn codes_have_their_numbers(rt: HostRuntime) {
    let found = [
        Reason::TIMEOUT.code(),
        Reason::END_BA.code(),
        Reason::INVALID_CLASS2_FRAME.code(),
        Reason::INVALID_CLASS3_FRAME.code(),
        Status::UNSUPPORTED_AUTH_ALGORITHM.code(),
        Status::SUCCESS.code(),
        Status::DENIED_NO_MORE_STAS.code(),
        Status::REQUEST_DECLINED.code(),
    ];
    same(&rt, found, [39, 37, 6, 7, 13, 0, 17, 37], "codes");
    let named = (Reason::new(7), Status::new(17));
    let wanted = (Reason::INVALID_CLASS3_FRAME, Status::DENIED_NO_MORE_STAS);
    same(&rt, named, wanted, "names");
}

#[test]
fn fields_have_their_meaning(rt: HostRuntime) {
    let (granted, other) = (AidField::granted(2), AidField::new(0xc7d7));
    let fields = (
        Capability::new(0x0431).field(),
        granted.field(),
        other.identifier(),
    );
    same(&rt, fields, (0x431, 0xc002, 2007), "fields");
    let successes = (
        Status::SUCCESS.is_success(),
        Status::REQUEST_DECLINED.is_success(),
    );
    same(&rt, successes, (true, false), "is success");
    let (infrastructure, all_but_it) = (Capability::ESS, Capability::new(0xfffe));
    same(
        &rt,
        (infrastructure.is_ess(), all_but_it.is_ess()),
        (true, false),
        "is ESS",
    );
}

#[test]
fn law_is_called() {
    fields_are_spelled();
}
