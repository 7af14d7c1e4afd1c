//! The numbers of faults, and what is said of those of code.

use crate::tests::same::same;
use bpf_decode::{DecodeFault, SlotFault, jump_target};
use bpf_insn::FieldFault;
use bpf_rules::Fault;
use std::alloc::Global;
use std::process::Abort;

/// A fault has this number and this text.
fn is_told(rt: &impl Abort, alloc: Global, row: &(DecodeFault, u8, &str)) {
    let (fault, number, text) = row;
    same(rt, fault.number(), *number, "fault");
    let told = fault.to_string(alloc).expect(rt, "memory");
    same(rt, told.as_str(), *text, "told");
    drop(told);
}

static DECODING: &[(DecodeFault, u8, &str)] = &[
    (DecodeFault::Length, 1, "fault 1 at 0"),
    (DecodeFault::Empty, 2, "fault 2 at 0"),
    (DecodeFault::Long, 3, "fault 3 at 0"),
    (
        DecodeFault::At {
            slot: 7,
            fault: SlotFault::Field(FieldFault::UnusedSet),
        },
        12,
        "fault 12 at 7",
    ),
    (
        DecodeFault::At {
            slot: 16383,
            fault: SlotFault::UnknownMap,
        },
        19,
        "fault 19 at 16383",
    ),
    (DecodeFault::NoMemory, 40, "out of memory"),
];

/// Faults of runs.
static RUNNING: &[(Fault, u8)] = &[
    (Fault::Unset, 30),
    (Fault::WrongOperand, 31),
    (Fault::OutsideRegion, 32),
    (Fault::Misaligned, 33),
    (Fault::NotTested, 34),
    (Fault::TooManyFrames, 35),
    (Fault::TooManyVisits, 36),
    (Fault::StackPointerStored, 37),
    (Fault::NoResult, 38),
    (Fault::NoMemory, 40),
];

#[test]
fn faults_have_numbers_and_a_text(rt: HostRuntime) {
    for row in DECODING {
        is_told(&rt, rt.alloc(), row);
    }
    for (fault, number) in RUNNING {
        same(&rt, fault.number(), *number, "fault");
    }
    let targets = [jump_target(3, 2), jump_target(3, -4), jump_target(3, -5)];
    same(&rt, targets, [Some(6), Some(0), None], "jump target");
}
