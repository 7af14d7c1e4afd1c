//! A certificate that is made of its entries.

use crate::tests::abstract_values::{Val, value};
use crate::tests::same::same;
use crate::tests::small::BY_HAND;
use bpf_absval::AbsVal;
use bpf_cert_format::frame::Registers;
use bpf_cert_format::{Certificate, Entry, Frame, Leaf, Slots, write};
use bpf_regions::Hook;
use std::alloc::Global;
use std::process::Abort;

/// Two branches that join at slot 3, with different numbers in R0. From there one is shorter than the other: call 4;
/// jgt r0, 7, +1; mov r0, 0; jeq r0, 0, +3; mov r0, 1; mov r0, 1; mov r0, 1; exit.
const CODE: [u8; 64] = [
    0x85, 0, 0, 0, 4, 0, 0, 0, 0x25, 0, 1, 0, 7, 0, 0, 0, 0xb7, 0, 0, 0, 0, 0, 0, 0, 0x15, 0, 3, 0,
    0, 0, 0, 0, 0xb7, 0, 0, 0, 1, 0, 0, 0, 0xb7, 0, 0, 0, 1, 0, 0, 0, 0xb7, 0, 0, 0, 1, 0, 0, 0,
    0x95, 0, 0, 0, 0, 0, 0, 0,
];

/// Entries: the slot, the budget, and what R0 holds in the main function. One for the start, one for
/// both branches, and one for their ends. For all numbers in R0 the longer branch is possible, so the
/// budget is one above the verified one.
static ENTRIES: &[(u16, u32, Val)] = &[
    (0, 8, Val::Unset),
    (3, 5, Val::AnyNumber),
    (7, 1, Val::AnyNumber),
];

/// Adds an entry for all states at a slot in the main function in which R0 holds a value.
fn add(rt: &impl Abort, alloc: Global, entries: &mut Vec<Leaf>, row: &(u16, u32, Val)) {
    let (pc, budget, first) = row;
    let mut values = [AbsVal::Unset; 10];
    values[0] = value(first);
    let mut frames = Vec::new(alloc);
    let frame = Frame {
        return_slot: 0,
        registers: Registers::new(values),
        stack: Slots::unset(alloc),
    };
    frames.push(frame).ok().expect(rt, "memory");
    let entry = Entry::new(*pc, *budget, 0, Vec::new(alloc), frames);
    entries.push(Leaf::read(entry)).ok().expect(rt, "memory");
}

#[test]
fn a_certificate_is_made_of_its_entries(rt: HostRuntime) {
    let alloc = rt.alloc();
    let mut entries = Vec::new(alloc);
    for row in ENTRIES {
        add(&rt, alloc, &mut entries, row);
    }
    let code = Vec::from_slice(alloc, &CODE).expect(&rt, "memory");
    let certificate = Certificate::new(Hook::Data, code, entries);
    let written = write(alloc, &certificate).ok();
    drop(certificate);
    let written = written.expect(&rt, "it is written");
    same(&rt, written.as_slice(), BY_HAND.as_slice(), "written");
    drop(written);
}
