//! The known part of a call frame's stack.

use crate::tests::abstract_values::Slot::{Bytes, Stored, Unset};
use crate::tests::abstract_values::Val::{Anywhere, Behind, One};
use crate::tests::abstract_values::{Slot, Val, slot_of, value};
use crate::tests::same::same;
use bpf_absnum::AbsNum;
use bpf_absval::{AbsSlot, AbsVal, Rooms};
use bpf_stack::Stack;
use std::alloc::Global;
use std::process::Abort;

/// What is done to a stack, or holds of it.
enum Step {
    /// A copy of it is the next stack.
    Copied,
    /// Each slot holds the number of its index.
    Numbered,
    Put(usize, Slot),
    Forget(u16),
    /// A slot holds this.
    Has(usize, Slot),
    /// Slots 0, 31 and 63 hold these.
    HasThree(Val, Val, Val),
    /// Each slot holds the number of its index, but this one, which holds three bytes at most.
    IsNumberedBut(usize, Slot),
    /// Whether it is included in that stack, and that one in it.
    Within(usize, (bool, bool)),
}

use Step::{Copied, Forget, Has, HasThree, IsNumberedBut, Numbered, Put, Within};

/// The number of a stack, and a step.
type Line = (usize, Step);

fn number(index: usize) -> AbsSlot {
    AbsSlot::Stored(AbsVal::Number(AbsNum::single(index as u64)))
}

fn number_slots(rt: &impl Abort, stack: &mut Stack) {
    for index in 0..64 {
        stack.set(index, number(index)).expect(rt, "memory");
    }
}

fn holds_numbers(rt: &impl Abort, stack: &Stack, but: usize, other: AbsSlot, name: &str) {
    for index in 0..64 {
        let wanted = if index == but { other } else { number(index) };
        same(rt, (index, stack.get(index)), (index, wanted), name);
    }
}

fn stored(val: &Val) -> AbsSlot {
    AbsSlot::Stored(value(val))
}

/// Changes a stack, or looks at it.
fn changes(rt: &impl Abort, stack: &mut Stack, step: &Step, name: &str) {
    match step {
        Numbered => number_slots(rt, stack),
        Put(index, slot) => stack.set(*index % 64, slot_of(slot)).expect(rt, "memory"),
        Forget(label) => stack.forget(*label),
        Has(index, slot) => {
            let found = stack.get(*index % 64);
            same(rt, (*index, found), (*index, slot_of(slot)), name);
        }
        HasThree(first, second, third) => {
            let found = [stack.get(0), stack.get(31), stack.get(63)];
            let wanted = [stored(first), stored(second), stored(third)];
            same(rt, found, wanted, name);
        }
        IsNumberedBut(index, slot) => holds_numbers(rt, stack, *index, slot_of(slot), name),
        Copied | Within(_, _) => {}
    }
}

/// Takes a step at one of the stacks.
fn steps(rt: &impl Abort, alloc: Global, stacks: &mut Vec<Stack>, line: &Line, name: &str) {
    let (at, step) = line;
    match step {
        Copied => {
            let one = stacks.get(*at).expect(rt, "a stack");
            let copy = one.clone().expect(rt, "memory");
            stacks.push(copy).ok().expect(rt, "memory");
        }
        Within(other, wanted) => {
            let rooms = Rooms::new(alloc);
            let one = stacks.get(*at).expect(rt, "a stack");
            let two = stacks.get(*other).expect(rt, "a stack");
            let there = one.is_included(two, &rooms, &rooms);
            let back = two.is_included(one, &rooms, &rooms);
            drop(rooms);
            same(
                rt,
                (*at, *other, there, back),
                (*at, *other, wanted.0, wanted.1),
                name,
            );
        }
        _ => changes(rt, stacks.get_mut(*at).expect(rt, "a stack"), step, name),
    }
}

/// Begins with an unset stack, and takes each step.
fn are_taken(rt: &impl Abort, alloc: Global, lines: &[Line], name: &str) {
    let mut stacks = Vec::new(alloc);
    stacks.push(Stack::unset(alloc)).ok().expect(rt, "memory");
    for line in lines {
        steps(rt, alloc, &mut stacks, line, name);
    }
    drop(stacks);
}

/// A pointer one byte past the position of label 8, and of label 9.
const BEHIND_8: Val = Behind(8, 1);

const BEHIND_9: Val = Behind(9, 1);

/// What is told of stacks, the first of which is unset.
static STORIES: &[(&str, &[Line])] = &[
    (
        "a write changes one stack",
        &[
            (0, Numbered),
            (0, Copied),
            (1, Put(40, Bytes(3))),
            (0, IsNumberedBut(64, Unset)),
            (1, IsNumberedBut(40, Bytes(3))),
        ],
    ),
    (
        "what is known lies in what is not",
        &[
            (0, Copied),
            (1, Put(63, Stored(One(7)))),
            (1, Copied),
            (2, Put(0, Bytes(1))),
            (0, Copied),
            (3, Put(5, Bytes(0))),
            (0, Within(0, (true, true))),
            (1, Within(0, (true, false))),
            (2, Within(1, (true, false))),
            (0, Within(3, (true, true))),
        ],
    ),
    (
        "one label is forgotten everywhere",
        &[
            (0, Put(0, Stored(BEHIND_8))),
            (0, Put(1, Stored(BEHIND_9))),
            (0, Put(2, Stored(One(8)))),
            (0, Put(62, Stored(BEHIND_8))),
            (0, Copied),
            (0, Forget(8)),
            (1, Has(62, Stored(BEHIND_8))),
            (0, Has(0, Stored(Anywhere))),
            (0, Has(1, Stored(BEHIND_9))),
            (0, Has(2, Stored(One(8)))),
            (0, Has(30, Unset)),
            (0, Has(62, Stored(Anywhere))),
        ],
    ),
    // Label 8 was forgotten once: before it was stored again in the last of three slots, and label 9 in the second.
    (
        "labels are made in turn",
        &[
            (0, Put(0, Stored(BEHIND_8))),
            (0, Put(31, Stored(BEHIND_8))),
            (0, Forget(8)),
            (0, Put(31, Stored(BEHIND_9))),
            (0, Put(63, Stored(BEHIND_8))),
            (0, HasThree(Anywhere, BEHIND_9, BEHIND_8)),
            (0, Copied),
            (0, Forget(8)),
            (0, HasThree(Anywhere, BEHIND_9, Anywhere)),
            (0, Forget(9)),
            (0, HasThree(Anywhere, Anywhere, Anywhere)),
            (0, Put(0, Stored(BEHIND_8))),
            (0, Forget(9)),
            (0, HasThree(BEHIND_8, Anywhere, Anywhere)),
            (1, HasThree(Anywhere, BEHIND_9, BEHIND_8)),
        ],
    ),
    // The second has label 8 no more, the third stored it anew, and of that the fourth lost it.
    (
        "a forgotten label is not compared",
        &[
            (0, Put(0, Stored(BEHIND_8))),
            (0, Put(31, Stored(BEHIND_8))),
            (0, Forget(8)),
            (0, Put(31, Stored(BEHIND_9))),
            (0, Put(63, Stored(BEHIND_8))),
            (0, Copied),
            (1, Forget(8)),
            (0, Copied),
            (2, Put(0, Stored(BEHIND_8))),
            (2, Copied),
            (3, Forget(8)),
            (0, Within(0, (true, true))),
            (0, Within(1, (true, false))),
            (2, Within(0, (true, false))),
            (3, Within(1, (true, true))),
        ],
    ),
];

#[test]
fn stacks_are_written_copied_and_compared(rt: HostRuntime) {
    for (name, lines) in STORIES {
        are_taken(&rt, rt.alloc(), lines, name);
    }
}
