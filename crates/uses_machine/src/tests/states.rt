//! The entry state, changes of a copy, calls and returns, labels, and inclusion.

use crate::tests::abstract_values::Slot::{Bytes, Stored};
use crate::tests::abstract_values::Val::{
    AnyNumber, Anywhere, Behind, FrameEnd, FrameStart, One, Pointer, Unset,
};
use crate::tests::abstract_values::{Slot, Val, slot_of, value};
use crate::tests::same::{holds, same};
use bpf_absnum::AbsNum;
use bpf_absstate::AbsState;
use bpf_absval::{AbsRegion, AbsVal};
use bpf_insn::Reg;
use std::alloc::Global;
use std::process::Abort;

/// What is done to a state, or holds of it.
enum Step {
    /// A copy of it is the next state.
    Copied,
    /// Whether it is included in that state, and that one in it.
    Within(usize, (bool, bool)),
    /// Each of R0 to R9 holds its own number.
    Numbered,
    Register(usize, Val),
    /// A slot of a function's stack.
    Put(usize, usize, Slot),
    Room(u16, u16),
    Least(u16),
    GoTo(usize),
    /// A function at this slot is called from before that slot and those that follow it, so often, up to 8 functions.
    Called(usize, u16, u16),
    Returned,
    Forget(u16),
    /// As after a helper.
    ArgumentsCleared,
    /// Its slot, depth and least length.
    At(usize, usize, u16),
    /// The registers from R0 on hold these.
    Registers(&'static [Val]),
    Has(usize, Val),
    HasSlot(usize, usize, Slot),
    HasRoom(u16, Option<u16>),
}

use Step::{
    ArgumentsCleared, At, Called, Copied, Forget, GoTo, Has, HasRoom, HasSlot, Least, Numbered,
    Put, Register, Registers, Returned, Room, Within,
};

/// The number of a state, and a step.
type Line = (usize, Step);

fn set(rt: &impl Abort, state: &mut AbsState, register: usize, value: AbsVal) {
    let register = Reg::new(register.min(10) as u8);
    state.set_register(register, value).expect(rt, "memory");
}

fn number_registers(rt: &impl Abort, state: &mut AbsState) {
    for register in 0..10 {
        let number = AbsNum::single(register as u64);
        set(rt, state, register, AbsVal::Number(number));
    }
}

fn call(rt: &impl Abort, alloc: Global, state: &mut AbsState, to: usize, back: u16) {
    if state.depth() < 8 {
        state.call(alloc, to, back).expect(rt, "memory");
    }
}

/// Changes a state.
fn changes(rt: &impl Abort, alloc: Global, state: &mut AbsState, step: &Step) {
    match step {
        Numbered => number_registers(rt, state),
        Register(register, val) => set(rt, state, *register, value(val)),
        Put(function, index, slot) => {
            if *function < state.depth() {
                let put = state.set_slot(*function, *index % 64, slot_of(slot));
                put.expect(rt, "memory");
            }
        }
        Room(label, size) => state.raise_room(*label, *size).expect(rt, "memory"),
        Least(length) => state.raise_least(*length),
        GoTo(pc) => state.go_to(*pc),
        Called(to, back, times) => {
            for time in 0..*times {
                call(rt, alloc, state, *to, back.saturating_add(time));
            }
        }
        Returned => {
            if state.depth() > 1 {
                state.return_to_caller().expect(rt, "memory");
            }
        }
        Forget(label) => state.forget_label(alloc, *label).expect(rt, "memory"),
        ArgumentsCleared => state.clear_arguments().expect(rt, "memory"),
        _ => {}
    }
}

fn register_has(rt: &impl Abort, state: &AbsState, register: usize, val: &Val, name: &str) {
    let found = state.register(Reg::new(register.min(10) as u8));
    same(rt, (register, found), (register, value(val)), name);
}

/// Looks at a state.
fn looks(rt: &impl Abort, state: &AbsState, step: &Step, name: &str) {
    match step {
        At(pc, depth, least) => {
            let found = (state.pc(), state.depth(), state.least());
            same(rt, found, (*pc, *depth, *least), name);
        }
        Registers(wanted) => {
            for (register, val) in wanted.iter().enumerate() {
                register_has(rt, state, register, val, name);
            }
        }
        Has(register, val) => register_has(rt, state, *register, val, name),
        HasSlot(function, index, wanted) => {
            holds(rt, *function < state.depth(), name);
            if *function < state.depth() {
                let found = state.slot(*function, *index % 64);
                same(rt, (*index, found), (*index, slot_of(wanted)), name);
            }
        }
        HasRoom(label, wanted) => {
            same(rt, (*label, state.room(*label)), (*label, *wanted), name);
        }
        _ => {}
    }
}

/// Takes a step at one of the states.
fn steps(rt: &impl Abort, alloc: Global, states: &mut Vec<AbsState>, line: &Line, name: &str) {
    let (at, step) = line;
    match step {
        Copied => {
            let one = states.get(*at).expect(rt, "a state");
            let copy = one.clone().expect(rt, "memory");
            states.push(copy).ok().expect(rt, "memory");
        }
        Within(other, wanted) => {
            let one = states.get(*at).expect(rt, "a state");
            let two = states.get(*other).expect(rt, "a state");
            let found = (one.is_included(two), two.is_included(one));
            same(rt, (*at, *other, found), (*at, *other, *wanted), name);
        }
        _ => {
            changes(rt, alloc, states.get_mut(*at).expect(rt, "a state"), step);
            looks(rt, states.get(*at).expect(rt, "a state"), step, name);
        }
    }
}

/// Begins with the entry state, and takes each step.
fn are_taken(rt: &impl Abort, alloc: Global, begun: &[Line], lines: &[Line], name: &str) {
    let mut states = Vec::new(alloc);
    let entry = AbsState::entry(alloc).expect(rt, "memory");
    states.push(entry).ok().expect(rt, "memory");
    for line in begun {
        steps(rt, alloc, &mut states, line, name);
    }
    for line in lines {
        steps(rt, alloc, &mut states, line, name);
    }
    drop(states);
}

/// A state in a called function, with numbers in R0 to R9 of both functions and in a stack slot of each.
const IN_A_CALL: &[Line] = &[
    (0, Numbered),
    (0, Put(0, 5, Stored(One(50)))),
    (0, Called(40, 3, 1)),
    (0, Put(1, 5, Stored(One(51)))),
];

/// In a call: R1, R6 and a slot after label 8, and R7 after label 9, each label with 5 bytes known to follow.
const LABELLED: &[Line] = &[
    (0, Put(0, 2, Stored(BEHIND_8))),
    (0, Register(1, BEHIND_8)),
    (0, Register(6, BEHIND_8)),
    (0, Register(7, BEHIND_9)),
    (0, Room(8, 5)),
    (0, Room(9, 5)),
    (0, Called(40, 3, 1)),
];

/// A frame pointer at some offset, 3 bytes after label 8's position, and label 9's.
const BEHIND_8: Val = Behind(8, 3);

const BEHIND_9: Val = Behind(9, 3);

const NO_SLOT: Slot = Slot::Unset;

/// What is told of states: how it begins, and how it goes on.
static STORIES: &[(&str, &[Line], &[Line])] = &[
    (
        "a run begins with its frame and context",
        &[],
        &[
            (0, At(0, 1, 0)),
            (
                0,
                Registers(&[
                    Unset,
                    FrameStart,
                    FrameEnd,
                    Pointer(AbsRegion::Context, 0),
                    Unset,
                    Unset,
                    Unset,
                    Unset,
                    Unset,
                    Unset,
                    Pointer(AbsRegion::Stack(0), 512),
                ]),
            ),
            (0, HasSlot(0, 0, NO_SLOT)),
            (0, HasSlot(0, 63, NO_SLOT)),
        ],
    ),
    (
        "a copy changes its registers and slots alone",
        &[],
        &[
            (0, Copied),
            (1, Register(0, One(7))),
            (1, Put(0, 63, Stored(One(8)))),
            (1, Has(0, One(7))),
            (0, Has(0, Unset)),
            (1, HasSlot(0, 63, Stored(One(8)))),
            (0, HasSlot(0, 63, NO_SLOT)),
            (1, HasSlot(0, 62, NO_SLOT)),
        ],
    ),
    (
        "a copy goes on alone",
        &[],
        &[
            (0, Copied),
            (1, Room(5, 9)),
            (1, Least(24)),
            (1, Least(20)),
            (1, GoTo(6)),
            (1, At(6, 1, 24)),
            (1, HasRoom(5, Some(9))),
            (0, At(0, 1, 0)),
            (0, HasRoom(5, None)),
        ],
    ),
    (
        "arguments are unset after a helper",
        &[],
        &[
            (0, Numbered),
            (0, ArgumentsCleared),
            (
                0,
                Registers(&[One(0), Unset, Unset, Unset, Unset, Unset, One(6)]),
            ),
        ],
    ),
    (
        "a called function has the arguments alone, and each function has a stack",
        IN_A_CALL,
        &[
            (0, At(40, 2, 0)),
            (
                0,
                Registers(&[
                    Unset,
                    One(1),
                    One(2),
                    One(3),
                    One(4),
                    One(5),
                    Unset,
                    Unset,
                    Unset,
                    Unset,
                    Pointer(AbsRegion::Stack(1), 512),
                ]),
            ),
            (0, HasSlot(0, 5, Stored(One(50)))),
            (0, HasSlot(1, 5, Stored(One(51)))),
            (0, HasSlot(0, 4, NO_SLOT)),
            (0, HasSlot(1, 4, NO_SLOT)),
        ],
    ),
    (
        "a caller goes on with what it kept",
        IN_A_CALL,
        &[
            (0, Register(0, One(99))),
            (0, Register(6, One(66))),
            (0, Returned),
            (0, At(3, 1, 0)),
            (
                0,
                Registers(&[
                    One(99),
                    Unset,
                    Unset,
                    Unset,
                    Unset,
                    Unset,
                    One(6),
                    One(7),
                    One(8),
                    One(9),
                    Pointer(AbsRegion::Stack(0), 512),
                ]),
            ),
            (0, HasSlot(0, 5, Stored(One(50)))),
        ],
    ),
    (
        "eight functions are called",
        &[],
        &[
            (0, Called(7, 0, 20)),
            (0, At(7, 8, 0)),
            (0, Has(10, Pointer(AbsRegion::Stack(7), 512))),
        ],
    ),
    (
        "a label is forgotten everywhere",
        LABELLED,
        &[
            (0, Forget(8)),
            (0, Has(1, Anywhere)),
            (0, HasRoom(8, None)),
            (0, HasRoom(9, Some(5))),
            (0, HasSlot(0, 2, Stored(Anywhere))),
            (0, Returned),
            (0, Has(6, Anywhere)),
            (0, Has(7, BEHIND_9)),
        ],
    ),
    (
        "a label is made anew in each call",
        LABELLED,
        &[
            (0, Forget(8)),
            (0, Register(6, BEHIND_8)),
            (0, Called(50, 41, 1)),
            (0, Copied),
            (0, Forget(9)),
            (0, Copied),
            (1, Within(2, (true, false))),
            (2, Returned),
            (2, Has(6, BEHIND_8)),
            (2, Returned),
            (2, Has(6, Anywhere)),
            (2, Has(7, Anywhere)),
            (0, Forget(8)),
            (0, Copied),
            (3, Returned),
            (3, Has(6, Anywhere)),
            (3, Returned),
            (3, Has(6, Anywhere)),
            (3, Has(7, Anywhere)),
            (1, Returned),
            (1, Returned),
            (1, Has(7, BEHIND_9)),
        ],
    ),
    // equal, wider, further, elsewhere, deeper
    (
        "what may be more includes",
        IN_A_CALL,
        &[
            (0, Copied),
            (0, Within(1, (true, true))),
            (0, Copied),
            (2, Register(1, AnyNumber)),
            (0, Within(2, (true, false))),
            (0, Copied),
            (3, Least(1)),
            (0, Within(3, (false, true))),
            (0, Copied),
            (4, GoTo(41)),
            (0, Within(4, (false, false))),
            (0, Copied),
            (5, Called(40, 3, 1)),
            (0, Within(5, (false, false))),
        ],
    ),
    (
        "the stacks of callers count",
        IN_A_CALL,
        &[
            (0, Copied),
            (1, Put(0, 5, Bytes(255))),
            (0, Within(1, (true, false))),
        ],
    ),
    (
        "a room counts where its label is carried",
        &[],
        &[
            (0, Register(4, BEHIND_8)),
            (0, Copied),
            (1, Room(8, 5)),
            (1, Within(0, (true, false))),
            (1, Room(9, 5)),
            (0, Room(8, 6)),
            (0, Within(1, (true, false))),
        ],
    ),
];

#[test]
fn states_change_and_are_compared(rt: HostRuntime) {
    for (name, begun, lines) in STORIES {
        are_taken(&rt, rt.alloc(), begun, lines, name);
    }
}
