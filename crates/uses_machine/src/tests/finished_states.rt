//! The finished states of a program of two slots.

use crate::tests::abstract_values::Val::{AnyNumber, FrameEnd, Unset};
use crate::tests::abstract_values::{Val, value};
use crate::tests::same::same;
use bpf_absstate::AbsState;
use bpf_absval::AbsVal;
use bpf_insn::Reg;
use bpf_prune::{Entry, Finished, Work};
use std::alloc::Global;
use std::process::Abort;

/// A state at a slot, in which R0 holds a value, and R1 anything.
type At = (usize, Val);

fn state(rt: &impl Abort, alloc: Global, at: &At) -> AbsState {
    let (pc, val) = at;
    let mut state = AbsState::entry(alloc).expect(rt, "memory");
    let held = state.set_register(Reg::new(0), value(val));
    held.expect(rt, "memory");
    let unset = state.set_register(Reg::new(1), AbsVal::Unset);
    unset.expect(rt, "memory");
    state.go_to(*pc);
    state
}

/// What is done to finished states, or found in them.
enum Step {
    /// Such a state is kept with its budget, so often.
    Keep(At, u32, u32),
    /// The budget of the kept state that covers such a state.
    Covers(At, Option<u32>),
}

use Step::{Covers, Keep};

fn keep(rt: &impl Abort, alloc: Global, finished: &mut Finished, at: &At, budget: u32) {
    let state = state(rt, alloc, at);
    finished.keep(Entry { state, budget }).expect(rt, "memory");
}

fn covering(rt: &impl Abort, alloc: Global, finished: &Finished, at: &At) -> Option<u32> {
    let state = state(rt, alloc, at);
    let mut work = Work::within(u64::MAX);
    let found = finished.covering(&state, &mut work);
    drop(state);
    found.expect(rt, "work")
}

fn is_taken(rt: &impl Abort, alloc: Global, finished: &mut Finished, step: &Step) {
    match step {
        Keep(at, budget, times) => {
            for _time in 0..*times {
                keep(rt, alloc, finished, at, *budget);
            }
        }
        Covers(at, budget) => {
            let found = covering(rt, alloc, finished, at);
            same(rt, (at.0, found), (at.0, *budget), "covering");
        }
    }
}

fn are_taken(rt: &impl Abort, alloc: Global, steps: &[Step]) {
    let mut finished = Finished::new(alloc, 2).expect(rt, "memory");
    for step in steps {
        is_taken(rt, alloc, &mut finished, step);
    }
    drop(finished);
}

/// The newest that includes covers.
static NEWEST: &[Step] = &[
    Covers((1, AnyNumber), None),
    Keep((1, Unset), 5, 1),
    Covers((1, AnyNumber), Some(5)),
    Keep((1, AnyNumber), 7, 1),
    Keep((2, AnyNumber), 9, 1),
    Covers((1, AnyNumber), Some(7)),
    Covers((1, FrameEnd), Some(5)),
    Covers((0, AnyNumber), None),
    Covers((2, AnyNumber), None),
];

/// Of 64 the oldest is given up.
static OLDEST: &[Step] = &[
    Keep((1, Unset), 5, 1),
    Keep((1, AnyNumber), 3, 63),
    Covers((1, FrameEnd), Some(5)),
    Keep((1, AnyNumber), 2, 1),
    Covers((1, FrameEnd), None),
    Covers((1, AnyNumber), Some(2)),
];

#[test]
fn the_newest_that_includes_covers(rt: HostRuntime) {
    are_taken(&rt, rt.alloc(), NEWEST);
    are_taken(&rt, rt.alloc(), OLDEST);
}
