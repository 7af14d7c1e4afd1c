//! Runs whose steps are counted, slot by slot.

ghost use Rattle.std.specs.Prelude.{◌≡◌, ◌≤◌};
ghost use Rattle.bpf_helpers.specs.HookPorts.{given_by};
ghost use Rattle.bpf_helpers.specs.Hooked.{IsFitting, Gives, shapes_of};
ghost use Rattle.bpf_machine.specs.Runs.{setting_of};
ghost use Rattle.apd_eval.specs.Visits.{ticked, Tallied};

use bpf_helpers::{HookPort, WorkerState, WorkerView, run_hook};
use bpf_machine::{Accepted, Bare, Outcome, Port};
use bpf_regions::{Context, Frame};
use std::marker::Model;

/// What a program that is tried changes, and how many steps were made at each of its slots, mod 2^64. Without counts
/// nothing is counted.
#[derive(Drop)]
pub(crate) struct Meter {
    state: WorkerState,
    counts: Vec<u64>,
}

impl Model for Meter {
    ghost use Rattle.apd_eval.specs.Metered.{Metered};

    ghost Value = { Metered };

    ghost view = { λ m. record { held = m.state; counts = m.counts.items } };
}

/// Adds 1 to the count of a slot, mod 2^64, if the slot has one.
fn tick(counts: &mut [u64], slot: usize)
    ensures is { counts.new ≡ ticked slot counts.old }
{
    if slot < counts.len() {
        counts[slot] = counts[slot].wrapping_add(1);
    }
}

/// Runs a program as `run` does, and counts each step, including EXIT, at its slot. Allocates nothing.
fn run_counted<P: Port>(
    accepted: &Accepted,
    frame: &Frame,
    context: &Context,
    port: &mut P,
    counts: &mut [u64],
) -> Outcome
    requires shapes { P.shapes port.old ≡ accepted.now.code.shapes }
    ensures run { Tallied P.gives (setting_of accepted.now.code frame.now context.now)
        port.old port.new counts.old counts.new result }
    ensures within { result.steps ≤ accepted.now.budget }
    ensures shapes { P.shapes port.new ≡ P.shapes port.old }
{
    let mut bare = Bare::enter(accepted, frame, context);
    bare.known();
    'steps: loop {
        let pc = bare.pc();
        match bare.step(port) {
            Some(outcome) => {
                tick(counts, pc);
                return outcome;
            }
            None => tick(counts, pc),
        }
    }
}

impl Meter {
    /// What a program changes, with these counts of its slots.
    pub(crate) fn new(state: WorkerState, counts: Vec<u64>) -> Meter
        ensures is { result ≡ record { held = state; counts = counts.items } }
    {
        Meter { state, counts }
    }

    /// How many steps were made at each slot.
    pub(crate) fn counts(&self) -> &[u64]
        ensures is { result.now ≡ self.now.counts }
    {
        self.counts.as_slice()
    }

    /// Runs a program on a frame and a context, over these tables, and counts each step at its slot, if slots have
    /// counts.
    pub(crate) fn run(
        &mut self,
        accepted: &Accepted,
        frame: &Frame,
        context: &Context,
        view: WorkerView<'_>,
    ) -> Outcome
        requires shapes { shapes_of view.maps.now ≡ accepted.now.code.shapes }
        requires fitting { IsFitting view.maps.now view.worker self.old.held.seats }
        ensures run { Tallied (Gives (given_by view.entry))
            (setting_of accepted.now.code frame.now context.now)
            self.old.held self.new.held self.old.counts self.new.counts result }
        ensures within { result.steps ≤ accepted.now.budget }
        ensures fitting { IsFitting view.entry.maps.now view.entry.worker self.new.held.seats }
    {
        if self.counts.as_slice().is_empty() {
            return run_hook(accepted, frame, context, view, &mut self.state);
        }
        let mut port = HookPort {
            view,
            state: &mut self.state,
        };
        run_counted(
            accepted,
            frame,
            context,
            &mut port,
            self.counts.as_mut_slice(),
        )
    }
}
