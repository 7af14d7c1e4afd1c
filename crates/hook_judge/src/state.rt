//! What a worker's programs change, with what is counted of their runs.

ghost use Rattle.std.specs.Prelude.{◌≡◌, ◌≤◌, IfOk};
ghost use Rattle.bpf_helpers.specs.Hooked.{IsFitting, shapes_of};
ghost use Rattle.bpf_helpers.specs.HookPorts.{given_by};
ghost use Rattle.hook_judge.specs.Counted.{HasRun, held_of};
ghost use Rattle.hook_judge.specs.Sums.{no_counts};

use crate::hook_counts::HookCounts;
use crate::run::ProgramRun;
use bpf_helpers::{HookPort, WorkerState, WorkerView};
use bpf_machine::{Accepted, Exit, Machine};
use bpf_regions::{Context, Frame};
use std::alloc::{AllocError, Global};
use std::marker::Model;
use std::mem;

/// What a worker's programs change, what was counted of their runs since `take_counts`, and the machine that they run
/// on one after the other.
#[derive(Drop)]
pub struct CountedState {
    state: WorkerState,
    counts: Box<HookCounts>,
    machine: Box<Machine>,
}

impl Model for CountedState {
    ghost use Rattle.hook_judge.specs.Counted.{Counted};

    ghost Value = { Counted };

    ghost view = { λ s. record { seats = s.state.seats; draw = s.state.draw; counts = s.counts.value } };
}

impl CountedState {
    /// A worker's state, of which nothing was counted. Err: there is no memory for the counts or the machine.
    pub fn new(alloc: Global, state: WorkerState) -> Result<CountedState, AllocError>
        ensures held { IfOk result (λ s. held_of s ≡ state) }
        ensures none { IfOk result (λ s. s.counts ≡ no_counts) }
    {
        let counts = Box::new(alloc, HookCounts::none())?;
        let machine = Box::new(alloc, Machine::new())?;
        Ok(CountedState {
            state,
            counts,
            machine,
        })
    }

    /// Runs a program that the load with this number put in force, as `run_hook` does, and counts the run.
    #[inline(always)]
    pub fn run(
        &mut self,
        accepted: &Accepted,
        load: u64,
        view: WorkerView<'_>,
        frame: &Frame<'_>,
        context: &Context,
    ) -> Exit
        requires shapes { shapes_of view.maps.now ≡ accepted.now.code.shapes }
        requires fitting { IsFitting view.maps.now view.worker self.old.seats }
        ensures run { HasRun (given_by view.entry) load accepted.now frame.now context.now
            self.old result self.new }
        ensures within { result.steps ≤ accepted.now.budget }
        ensures fitting { IsFitting view.entry.maps.now view.entry.worker self.new.seats }
    {
        let state = &mut self.state;
        let mut port = HookPort { view, state };
        let exit = self.machine.run(accepted, frame, context, &mut port);
        let run = ProgramRun {
            load,
            budget: accepted.budget(),
            verdict: exit.r0,
            steps: exit.steps,
            notes: self.machine.notes(),
        };
        self.counts.count(accepted.hook(), run);
        exit
    }

    /// What was counted. From here on it counts anew.
    pub fn take_counts(&mut self) -> HookCounts
        ensures taken { result ≡ self.old.counts }
        ensures anew { self.new ≡ record self.old { counts = no_counts } }
    {
        mem::replace(&mut *self.counts, HookCounts::none())
    }
}
