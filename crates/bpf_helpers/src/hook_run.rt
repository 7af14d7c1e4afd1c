//! Runs over tables of maps.

ghost use Rattle.std.specs.Prelude.{◌≡◌, ◌≤◌};
ghost use Rattle.bpf_machine.specs.Runs.{Ran, setting_of};
ghost use Rattle.bpf_helpers.specs.Hooked.{IsFitting, Gives, shapes_of};
ghost use Rattle.bpf_helpers.specs.HookPorts.{given_by};

use crate::hook_port::HookPort;
use crate::worker::{WorkerState, WorkerView};
use bpf_machine::{Accepted, Outcome, run};
use bpf_regions::{Context, Frame};

/// Runs a worker's program on a frame and a context, over that worker's tables, within its budget. Then each seat has
/// the accesses that the run made to its map, and the draw word is the one after those drawn.
/// It never waits and allocates nothing.
pub fn run_hook(
    accepted: &Accepted,
    frame: &Frame,
    context: &Context,
    view: WorkerView<'_>,
    state: &mut WorkerState,
) -> Outcome
    requires shapes { shapes_of view.maps.now ≡ accepted.now.code.shapes }
    requires fitting { IsFitting view.maps.now view.worker state.old.seats }
    ensures run { Ran (Gives (given_by view.entry))
        (setting_of accepted.now.code frame.now context.now)
        state.old state.new result }
    ensures within { result.steps ≤ accepted.now.budget }
    ensures fitting { IsFitting view.entry.maps.now view.entry.worker state.new.seats }
{
    let mut port = HookPort { view, state };
    run(accepted, frame, context, &mut port)
}
