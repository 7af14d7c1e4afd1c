//! Whole runs of accepted programs, with each step logged.

ghost use Rattle.std.specs.Prelude.{◌≡◌, ◌≤◌, ◌<◌, ◌++◌, List, IfOk, OnErr, OnOk, vec_len, vec_capacity};
ghost use Rattle.bpf_machine.specs.declared.outcome.Step.{Step};
ghost use Rattle.bpf_machine.specs.Runs.{Made, Traced, setting_of};

use crate::one_step::safe_on;
use crate::{Accepted, Bare, Outcome, Step};
use bpf_regions::{Context, Frame};
use bpf_tagged::Port;
use std::alloc::AllocError;

/// Reserves memory for one more step in the log.
fn make_room(log: &mut Vec<Step>) -> Result<(), AllocError>
    ensures same { log.new.items ≡ log.old.items }
    ensures room { OnOk result (vec_len log.new < vec_capacity log.new) }
    ensures full { OnErr result (vec_capacity log.new ≤ vec_len log.new) }
{
    log.reserve(1)
}

/// Runs a program as `run` does, and appends each step, including EXIT, to the log: its slot and its note, if any.
/// Memory for a step is reserved before the step. So if memory is refused, exactly the steps made were appended, and
/// the port got only their queries.
pub fn trace<P: Port>(
    accepted: &Accepted,
    frame: &Frame,
    context: &Context,
    port: &mut P,
    log: &mut Vec<Step>,
) -> Result<Outcome, AllocError>
    requires shapes { P.shapes port.old ≡ accepted.now.code.shapes }
    ensures run { IfOk result
        (λ outcome. (made : List Step) × (log.new.items ≡ log.old.items ++ made) ×
        Traced P.gives (setting_of accepted.now.code frame.now context.now)
        port.old port.new made outcome) }
    ensures within { IfOk result (λ outcome. outcome.steps ≤ accepted.now.budget) }
    ensures refused { OnErr result ((made : List Step) × (log.new.items ≡ log.old.items ++ made) ×
        Made P.gives (setting_of accepted.now.code frame.now context.now) port.old port.new made) }
    ensures full { OnErr result (vec_capacity log.new ≤ vec_len log.new) }
    ensures shapes { P.shapes port.new ≡ P.shapes port.old }
{
    safe_on(accepted, frame, context);
    let mut bare = Bare::enter(accepted, frame, context);
    'steps: loop {
        make_room(log)?;
        let pc = bare.pc();
        let note = bare.noted();
        match bare.step(port) {
            Some(outcome) => {
                log.push_reserved(Step { pc, note: None });
                return Ok(outcome);
            }
            None => log.push_reserved(Step { pc, note }),
        }
    }
}
