//! A run over plain maps whose words are 0.

ghost use Rattle.std.specs.Prelude.{◌≡◌, IfOk, string_bytes};
ghost use Rattle.apd_text.specs.Trace.{IsTrace};

use crate::trace::lines::run_text;
use bpf_helpers::PlainPort;
use bpf_machine::{Accepted, trace};
use bpf_regions::{Context, Frame};
use std::alloc::{AllocError, Global};

/// Runs a program on a frame with a context, and returns the text of the run: a line with slot and instruction for each
/// step, followed by `note N` if the step noted N, and a last line `r0 N steps K`. The maps' words are 0 at first, the
/// clock is 0, no station is associated, and `draw` is the first number drawn.
pub fn trace_text(
    alloc: Global,
    accepted: &Accepted,
    frame: &Frame,
    context: &Context,
    draw: u64,
) -> Result<String, AllocError>
    ensures is { IfOk result
        (λ text. IsTrace accepted.now frame.now context.now draw (string_bytes text)) }
{
    let program = accepted.program();
    let mut port = PlainPort::new(alloc, program.shapes(), 0, 0, draw)?;
    let mut log = Vec::new(alloc);
    let outcome = trace(accepted, frame, context, &mut port, &mut log)?;
    let text = run_text(alloc, program, log.as_slice(), outcome.r0, outcome.steps)?;
    Ok(text)
}
