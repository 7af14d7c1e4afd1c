//! Verifying code, and running what is admitted: the commands `verify` and `trace`.

ghost use Rattle.std.specs.Prelude.{◌≡◌, IfOk, IfErr};
ghost use Rattle.bpf_verifier.specs.Admission.{IsSafeBudget, IsRefusalWithin};
ghost use Rattle.bpf_verifier.specs.Limits.{nearest};
ghost use Rattle.apd_program.specs.Programs.{IsOfProgram};
ghost use Rattle.apd_program.specs.Verifying.{IsVerified, IsRunWithin, within};

use crate::answer::{Answer, refused, undecoded};
use crate::explain::Reason;
use crate::fault::ProgramFault;
use apd_text::trace_text;
use apd_words::Terms;
use bpf_decode::{Program, decode};
use bpf_machine::Accepted;
use bpf_regions::{Context, Frame, Shapes};
use bpf_verifier::{Limits, Refusal, StateLimit, explain_limited, verify_limited};
use std::alloc::Global;

/// How a program is verified, and the input of its run.
#[derive(Clone, Copy)]
pub(crate) struct Stimulus<'a> {
    pub terms: Terms,
    pub frame: &'a Frame<'a>,
    pub context: &'a Context,
    /// The first number drawn.
    pub draw: u64,
}

/// The most states that the verifier may examine, 1 to 4194304, and the most work that it may do, if that is limited.
pub(crate) fn limits_of(terms: Terms) -> Limits
    ensures is { result ≡ within terms.states terms.work }
{
    Limits {
        states: StateLimit::nearest(terms.states),
        work: terms.work,
    }
}

/// Admits a program, or returns why not. The program is explored once, and the reason, if it is wanted, describes
/// that exploration.
pub(crate) fn admit(
    alloc: Global,
    program: Program,
    terms: Terms,
    reason: &mut Reason,
) -> Result<Accepted, Refusal>
    ensures code { IfOk result (λ accepted. accepted.code ≡ program) }
    ensures hook { IfOk result (λ accepted. accepted.hook ≡ terms.hook) }
    ensures budget { IfOk result
        (λ accepted. IsSafeBudget program (nearest terms.states) accepted.budget) }
    ensures refused { IfErr result (IsRefusalWithin program (within terms.states terms.work)) }
{
    program.whole();
    let limits = limits_of(terms);
    if !reason.is_wanted() {
        return verify_limited(alloc, program, terms.hook, limits);
    }
    let explanation = explain_limited(alloc, &program, limits)?;
    reason.explain(alloc, &program, &explanation);
    match explanation.verdict {
        Ok(budget) => {
            let accepted = Accepted::new(alloc, program, terms.hook, budget)?;
            Ok(accepted)
        }
        Err(refusal) => Err(refusal),
    }
}

/// Verifies a program.
fn admitted(
    alloc: Global,
    program: Program,
    terms: Terms,
    reason: &mut Reason,
) -> Result<Answer, ProgramFault>
    ensures verdict { IfOk result (IsVerified terms program) }
    ensures memory { IfErr result (λ e. e ≡ ProgramFault.NoMemory) }
{
    match admit(alloc, program, terms, reason) {
        Ok(accepted) => Ok(Answer::Accepted {
            budget: accepted.budget(),
        }),
        Err(refusal) => refused(refusal),
    }
}

/// Verifies code, with maps of these shapes. Sets the reason if it is wanted.
pub(crate) fn verify(
    alloc: Global,
    code: &[u8],
    shapes: Shapes,
    terms: Terms,
    reason: &mut Reason,
) -> Result<Answer, ProgramFault>
    ensures verdict { IfOk result (IsOfProgram (IsVerified terms) code.now shapes) }
    ensures memory { IfErr result (λ e. e ≡ ProgramFault.NoMemory) }
{
    let known = Vec::from_slice(alloc, shapes.as_slice())?;
    match decode(alloc, code, shapes) {
        Ok(program) => admitted(alloc, program, terms, reason),
        Err(fault) => {
            reason.explain_fault(alloc, code, known.as_slice(), fault);
            undecoded(fault)
        }
    }
}

/// Runs a program on a frame, or returns the verifier's refusal.
fn run(
    alloc: Global,
    program: Program,
    stimulus: Stimulus<'_>,
    reason: &mut Reason,
) -> Result<Answer, ProgramFault>
    ensures run { IfOk result (IsRunWithin stimulus.entry.terms stimulus.entry.frame.now
        stimulus.entry.context.now stimulus.entry.draw program) }
    ensures memory { IfErr result (λ e. e ≡ ProgramFault.NoMemory) }
{
    let Stimulus {
        terms,
        frame,
        context,
        draw,
    } = stimulus;
    match admit(alloc, program, terms, reason) {
        Ok(accepted) => {
            let text = trace_text(alloc, &accepted, frame, context, draw)?;
            Ok(Answer::Run(text))
        }
        Err(refusal) => refused(refusal),
    }
}

/// Runs the program that the code spells on a frame, if it is admitted.
pub(crate) fn trace(
    alloc: Global,
    code: &[u8],
    shapes: Shapes,
    stimulus: Stimulus<'_>,
    reason: &mut Reason,
) -> Result<Answer, ProgramFault>
    ensures run { IfOk result (IsOfProgram
        (IsRunWithin stimulus.entry.terms stimulus.entry.frame.now stimulus.entry.context.now
        stimulus.entry.draw) code.now shapes) }
    ensures memory { IfErr result (λ e. e ≡ ProgramFault.NoMemory) }
{
    let known = Vec::from_slice(alloc, shapes.as_slice())?;
    match decode(alloc, code, shapes) {
        Ok(program) => run(alloc, program, stimulus, reason),
        Err(fault) => {
            reason.explain_fault(alloc, code, known.as_slice(), fault);
            undecoded(fault)
        }
    }
}
