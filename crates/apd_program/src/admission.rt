//! Whether the program that code spells is accepted.

ghost use Rattle.std.specs.Prelude.{◌≡◌, IfOk, IfErr};
ghost use Rattle.bpf_decode.specs.Program.{Spells};
ghost use Rattle.apd_program.specs.Admitting.{IsAdmission};
ghost use Rattle.apd_program.specs.Verifying.{within};

use crate::answer::{Answer, refused, undecoded};
use crate::explain::Reason;
use crate::fault::ProgramFault;
use crate::verdicts::admit;
use apd_words::Terms;
use bpf_decode::{Program, decode};
use bpf_machine::Accepted;
use bpf_regions::Shapes;
use std::alloc::Global;

/// An accepted program, or the answer that says why code isn't one.
#[derive(Drop)]
pub(crate) enum Admission {
    Admitted(Accepted),
    Answered(Answer),
}

/// Verifies a program, which the code spells.
#[tactic(auto, using(crate::proofs::Admits::admitted_code, crate::proofs::Admits::refused_code))]
fn admit_program(
    alloc: Global,
    program: Program,
    code: &[u8],
    terms: Terms,
    reason: &mut Reason,
) -> Result<Admission, ProgramFault>
    requires spelled { Spells code.now program }
    ensures admission { IfOk result
        (IsAdmission (within terms.states terms.work) terms.hook code.now program.shapes) }
    ensures memory { IfErr result (λ e. e ≡ ProgramFault.NoMemory) }
{
    match admit(alloc, program, terms, reason) {
        Ok(accepted) => Ok(Admission::Admitted(accepted)),
        Err(refusal) => {
            let answer = refused(refusal);
            reason.points_at(alloc, code, &answer);
            let answer = answer?;
            Ok(Admission::Answered(answer))
        }
    }
}

/// Verifies the program that code spells, with maps of these shapes.
#[tactic(auto, using(crate::proofs::Admits::undecoded_code))]
pub(crate) fn admit_code(
    alloc: Global,
    code: &[u8],
    shapes: &Shapes,
    terms: Terms,
    reason: &mut Reason,
) -> Result<Admission, ProgramFault>
    ensures admission { IfOk result
        (IsAdmission (within terms.states terms.work) terms.hook code.now shapes.now) }
    ensures memory { IfErr result (λ e. e ≡ ProgramFault.NoMemory) }
{
    let shapes = shapes.clone()?;
    match decode(alloc, code, shapes) {
        Ok(program) => admit_program(alloc, program, code, terms, reason),
        Err(fault) => {
            let answer = undecoded(fault)?;
            Ok(Admission::Answered(answer))
        }
    }
}
