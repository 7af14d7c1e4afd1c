//! Drawing programs: the command `disasm --dot`.

ghost use Rattle.std.specs.Prelude.{◌≡◌, IfOk, IfErr, string_bytes};
ghost use Rattle.apd_words.specs.Asked.{asked_graph};
ghost use Rattle.bpf_verifier.specs.Admission.{IsRefusalWithin};
ghost use Rattle.apd_program.specs.Answers.{IsAnswer, HasNoAnswer};
ghost use Rattle.apd_program.specs.Drawings.{IsDrawing, IsExplored, IsExplained, IsDrawingWith, unlimited};
ghost use Rattle.apd_program.specs.Faults.{IsMemoryOr};
ghost use Rattle.apd_program.specs.Programs.{IsOfProgram};

use crate::answer::{Answer, undecoded};
use crate::explain::Reason;
use crate::fault::ProgramFault;
use crate::inputs::{Loaded, load};
use apd_files::Files;
use apd_policies::{Overlay, graph_text};
use apd_words::Source;
use bpf_decode::{Program, decode};
use bpf_regions::Shapes;
use bpf_verifier::{Explanation, Fault, Limits, Refusal, StateLimit, explain_limited};
use std::alloc::Global;

/// Draws the program in a file, with the maps of a configuration; if asked to, with what the verifier finds.
pub(crate) fn graph<F: Files>(
    alloc: Global,
    source: Source<'_>,
    explain: bool,
    files: &mut F,
    reason: &mut Reason,
) -> Result<Answer, ProgramFault>
    ensures drawing { IfOk result (IsAnswer (F.held files.old) (asked_graph source.entry explain)) }
    ensures fault { IfErr result
        (IsMemoryOr (HasNoAnswer (F.held files.old) (asked_graph source.entry explain))) }
{
    let Loaded { code, setup } = load(alloc, source, files)?;
    let answer = draw(alloc, code.as_slice(), setup.shapes, explain);
    reason.points_at(alloc, code.as_slice(), &answer);
    answer
}

/// Draws the program that the code spells for maps of these shapes.
fn draw(alloc: Global, code: &[u8], shapes: Shapes, explain: bool) -> Result<Answer, ProgramFault>
    ensures drawing { IfOk result (IsOfProgram (IsDrawingWith explain) code.now shapes) }
    ensures memory { IfErr result (λ e. e ≡ ProgramFault.NoMemory) }
{
    match decode(alloc, code, shapes) {
        Ok(program) => drawn_with(alloc, &program, explain),
        Err(fault) => undecoded(fault),
    }
}

fn drawn_with(alloc: Global, program: &Program, explain: bool) -> Result<Answer, ProgramFault>
    ensures drawing { IfOk result (IsDrawingWith explain program.now) }
    ensures memory { IfErr result (λ e. e ≡ ProgramFault.NoMemory) }
{
    if explain {
        return explained(alloc, program);
    }
    drawn(alloc, program)
}

fn drawn(alloc: Global, program: &Program) -> Result<Answer, ProgramFault>
    ensures drawing { IfOk result (IsDrawing program.now) }
    ensures memory { IfErr result (λ e. e ≡ ProgramFault.NoMemory) }
{
    match graph_text(alloc, program, Overlay::Plain) {
        Ok(text) => Ok(Answer::Instructions(text)),
        Err(_) => Err(ProgramFault::NoMemory),
    }
}

/// Draws a program with how many states the verifier examines at each block, and the budget left there.
fn explained(alloc: Global, program: &Program) -> Result<Answer, ProgramFault>
    ensures drawing { IfOk result (IsExplained program.now) }
    ensures memory { IfErr result (λ e. e ≡ ProgramFault.NoMemory) }
{
    let limits = Limits {
        states: StateLimit::nearest(4_194_304),
        work: None,
    };
    let Explanation {
        verdict,
        visits,
        budgets,
        ..
    } = explain_limited(alloc, program, limits)?;
    let visits = visits.as_slice();
    let budgets = budgets.as_slice();
    let text = graph_text(alloc, program, Overlay::States { visits, budgets })?;
    match verdict {
        Ok(_) => Ok(Answer::Instructions(text)),
        Err(refusal) => refused_graph(program, text, refusal),
    }
}

/// The answer for the graph of a program that the verifier refuses.
fn refused_graph(_program: &Program, text: String, refusal: Refusal) -> Result<Answer, ProgramFault>
    requires refused { IsRefusalWithin _program.now unlimited refusal }
    requires explored { IsExplored _program.now (string_bytes text) }
    ensures drawing { IfOk result (IsExplained _program.now) }
    ensures memory { IfErr result (λ e. e ≡ ProgramFault.NoMemory) }
{
    match refusal.fault {
        Fault::NoMemory => Err(ProgramFault::NoMemory),
        _ => Ok(Answer::RefusedGraph { text, refusal }),
    }
}
