//! Verdicts on a capture, and how long they take: the command `eval` with `--repeat`.

ghost use Rattle.std.specs.Prelude.{◌≡◌, IfOk, IfErr, Some};
ghost use Rattle.apd_words.specs.Asked.{asked_repetition, text_of};
ghost use Rattle.apd_program.specs.Admitting.{IsOfAdmitted};
ghost use Rattle.apd_program.specs.Answers.{IsAnswer, HasNoAnswer};
ghost use Rattle.apd_program.specs.Evaluating.{HasNoEvaluation, replayed_by};
ghost use Rattle.apd_program.specs.Faults.{IsMemoryOr};
ghost use Rattle.apd_program.specs.Repeating.{AreTimed, IsRepeatedWith};
ghost use Rattle.apd_program.specs.Verifying.{within};

use crate::admission::{Admission, admit_code};
use crate::answer::Answer;
use crate::eval::{Exam, Material, Setting, gather, is_json, verdicts};
use crate::explain::Reason;
use crate::fault::ProgramFault;
use crate::span::{recording_in, span_of};
use apd_eval::{Replay, Rounds, repeated_text};
use apd_files::Files;
use apd_words::Repetition;
use std::alloc::Global;
use std::time::Clock;

/// An evaluation that is repeated, and the clock by which it is timed.
#[derive(Drop)]
struct Timed<'a, C> {
    repetition: Repetition<'a>,
    clock: &'a C,
}

/// The verdicts of the program that the code spells, if it is accepted, and how long they take.
fn examine<C: Clock>(
    alloc: Global,
    code: &[u8],
    exam: Exam<'_>,
    rounds: &Rounds<'_, C>,
    reason: &mut Reason,
) -> Result<Answer, ProgramFault>
    ensures verdicts { IfOk result (IsOfAdmitted (within exam.entry.terms.states exam.entry.terms.work)
        exam.entry.terms.hook (AreTimed (replayed_by exam.entry) rounds.now.count)
        code.now exam.entry.shapes.now) }
    ensures memory { IfErr result (λ e. e ≡ ProgramFault.NoMemory) }
{
    let admission = admit_code(alloc, code, exam.shapes, exam.terms, reason)?;
    match admission {
        Admission::Admitted(accepted) => {
            let text = repeated_text(alloc, accepted, exam.replay, rounds, is_json(exam.report))?;
            Ok(verdicts(text, exam.cut))
        }
        Admission::Answered(answer) => Ok(answer),
    }
}

/// The program in a file is judged on the capture in another, at an access point of this configuration. No other program
/// is in force.
fn repeated<C: Clock, F: Files>(
    alloc: Global,
    config: &str,
    timed: &Timed<'_, C>,
    files: &mut F,
    reason: &mut Reason,
) -> Result<Answer, ProgramFault>
    ensures verdicts { IfOk result (IsRepeatedWith (F.held files.old)
        (within timed.now.repetition.evaluation.subject.terms.states
        timed.now.repetition.evaluation.subject.terms.work)
        timed.now.repetition.evaluation.subject.terms.hook
        timed.now.repetition.evaluation.subject.source.file.now
        timed.now.repetition.evaluation.capture.now timed.now.repetition.evaluation.report
        timed.now.repetition.times config.now) }
    ensures fault { IfErr result (IsMemoryOr (HasNoEvaluation (F.held files.old)
        timed.now.repetition.evaluation.subject.source.file.now
        timed.now.repetition.evaluation.capture.now
        (text_of timed.now.repetition.evaluation.against) (Some config.now))) }
{
    let evaluation = timed.repetition.evaluation;
    let Material {
        setting,
        code,
        capture,
        ..
    } = gather(alloc, config, evaluation, files)?;
    let file = capture.as_slice();
    let span = span_of(alloc, evaluation.capture, file)?;
    let Setting { link, shapes, draw } = setting;
    let replay = Replay {
        link: &link,
        draw,
        recording: recording_in(file, span),
    };
    let exam = Exam {
        terms: evaluation.subject.terms,
        shapes: &shapes,
        replay,
        cut: span.cut,
        report: evaluation.report,
    };
    let rounds = Rounds {
        clock: timed.clock,
        count: timed.repetition.times,
    };
    examine(alloc, code.as_slice(), exam, &rounds, reason)
}

/// Judges the frames of a capture by the program in a file, again and again, and tells by the clock how long a run takes.
pub(crate) fn repeat<C: Clock, F: Files>(
    alloc: Global,
    repetition: Repetition<'_>,
    clock: &C,
    files: &mut F,
    reason: &mut Reason,
) -> Result<Answer, ProgramFault>
    ensures verdicts { IfOk result
        (IsAnswer (F.held files.old) (asked_repetition repetition.entry)) }
    ensures fault { IfErr result
        (IsMemoryOr (HasNoAnswer (F.held files.old) (asked_repetition repetition.entry))) }
{
    if let Some(_old) = repetition.evaluation.against {
        return Err(ProgramFault::TwoPrograms);
    }
    match repetition.evaluation.subject.source.config {
        Some(config) => {
            let timed = Timed { repetition, clock };
            repeated(alloc, config, &timed, files, reason)
        }
        None => Err(ProgramFault::NoConfig),
    }
}
