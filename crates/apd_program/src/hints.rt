//! Hints beyond the meaning of an answer's number.

use crate::answer::Answer;
use apd_files::shown;
use apd_words::Question;
use capture::CaptureFault;
use std::alloc::{AllocError, Global};

/// The number of the fault of a missing map.
const NO_MAP: u8 = 19;

/// The hint that a question and its answer suggest; `None` if there is none.
pub(crate) fn of(
    alloc: Global,
    question: &Question<'_>,
    answer: &Answer,
) -> Result<Option<String>, AllocError> {
    match (question, answer) {
        (Question::Frames(conversion), Answer::CutScript { fault, .. }) => {
            let capture = shown(alloc, conversion.capture)?;
            let text = format!(in alloc;
                "apd: {capture}: {fault}; the script has what is before that\n"
            )?;
            Ok(Some(text))
        }
        (Question::Evaluate(evaluation), Answer::CutVerdicts { fault, .. }) => {
            cut_hint(alloc, evaluation.capture, *fault)
        }
        (Question::Repeat(repetition), Answer::CutVerdicts { fault, .. }) => {
            cut_hint(alloc, repetition.evaluation.capture, *fault)
        }
        (_, Answer::Fault(fault)) if fault.number() == NO_MAP && !has_config(question) => {
            let text = "apd: no --config was given, so there are no maps\n";
            Ok(Some(String::from_str(alloc, text)?))
        }
        _ => Ok(None),
    }
}

/// What is said of verdicts on a capture that is cut.
fn cut_hint(
    alloc: Global,
    capture: &str,
    fault: CaptureFault,
) -> Result<Option<String>, AllocError> {
    let capture = shown(alloc, capture)?;
    let text = format!(in alloc; "apd: {capture}: {fault}; what is before that was judged\n")?;
    Ok(Some(text))
}

/// Whether the question names a configuration, or takes none.
fn has_config(question: &Question<'_>) -> bool {
    match question {
        Question::Verify { subject, .. } | Question::Certify { subject } => {
            subject.source.config.is_some()
        }
        Question::Trace(trial) => trial.subject.source.config.is_some(),
        Question::Evaluate(evaluation) => evaluation.subject.source.config.is_some(),
        Question::Repeat(repetition) => { repetition.evaluation.subject.source.config.is_some() }
        Question::Check(claim) => claim.source.config.is_some(),
        Question::Disassemble { source, .. }
        | Question::ListRaw { source, .. }
        | Question::Graph { source, .. } => source.config.is_some(),
        Question::Assemble { .. }
        | Question::Explain { .. }
        | Question::Frames(_)
        | Question::Help { .. } => true,
    }
}
