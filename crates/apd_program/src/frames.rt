//! A capture as a script: the command `frames`.

ghost use Rattle.std.specs.Prelude.{◌≡◌, ℕ, List, IfOk, IfErr};
ghost use Rattle.capture.specs.Walks.{packets_in};
ghost use Rattle.apd_files.specs.Held.{Held};
ghost use Rattle.apd_words.specs.Asked.{text_of};
ghost use Rattle.apd_program.specs.Answers.{IsOfText};
ghost use Rattle.apd_program.specs.Faults.{IsMemoryOr};
ghost use Rattle.apd_program.specs.Scripts.{IsAddress, IsChoice, IsFor, IsUnclear, IsPlanned, IsChosenScript, IsUnscripted, IsScript, HasNoScript};

use crate::answer::Answer;
use crate::fault::{ProgramFault, of_several};
use crate::inputs::read;
use crate::script_text::ScriptText;
use crate::span::{Span, recording_in, span_of};
use apd_files::{FileKind, Files};
use apd_policies::{Bssid, Manner, Named, access_points};
use apd_words::Conversion;
use capture::Recording;
use hex::FromHexError;
use std::alloc::Global;

/// The frames of a capture that are wanted.
#[derive(Clone, Copy)]
pub(crate) enum Choice {
    All,
    /// Those for this access point.
    Given(Bssid),
    /// Those for the only access point that the capture names.
    Only,
}

/// The script that is wanted of a capture: with the time between frames or without, and with these frames.
#[derive(Clone, Copy)]
pub(crate) struct Plan {
    pub ticks: bool,
    pub choice: Choice,
}

/// The address that a word spells.
fn address(alloc: Global, word: &str) -> Result<Bssid, ProgramFault>
    ensures address { IfOk result (IsAddress word.now) }
    ensures fault { IfErr result (IsMemoryOr ((a : List ℕ) → IsAddress word.now a → ⊥)) }
{
    let bytes = match hex::decode(alloc, word) {
        Ok(bytes) => bytes,
        Err(FromHexError::OutOfMemory) => return Err(ProgramFault::NoMemory),
        Err(_) => return Err(ProgramFault::NoAddress),
    };
    match bytes.as_slice() {
        [a, b, c, d, e, f] => Ok([*a, *b, *c, *d, *e, *f]),
        _ => Err(ProgramFault::NoAddress),
    }
}

/// The frames that the words ask for.
fn chosen(alloc: Global, asked: Conversion<'_>) -> Result<Choice, ProgramFault>
    ensures choice { IfOk result (IsChoice (text_of asked.entry.bssid) asked.entry.all) }
    ensures fault { (files : Held) → IfErr result (IsMemoryOr (HasNoScript files
        asked.entry.capture.now (text_of asked.entry.bssid) asked.entry.all)) }
{
    if asked.all {
        return Ok(Choice::All);
    }
    match asked.bssid {
        Some(word) => {
            let address = address(alloc, word)?;
            Ok(Choice::Given(address))
        }
        None => Ok(Choice::Only),
    }
}

/// The only access point that the packets of a capture name, or `None` if they name none. `path` names the capture if its
/// frames name several.
fn only(alloc: Global, path: &str, recording: Recording<'_>) -> Result<Option<Bssid>, ProgramFault>
    ensures bssid { IfOk result (IsFor (packets_in recording.entry.bytes.now) Choice.Only) }
    ensures unclear { IfErr result
        (IsMemoryOr (IsUnclear Choice.Only (packets_in recording.entry.bytes.now))) }
{
    let named = access_points(alloc, recording)?;
    match named {
        Named::NoOne => Ok(None),
        Named::One(bssid) => Ok(Some(bssid)),
        Named::Several => Err(of_several(alloc, path)),
    }
}

/// The access point for whose frames the script of a capture is, or `None` if it is for all frames. `path` names the
/// capture if its frames name several.
fn bssid(
    alloc: Global,
    path: &str,
    choice: Choice,
    recording: Recording<'_>,
) -> Result<Option<Bssid>, ProgramFault>
    ensures bssid { IfOk result (IsFor (packets_in recording.entry.bytes.now) choice) }
    ensures unclear { IfErr result
        (IsMemoryOr (IsUnclear choice (packets_in recording.entry.bytes.now))) }
{
    match choice {
        Choice::All => Ok(None),
        Choice::Given(bssid) => Ok(Some(bssid)),
        Choice::Only => only(alloc, path, recording),
    }
}

/// How a capture becomes the script that is wanted.
fn manner(
    alloc: Global,
    path: &str,
    plan: Plan,
    recording: Recording<'_>,
) -> Result<Manner, ProgramFault>
    ensures ticks { IfOk result (λ manner. manner.ticks ≡ plan.ticks) }
    ensures bssid { IfOk result
        (λ manner. IsFor (packets_in recording.entry.bytes.now) plan.choice manner.bssid) }
    ensures unclear { IfErr result
        (IsMemoryOr (IsUnclear plan.choice (packets_in recording.entry.bytes.now))) }
{
    let bssid = bssid(alloc, path, plan.choice, recording)?;
    let ticks = plan.ticks;
    Ok(Manner { ticks, bssid })
}

/// How much of a capture's bytes becomes a script, and how.
fn planned(
    alloc: Global,
    path: &str,
    plan: Plan,
    file: &[u8],
) -> Result<(Span, Manner), ProgramFault>
    ensures planned { IfOk result (λ found. IsPlanned plan file.now found.0 found.1) }
    ensures fault { IfErr result (IsMemoryOr (IsUnscripted plan.choice file.now)) }
{
    let span = span_of(alloc, path, file)?;
    let manner = manner(alloc, path, plan, recording_in(file, span))?;
    Ok((span, manner))
}

/// The script of a capture's bytes; of a cut capture, it has what is before the cut.
fn convert(alloc: Global, path: &str, plan: Plan, file: Vec<u8>) -> Result<Answer, ProgramFault>
    ensures script { IfOk result (IsChosenScript plan.ticks plan.choice file.items) }
    ensures fault { IfErr result (IsMemoryOr (IsUnscripted plan.choice file.items)) }
{
    let (span, manner) = planned(alloc, path, plan, file.as_slice())?;
    let text = ScriptText::new(file, span, manner);
    match span.cut {
        None => Ok(Answer::Script(text)),
        Some(fault) => Ok(Answer::CutScript { text, fault }),
    }
}

/// The script of the frames in a capture that the words ask for.
pub(crate) fn frames<F: Files>(
    alloc: Global,
    asked: Conversion<'_>,
    files: &mut F,
) -> Result<Answer, ProgramFault>
    ensures script { IfOk result (λ a. IsOfText (IsScript asked.entry.ticks
        (text_of asked.entry.bssid) asked.entry.all) (F.held files.old) asked.entry.capture.now a) }
    ensures fault { IfErr result (IsMemoryOr (HasNoScript (F.held files.old)
        asked.entry.capture.now (text_of asked.entry.bssid) asked.entry.all)) }
{
    let choice = chosen(alloc, asked)?;
    let plan = Plan {
        ticks: asked.ticks,
        choice,
    };
    let file = read(alloc, asked.capture, FileKind::Capture, files)?;
    let answer = convert(alloc, asked.capture, plan, file)?;
    Ok(answer)
}
