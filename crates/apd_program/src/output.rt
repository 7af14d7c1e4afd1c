//! Delivering an answer: to standard output, or to the file named for it, unless it is a refusal.

ghost use Rattle.std.specs.Prelude.{◌≡◌, None, IfOk, IfErr, OnOk, if◌then◌else◌};
ghost use Rattle.std.specs.Io.KnownBytes.{Appends, Keeps};
ghost use Rattle.apd_files.specs.Beginning.{AppendsBeginning};
ghost use Rattle.apd_files.specs.Held.{Saves};
ghost use Rattle.apd_words.specs.Asked.{text_of};
ghost use Rattle.apd_program.specs.Delivered.{Delivers, Stores, status_after};
ghost use Rattle.apd_program.specs.Lines.{printed};

use crate::answer::Answer;
use crate::messages::{NO_MEMORY, say, unsaved, unwritten};
use apd_files::{Files, Unwritten, write_whole};
use std::alloc::Global;
use std::io::{ErrorKind, Write};

/// Why an answer wasn't delivered whole.
#[derive(Clone, Copy)]
pub(crate) enum Undelivered {
    NoMemory,
    /// Standard output took no more.
    Unwritten(ErrorKind),
    /// The file can't be written.
    Unsaved(ErrorKind),
}

/// The file for an answer: the named one, if the answer is an output.
fn file_for<'a>(output: Option<&'a str>, is_output: bool) -> Option<&'a str>
    ensures is { text_of result ≡ (if is_output then text_of output.entry else None) }
{
    if is_output { output } else { None }
}

/// Writes the text of an answer other than a script, as a whole.
fn print_whole<W: Write>(alloc: Global, answer: Answer, out: &mut W) -> Result<(), Undelivered>
    ensures whole { OnOk result
        (Appends (W.contents out.old) (W.contents out.new) (printed answer)) }
    ensures beginning { AppendsBeginning (W.contents out.old) (W.contents out.new)
        (printed answer) }
    ensures memory { IfErr result
        (λ e. e ≡ Undelivered.NoMemory → Keeps (W.contents out.old) (W.contents out.new)) }
{
    let Ok(text) = answer.printed(alloc) else {
        return Err(Undelivered::NoMemory);
    };
    match write_whole(out, text.as_bytes()) {
        Ok(()) => Ok(()),
        Err(Unwritten(why)) => Err(Undelivered::Unwritten(why)),
    }
}

/// Writes the text of an answer. A script is written in pieces.
fn print<W: Write>(alloc: Global, answer: Answer, out: &mut W) -> Result<(), Undelivered>
    ensures whole { OnOk result
        (Appends (W.contents out.old) (W.contents out.new) (printed answer)) }
    ensures beginning { AppendsBeginning (W.contents out.old) (W.contents out.new)
        (printed answer) }
    ensures memory { IfErr result
        (λ e. e ≡ Undelivered.NoMemory → Keeps (W.contents out.old) (W.contents out.new)) }
{
    match answer {
        Answer::Script(text) => text.write(alloc, out),
        Answer::CutScript { text, .. } => text.write(alloc, out),
        other => print_whole(alloc, other, out),
    }
}

/// Saves an answer in a file, and returns this status.
fn save<F: Files>(
    alloc: Global,
    answer: Answer,
    status: u8,
    path: &str,
    files: &mut F,
) -> Result<u8, Undelivered>
    ensures status { IfOk result (λ n. n ≡ status) }
    ensures saved { OnOk result
        (Saves path.now (printed answer) (F.saved files.old) (F.saved files.new)) }
    ensures memory { IfErr result
        (λ e. e ≡ Undelivered.NoMemory → F.saved files.new ≡ F.saved files.old) }
{
    let Ok(text) = answer.printed(alloc) else {
        return Err(Undelivered::NoMemory);
    };
    match files.save(path, text.as_bytes()) {
        Ok(()) => Ok(status),
        Err(Unwritten(why)) => Err(Undelivered::Unsaved(why)),
    }
}

/// Writes an answer, and returns its status.
pub(crate) fn deliver<F: Files, W: Write>(
    alloc: Global,
    answer: Answer,
    output: Option<&str>,
    files: &mut F,
    out: &mut W,
) -> Result<u8, Undelivered>
    ensures out { Delivers answer (text_of output.entry)
        (W.contents out.old) (W.contents out.new) result }
    ensures saved { Stores answer (text_of output.entry)
        (F.saved files.old) (F.saved files.new) result }
{
    let status = answer.status();
    let is_output = answer.is_output();
    match file_for(output, is_output) {
        Some(path) => save(alloc, answer, status, path, files),
        None => match print(alloc, answer, out) {
            Ok(()) => Ok(status),
            Err(undelivered) => Err(undelivered),
        },
    }
}

/// Reports why an answer wasn't delivered, and returns the exit status: the answer's, 2 if a write failed, 3 if
/// memory ran out. `output` is the file that is named for the answer.
pub(crate) fn conclude<E: Write>(
    alloc: Global,
    delivered: Result<u8, Undelivered>,
    output: Option<&str>,
    err: &mut E,
) -> u8
    ensures is { result ≡ status_after delivered }
{
    match delivered {
        Ok(status) => status,
        Err(Undelivered::NoMemory) => {
            say(NO_MEMORY, err);
            3
        }
        Err(Undelivered::Unwritten(why)) => unwritten(alloc, why, err),
        Err(Undelivered::Unsaved(why)) => unsaved(alloc, output.unwrap_or("-"), why, err),
    }
}
