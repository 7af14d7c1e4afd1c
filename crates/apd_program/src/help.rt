//! Help as a command: `apd help`, `apd help COMMAND`.

ghost use Rattle.std.specs.Prelude.{IfOk, IfErr};
ghost use Rattle.apd_words.specs.Asked.{text_of, texts_of};
ghost use Rattle.apd_program.specs.Faults.{IsMemoryOr};
ghost use Rattle.apd_program.specs.Pages.{IsHelpText, HasNoHelp, help_words};

use crate::answer::Answer;
use crate::fault::ProgramFault;
use apd_files::shown;
use apd_words::{Told, read_words};
use std::alloc::{AllocError, Global};

/// The help that `--help` prints after a command, or, without a command, the program's.
pub(crate) fn help(alloc: Global, command: Option<&str>) -> Result<Answer, ProgramFault>
    ensures help { IfOk result (IsHelpText (help_words (text_of command.entry))) }
    ensures fault { IfErr result (IsMemoryOr (HasNoHelp (help_words (text_of command.entry)))) }
{
    match command {
        Some(command) => help_for(alloc, &["apd", command, "--help"], command),
        None => help_for(alloc, &["apd", "--help"], "help"),
    }
}

fn help_for<'a>(alloc: Global, words: &'a [&'a str], command: &str) -> Result<Answer, ProgramFault>
    ensures help { IfOk result (IsHelpText (texts_of words.entry.now)) }
    ensures fault { IfErr result (IsMemoryOr (HasNoHelp (texts_of words.entry.now))) }
{
    match read_words(alloc, words) {
        Err(Told::Help(text)) => Ok(Answer::Help(text)),
        Err(Told::NoMemory) => Err(ProgramFault::NoMemory),
        _ => Err(unknown(alloc, command)),
    }
}

fn unknown(alloc: Global, command: &str) -> ProgramFault {
    match shown(alloc, command) {
        Ok(command) => ProgramFault::NoCommand(command),
        Err(AllocError) => ProgramFault::NoMemory,
    }
}
