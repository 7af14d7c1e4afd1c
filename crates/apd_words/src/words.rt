//! From words to a request.

ghost use Rattle.std.specs.Prelude.{map};
ghost use Rattle.clap.specs.Words.{kind_of};
ghost use Rattle.apd_words.specs.Asked.{Wanted};
ghost use Rattle.apd_words.specs.Reads.{Reads, TellsOfKind, TellsNoHelp};
ghost use Rattle.apd_words.specs.Spells.{Spells, IsReadAs};

use crate::command::{HOOKS, WORKERS, command_line};
use crate::requests::request;
use crate::{Request, Told};
use clap::error::ErrorKind;
use std::alloc::{AllocError, Global};

/// Reads what the words ask for. The first is the program's own name.
pub fn read_words<'a>(alloc: Global, words: &'a [&'a str]) -> Result<Request<'a>, Told>
    ensures reads { Reads (map (λ word. word.now) words.entry.now) result }
    ensures spelled { (w : Wanted) →
        Spells (map (λ word. word.now) words.entry.now) w → IsReadAs w result }
{
    let Ok(command) = command_line(alloc, HOOKS.as_slice(), WORKERS.as_slice()) else {
        return Err(Told::NoMemory);
    };
    match command.try_get_matches_from(words) {
        Ok(matches) => match request(alloc, &matches) {
            Ok(Some(request)) => Ok(request),
            Ok(None) => Err(incomplete(alloc)),
            Err(AllocError) => Err(Told::NoMemory),
        },
        Err(error) => Err(told(alloc, &error)),
    }
}

/// What to print for words that the parser refused, or that ask for help.
fn told(alloc: Global, error: &clap::Error) -> Told
    ensures is { TellsOfKind (kind_of error.now) result }
{
    if error.kind() == ErrorKind::OutOfMemory {
        return Told::NoMemory;
    }
    match format!(in alloc; "{error}") {
        Ok(text) if error.use_stderr() => Told::Fault(text),
        Ok(text) => Told::Help(text),
        Err(AllocError) => Told::NoMemory,
    }
}

/// What to print for words that the parser accepted and that make no request. There are none.
fn incomplete(alloc: Global) -> Told
    ensures is { TellsNoHelp result }
{
    match String::from_str(alloc, "error: the words ask for nothing\n") {
        Ok(text) => Told::Fault(text),
        Err(AllocError) => Told::NoMemory,
    }
}
