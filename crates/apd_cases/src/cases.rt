//! Reading a file of cases from its text.

ghost use Rattle.std.specs.Prelude.{◌≡◌, IfOk, IfErr, OnOk};
ghost use Rattle.apd_cases.specs.Said.{lines_said};
ghost use Rattle.apd_cases.specs.Grammar.{IsWellFormed};
ghost use Rattle.apd_cases.specs.Cases.{AreCases, AddsLine, Spoils, SpoilsAt};
ghost use Rattle.apd_cases.specs.declared.cases.Unread.TheVariants.{NoMemory};

use crate::keywords::read_line;
use crate::line::Numbered;
use apd_script::first_line;
use std::alloc::{AllocError, AllocFailed, Global};

/// Why a text has no cases.
#[derive(Clone, Copy, Debug, PartialEq, Eq)]
pub enum Unread {
    /// The number of the first malformed line, counted from 1.
    Malformed(u64),
    /// An allocation failed.
    NoMemory,
}

impl From<AllocError> for Unread {
    ghost from_gives = { λ _ unread. unread ≡ NoMemory };

    fn from(_error: AllocError) -> Unread {
        Unread::NoMemory
    }
}

impl<T: Drop> From<AllocFailed<T>> for Unread {
    ghost from_gives = { λ _ unread. unread ≡ NoMemory };

    fn from(_error: AllocFailed<T>) -> Unread {
        Unread::NoMemory
    }
}

/// Appends what the line with this number says.
fn add_line<'a>(lines: &mut Vec<Numbered<'a>>, line: &'a [u8], number: u64) -> Result<(), Unread>
    ensures well_formed { OnOk result (IsWellFormed line.entry.now) }
    ensures added { OnOk result (AddsLine number line.entry.now lines.old.items lines.new.items) }
    ensures malformed { IfErr result (SpoilsAt number line.entry.now) }
{
    match read_line(line) {
        Ok(Some(line)) => {
            lines.push(Numbered { number, line })?;
            Ok(())
        }
        Ok(None) => Ok(()),
        Err(_) => Err(Unread::Malformed(number)),
    }
}

/// What the lines of a file of cases say, with their numbers, or the number of the first malformed line. Paths, words
/// and frames are slices of the text.
pub fn read_cases<'a>(alloc: Global, text: &'a [u8]) -> Result<Vec<Numbered<'a>>, Unread>
    ensures cases { IfOk result (λ lines. AreCases text.entry.now (lines_said lines.items)) }
    ensures malformed { IfErr result (Spoils text.entry.now) }
{
    let mut lines = Vec::new(alloc);
    let mut before = 0;
    let mut rest = text;
    loop {
        let (line, next) = first_line(rest);
        add_line(&mut lines, line, before + 1)?;
        match next {
            None => return Ok(lines),
            Some(next) => {
                rest = next;
                before += 1;
            }
        }
    }
}
