//! The lines that are printed for the rows of a file of cases.

ghost use Rattle.std.specs.Prelude.{◌≡◌, ◌++◌, Some, IfOk, string_bytes};
ghost use Rattle.apd_trials.specs.Texts.{reason_text, notes_text, found_text, row_text, rows_text};

use crate::admission::Reason;
use crate::found::Found;
use crate::row::Row;
use std::alloc::{AllocError, Global};
use std::fmt;
use std::fmt::Write;

impl fmt::Display for Reason {
    ghost output = { λ why. Some (reason_text why) };

    fn fmt<W: fmt::Write>(&self, f: &mut fmt::Formatter<W>) -> fmt::Result {
        match *self {
            Reason::Fault(fault) => write!(f, "{fault}"),
            Reason::Refused(refusal) => write!(f, "{refusal}"),
        }
    }
}

/// The first of some notes, and how many follow it.
#[derive(Clone, Copy)]
struct Notes<'a>(&'a [u64]);

impl fmt::Display for Notes<'_> {
    ghost output = { λ notes. Some (notes_text notes.0.now) };

    fn fmt<W: fmt::Write>(&self, f: &mut fmt::Formatter<W>) -> fmt::Result {
        match self.0 {
            [] => f.write_str("no note"),
            [note] => write!(f, "note {note}"),
            [note, more @ ..] => write!(f, "note {note} and {} more", more.len()),
        }
    }
}

impl fmt::Display for Found {
    ghost output = { λ found. Some (found_text found) };

    fn fmt<W: fmt::Write>(&self, f: &mut fmt::Formatter<W>) -> fmt::Result {
        match self {
            Found::Unadmitted(why) => write!(f, "{why}"),
            Found::Accepted { budget } => write!(f, "accepted budget {budget}"),
            Found::Ran { verdict, steps } => write!(f, "{verdict} ({steps} steps)"),
            Found::Noted(notes) => write!(f, "{}", Notes(notes.as_slice())),
            Found::Holds(value) => write!(f, "{value}"),
        }
    }
}

/// Appends the line of a row of the file with this path.
fn append_row(text: &mut String, path: &str, row: &Row) -> Result<(), AllocError>
    ensures ok { IfOk result
        (λ _. string_bytes text.new ≡ string_bytes text.old ++ row_text path.now row.now) }
{
    let line = row.line;
    if row.is_ok() {
        writeln!(text, "{path}:{line}: ok")?;
    } else {
        let expectation = row.expectation;
        let found = &row.found;
        writeln!(
            text,
            "{path}:{line}: FAILED: expected {expectation}, was {found}"
        )?;
    }
    Ok(())
}

/// Appends the lines of all rows of the file with this path.
pub(crate) fn append_rows(text: &mut String, path: &str, rows: &[Row]) -> Result<(), AllocError>
    ensures ok { IfOk result
        (λ _. string_bytes text.new ≡ string_bytes text.old ++ rows_text path.now rows.now) }
{
    for row in rows {
        append_row(text, path, row)?;
    }
    Ok(())
}
