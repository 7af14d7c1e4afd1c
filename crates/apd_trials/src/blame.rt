//! The line that is to blame if an expectation can't be judged.

ghost use Rattle.std.specs.Prelude.{◌≡◌, ◌↔◌, IsTrue};
ghost use Rattle.apd_cases.specs.Said.{said_of, lines_said};
ghost use Rattle.apd_trials.specs.Blamed.{LeadsTo, EndsWords, IsBlamed};

use crate::fault::Trouble;
use apd_cases::{Line, Numbered};

/// Whether a line before an expectation leads to this trouble.
fn leads_to(line: Line<'_>, trouble: &Trouble) -> bool
    ensures is { IsTrue result ↔ LeadsTo (said_of line.entry) trouble.now }
{
    match (line, trouble) {
        (Line::Policy { .. }, Trouble::Policy(_)) => true,
        (Line::Config(_), Trouble::Config(_)) => true,
        (Line::Given(_), Trouble::Given(_)) => true,
        (Line::Frame(_), Trouble::LongFrame) => true,
        (Line::Word { place, .. }, Trouble::NoWord(missing)) => place == *missing,
        _ => false,
    }
}

/// Whether a line ends all `word` lines before it, of which one might have led to this trouble.
fn ends_words(line: Line<'_>, trouble: &Trouble) -> bool
    ensures is { IsTrue result ↔ EndsWords (said_of line.entry) trouble.now }
{
    matches!((line, trouble), (Line::Config(_), Trouble::NoWord(_)))
}

/// The number of the line to blame for a trouble with the expectation in line `at`: the last before it that leads to
/// the trouble, unless a later one before it ends what that says; or else `at`.
pub(crate) fn blamed_line(lines: &[Numbered<'_>], at: u64, trouble: &Trouble) -> u64
    ensures is { IsBlamed (lines_said lines.now) at trouble.now result }
{
    let mut blamed = at;
    for numbered in lines {
        if numbered.number < at {
            if leads_to(numbered.line, trouble) {
                blamed = numbered.number;
            } else if ends_words(numbered.line, trouble) {
                blamed = at;
            }
        }
    }
    blamed
}
