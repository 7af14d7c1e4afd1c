//! What is found for an expectation, and if that meets it.

ghost use Rattle.std.specs.Prelude.{◌≡◌, ◌==◌};
ghost use Rattle.std.specs.List.{list_any};
ghost use Rattle.apd_trials.specs.Met.{is_same, is_met};

use crate::admission::Reason;
use apd_cases::{Expectation, Verdict};
use arrayvec::ArrayVec;

/// What is found for an expectation.
#[derive(Drop)]
pub enum Found {
    /// The policy isn't admitted.
    Unadmitted(Reason),
    /// The policy is admitted.
    Accepted { budget: u32 },
    /// A run ends with this verdict, after so many instructions.
    Ran { verdict: Verdict, steps: u32 },
    /// A run notes these numbers; of more than 16, these are the first.
    Noted(ArrayVec<u64, 16>),
    /// After a run, the word has this value.
    Holds(u64),
}

fn is_same(verdict: Verdict, other: Verdict) -> bool
    ensures is { result ≡ is_same verdict other }
{
    match (verdict, other) {
        (Verdict::Admit, Verdict::Admit) => true,
        (Verdict::Refuse(status), Verdict::Refuse(another)) => status == another,
        (Verdict::Size(size), Verdict::Size(another)) => size == another,
        (Verdict::Decline, Verdict::Decline) => true,
        (Verdict::Pass(mark), Verdict::Pass(another)) => mark == another,
        (Verdict::Discard, Verdict::Discard) => true,
        _ => false,
    }
}

/// Whether a number is among others.
fn has(notes: &[u64], wanted: u64) -> bool
    ensures is { result ≡ list_any (λ note. note == wanted) notes.now }
{
    let mut found = false;
    for note in notes {
        found |= *note == wanted;
    }
    found
}

/// Whether an expectation is met by what is found for it.
pub(crate) fn is_met(expectation: Expectation, found: &Found) -> bool
    ensures is { result ≡ is_met expectation found.now }
{
    match (expectation, found) {
        (Expectation::Verdict(wanted), Found::Ran { verdict, .. }) => is_same(wanted, *verdict),
        (Expectation::Refused(number), Found::Unadmitted(why)) => why.number() == number,
        (Expectation::Budget(most), Found::Accepted { budget }) => *budget <= most,
        (Expectation::Steps(most), Found::Ran { steps, .. }) => *steps <= most,
        (Expectation::Note(note), Found::Noted(notes)) => has(notes.as_slice(), note),
        (Expectation::Word { value, .. }, Found::Holds(found)) => *found == value,
        _ => false,
    }
}
