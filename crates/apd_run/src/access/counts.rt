//! What a worker's list counts.

ghost use Rattle.std.specs.Prelude.{◌≡◌, count_by};
ghost use Rattle.ap_books.specs.Counts.{is_send, is_up, is_note};
ghost use Rattle.ap_books.specs.Reading.{Reads};
ghost use Rattle.ap_live.specs.Counting.{fate_counts, tally};

use ap_books::Totals;
use ap_live::{Fate, Tagged};
use ap_model::Out;

fn sent_in(outs: &[Out]) -> usize
    ensures is { result ≡ count_by is_send outs.now }
{
    outs.iter()
        .filter(|out| matches!(out, Out::Send(_)))
        .count()
}

fn up_in(outs: &[Out]) -> usize
    ensures is { result ≡ count_by is_up outs.now }
{
    outs.iter().filter(|out| matches!(out, Out::Up(_))).count()
}

fn notes_in(outs: &[Out]) -> usize
    ensures is { result ≡ count_by is_note outs.now }
{
    outs.iter()
        .filter(|out| matches!(out, Out::Note(_)))
        .count()
}

/// What the fate of an event counts.
fn counted_of(fate: &Fate) -> Totals
    ensures reads { Reads result (fate_counts fate.now) }
{
    match fate {
        Fate::Decided { outs, dropped } => Totals {
            events: 1,
            sent: sent_in(outs.as_slice()) as u64,
            up: up_in(outs.as_slice()) as u64,
            dropped: u64::from(*dropped),
            notes: notes_in(outs.as_slice()) as u64,
        },
        Fate::Refused => Totals::new(),
        Fate::NotHandled => Totals::new(),
    }
}

/// What a worker's list counts.
pub(crate) fn counted_in(list: &[Tagged]) -> Totals
    ensures reads { Reads result (tally list.now) }
{
    let mut totals = Totals::new();
    for tagged in list {
        totals = totals.and(counted_of(&tagged.fate));
    }
    totals
}
