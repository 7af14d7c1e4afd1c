//! Adds up the reports of events, and compares them with what was submitted.

ghost use Rattle.std.specs.Prelude.{◌<◌};

use crate::frames::address;
use ap_books::Totals;
use ap_live::{Fate, Tagged};
use ap_model::{Out, Up};

/// How many pairs of an operator and a shard a soak has.
const WAYS: usize = 32;

/// The call of an operator's data: its index among the data that the operator submits, and the operator's number, 0 to
/// 3. Data n goes to the operator's station in shard n mod 8.
pub(crate) fn call_of(index: u64, operator: u8) -> u64 {
    index.wrapping_mul(16).wrapping_add(u64::from(operator))
}

/// The counts of one event's outcome.
pub(crate) fn counts_of(outs: &[Out], dropped: bool) -> Totals {
    let mut counts = Totals {
        events: 1,
        sent: 0,
        up: 0,
        dropped: u64::from(dropped),
        notes: 0,
    };
    for out in outs {
        match out {
            Out::Send(_) => counts.sent = counts.sent.wrapping_add(1),
            Out::Up(_) => counts.up = counts.up.wrapping_add(1),
            Out::Note(_) => counts.notes = counts.notes.wrapping_add(1),
        }
    }
    counts
}

/// What one worker reported.
#[derive(Clone, Copy)]
pub(crate) struct Tally {
    /// The totals of the reports.
    pub totals: Totals,
    /// How many events were refused or not handled; and how many data frames came out of order, or not exactly once, or
    /// had another outcome than being passed up alone or dropped.
    pub wrong: u64,
    /// How many data frames of each operator came to each shard.
    came: [u64; 32],
}

/// The pair of operator and shard of a call.
fn way(call: u64) -> usize
    ensures { result < 32 }
{
    ((call % 4) * 8 + (call / 16) % 8) as usize
}

/// Whether this is the data with this call.
fn is_of(up: &Up, call: u64) -> bool {
    let index = call / 16;
    let station = address((call % 4) as u8, (index % 8) as u8);
    up.source.octets() == station && u64::from(up.number.number()) == index / 8 % 4096
}

/// Whether exactly the data with this call was passed up, or nothing if it was dropped.
fn is_right(outs: &[Out], dropped: bool, call: u64) -> bool {
    if dropped {
        return outs.is_empty();
    }
    if outs.len() != 1 {
        return false;
    }
    match &outs[0] {
        Out::Up(up) => is_of(up, call),
        _ => false,
    }
}

impl Tally {
    /// Nothing reported yet.
    pub(crate) fn new() -> Tally {
        Tally {
            totals: Totals::new(),
            wrong: 0,
            came: [0; WAYS],
        }
    }

    /// Whether the data is its pair's next, with the right outcome.
    fn is_next(&mut self, call: u64, outs: &[Out], dropped: bool) -> bool {
        let way = way(call);
        let place = self.came[way];
        self.came[way] = place.wrapping_add(1);
        call / 16 / 8 == place && is_right(outs, dropped, call)
    }

    fn count(&mut self, call: u64, outs: &[Out], dropped: bool) {
        self.totals = self.totals.and(counts_of(outs, dropped));
        if call % 16 < 4 && !self.is_next(call, outs, dropped) {
            self.wrong = self.wrong.wrapping_add(1);
        }
    }

    fn take_one(&mut self, tagged: &Tagged) {
        match &tagged.fate {
            Fate::Decided { outs, dropped } => self.count(
                tagged.item.call,
                outs.as_slice(),
                *dropped,
            ),
            _ => self.wrong = self.wrong.wrapping_add(1),
        }
    }

    /// Counts the reports, and empties the list.
    pub(crate) fn take(&mut self, list: &mut Vec<Tagged>) {
        for tagged in list.iter() {
            self.take_one(tagged);
        }
        list.clear();
    }
}
