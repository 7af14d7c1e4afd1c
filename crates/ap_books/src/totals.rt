//! Counts as numbers.

ghost use Rattle.std.specs.Prelude.{◌≡◌, ◌+◌, ◌%◌, ◌^◌, ℕ};

/// How many events were handled, frames sent, data passed up, data verdicts that dropped, and notes
/// given; each mod 2^64.
#[derive(Clone, Copy, Debug, PartialEq, Eq)]
pub struct Totals {
    pub events: u64,
    pub sent: u64,
    pub up: u64,
    pub dropped: u64,
    pub notes: u64,
}

impl Totals {
    ghost use Rattle.ap_books.specs.Counts.{Counts, none, plus};
    ghost use Rattle.ap_books.specs.Reading.{Reads};

    /// Zeros.
    pub fn new() -> Totals
        ensures { Reads result none }
    {
        Totals {
            events: 0,
            sent: 0,
            up: 0,
            dropped: 0,
            notes: 0,
        }
    }

    /// The sum: if these are two counts mod 2^64, it is their sum mod 2^64.
    pub fn and(self, other: Totals) -> Totals
        ensures { (x y : Counts) → Reads self x → Reads other y → Reads result (plus x y) }
    {
        Totals {
            events: added(self.events, other.events),
            sent: added(self.sent, other.sent),
            up: added(self.up, other.up),
            dropped: added(self.dropped, other.dropped),
            notes: added(self.notes, other.notes),
        }
    }
}

/// The sum mod 2^64.
fn added(a: u64, b: u64) -> u64
    ensures { (x y : ℕ) → a ≡ x % 2 ^ 64 → b ≡ y % 2 ^ 64 → result ≡ (x + y) % 2 ^ 64 }
{
    a.wrapping_add(b)
}
