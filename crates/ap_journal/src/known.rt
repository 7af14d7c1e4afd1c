//! What is known of a journal.

ghost use Rattle.std.specs.Prelude.{◌≡◌, ◌⊎◌, length};
ghost use Rattle.ap_journal.specs.Beginnings.{Begins};

use crate::rule::Law;
use logbook::Seen;
use std::marker::Model;

/// A known prefix of a journal. At run time it is the number of its entries.
#[derive(Drop)]
pub struct Known<E> {
    pub(crate) count: u64,
    pub(crate) seen: Seen<E, u64, Law>,
}

impl<E> Model for Known<E> {
    ghost use Rattle.std.specs.Prelude.{◌≡◌, length};
    ghost use Rattle.ap_journal.specs.Beginnings.{Beginning};

    ghost Value = { Beginning E };

    ghost view = { λ k. record { journal = k.seen.book; entries = k.seen.log } };

    ghost invariant = { λ k. k.count ≡ length k.seen.log };
}

impl<E> Known<E> {
    /// How many entries it has.
    pub fn len(&self) -> u64
        ensures { result ≡ length self.now.entries }
    {
        self.count
    }

    /// A copy.
    pub fn again(&self) -> Known<E>
        ensures { result ≡ self.now }
    {
        Known {
            count: self.count,
            seen: self.seen.again(),
        }
    }

    /// The longer of two prefixes of one journal; the other is a prefix of it.
    pub fn longer(&self, other: &Known<E>) -> Known<E>
        requires { other.now.journal ≡ self.now.journal }
        ensures this { Begins self.now result }
        ensures that { Begins other.now result }
        ensures one { (result ≡ self.now) ⊎ (result ≡ other.now) }
    {
        let mut both = self.seen.again();
        both.learn(&other.seen);
        if self.count < other.count {
            other.again()
        } else {
            self.again()
        }
    }
}
