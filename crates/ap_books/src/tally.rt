//! A book of one ledger.

ghost use Rattle.std.specs.Prelude.{◌≡◌, ◌+◌, ◌%◌, ◌^◌, ◌<◌};

use std::sync::ledger::{Blank, Book, Ledger, Share};

/// A book, with its total mod 2^64 as a number.
#[derive(Drop)]
pub struct Tally<L: Ledger> {
    number: u64,
    pub(crate) book: Book<L>,
    ghost same: { number ≡ book.total % 2 ^ 64 },
}

impl<L: Ledger> Tally<L> {
    /// The book of a new ledger, which has counted nothing, and all its parts.
    pub(crate) fn open(blank: Blank) -> (Tally<L>, Share<L>)
        requires name { blank.name ≡ L.name }
        requires parts { blank.parts ≡ L.parts }
        ensures total { result.0.book.total ≡ 0 }
        ensures parts { result.1.parts ≡ L.parts }
        ensures amount { result.1.amount ≡ 0 }
    {
        let (book, share) = blank.open::<L>();
        (Tally { number: 0, book }, share)
    }

    /// Counts in the book and in a share.
    pub(crate) fn count(&mut self, mine: &mut Share<L>, more: u64)
        requires { 0 < mine.old.parts }
        ensures book { self.new.book.total ≡ self.old.book.total + more }
        ensures share { mine.new.amount ≡ mine.old.amount + more }
        ensures parts { mine.new.parts ≡ mine.old.parts }
    {
        let Tally { number, book } = self;
        book.add(mine, more);
        *number = number.wrapping_add(more);
    }

    /// What the book has counted, mod 2^64.
    pub(crate) fn number(&self) -> u64
        ensures { result ≡ self.now.book.total % 2 ^ 64 }
    {
        self.number
    }

    /// Given all parts of the ledger: what the book has counted, mod 2^64, which is what the share has
    /// counted.
    pub(crate) fn read(&mut self, all: &mut Share<L>) -> u64
        requires { all.old.parts ≡ L.parts }
        ensures number { result ≡ all.old.amount % 2 ^ 64 }
        ensures whole { all.old.amount ≡ self.old.book.total }
        ensures book { self.new.book.total ≡ self.old.book.total }
        ensures amount { all.new.amount ≡ all.old.amount }
        ensures parts { all.new.parts ≡ all.old.parts }
    {
        let Tally { number, book } = self;
        book.audit(all);
        *number
    }
}
