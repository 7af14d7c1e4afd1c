//! The books of one shard.

ghost use Rattle.ap_books.specs.Counts.{Counts};

use crate::blanks::Blanks;
use crate::ledgers::{CountLedger, Ledgers};
use crate::out_counts::{notes_in, sent_in, up_in};
use crate::shares::Shares;
use crate::tally::Tally;
use crate::totals::Totals;
use ap_model::Out;
use std::marker::Model;

/// A book for each count of a shard. Clauses see what they have counted.
#[derive(Drop)]
pub struct ShardBooks<B: Ledgers, const SHARD: usize> {
    events: Tally<CountLedger<B, SHARD, 0>>,
    sent: Tally<CountLedger<B, SHARD, 1>>,
    up: Tally<CountLedger<B, SHARD, 2>>,
    dropped: Tally<CountLedger<B, SHARD, 3>>,
    notes: Tally<CountLedger<B, SHARD, 4>>,
}

impl<B: Ledgers, const SHARD: usize> Model for ShardBooks<B, SHARD> {
    ghost Value = { Counts };

    ghost view = { λ s. record {
      events = s.events.book.total;
      sent = s.sent.book.total;
      up = s.up.book.total;
      dropped = s.dropped.book.total;
      notes = s.notes.book.total;
    } };
}

impl<B: Ledgers, const SHARD: usize> ShardBooks<B, SHARD> {
    ghost use Rattle.std.specs.Prelude.{◌≡◌, ◌<◌};
    ghost use Rattle.ap_books.specs.Counts.{none, plus, counts_of, gains};
    ghost use Rattle.ap_books.specs.Naming.{AreNamed, AreInParts};
    ghost use Rattle.ap_books.specs.Reading.{Reads};

    /// The books of new ledgers, which have counted nothing, and all their parts.
    pub fn open(blanks: Blanks) -> (ShardBooks<B, SHARD>, Shares<B, SHARD>)
        requires named { AreNamed (B.name_of SHARD) blanks }
        requires parts { AreInParts B.shares blanks }
        ensures none { result.0 ≡ none }
        ensures whole { result.1 ≡ record { parts = B.shares; counts = none } }
    {
        let (events, events_share) = Tally::open(blanks.events);
        let (sent, sent_share) = Tally::open(blanks.sent);
        let (up, up_share) = Tally::open(blanks.up);
        let (dropped, dropped_share) = Tally::open(blanks.dropped);
        let (notes, notes_share) = Tally::open(blanks.notes);
        (
            ShardBooks {
                events,
                sent,
                up,
                dropped,
                notes,
            },
            Shares {
                events: events_share,
                sent: sent_share,
                up: up_share,
                dropped: dropped_share,
                notes: notes_share,
            },
        )
    }

    /// Counts a handled event in the books and in the shares, by its outputs and whether a data verdict
    /// dropped.
    pub fn count(&mut self, mine: &mut Shares<B, SHARD>, outs: &[Out], dropped: bool)
        requires { 0 < mine.old.parts }
        ensures books { self.new ≡ plus self.old (counts_of outs.now dropped) }
        ensures shares { mine.new ≡ gains mine.old (counts_of outs.now dropped) }
    {
        self.events.count(&mut mine.events, 1);
        self.sent.count(&mut mine.sent, sent_in(outs) as u64);
        self.up.count(&mut mine.up, up_in(outs) as u64);
        self.dropped.count(&mut mine.dropped, u64::from(dropped));
        self.notes.count(&mut mine.notes, notes_in(outs) as u64);
    }

    /// What the books have counted.
    pub fn totals(&self) -> Totals
        ensures { Reads result self.now }
    {
        Totals {
            events: self.events.number(),
            sent: self.sent.number(),
            up: self.up.number(),
            dropped: self.dropped.number(),
            notes: self.notes.number(),
        }
    }

    /// Given all parts of the ledgers: what the books have counted, which is what the shares have
    /// counted.
    pub fn read(&mut self, all: &mut Shares<B, SHARD>) -> Totals
        requires { all.old.parts ≡ B.shares }
        ensures books { self.new ≡ self.old }
        ensures shares { all.new ≡ all.old }
        ensures whole { all.old.counts ≡ self.old }
        ensures totals { Reads result self.old }
    {
        Totals {
            events: self.events.read(&mut all.events),
            sent: self.sent.read(&mut all.sent),
            up: self.up.read(&mut all.up),
            dropped: self.dropped.read(&mut all.dropped),
            notes: self.notes.read(&mut all.notes),
        }
    }
}
