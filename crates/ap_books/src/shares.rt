//! A share of each ledger of one shard.

ghost use Rattle.std.specs.Prelude.{◌≡◌, ◌+◌, ◌<◌};
ghost use Rattle.ap_books.specs.Counts.{none, plus};

use crate::ledgers::{CountLedger, Ledgers};
use std::marker::Model;
use std::sync::ledger::Share;

/// Equally many parts of each ledger of a shard, with what they have counted. It has no run-time data.
#[derive(Drop)]
pub struct Shares<B: Ledgers, const SHARD: usize> {
    pub(crate) events: Share<CountLedger<B, SHARD, 0>>,
    pub(crate) sent: Share<CountLedger<B, SHARD, 1>>,
    pub(crate) up: Share<CountLedger<B, SHARD, 2>>,
    pub(crate) dropped: Share<CountLedger<B, SHARD, 3>>,
    pub(crate) notes: Share<CountLedger<B, SHARD, 4>>,
}

impl<B: Ledgers, const SHARD: usize> Model for Shares<B, SHARD> {
    ghost use Rattle.std.specs.Prelude.{◌≡◌};
    ghost use Rattle.ap_books.specs.Counts.{Portion};

    ghost Value = { Portion };

    ghost view = { λ s. record {
      parts = s.events.parts;
      counts = record {
        events = s.events.amount;
        sent = s.sent.amount;
        up = s.up.amount;
        dropped = s.dropped.amount;
        notes = s.notes.amount;
      };
    } };

    ghost invariant = { λ s. (s.sent.parts ≡ s.events.parts) × (s.up.parts ≡ s.events.parts)
        × (s.dropped.parts ≡ s.events.parts) × (s.notes.parts ≡ s.events.parts) };
}

impl<B: Ledgers, const SHARD: usize> Shares<B, SHARD> {
    /// Splits off this many parts, which have counted nothing; the counts stay here.
    pub fn split_off(&mut self, parts: u64) -> Shares<B, SHARD>
        requires some { 0 < parts }
        requires more { parts < self.old.parts }
        ensures parts { result.parts ≡ parts }
        ensures none { result.counts ≡ none }
        ensures left { self.new.parts + parts ≡ self.old.parts }
        ensures counts { self.new.counts ≡ self.old.counts }
    {
        Shares {
            events: self.events.split_off(parts, 0),
            sent: self.sent.split_off(parts, 0),
            up: self.up.split_off(parts, 0),
            dropped: self.dropped.split_off(parts, 0),
            notes: self.notes.split_off(parts, 0),
        }
    }

    /// Adds other parts, with what they have counted.
    pub fn merge(&mut self, other: Shares<B, SHARD>)
        ensures parts { self.new.parts ≡ self.old.parts + other.parts }
        ensures counts { self.new.counts ≡ plus self.old.counts other.counts }
    {
        let Shares {
            events,
            sent,
            up,
            dropped,
            notes,
        } = other;
        self.events.merge(events);
        self.sent.merge(sent);
        self.up.merge(up);
        self.dropped.merge(dropped);
        self.notes.merge(notes);
    }
}
