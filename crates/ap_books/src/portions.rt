//! A share of each ledger of each shard.

use crate::ledgers::Ledgers;
use crate::shares::Shares;
use std::marker::Model;

/// Some parts of each ledger of each shard, with what they have counted. It has no run-time data.
#[derive(Drop)]
pub struct Portions<B: Ledgers> {
    pub of0: Shares<B, 0>,
    pub of1: Shares<B, 1>,
    pub of2: Shares<B, 2>,
    pub of3: Shares<B, 3>,
    pub of4: Shares<B, 4>,
    pub of5: Shares<B, 5>,
    pub of6: Shares<B, 6>,
    pub of7: Shares<B, 7>,
}

impl<B: Ledgers> Model for Portions<B> {
    ghost use Rattle.ap_books.specs.Holdings.{Holding};

    ghost Value = { Holding };

    ghost view = { λ s. record {
      of0 = s.of0;
      of1 = s.of1;
      of2 = s.of2;
      of3 = s.of3;
      of4 = s.of4;
      of5 = s.of5;
      of6 = s.of6;
      of7 = s.of7;
    } };
}

impl<B: Ledgers> Portions<B> {
    ghost use Rattle.std.specs.Prelude.{◌≡◌, ◌+◌, ◌<◌};
    ghost use Rattle.ap_books.specs.Counts.{none};
    ghost use Rattle.ap_books.specs.Holdings.{HasParts, HasMoreThan, HasSplit, HasMerged, sum_of};

    /// Splits off this many parts of each ledger, which have counted nothing; the counts stay here.
    pub fn split_off(&mut self, parts: u64) -> Portions<B>
        requires some { 0 < parts }
        requires more { HasMoreThan parts self.old }
        ensures parts { HasParts parts result }
        ensures none { sum_of result ≡ none }
        ensures left { HasSplit parts self.old self.new }
        ensures counts { sum_of self.new ≡ sum_of self.old }
    {
        Portions {
            of0: self.of0.split_off(parts),
            of1: self.of1.split_off(parts),
            of2: self.of2.split_off(parts),
            of3: self.of3.split_off(parts),
            of4: self.of4.split_off(parts),
            of5: self.of5.split_off(parts),
            of6: self.of6.split_off(parts),
            of7: self.of7.split_off(parts),
        }
    }

    /// Adds other parts, with what they have counted.
    pub fn merge(&mut self, other: Portions<B>)
        ensures { HasMerged self.old other self.new }
    {
        let Portions {
            of0,
            of1,
            of2,
            of3,
            of4,
            of5,
            of6,
            of7,
        } = other;
        self.of0.merge(of0);
        self.of1.merge(of1);
        self.of2.merge(of2);
        self.of3.merge(of3);
        self.of4.merge(of4);
        self.of5.merge(of5);
        self.of6.merge(of6);
        self.of7.merge(of7);
    }
}
