//! Rights to decide events at all shards.

use crate::pages::AllPages;
use ap_books::{Ledgers, Portions};
use ap_locked::{Journals, ShardToken};
use std::marker::Model;

/// A token of each shard: parts of its ledgers, the seen prefix of its journal, one's own entries
/// there, and the page with all of them.
#[derive(Drop)]
pub struct ShardTokens<B: Ledgers + Journals> {
    pub(crate) of0: ShardToken<B, 0>,
    pub(crate) of1: ShardToken<B, 1>,
    pub(crate) of2: ShardToken<B, 2>,
    pub(crate) of3: ShardToken<B, 3>,
    pub(crate) of4: ShardToken<B, 4>,
    pub(crate) of5: ShardToken<B, 5>,
    pub(crate) of6: ShardToken<B, 6>,
    pub(crate) of7: ShardToken<B, 7>,
}

impl<B: Ledgers + Journals> Model for ShardTokens<B> {
    ghost use Rattle.ap_shards.specs.Tokens.{Eight};

    ghost Value = { Eight };

    ghost view = { λ s. record { of0 = s.of0; of1 = s.of1; of2 = s.of2; of3 = s.of3; of4 = s.of4; of5 = s.of5; of6 = s.of6; of7 = s.of7 } };
}

impl<B: Ledgers + Journals> ShardTokens<B> {
    ghost use Rattle.std.specs.Prelude.{◌≡◌, ◌-◌, ◌<◌, ◌≤◌};
    ghost use Rattle.ap_shards.specs.Pages.{AreNewPages, pages_of};
    ghost use Rattle.ap_shards.specs.Tokens.{AreTokens, HasGivenOne, HasMoreThanOne, HaveSeenAlike, IsNewcomer, KeepOwn, holding_of};

    /// Splits off one part of each ledger, for a newcomer without entries, which gets the first of this
    /// many new pages of each journal.
    pub fn split_one(&mut self, pages: &mut AllPages<B>, count: u64) -> ShardTokens<B>
        requires more { HasMoreThanOne self.old }
        requires pages { AreNewPages count pages.old }
        requires some { 0 < count }
        requires few { count ≤ 63 }
        ensures new { IsNewcomer self.old result }
        ensures left { HasGivenOne self.old self.new }
        ensures pages { AreNewPages (count - 1) pages.new }
    {
        ShardTokens {
            of0: self.of0.split_off(1, pages.of0.split_page(count)),
            of1: self.of1.split_off(1, pages.of1.split_page(count)),
            of2: self.of2.split_off(1, pages.of2.split_page(count)),
            of3: self.of3.split_off(1, pages.of3.split_page(count)),
            of4: self.of4.split_off(1, pages.of4.split_page(count)),
            of5: self.of5.split_off(1, pages.of5.split_page(count)),
            of6: self.of6.split_off(1, pages.of6.split_page(count)),
            of7: self.of7.split_off(1, pages.of7.split_page(count)),
        }
    }

    /// Of each journal both then have seen the same, which extends what each had seen. Each keeps its
    /// own entries.
    pub fn meet(&mut self, other: &mut ShardTokens<B>)
        ensures this { KeepOwn self.old self.new }
        ensures that { KeepOwn other.old other.new }
        ensures seen { HaveSeenAlike self.new other.new }
        ensures tokens { AreTokens B.config self.new }
        ensures other_tokens { AreTokens B.config other.new }
    {
        self.of0.meet(&mut other.of0);
        self.of1.meet(&mut other.of1);
        self.of2.meet(&mut other.of2);
        self.of3.meet(&mut other.of3);
        self.of4.meet(&mut other.of4);
        self.of5.meet(&mut other.of5);
        self.of6.meet(&mut other.of6);
        self.of7.meet(&mut other.of7);
    }

    /// The parts of the ledgers, with what they have counted, and the pages.
    pub fn into_parts(self) -> (Portions<B>, AllPages<B>)
        ensures shares { result.0 ≡ holding_of self }
        ensures pages { result.1 ≡ pages_of self }
    {
        let ShardTokens {
            of0,
            of1,
            of2,
            of3,
            of4,
            of5,
            of6,
            of7,
        } = self;
        let (shares0, page0) = of0.into_parts();
        let (shares1, page1) = of1.into_parts();
        let (shares2, page2) = of2.into_parts();
        let (shares3, page3) = of3.into_parts();
        let (shares4, page4) = of4.into_parts();
        let (shares5, page5) = of5.into_parts();
        let (shares6, page6) = of6.into_parts();
        let (shares7, page7) = of7.into_parts();
        let shares = Portions {
            of0: shares0,
            of1: shares1,
            of2: shares2,
            of3: shares3,
            of4: shares4,
            of5: shares5,
            of6: shares6,
            of7: shares7,
        };
        let pages = AllPages {
            of0: page0,
            of1: page1,
            of2: page2,
            of3: page3,
            of4: page4,
            of5: page5,
            of6: page6,
            of7: page7,
        };
        (shares, pages)
    }
}
