//! What all shares have counted.

ghost use Rattle.std.specs.Prelude.{◌≡◌, length, IfOk, OnOk};
ghost use Rattle.ap_books.specs.Holdings.{HasParts, sum_of};
ghost use Rattle.ap_books.specs.Reading.{Reads};
ghost use Rattle.ap_locked.specs.Tokens.{AreTheJournal, CountJournal, rules};
ghost use Rattle.ap_shards.specs.Pages.{AreTheJournals, HasPages};
ghost use Rattle.ap_shards.specs.Tokens.{CountJournals};

use crate::new_shards::both;
use crate::pages::AllPages;
use crate::shards::Shards;
use ap_books::{Ledgers, Portions, Shares, Totals};
use ap_locked::{Journals, Locked, Pages};
use std::alloc::AllocError;
use std::sync::{Mutex, Wait};

/// Reads the books of one shard, which say what all shares of it have counted, and what the entries
/// of its journal count.
fn read_under<B: Ledgers + Journals, const SHARD: usize, R: Wait>(
    rt: &R,
    lock: &Mutex<Locked<B, SHARD>>,
    all: &mut Shares<B, SHARD>,
) -> Totals
    requires { all.old.parts ≡ B.shares }
    ensures same { all.new ≡ all.old }
    ensures reads { Reads result all.old.counts }
    ensures journal { CountJournal (rules SHARD B.config) all.old }
{
    lock.lock(rt).read(all)
}

/// Compares all pages of one shard with its journal.
fn reconcile_under<B: Ledgers + Journals, const SHARD: usize, R: Wait>(
    rt: &R,
    lock: &Mutex<Locked<B, SHARD>>,
    all: &mut Shares<B, SHARD>,
    pages: &mut Pages<B, SHARD>,
) -> Result<(), AllocError>
    requires parts { all.old.parts ≡ B.shares }
    requires pages { length pages.old.pages ≡ B.shares }
    ensures same { all.new ≡ all.old }
    ensures same_pages { pages.new ≡ pages.old }
    ensures journal { OnOk result (AreTheJournal (rules SHARD B.config) all.old pages.old.pages) }
{
    lock.lock(rt).reconcile(all, pages)
}

impl<B: Ledgers + Journals> Shards<B> {
    /// Given all parts of all ledgers: the sum of the books, which is what all shares have counted, mod
    /// 2^64, and what the entries of the shards' journals count.
    pub fn gather<R: Wait>(&self, rt: &R, all: &mut Portions<B>) -> Totals
        requires { HasParts B.shares all.old }
        ensures same { all.new ≡ all.old }
        ensures sum { Reads result (sum_of all.old) }
        ensures journals { CountJournals B.config all.old }
    {
        let mut sum = read_under(rt, &self.of0, &mut all.of0);
        sum = sum.and(read_under(rt, &self.of1, &mut all.of1));
        sum = sum.and(read_under(rt, &self.of2, &mut all.of2));
        sum = sum.and(read_under(rt, &self.of3, &mut all.of3));
        sum = sum.and(read_under(rt, &self.of4, &mut all.of4));
        sum = sum.and(read_under(rt, &self.of5, &mut all.of5));
        sum = sum.and(read_under(rt, &self.of6, &mut all.of6));
        sum.and(read_under(rt, &self.of7, &mut all.of7))
    }

    /// Given all parts of all ledgers, and the pages of all tokens: the sum of the books, as `gather`. The
    /// pages together are the shards' journals, each entry at its own place, and the totals count exactly
    /// these. Fails only if a journal is full, at about 2^61 entries, which no run reaches.
    pub fn close<R: Wait>(
        &self,
        rt: &R,
        all: &mut Portions<B>,
        pages: &mut AllPages<B>,
    ) -> Result<Totals, AllocError>
        requires parts { HasParts B.shares all.old }
        requires pages { HasPages B.shares pages.old }
        ensures same { all.new ≡ all.old }
        ensures same_pages { pages.new ≡ pages.old }
        ensures sum { IfOk result (λ totals. Reads totals (sum_of all.old)) }
        ensures entries { OnOk result (AreTheJournals B.config all.old pages.old) }
    {
        let of0 = reconcile_under(rt, &self.of0, &mut all.of0, &mut pages.of0);
        let of1 = reconcile_under(rt, &self.of1, &mut all.of1, &mut pages.of1);
        let of2 = reconcile_under(rt, &self.of2, &mut all.of2, &mut pages.of2);
        let of3 = reconcile_under(rt, &self.of3, &mut all.of3, &mut pages.of3);
        let of4 = reconcile_under(rt, &self.of4, &mut all.of4, &mut pages.of4);
        let of5 = reconcile_under(rt, &self.of5, &mut all.of5, &mut pages.of5);
        let of6 = reconcile_under(rt, &self.of6, &mut all.of6, &mut pages.of6);
        let of7 = reconcile_under(rt, &self.of7, &mut all.of7, &mut pages.of7);
        let first = both(of0, of1);
        let second = both(of2, of3);
        let third = both(of4, of5);
        let fourth = both(of6, of7);
        let low = both(first, second);
        let high = both(third, fourth);
        let _done = both(low, high)?;
        Ok(self.gather(rt, all))
    }
}
