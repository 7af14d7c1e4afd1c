//! New shards.

ghost use Rattle.std.specs.Prelude.{◌≡◌, ◌-◌, ◌<◌, ◌≤◌, IfOk, Ok};
ghost use Rattle.ap_locked.specs.Naming.{IsNamed};
ghost use Rattle.ap_shards.specs.Opening.{IsWholeAt};

use crate::pages::AllPages;
use crate::shards::Shards;
use crate::tokens::ShardTokens;
use ap_books::Ledgers;
use ap_locked::{Journals, Locked, NewShard, Pages, ShardToken};
use ap_model::LinkConfig;
use crossbeam_utils::CachePadded;
use std::alloc::{AllocError, Global};
use std::sync::Mutex;

/// What the eight shards begin with, not yet named: new ledgers and journals.
#[derive(Drop)]
pub struct NewShards {
    pub of0: NewShard,
    pub of1: NewShard,
    pub of2: NewShard,
    pub of3: NewShard,
    pub of4: NewShard,
    pub of5: NewShard,
    pub of6: NewShard,
    pub of7: NewShard,
}

impl NewShards {
    ghost use Rattle.ap_shards.specs.Opening.{AreParted};

    /// For each shard new ledgers, each divided into this many parts, and a new journal.
    pub fn new(parts: u64) -> NewShards
        ensures { AreParted parts result }
    {
        NewShards {
            of0: NewShard::new(parts),
            of1: NewShard::new(parts),
            of2: NewShard::new(parts),
            of3: NewShard::new(parts),
            of4: NewShard::new(parts),
            of5: NewShard::new(parts),
            of6: NewShard::new(parts),
            of7: NewShard::new(parts),
        }
    }
}

/// A shard, a token with all parts of its ledgers and the first page, and the other pages, in memory of
/// their own, since they have many parts.
#[derive(Drop)]
struct Opened<B: Ledgers + Journals, const SHARD: usize> {
    all: Box<(Locked<B, SHARD>, ShardToken<B, SHARD>, Pages<B, SHARD>)>,
}

/// Puts what was made into memory of its own.
fn boxed<T: Drop>(alloc: Global, made: Result<T, AllocError>) -> Result<Box<T>, AllocError>
    ensures { IfOk result (λ b. made ≡ Ok b.value) }
{
    let value = made?;
    let value = Box::new(alloc, value)?;
    Ok(value)
}

/// Both values, if there are both. Made by one call, since shards have many parts.
pub(crate) fn both<F: Drop, S: Drop>(
    first: Result<F, AllocError>,
    second: Result<S, AllocError>,
) -> Result<(F, S), AllocError>
    ensures first { IfOk result (λ r. first ≡ Ok r.0) }
    ensures second { IfOk result (λ r. second ≡ Ok r.1) }
{
    let first = first?;
    let second = second?;
    Ok((first, second))
}

fn open_one<B: Ledgers + Journals, const SHARD: usize>(
    alloc: Global,
    config: &LinkConfig,
    new: NewShard,
) -> Result<Opened<B, SHARD>, AllocError>
    requires shard { SHARD < 8 }
    requires named { IsNamed (B.name_of SHARD) B.shares (B.journal_of SHARD) new }
    requires config { config.now ≡ B.config }
    requires some { 0 < B.shares }
    requires few { B.shares ≤ 63 }
    ensures { IfOk result (λ r. IsWholeAt B.shares r.all.value.1 r.all.value.2) }
{
    let all = boxed(alloc, Locked::new(alloc, config, new))?;
    Ok(Opened { all })
}

fn open_two<B: Ledgers + Journals, const FIRST: usize, const SECOND: usize>(
    alloc: Global,
    config: &LinkConfig,
    new: (NewShard, NewShard),
) -> Result<(Opened<B, FIRST>, Opened<B, SECOND>), AllocError>
    requires first { FIRST < 8 }
    requires second { SECOND < 8 }
    requires named_first { IsNamed (B.name_of FIRST) B.shares (B.journal_of FIRST) new.0 }
    requires named_second { IsNamed (B.name_of SECOND) B.shares (B.journal_of SECOND) new.1 }
    requires config { config.now ≡ B.config }
    requires some { 0 < B.shares }
    requires few { B.shares ≤ 63 }
    ensures first { IfOk result (λ r. IsWholeAt B.shares r.0.all.value.1 r.0.all.value.2) }
    ensures second { IfOk result (λ r. IsWholeAt B.shares r.1.all.value.1 r.1.all.value.2) }
{
    let first = open_one(alloc, config, new.0);
    let second = open_one(alloc, config, new.1);
    let (first, second) = both(first, second)?;
    Ok((first, second))
}

/// Four shards, two by two.
#[derive(Drop)]
struct OpenedFour<
    B: Ledgers + Journals,
    const FIRST: usize,
    const SECOND: usize,
    const THIRD: usize,
    const FOURTH: usize,
> {
    low: (Opened<B, FIRST>, Opened<B, SECOND>),
    high: (Opened<B, THIRD>, Opened<B, FOURTH>),
}

fn open_four<
    B: Ledgers + Journals,
    const FIRST: usize,
    const SECOND: usize,
    const THIRD: usize,
    const FOURTH: usize,
>(
    alloc: Global,
    config: &LinkConfig,
    new: ((NewShard, NewShard), (NewShard, NewShard)),
) -> Result<OpenedFour<B, FIRST, SECOND, THIRD, FOURTH>, AllocError>
    requires first { FIRST < 8 }
    requires second { SECOND < 8 }
    requires third { THIRD < 8 }
    requires fourth { FOURTH < 8 }
    requires named_first { IsNamed (B.name_of FIRST) B.shares (B.journal_of FIRST) new.0.0 }
    requires named_second { IsNamed (B.name_of SECOND) B.shares (B.journal_of SECOND) new.0.1 }
    requires named_third { IsNamed (B.name_of THIRD) B.shares (B.journal_of THIRD) new.1.0 }
    requires named_fourth { IsNamed (B.name_of FOURTH) B.shares (B.journal_of FOURTH) new.1.1 }
    requires config { config.now ≡ B.config }
    requires some { 0 < B.shares }
    requires few { B.shares ≤ 63 }
    ensures first { IfOk result (λ r. IsWholeAt B.shares r.low.0.all.value.1 r.low.0.all.value.2) }
    ensures second { IfOk result (λ r. IsWholeAt B.shares r.low.1.all.value.1 r.low.1.all.value.2) }
    ensures third { IfOk result (λ r. IsWholeAt B.shares r.high.0.all.value.1 r.high.0.all.value.2) }
    ensures fourth { IfOk result (λ r. IsWholeAt B.shares r.high.1.all.value.1 r.high.1.all.value.2) }
{
    let low = open_two(alloc, config, new.0);
    let high = open_two(alloc, config, new.1);
    let (low, high) = both(low, high)?;
    Ok(OpenedFour { low, high })
}

/// Eight shards, tokens with all parts of their ledgers and the first pages, and the other pages.
fn joined<B: Ledgers + Journals>(
    low: OpenedFour<B, 0, 1, 2, 3>,
    high: OpenedFour<B, 4, 5, 6, 7>,
) -> (Shards<B>, ShardTokens<B>, AllPages<B>)
    ensures tokens { result.1 ≡ record {
      of0 = low.low.0.all.value.1;
      of1 = low.low.1.all.value.1;
      of2 = low.high.0.all.value.1;
      of3 = low.high.1.all.value.1;
      of4 = high.low.0.all.value.1;
      of5 = high.low.1.all.value.1;
      of6 = high.high.0.all.value.1;
      of7 = high.high.1.all.value.1;
    } }
    ensures pages { result.2 ≡ record {
      of0 = low.low.0.all.value.2.pages;
      of1 = low.low.1.all.value.2.pages;
      of2 = low.high.0.all.value.2.pages;
      of3 = low.high.1.all.value.2.pages;
      of4 = high.low.0.all.value.2.pages;
      of5 = high.low.1.all.value.2.pages;
      of6 = high.high.0.all.value.2.pages;
      of7 = high.high.1.all.value.2.pages;
    } }
{
    let (of0, of1) = low.low;
    let (of2, of3) = low.high;
    let (of4, of5) = high.low;
    let (of6, of7) = high.high;
    let (lock0, token0, page0) = Box::into_inner(of0.all);
    let (lock1, token1, page1) = Box::into_inner(of1.all);
    let (lock2, token2, page2) = Box::into_inner(of2.all);
    let (lock3, token3, page3) = Box::into_inner(of3.all);
    let (lock4, token4, page4) = Box::into_inner(of4.all);
    let (lock5, token5, page5) = Box::into_inner(of5.all);
    let (lock6, token6, page6) = Box::into_inner(of6.all);
    let (lock7, token7, page7) = Box::into_inner(of7.all);
    let shards = Shards {
        of0: CachePadded::new(Mutex::new(lock0)),
        of1: CachePadded::new(Mutex::new(lock1)),
        of2: CachePadded::new(Mutex::new(lock2)),
        of3: CachePadded::new(Mutex::new(lock3)),
        of4: CachePadded::new(Mutex::new(lock4)),
        of5: CachePadded::new(Mutex::new(lock5)),
        of6: CachePadded::new(Mutex::new(lock6)),
        of7: CachePadded::new(Mutex::new(lock7)),
    };
    let tokens = ShardTokens {
        of0: token0,
        of1: token1,
        of2: token2,
        of3: token3,
        of4: token4,
        of5: token5,
        of6: token6,
        of7: token7,
    };
    let pages = AllPages {
        of0: page0,
        of1: page1,
        of2: page2,
        of3: page3,
        of4: page4,
        of5: page5,
        of6: page6,
        of7: page7,
    };
    (shards, tokens, pages)
}

impl<B: Ledgers + Journals> Shards<B> {
    ghost use Rattle.ap_shards.specs.Opening.{AreNamed, whole};
    ghost use Rattle.ap_shards.specs.Pages.{AreNewPages};

    /// Eight new shards with the access point's configuration, tokens with all parts of their ledgers
    /// and the first pages, and all other pages.
    pub fn open(
        alloc: Global,
        config: &LinkConfig,
        new: NewShards,
    ) -> Result<(Shards<B>, ShardTokens<B>, AllPages<B>), AllocError>
        requires named { AreNamed B.name_of B.shares B.journal_of new }
        requires config { config.now ≡ B.config }
        requires some { 0 < B.shares }
        requires few { B.shares ≤ 63 }
        ensures tokens { IfOk result (λ r. r.1 ≡ whole B.shares) }
        ensures pages { IfOk result (λ r. AreNewPages (B.shares - 1) r.2) }
    {
        let NewShards {
            of0,
            of1,
            of2,
            of3,
            of4,
            of5,
            of6,
            of7,
        } = new;
        let low = open_four(alloc, config, ((of0, of1), (of2, of3)));
        let high = open_four(alloc, config, ((of4, of5), (of6, of7)));
        let (low, high) = both(low, high)?;
        Ok(joined(low, high))
    }
}
