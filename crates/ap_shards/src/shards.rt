//! The locked shards.

use ap_books::Ledgers;
use ap_locked::{Journals, Locked};
use crossbeam_utils::CachePadded;
use std::sync::Mutex;

/// Each shard under its own lock, on cache lines of its own, since workers of their own write them.
/// They are eight fields, since a shard's type names its ledgers.
#[derive(Drop)]
pub struct Shards<B: Ledgers + Journals> {
    pub(crate) of0: CachePadded<Mutex<Locked<B, 0>>>,
    pub(crate) of1: CachePadded<Mutex<Locked<B, 1>>>,
    pub(crate) of2: CachePadded<Mutex<Locked<B, 2>>>,
    pub(crate) of3: CachePadded<Mutex<Locked<B, 3>>>,
    pub(crate) of4: CachePadded<Mutex<Locked<B, 4>>>,
    pub(crate) of5: CachePadded<Mutex<Locked<B, 5>>>,
    pub(crate) of6: CachePadded<Mutex<Locked<B, 6>>>,
    pub(crate) of7: CachePadded<Mutex<Locked<B, 7>>>,
}
