//! Whose agreement an agreement is.

ghost use Rattle.std.specs.Prelude.{◌≡◌};
ghost use Rattle.ap_agreements.specs.Ranks.{IsRanked};
ghost use Rattle.ap_agreements.specs.Tables.{key_cmp};

use mac_types::{Address, Tid};
use std::cmp::Ordering;
use std::marker::Model;

/// Whose agreement it is. Keys are ordered by address, then by TID, which is the order of their ranks.
#[derive(Drop)]
pub(crate) struct Key {
    station: Address,
    tid: Tid,
    rank: u64,
}

impl Model for Key {
    ghost use Rattle.std.specs.Prelude.{List, ℕ};
    ghost use Rattle.ap_agreements.specs.Ranks.{IsRanked};

    ghost Value = { List ℕ × ℕ };

    ghost view = { λ k. (k.station, k.tid) };

    ghost invariant = { λ k. IsRanked k.station k.tid k.rank };
}

/// The octets of an address and then a TID, as one number.
fn rank_of(station: Address, tid: Tid) -> u64
    ensures { IsRanked station tid result }
{
    let [a, b, c, d, e, f] = station.octets();
    u64::from_be_bytes([0, a, b, c, d, e, f, tid.number()])
}

impl Key {
    pub(crate) fn new(station: Address, tid: Tid) -> Key
        ensures { result ≡ (station, tid) }
    {
        let rank = rank_of(station, tid);
        Key { station, tid, rank }
    }

    pub(crate) fn station(&self) -> Address
        ensures { result ≡ self.now.0 }
    {
        self.station
    }

    pub(crate) fn tid(&self) -> Tid
        ensures { result ≡ self.now.1 }
    {
        self.tid
    }

    /// How it compares with another.
    #[inline(always)]
    pub(crate) fn compare(&self, other: &Key) -> Ordering
        ensures { result ≡ key_cmp self.now other.now }
    {
        self.rank.cmp(&other.rank)
    }
}
