//! What the shards list, each under its lock.

ghost use Rattle.std.specs.Prelude.{◌≡◌, IfOk, IsOkAnd};
ghost use Rattle.ap_core.specs.Listing.{ListsAgreements, ListsStations, MergesAgreements, MergesStations};
ghost use Rattle.ap_locked.specs.Tokens.{KeepsOwn, rules};
ghost use Rattle.ap_shards.specs.Listing.{AddsRows, Shows};
ghost use Rattle.ap_shards.specs.Tokens.{KeepOwn};

use crate::shards::Shards;
use crate::tokens::ShardTokens;
use ap_books::Ledgers;
use ap_core::{AgreementInForce, KnownStation};
use ap_locked::{Journals, Locked, ShardToken};
use mac_types::{Address, Tid};
use std::alloc::{AllocError, Global};
use std::sync::{Mutex, Wait};

/// Adds the shard's known stations to the list, unless an allocation failed before.
fn stations_at<B: Ledgers + Journals, const SHARD: usize>(
    alloc: Global,
    locked: &mut Locked<B, SHARD>,
    mine: &mut ShardToken<B, SHARD>,
    rows: Result<Vec<KnownStation>, AllocError>,
) -> Result<Vec<KnownStation>, AllocError>
    ensures added { IfOk result (λ all. IsOkAnd rows (λ before. AddsRows ListsStations
        (rules SHARD B.config) mine.old mine.new before.items all.items)) }
    ensures keeps { KeepsOwn mine.old mine.new }
{
    locked.show(mine)?;
    let mut rows = rows?;
    let more = locked.known_stations(alloc)?;
    rows.extend_from_slice(&more)?;
    Ok(rows)
}

/// The same under the shard's lock.
fn stations_under<B: Ledgers + Journals, const SHARD: usize, R: Wait>(
    rt: &R,
    alloc: Global,
    lock: &Mutex<Locked<B, SHARD>>,
    mine: &mut ShardToken<B, SHARD>,
    rows: Result<Vec<KnownStation>, AllocError>,
) -> Result<Vec<KnownStation>, AllocError>
    ensures added { IfOk result (λ all. IsOkAnd rows (λ before. AddsRows ListsStations
        (rules SHARD B.config) mine.old mine.new before.items all.items)) }
    ensures keeps { KeepsOwn mine.old mine.new }
{
    let mut locked = lock.lock(rt);
    stations_at(alloc, &mut *locked, mine, rows)
}

/// Adds the shard's agreements in force to the list, unless an allocation failed before.
fn agreements_at<B: Ledgers + Journals, const SHARD: usize>(
    alloc: Global,
    locked: &mut Locked<B, SHARD>,
    mine: &mut ShardToken<B, SHARD>,
    rows: Result<Vec<AgreementInForce>, AllocError>,
) -> Result<Vec<AgreementInForce>, AllocError>
    ensures added { IfOk result (λ all. IsOkAnd rows (λ before. AddsRows ListsAgreements
        (rules SHARD B.config) mine.old mine.new before.items all.items)) }
    ensures keeps { KeepsOwn mine.old mine.new }
{
    locked.show(mine)?;
    let mut rows = rows?;
    let more = locked.agreements(alloc)?;
    rows.extend_from_slice(&more)?;
    Ok(rows)
}

/// The same under the shard's lock.
fn agreements_under<B: Ledgers + Journals, const SHARD: usize, R: Wait>(
    rt: &R,
    alloc: Global,
    lock: &Mutex<Locked<B, SHARD>>,
    mine: &mut ShardToken<B, SHARD>,
    rows: Result<Vec<AgreementInForce>, AllocError>,
) -> Result<Vec<AgreementInForce>, AllocError>
    ensures added { IfOk result (λ all. IsOkAnd rows (λ before. AddsRows ListsAgreements
        (rules SHARD B.config) mine.old mine.new before.items all.items)) }
    ensures keeps { KeepsOwn mine.old mine.new }
{
    let mut locked = lock.lock(rt);
    agreements_at(alloc, &mut *locked, mine, rows)
}

impl<B: Ledgers + Journals> Shards<B> {
    /// The known stations of all shards, ordered by address: each shard's at one moment, under its
    /// lock. The tokens then have seen what had been decided at these moments.
    pub fn known_stations<R: Wait>(
        &self,
        rt: &R,
        alloc: Global,
        mine: &mut ShardTokens<B>,
    ) -> Result<Vec<KnownStation>, AllocError>
        ensures shown { IfOk result (λ rows. Shows MergesStations B.config mine.old mine.new rows.items) }
        ensures own { KeepOwn mine.old mine.new }
    {
        let rows = Ok(Vec::new(alloc));
        let rows = stations_under(rt, alloc, &self.of0, &mut mine.of0, rows);
        let rows = stations_under(rt, alloc, &self.of1, &mut mine.of1, rows);
        let rows = stations_under(rt, alloc, &self.of2, &mut mine.of2, rows);
        let rows = stations_under(rt, alloc, &self.of3, &mut mine.of3, rows);
        let rows = stations_under(rt, alloc, &self.of4, &mut mine.of4, rows);
        let rows = stations_under(rt, alloc, &self.of5, &mut mine.of5, rows);
        let rows = stations_under(rt, alloc, &self.of6, &mut mine.of6, rows);
        let mut rows = stations_under(rt, alloc, &self.of7, &mut mine.of7, rows)?;
        rows.sort_unstable_by_key(|row| row.station);
        Ok(rows)
    }

    /// The agreements in force of all shards, ordered by address and TID: each shard's at one moment,
    /// under its lock. The tokens then have seen what had been decided at these moments.
    pub fn agreements<R: Wait>(
        &self,
        rt: &R,
        alloc: Global,
        mine: &mut ShardTokens<B>,
    ) -> Result<Vec<AgreementInForce>, AllocError>
        ensures shown { IfOk result (λ rows. Shows MergesAgreements B.config mine.old mine.new rows.items) }
        ensures own { KeepOwn mine.old mine.new }
    {
        let rows = Ok(Vec::new(alloc));
        let rows = agreements_under(rt, alloc, &self.of0, &mut mine.of0, rows);
        let rows = agreements_under(rt, alloc, &self.of1, &mut mine.of1, rows);
        let rows = agreements_under(rt, alloc, &self.of2, &mut mine.of2, rows);
        let rows = agreements_under(rt, alloc, &self.of3, &mut mine.of3, rows);
        let rows = agreements_under(rt, alloc, &self.of4, &mut mine.of4, rows);
        let rows = agreements_under(rt, alloc, &self.of5, &mut mine.of5, rows);
        let rows = agreements_under(rt, alloc, &self.of6, &mut mine.of6, rows);
        let mut rows = agreements_under(rt, alloc, &self.of7, &mut mine.of7, rows)?;
        rows.sort_unstable_by_key(|row| -> (Address, Tid) { (row.station, row.tid) });
        Ok(rows)
    }
}
