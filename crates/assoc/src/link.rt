//! The stations of one shard.

ghost use Rattle.std.specs.Prelude.{◌≡◌, ◌≢◌, ℕ, true, false, ◌+◌, ◌*◌, ◌<◌, ◌≤◌, ◌↔◌, IsTrue, None, Some, IsSome, IfOk, OnOk, OnErr, MatchOption, ◌⊎◌, List, map};
ghost use Rattle.assoc.specs.declared.standing.Known.{Known};
ghost use Rattle.std.specs.List.{IsDistinct};
ghost use Rattle.std.specs.Map.{keys_of};
ghost use Rattle.assoc.specs.Standings.{IsFull, IsFree, IsLeastFree, NoneTwice, HoldsAsTheyStand, same_address, standing, IsMoved, disassociated, associated_count};
ghost use Rattle.assoc.specs.Listing.{ListsStations, row_of};

use crate::holders::Holders;
use crate::standing::{Known, KnownStation, Standing};
use crate::station_key::StationKey;
use mac_frame::Address;
use std::alloc::{AllocError, Global};
use std::collections::HashMap;
use std::marker::Model;

/// How many stations a shard can know.
const KNOWN_STATIONS: usize = 512;

/// The greatest association identifier (IEEE 802.11-2016, 9.4.1.8).
const GREATEST_AID: u16 = 2007;

/// The stations that a shard knows, at most 512, and the association identifiers that it has
/// granted. Shard s of 0 to 7 grants identifiers from 1 to 2007 that are s modulo 8.
#[derive(Drop)]
pub struct Link {
    shard: u16,
    stations: HashMap<StationKey, Known>,
    /// At index k the station that has identifier 8 k + shard.
    holders: Holders,
}

impl Model for Link {
    ghost use Rattle.std.specs.HashMap.{get, hash_map_len};
    ghost use Rattle.assoc.specs.Standings.{Linked, same_address};
    ghost use Rattle.assoc.specs.Sound.{IsSound};

    ghost Value = { Linked };

    ghost view = { λ l.
        record { shard = l.shard; stations = l.stations.entries; holders = l.holders } };

    ghost invariant = { λ l. IsSound l.shard (λ a. get same_address l.stations a)
        (hash_map_len l.stations) l.holders };
}

/// Whether an identifier with this holder is free for the station.
fn is_open(holder: Option<Address>, station: Address) -> bool
    ensures free { result ≡ true → (b : List ℕ) → holder ≡ Some b → b ≡ station }
    ensures taken { result ≡ false → (b : List ℕ) × (holder ≡ Some b) × (b ≢ station) }
{
    match holder {
        None => true,
        Some(holder) => holder == station,
    }
}

/// The entries of a table of stations, in the table's order.
fn entries_of(
    alloc: Global,
    stations: &HashMap<StationKey, Known>,
) -> Result<Vec<KnownStation>, AllocError>
    ensures rows { IfOk result (λ rows. rows.items ≡ map row_of stations.now.entries) }
    ensures apart { IsDistinct same_address (keys_of stations.now.entries) }
{
    stations
        .iter()
        .map(|(key, known)| KnownStation {
            station: key.station,
            known: *known,
        })
        .collect(alloc)
}

impl Link {
    /// No station is known.
    pub fn new(alloc: Global, shard: u16) -> Self
        requires { shard < 8 }
        ensures shard { result.shard ≡ shard }
        ensures unknown { (a : List ℕ) → standing result a ≡ None }
    {
        Link {
            shard,
            stations: HashMap::new(alloc),
            holders: Holders::none(),
        }
    }

    /// The number of the shard, below 8.
    pub fn shard(&self) -> u16
        ensures is { result ≡ self.now.shard }
        ensures fits { self.now.shard < 8 }
    {
        self.shard
    }

    /// A station's standing.
    #[inline(always)]
    pub fn standing(&self, station: Address) -> Standing
        ensures { result ≡ standing self.now station }
    {
        self.stations.get(&StationKey { station }).copied()
    }

    /// The known stations, each once with its standing, by increasing addresses.
    pub fn known_stations(&self, alloc: Global) -> Result<Vec<KnownStation>, AllocError>
        ensures { IfOk result (λ rows. ListsStations (standing self.now) rows.items) }
    {
        let mut rows = entries_of(alloc, &self.stations)?;
        rows.sort_unstable_by_key(|row| row.station);
        Ok(rows)
    }

    /// Whether no further station can be known, since 512 are.
    pub fn is_full(&self) -> bool
        ensures { IsTrue result ↔ IsFull (standing self.now) }
    {
        self.stations.len() >= KNOWN_STATIONS
    }

    /// How many stations are associated. The identifiers are held exactly as the standings say, each once.
    pub fn associated(&self) -> u16
        ensures is { result ≡ associated_count self.now }
        ensures holds { HoldsAsTheyStand self.now }
        ensures once { NoneTwice (standing self.now) }
        ensures shard { self.now.shard < 8 }
    {
        self.holders.count()
    }

    /// The station is disassociated (IEEE 802.11-2016, 11.3.5.8): an associated one goes to State 2,
    /// and its identifier is free. Nothing else changes.
    pub fn on_disassoc(&mut self, station: Address)
        ensures shard { self.new.shard ≡ self.old.shard }
        ensures moves { IsMoved (standing self.old) station
            (disassociated (standing self.old station)) (standing self.new) }
    {
        if let Some(Known::Associated(aid)) = self.standing(station) {
            self.take_back(station, aid);
        }
    }

    fn take_back(&mut self, station: Address, aid: u16)
        requires { standing self.old station ≡ Some (Known.Associated aid) }
        ensures shard { self.new.shard ≡ self.old.shard }
        ensures moves { IsMoved (standing self.old) station
            (Some Known.Authenticated) (standing self.new) }
    {
        self.holders.free((aid / 8) as usize);
        match self
            .stations
            .insert(StationKey { station }, Known::Authenticated)
        {
            Ok(_) => {}
            Err(_) => unreachable!(),
        }
    }

    /// The station is authenticated (11.3.4.3): it goes to State 2 from any state, and keeps no
    /// identifier. An error, which only an unknown station meets, changes nothing.
    pub fn on_auth(&mut self, station: Address) -> Result<(), AllocError>
        requires { IsSome (standing self.old station) ⊎ (IsFull (standing self.old) → ⊥) }
        ensures moves { OnOk result
            (IsMoved (standing self.old) station (Some Known.Authenticated) (standing self.new)) }
        ensures shard { self.new.shard ≡ self.old.shard }
        ensures known { OnErr result (standing self.old station ≡ None) }
        ensures refused { OnErr result (self.new ≡ self.old) }
    {
        match self.standing(station) {
            Some(_) => {
                self.on_disassoc(station);
                Ok(())
            }
            None => self.admit(station),
        }
    }

    fn admit(&mut self, station: Address) -> Result<(), AllocError>
        requires unknown { standing self.old station ≡ None }
        requires room { IsFull (standing self.old) → ⊥ }
        ensures moves { OnOk result
            (IsMoved (standing self.old) station (Some Known.Authenticated) (standing self.new)) }
        ensures shard { self.new.shard ≡ self.old.shard }
        ensures refused { OnErr result (self.new ≡ self.old) }
    {
        let room = self.stations.len() < KNOWN_STATIONS;
        prove!(room);
        match self
            .stations
            .insert(StationKey { station }, Known::Authenticated)
        {
            Ok(_) => return Ok(()),
            Err(_) => return Err(AllocError),
        }
    }

    /// The station is deauthenticated (11.3.4.5): it becomes unknown, and its identifier is free.
    pub fn on_deauth(&mut self, station: Address)
        ensures shard { self.new.shard ≡ self.old.shard }
        ensures moves { IsMoved (standing self.old) station None (standing self.new) }
    {
        self.on_disassoc(station);
        self.strike(station);
    }

    fn strike(&mut self, station: Address)
        requires { (n : ℕ) → standing self.old station ≡ Some (Known.Associated n) → ⊥ }
        ensures shard { self.new.shard ≡ self.old.shard }
        ensures moves { IsMoved (standing self.old) station None (standing self.new) }
    {
        let _ = self.stations.remove(&StationKey { station });
    }

    /// The least identifier that may be granted to the station; its own counts as free. None if
    /// others have all.
    pub fn free_aid(&self, station: Address) -> Option<u16>
        ensures { MatchOption result ((n : ℕ) → IsFree self.now.shard (standing self.now) station
            n → ⊥) (IsLeastFree self.now.shard (standing self.now) station) }
    {
        for place in 0..251u16 {
            let aid = 8 * place + self.shard;
            if aid > 0
                && aid <= GREATEST_AID
                && is_open(self.holders.get(place as usize), station)
            {
                return Some(aid);
            }
        }
        None
    }

    /// The station is associated (11.3.5.3, 11.3.5.5): this becomes its only identifier.
    pub fn on_assoc(&mut self, station: Address, aid: u16)
        requires known { IsSome (standing self.old station) }
        requires free { IsFree self.old.shard (standing self.old) station aid }
        ensures shard { self.new.shard ≡ self.old.shard }
        ensures moves { IsMoved (standing self.old) station
            (Some (Known.Associated aid)) (standing self.new) }
    {
        self.on_disassoc(station);
        self.grant(station, aid);
    }

    fn grant(&mut self, station: Address, aid: u16)
        requires known { standing self.old station ≡ Some Known.Authenticated }
        requires free { IsFree self.old.shard (standing self.old) station aid }
        ensures shard { self.new.shard ≡ self.old.shard }
        ensures moves { IsMoved (standing self.old) station
            (Some (Known.Associated aid)) (standing self.new) }
    {
        self.holders.give((aid / 8) as usize, station);
        match self
            .stations
            .insert(StationKey { station }, Known::Associated(aid))
        {
            Ok(_) => {}
            Err(_) => unreachable!(),
        }
    }
}
