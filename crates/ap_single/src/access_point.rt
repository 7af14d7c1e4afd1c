//! Eight shards and programs.

ghost use Rattle.std.specs.Prelude.{◌≡◌, map, None, IfOk, IfSome};
ghost use Rattle.std.specs.Option.{option_map};
ghost use Rattle.bpf_helpers.specs.Hooked.{IsFitting, shapes_of};
ghost use Rattle.ap_model.specs.declared.event.Event.{Event};
ghost use Rattle.ap_core.specs.Shards.{reads};
ghost use Rattle.ap_core.specs.AccessPoints.{AreFresh};
ghost use Rattle.ap_core.specs.Listing.{Joins, ListsAgreements, ListsStations, MergesAgreements, MergesStations};
ghost use Rattle.program_judge.specs.Programs.{IsFor, no_programs, replaced};
ghost use Rattle.ap_single.specs.Leading.{IsLike, Leads};

use crate::views::{view_at, view_in};
use ap_core::{
    AgreementInForce, Event, KnownStation, LinkConfig, Out, Shard, handle_one, new_shards,
    receive_one, shard_of_bytes,
};
use bpf_helpers::{MapTables, WorkerState};
use bpf_machine::Accepted;
use bpf_regions::{Hook, Shapes};
use mac_types::{Address, Tid};
use program_judge::{ProgramJudge, Programs};
use std::alloc::{AllocError, Global};
use std::marker::Model;

/// Eight shards, each at the index of its number, and for each hook a program or none.
#[derive(Drop)]
pub struct AccessPoint {
    shards: [Shard; 8],
    programs: Programs,
}

impl Model for AccessPoint {
    ghost use Rattle.ap_model.specs.AccessPoint.{InPlace};
    ghost use Rattle.ap_core.specs.AccessPoints.{rules_of};
    ghost use Rattle.ap_single.specs.Leading.{Parts};

    ghost Value = { Parts };

    ghost view = { λ a. record { shards = a.shards; programs = a.programs } };

    ghost invariant = { λ a. InPlace (rules_of a.shards) };
}

/// The known stations of each shard, one shard after another.
fn stations_of(alloc: Global, shards: &[Shard]) -> Result<Vec<KnownStation>, AllocError>
    ensures { IfOk result (λ rows. Joins ListsStations (map reads shards.now) rows.items) }
{
    let mut rows = Vec::new(alloc);
    for shard in shards {
        let more = shard.known_stations(alloc)?;
        rows.extend_from_slice(&more)?;
    }
    Ok(rows)
}

/// The agreements in force of each shard, one shard after another.
fn agreements_of(alloc: Global, shards: &[Shard]) -> Result<Vec<AgreementInForce>, AllocError>
    ensures { IfOk result (λ rows. Joins ListsAgreements (map reads shards.now) rows.items) }
{
    let mut rows = Vec::new(alloc);
    for shard in shards {
        let more = shard.agreements(alloc)?;
        rows.extend_from_slice(&more)?;
    }
    Ok(rows)
}

impl AccessPoint {
    /// An access point that has handled nothing and has no programs, for maps of these shapes.
    pub fn new(alloc: Global, config: &LinkConfig, shapes: Shapes) -> Result<Self, AllocError>
        ensures fresh { IfOk result (λ a. AreFresh config.now a.shards) }
        ensures programs { IfOk result (λ a. a.programs ≡ no_programs shapes) }
    {
        let shards = new_shards(alloc, config)?;
        let programs = Programs::none(shapes);
        Ok(AccessPoint { shards, programs })
    }

    /// The shapes of the maps over which the programs run.
    pub fn shapes(&self) -> &Shapes
        ensures { result.now ≡ self.now.programs.shapes }
    {
        self.programs.shapes()
    }

    /// The known stations of all shards, each with its standing, ordered by address.
    pub fn known_stations(&self, alloc: Global) -> Result<Vec<KnownStation>, AllocError>
        ensures { IfOk result (λ rows. MergesStations (map reads self.now.shards) rows.items) }
    {
        let mut rows = stations_of(alloc, &self.shards)?;
        rows.sort_unstable_by_key(|row| row.station);
        Ok(rows)
    }

    /// The agreements in force of all shards, ordered by address and TID.
    pub fn agreements(&self, alloc: Global) -> Result<Vec<AgreementInForce>, AllocError>
        ensures { IfOk result (λ rows. MergesAgreements (map reads self.now.shards) rows.items) }
    {
        let mut rows = agreements_of(alloc, &self.shards)?;
        rows.sort_unstable_by_key(|row| -> (Address, Tid) { (row.station, row.tid) });
        Ok(rows)
    }

    /// Puts this program, or none, in place of a hook's program.
    pub fn put(&mut self, hook: Hook, program: Option<Accepted>)
        requires fits { IfSome program (IsFor self.old.programs.shapes hook) }
        ensures programs { self.new.programs ≡ replaced hook self.old.programs program }
        ensures shards { self.new.shards ≡ self.old.shards }
    {
        self.programs.put(hook, program);
    }

    /// Handles an event at the shards that it concerns, as `ap_core::handle_one` does, judged by the programs over
    /// these maps. None if it is refused for lack of memory, which leaves the readings, the programs and `state`
    /// unchanged.
    #[tactic(auto, using(program_judge::proofs::Judging::judged))]
    pub fn handle(
        &mut self,
        alloc: Global,
        event: Event,
        maps: &[MapTables],
        state: &mut WorkerState,
    ) -> Option<Vec<Out>>
        requires for_maps { self.old.programs.shapes ≡ shapes_of maps.now }
        requires fitting { IsFitting maps.now 0 state.old.seats }
        ensures led { Leads self.old event maps.now state.old
            (option_map (λ outs. outs.items) result) self.new state.new }
        ensures refused { result ≡ None → IsLike self.old self.new × (state.new ≡ state.old) }
        ensures fitting { IsFitting maps.now 0 state.new.seats }
    {
        let view = view_at(&self.shards, &event, maps);
        let mut judge = ProgramJudge::new(&self.programs, view, state);
        handle_one(alloc, &mut self.shards, &event, &mut judge)
    }

    /// Receives bytes that the caller keeps, as `handle` handles the event of such a frame.
    #[tactic(auto, using(program_judge::proofs::Judging::judged))]
    pub fn receive(
        &mut self,
        alloc: Global,
        bytes: &[u8],
        maps: &[MapTables],
        state: &mut WorkerState,
    ) -> Option<Vec<Out>>
        requires for_maps { self.old.programs.shapes ≡ shapes_of maps.now }
        requires fitting { IsFitting maps.now 0 state.old.seats }
        ensures led { Leads self.old (Event.Frame bytes.now) maps.now state.old
            (option_map (λ outs. outs.items) result) self.new state.new }
        ensures refused { result ≡ None → IsLike self.old self.new × (state.new ≡ state.old) }
        ensures fitting { IsFitting maps.now 0 state.new.seats }
    {
        let view = view_in(&self.shards, shard_of_bytes(bytes), maps);
        let mut judge = ProgramJudge::new(&self.programs, view, state);
        receive_one(alloc, &mut self.shards, bytes, &mut judge)
    }
}
