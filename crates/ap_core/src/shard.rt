//! A shard: the stations whose last address octet is its number modulo 8.

ghost use Rattle.std.specs.Prelude.{◌≡◌, ◌<◌};
ghost use Rattle.ap_model.specs.Runs.{History, opening};
ghost use Rattle.ap_core.specs.Handles.{reading, rules};

use crate::ends::{UNKNOWN_STATION, on_close};
use crate::moves::deauthenticate;
use crate::outcome::Outcome;
use crate::receive::receive;
use crate::room::Room;
use crate::state::{Setting, State};
use crate::ticks::{TickRoom, most_outs, tick, tick_room};
use ap_agreements::{AgreementInForce, Agreements};
use ap_model::{Event, Judge, LinkConfig, Out};
use assoc::{KnownStation, Link};
use mac_frame::{Address, MacFrame, Reason};
use std::alloc::{AllocError, Global};

/// A shard of an access point's link. Some run of the link that began with no stations leads to its
/// readings.
#[derive(Drop)]
pub struct Shard {
    state: State,
    config: LinkConfig,
    ghost history: { ∥ History (rules state.link.shard config) (reading state) ∥₁ },
}

/// The state of a shard that has handled nothing.
fn opened(alloc: Global, shard: u16) -> State
    requires { shard < 8 }
    ensures shard { result.link.shard ≡ shard }
    ensures opening { reading result ≡ opening }
{
    State {
        link: Link::new(alloc, shard),
        agreements: Agreements::new(alloc),
        clock: 0,
    }
}

impl Shard {
    ghost use Rattle.std.specs.Prelude.{◌≡◌, ◌+◌, ◌-◌, ◌^◌, min, ◌<◌, ◌≤◌, IfOk, IfErr, [], vec_len, vec_capacity};
    ghost use Rattle.ap_model.specs.declared.event.Event.{Event};
    ghost use Rattle.ap_model.specs.Runs.{History, opening};
    ghost use Rattle.ap_model.specs.Stations.{AreAssociated};
    ghost use Rattle.ap_model.specs.Steps.{Step};
    ghost use Rattle.ap_core.specs.Handles.{rules};
    ghost use Rattle.ap_core.specs.AccessPoints.{IsFresh};
    ghost use Rattle.ap_core.specs.Listing.{ListsAgreements, ListsStations};
    ghost use Rattle.ap_core.specs.Shards.{reads, ruled, Handles, Decides};
    ghost use Rattle.ap_core.specs.Ticking.{late_outs, HasRoom, TickStep};

    /// A shard that has handled nothing, with a copy of the configuration.
    pub fn new(alloc: Global, shard: u16, config: &LinkConfig) -> Result<Self, AllocError>
        requires { shard < 8 }
        ensures rules { IfOk result (λ s. ruled s ≡ rules shard config.now) }
        ensures opening { IfOk result (λ s. reads s ≡ opening) }
    {
        let config = config.clone()?;
        Ok(Shard::with_config(alloc, shard, config))
    }

    /// A shard that has handled nothing.
    pub(crate) fn with_config(alloc: Global, shard: u16, config: LinkConfig) -> Self
        requires { shard < 8 }
        ensures fresh { IsFresh config shard result }
    {
        let state = opened(alloc, shard);
        Shard { state, config }
    }

    /// The sum of the ticks so far, at most 2^64 - 1.
    pub fn clock(&self) -> u64
        ensures { result ≡ (reads self.now).clock }
    {
        self.state.clock
    }

    /// How many stations are associated, at most 2007. The shard, whose number is below 8, has a history.
    pub fn stations(&self) -> u16
        ensures are { AreAssociated (reads self.now).standing result }
        ensures few { result ≤ 2007 }
        ensures history { ∥ History (ruled self.now) (reads self.now) ∥₁ }
        ensures shard { (ruled self.now).shard < 8 }
    {
        self.state.link.associated()
    }

    /// The known stations, each once with its standing, by increasing addresses.
    pub fn known_stations(&self, alloc: Global) -> Result<Vec<KnownStation>, AllocError>
        ensures { IfOk result (λ rows. ListsStations (reads self.now) rows.items) }
    {
        self.state.link.known_stations(alloc)
    }

    /// The agreements in force, each once, by increasing addresses and TIDs.
    pub fn agreements(&self, alloc: Global) -> Result<Vec<AgreementInForce>, AllocError>
        ensures { IfOk result (λ rows. ListsAgreements (reads self.now) rows.items) }
    {
        self.state.agreements.in_force(alloc)
    }

    /// Handles an event that concerns this shard (`shard_of`, or a tick), as one step of the link. An
    /// event that concerns another shard is handled too, as a step of this one by its readings. An
    /// event that is refused for lack of memory changes nothing and asks for no verdict.
    pub fn handle<J: Judge>(
        &mut self,
        alloc: Global,
        event: &Event,
        judge: &mut J,
    ) -> Result<Vec<Out>, AllocError>
        ensures step { IfOk result
            (λ outs. Handles J.gives self.old event.now judge.old outs.items self.new judge.new) }
        ensures rules { ruled self.new ≡ ruled self.old }
        ensures refused { IfErr result (λ _. (self.new ≡ self.old) × (judge.new ≡ judge.old)) }
    {
        let outcome = self.handle_with_drop(alloc, event, judge)?;
        let Outcome { outs, dropped: _ } = outcome;
        Ok(outs)
    }

    /// Handles an event as `handle` does, and also returns whether a verdict dropped data.
    pub fn handle_with_drop<J: Judge>(
        &mut self,
        alloc: Global,
        event: &Event,
        judge: &mut J,
    ) -> Result<Outcome, AllocError>
        ensures step { IfOk result (λ o. Decides J.gives self.old event.now judge.old o.outs.items
            o.dropped self.new judge.new) }
        ensures rules { ruled self.new ≡ ruled self.old }
        ensures refused { IfErr result (λ _. (self.new ≡ self.old) × (judge.new ≡ judge.old)) }
    {
        match event {
            Event::Frame(bytes) => self.receive(alloc, bytes.bytes(), judge),
            Event::Tick(units) => {
                let outs = self.on_tick(alloc, *units)?;
                Ok(Outcome {
                    outs,
                    dropped: false,
                })
            }
            Event::Kick { station, reason } => {
                let outs = self.on_kick(alloc, *station, *reason)?;
                Ok(Outcome {
                    outs,
                    dropped: false,
                })
            }
            Event::Close { station, tid } => {
                let outs = on_close(alloc, &mut self.state, &self.config, *station, *tid)?;
                Ok(Outcome {
                    outs,
                    dropped: false,
                })
            }
        }
    }

    /// Receives bytes that the caller keeps, as `handle_with_drop` handles the event of such a frame.
    pub fn receive<J: Judge>(
        &mut self,
        alloc: Global,
        bytes: &[u8],
        judge: &mut J,
    ) -> Result<Outcome, AllocError>
        ensures step { IfOk result (λ o. Decides J.gives self.old (Event.Frame bytes.now) judge.old
            o.outs.items o.dropped self.new judge.new) }
        ensures rules { ruled self.new ≡ ruled self.old }
        ensures refused { IfErr result (λ _. (self.new ≡ self.old) × (judge.new ≡ judge.old)) }
    {
        let outcome = receive(alloc, &mut self.state, &self.config, bytes, judge)?;
        Ok(outcome)
    }

    /// Allocates the memory for a tick, except its outputs.
    pub(crate) fn tick_room(&self, alloc: Global, units: u32) -> Result<TickRoom, AllocError>
        ensures { IfOk result (λ room. HasRoom self.now.state units room) }
    {
        tick_room(alloc, &self.state, units)
    }

    /// The most outputs that a tick can have; `usize::MAX` if there are more.
    pub(crate) fn most_outs(&self, units: u32) -> usize
        ensures { result ≡ min (late_outs self.now.state units) (2 ^ 64 - 1) }
    {
        most_outs(&self.state, units)
    }

    /// Time passes, with all memory already allocated.
    pub(crate) fn tick(&mut self, alloc: Global, units: u32, room: TickRoom, outs: &mut Vec<Out>)
        requires room { HasRoom self.old.state units room }
        requires outs { vec_len outs.old + late_outs self.old.state units ≤ vec_capacity outs.old }
        ensures step { TickStep (ruled self.old) (reads self.old) units outs.old.items
            outs.new.items (reads self.new) }
        ensures rules { ruled self.new ≡ ruled self.old }
        ensures len { vec_len outs.new ≤ vec_len outs.old + late_outs self.old.state units }
        ensures capacity { vec_capacity outs.new ≡ vec_capacity outs.old }
    {
        let config = &self.config;
        let setting = Setting { alloc, config };
        tick(setting, &mut self.state, units, room, outs);
    }

    fn on_tick(&mut self, alloc: Global, units: u32) -> Result<Vec<Out>, AllocError>
        ensures step { IfOk result
            (λ outs. Step (ruled self.old) (reads self.old) (Event.Tick units) [] outs.items
            (reads self.new)) }
        ensures rules { ruled self.new ≡ ruled self.old }
        ensures refused { IfErr result (λ _. self.new ≡ self.old) }
    {
        let room = self.tick_room(alloc, units)?;
        let most = self.most_outs(units);
        let mut outs = Vec::with_capacity(alloc, most)?;
        self.tick(alloc, units, room, &mut outs);
        Ok(outs)
    }

    fn on_kick(
        &mut self,
        alloc: Global,
        station: Address,
        reason: Reason,
    ) -> Result<Vec<Out>, AllocError>
        ensures step { IfOk result
            (λ outs. Step (ruled self.old) (reads self.old) (Event.Kick station reason) []
            outs.items (reads self.new)) }
        ensures rules { ruled self.new ≡ ruled self.old }
        ensures refused { IfErr result (λ _. self.new ≡ self.old) }
    {
        let room = Room::new(alloc)?;
        match self.state.link.standing(station) {
            Some(_) => {
                deauthenticate(&mut self.state, station);
                let bssid = self.config.bssid();
                let answer = MacFrame::deauthentication(alloc, station, bssid, reason);
                Ok(room.send(&answer))
            }
            None => Ok(room.note(UNKNOWN_STATION)),
        }
    }
}
