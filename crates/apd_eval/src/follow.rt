//! A capture at an access point whose programs are tried.

ghost use Rattle.std.specs.Prelude.{◌≡◌, ◌≤◌, ◌<◌, ◌+◌, IfOk, length, true};
ghost use Rattle.bpf_helpers.specs.Hooked.{IsFitting};
ghost use Rattle.ap_model.specs.AccessPoint.{InPlace};
ghost use Rattle.ap_core.specs.AccessPoints.{rules_of};
ghost use Rattle.capture.specs.Radiotap.{bytes_in};
ghost use Rattle.capture.specs.Walks.{packets_in};
ghost use Rattle.apd_eval.specs.Again.{received};
ghost use Rattle.apd_eval.specs.Asked.{IsAlone};
ghost use Rattle.apd_eval.specs.Follows.{TimePasses, is_received, FrameComes, PacketComes, rows_of};
ghost use Rattle.apd_eval.specs.Taken.{TakesAll, IsHandedOn};

use crate::handled::handle;
use crate::meter::Meter;
use crate::row::{Row, TakesRows};
use crate::ruling::Ruling;
use crate::tried::Policy;
use crate::witness::Witness;
use ap_core::{Event, LinkConfig, Shard, new_shards};
use ap_model::Octets;
use apd_policies::{first_time, unit};
use bpf_regions::{Frame, Hook};
use capture::{LeftOut, Recording};
use std::alloc::{AllocError, Global};

/// A packet that comes at the unit `now` of 1024 microseconds, after the unit `clock`.
#[derive(Clone, Copy)]
struct Arrival<'a> {
    clock: u64,
    now: u64,
    frame: Result<&'a [u8], LeftOut>,
}

/// A capture, for an access point of this configuration. `draw` is the first number that programs draw.
#[derive(Clone, Copy)]
pub struct Replay<'a> {
    pub link: &'a LinkConfig,
    pub draw: u64,
    pub recording: Recording<'a>,
}

impl Replay<'_> {
    /// How many packets there are.
    pub(crate) fn count(self) -> usize
        ensures is { result ≡ length (packets_in self.entry.recording.bytes.now) }
    {
        self.recording.count
    }
}

/// Lets the time from a unit to a later one pass, at most 4294967295 units.
fn pass(
    alloc: Global,
    shards: &mut [Shard; 8],
    policy: Policy<'_>,
    state: &mut Meter,
    arrival: Arrival<'_>,
) -> Result<Option<Ruling>, AllocError>
    requires place { InPlace (rules_of shards.old) }
    requires fitting { IsFitting policy.maps.now 0 state.old.held.seats }
    ensures time { IfOk result (λ last. TimePasses policy.entry arrival.entry.clock arrival.entry.now last
        shards.old state.old shards.new state.new) }
    ensures place { InPlace (rules_of shards.new) }
    ensures fitting { IsFitting policy.entry.maps.now 0 state.new.held.seats }
{
    if arrival.clock < arrival.now {
        let units = (arrival.now - arrival.clock).min(4_294_967_295);
        return handle(alloc, shards, policy, state, Event::Tick(units as u32));
    }
    Ok(None)
}

/// Whether a frame with these bytes is received: it has 1 to 2400.
pub(crate) fn is_received(bytes: &[u8]) -> bool
    ensures is { result ≡ is_received bytes.now }
    ensures short { result ≡ true → length bytes.now ≤ 2400 }
{
    1 <= bytes.len() && bytes.len() <= 2400
}

/// Receives a frame, if it has 1 to 2400 bytes.
fn receive(
    alloc: Global,
    shards: &mut [Shard; 8],
    policy: Policy<'_>,
    state: &mut Meter,
    frame: Result<&[u8], LeftOut>,
) -> Result<Option<Ruling>, AllocError>
    requires place { InPlace (rules_of shards.old) }
    requires fitting { IsFitting policy.maps.now 0 state.old.held.seats }
    ensures comes { IfOk result (λ last. FrameComes policy.entry (bytes_in frame.entry) last
        shards.old state.old shards.new state.new) }
    ensures place { InPlace (rules_of shards.new) }
    ensures fitting { IsFitting policy.entry.maps.now 0 state.new.held.seats }
{
    match frame {
        Ok(bytes) => {
            if is_received(bytes) {
                let octets = Octets::copy(alloc, bytes)?;
                return handle(alloc, shards, policy, state, Event::Frame(octets));
            }
            Ok(None)
        }
        Err(_) => Ok(None),
    }
}

/// Lets the time up to a packet pass, and receives its frame. Returns the last query of the frame.
fn arrive(
    alloc: Global,
    shards: &mut [Shard; 8],
    policy: Policy<'_>,
    state: &mut Meter,
    arrival: Arrival<'_>,
) -> Result<Option<Ruling>, AllocError>
    requires place { InPlace (rules_of shards.old) }
    requires fitting { IsFitting policy.maps.now 0 state.old.held.seats }
    ensures comes { IfOk result (λ last. PacketComes policy.entry
        arrival.entry.clock arrival.entry.now (bytes_in arrival.entry.frame) last
        shards.old state.old shards.new state.new) }
    ensures place { InPlace (rules_of shards.new) }
    ensures fitting { IsFitting policy.entry.maps.now 0 state.new.held.seats }
{
    pass(alloc, shards, policy, state, arrival)?;
    receive(alloc, shards, policy, state, arrival.frame)
}

/// The bytes of a packet's frame, if that is received; otherwise none.
fn received(frame: Result<&[u8], LeftOut>) -> &[u8]
    ensures is { result.now ≡ received (bytes_in frame.entry) }
    ensures short { length result.now ≤ 2400 }
{
    match frame {
        Ok(bytes) => {
            if is_received(bytes) {
                return bytes;
            }
            return &[];
        }
        Err(_) => return &[],
    }
}

/// Hands the row of a packet on, if its last query was of this hook.
fn hand_on<'a, S: TakesRows<'a>>(
    sink: &mut S,
    hook: Hook,
    packet: usize,
    last: Option<Ruling>,
    frame: Result<&'a [u8], LeftOut>,
) -> Result<(), AllocError>
    requires room { S.taken sink.old < packet }
    ensures taken { IfOk result (λ _. TakesAll S.takes (λ number. received (bytes_in frame.entry))
        sink.old (rows_of hook packet last) sink.new) }
    ensures few { IfOk result (λ _. S.taken sink.new ≤ S.taken sink.old + 1) }
{
    let Some(ruling) = last else {
        return Ok(());
    };
    if ruling.hook.number() != hook.number() {
        return Ok(());
    }
    match Frame::new(received(frame)) {
        Some(frame) => {
            let row = Row { packet, ruling };
            sink.take(&row, &frame)
        }
        None => unreachable!(),
    }
}

/// Hands on the rows of a capture's packets, one after another, at a new access point at which only this hook has a
/// program. Each is about the frame of its packet.
pub(crate) fn follow<'a, S: TakesRows<'a>>(
    alloc: Global,
    policy: Policy<'_>,
    state: &mut Meter,
    replay: Replay<'a>,
    sink: &mut S,
) -> Result<(), AllocError>
    requires alone { IsAlone policy }
    requires fitting { IsFitting policy.maps.now 0 state.old.held.seats }
    requires fresh { S.taken sink.old ≡ 0 }
    ensures rows { IfOk result (λ _. IsHandedOn S.takes policy.entry replay.entry.link.now
        (packets_in replay.entry.recording.bytes.now) state.old sink.old state.new sink.new) }
{
    let mut shards = new_shards(alloc, replay.link)?;
    let start = first_time(alloc, replay.recording)?;
    let mut walk = replay.recording.walk(alloc);
    let mut done = 0;
    let mut clock = 0;
    while let Some(packet) = walk.next()? {
        let now = unit(start, packet.time);
        let frame = packet.frame;
        let arrival = Arrival { clock, now, frame };
        let last = arrive(alloc, &mut shards, policy, state, arrival)?;
        hand_on(sink, policy.hook, done + 1, last, frame)?;
        clock = clock.max(now);
        done += 1;
    }
    Ok(())
}
