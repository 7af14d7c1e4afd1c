//! Time: the agreements that time out end (IEEE 802.11-2016, 11.5.4). A tick's memory is allocated
//! before it, so several shards tick together or not at all.

ghost use Rattle.std.specs.Prelude.{◌≡◌, ℕ, ◌+◌, ◌-◌, ◌^◌, min, ◌≤◌, ◌<◌, List, [], ◌∷◌, ◌++◌, IfOk, OnOk, OnErr, vec_len, vec_capacity, length};
ghost use Rattle.ap_model.specs.declared.event.Out.{Out};
ghost use Rattle.blockack.specs.Reading.{numbers_held};
ghost use Rattle.ap_model.specs.Steps.{Ticks};
ghost use Rattle.ap_core.specs.Handles.{reading, rules, ruled_by};
ghost use Rattle.ap_core.specs.Ticking.{clock_after, late_outs, outs_of_ends, HasRoom, EndsOne, EndsAll, TickStep};

use crate::room::FrameRoom;
use crate::state::{Setting, State};
use crate::ups::pass_all;
use ap_agreements::Entry;
use ap_model::{LinkConfig, Out};
use mac_frame::{MacFrame, Reason};
use std::alloc::{AllocError, Global};

/// What a tick needs beside its list of outputs, for the agreements that end.
#[derive(Drop)]
pub(crate) struct TickRoom {
    ended: Vec<Entry>,
    frames: Vec<FrameRoom>,
}

fn clock_after(state: &State, units: u32) -> u64
    ensures { result ≡ clock_after state.now units }
{
    state.clock.saturating_add(u64::from(units))
}

fn frame_rooms(alloc: Global, count: usize) -> Result<Vec<FrameRoom>, AllocError>
    ensures { IfOk result (λ frames. vec_len frames ≡ count) }
{
    let mut frames = Vec::with_capacity(alloc, count)?;
    for _made in 0..count {
        let frame = FrameRoom::new(alloc)?;
        frames.push_reserved(frame);
    }
    Ok(frames)
}

/// Allocates the memory for a tick, except its outputs.
pub(crate) fn tick_room(alloc: Global, state: &State, units: u32) -> Result<TickRoom, AllocError>
    ensures { IfOk result (λ room. HasRoom state.now units room) }
{
    let count = state.agreements.late(clock_after(state, units));
    let ended = Vec::with_capacity(alloc, count)?;
    let frames = frame_rooms(alloc, count)?;
    Ok(TickRoom { ended, frames })
}

/// The most outputs that a tick can have: the frames that the ending agreements hold, and a DELBA
/// for each. `usize::MAX` if there are more, for which no allocation succeeds.
pub(crate) fn most_outs(state: &State, units: u32) -> usize
    ensures { result ≡ min (late_outs state.now units) (2 ^ 64 - 1) }
{
    let clock = clock_after(state, units);
    let held = state.agreements.late_held(clock);
    held.saturating_add(state.agreements.late(clock))
}

/// Ends an agreement: passes up all that it held, then sends its DELBA.
fn end_one(alloc: Global, config: &LinkConfig, entry: Entry, frame: FrameRoom, outs: &mut Vec<Out>)
    requires { vec_len outs.old + (numbers_held entry.using.window + 1) ≤ vec_capacity outs.old }
    ensures ends { (shard : ℕ) → EndsOne (rules shard config.now) entry outs.old.items
        outs.new.items }
    ensures len { vec_len outs.new ≤ vec_len outs.old + (numbers_held entry.using.window + 1) }
    ensures capacity { vec_capacity outs.new ≡ vec_capacity outs.old }
{
    let station = entry.station();
    let tid = entry.tid();
    pass_all(entry, outs);
    let delba = MacFrame::delba(alloc, station, config.bssid(), tid, Reason::TIMEOUT);
    outs.push_reserved(frame.send(&delba));
}

/// Ends each of these agreements in turn.
fn end_all(
    alloc: Global,
    config: &LinkConfig,
    ended: Vec<Entry>,
    mut frames: Vec<FrameRoom>,
    outs: &mut Vec<Out>,
)
    requires frames { vec_len ended ≤ vec_len frames }
    requires room { vec_len outs.old + outs_of_ends ended.items ≤ vec_capacity outs.old }
    ensures ends { (shard : ℕ) → EndsAll (rules shard config.now) ended.items outs.old.items
        outs.new.items }
    ensures len { vec_len outs.new ≤ vec_len outs.old + outs_of_ends ended.items }
    ensures capacity { vec_capacity outs.new ≡ vec_capacity outs.old }
{
    for entry in ended {
        match frames.pop() {
            Some(frame) => end_one(alloc, config, entry, frame, outs),
            None => unreachable!(),
        }
    }
}

/// Time passes, with all memory already allocated.
pub(crate) fn tick(
    setting: Setting<'_>,
    state: &mut State,
    units: u32,
    room: TickRoom,
    outs: &mut Vec<Out>,
)
    requires room { HasRoom state.old units room }
    requires outs { vec_len outs.old + late_outs state.old units ≤ vec_capacity outs.old }
    ensures step { TickStep (ruled_by setting.entry state.old) (reading state.old)
        units outs.old.items outs.new.items (reading state.new) }
    ensures len { vec_len outs.new ≤ vec_len outs.old + late_outs state.old units }
    ensures capacity { vec_capacity outs.new ≡ vec_capacity outs.old }
    ensures shard { state.new.link.shard ≡ state.old.link.shard }
{
    let Setting { alloc, config } = setting;
    let clock = clock_after(state, units);
    let TickRoom { mut ended, frames } = room;
    state.clock = clock;
    state.agreements.take_late(clock, &mut ended);
    end_all(alloc, config, ended, frames, outs);
}
