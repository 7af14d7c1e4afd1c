//! The end of an agreement (IEEE 802.11-2016, 11.5.3): all that it held is passed up first.

ghost use Rattle.std.specs.Prelude.{◌≡◌, ◌+◌, ◌≤◌, ℕ, List, [], ◌∷◌, ◌++◌, IfOk, IfErr, IsTrue, vec_len, vec_capacity};
ghost use Rattle.ap_model.specs.declared.event.Event.{Event};
ghost use Rattle.ap_model.specs.Agreements.{Ends, delba};
ghost use Rattle.ap_model.specs.Steps.{Closes};
ghost use Rattle.ap_core.specs.Handles.{reading, rules};

use crate::room::{FrameRoom, Room};
use crate::state::State;
use crate::ups::pass_all;
use ap_model::{LinkConfig, Out};
use mac_frame::{Address, MacFrame, Reason, Tid};
use std::alloc::{AllocError, Global};

/// The note for an operator's command that names an unknown station.
pub(crate) const UNKNOWN_STATION: u8 = 63;

/// Handles a DELBA of the originator.
pub(crate) fn on_delba(
    alloc: Global,
    state: &mut State,
    station: Address,
    tid: Tid,
) -> Result<Vec<Out>, AllocError>
    ensures step { IfOk result
        (λ outs. Ends (reading state.old) station tid [] [] outs.items (reading state.new)) }
    ensures shard { state.new.link.shard ≡ state.old.link.shard }
    ensures refused { IfErr result (λ _. state.new ≡ state.old) }
{
    let held = state.agreements.held(station, tid);
    let mut outs = Vec::with_capacity(alloc, held)?;
    match state.agreements.remove(station, tid) {
        Some(entry) => {
            pass_all(entry, &mut outs);
            Ok(outs)
        }
        None => Ok(outs),
    }
}

/// The operator ends an agreement of a known station.
fn close(
    alloc: Global,
    state: &mut State,
    config: &LinkConfig,
    station: Address,
    tid: Tid,
) -> Result<Vec<Out>, AllocError>
    ensures step { IfOk result
        (λ outs. Ends (reading state.old) station tid
        (delba (rules state.old.link.shard config.now) station tid 37 ∷ []) [] outs.items
        (reading state.new)) }
    ensures shard { state.new.link.shard ≡ state.old.link.shard }
    ensures refused { IfErr result (λ _. state.new ≡ state.old) }
{
    let held = match state.agreements.get(station, tid) {
        None => return Ok(Vec::new(alloc)),
        Some(entry) => entry.held(),
    };
    let mut outs = Vec::with_capacity(alloc, held + 1)?;
    let frame = FrameRoom::new(alloc)?;
    match state.agreements.remove(station, tid) {
        Some(entry) => {
            pass_all(entry, &mut outs);
            let delba = MacFrame::delba(alloc, station, config.bssid(), tid, Reason::END_BA);
            outs.push_reserved(frame.send(&delba));
            Ok(outs)
        }
        None => Ok(outs),
    }
}

pub(crate) fn on_close(
    alloc: Global,
    state: &mut State,
    config: &LinkConfig,
    station: Address,
    tid: Tid,
) -> Result<Vec<Out>, AllocError>
    ensures step { IfOk result
        (λ outs. Closes (rules state.old.link.shard config.now) (reading state.old) station tid []
        outs.items (reading state.new)) }
    ensures shard { state.new.link.shard ≡ state.old.link.shard }
    ensures refused { IfErr result (λ _. state.new ≡ state.old) }
{
    match state.link.standing(station) {
        Some(_) => {
            let outs = close(alloc, state, config, station, tid)?;
            Ok(outs)
        }
        None => {
            let room = Room::new(alloc)?;
            Ok(room.note(UNKNOWN_STATION))
        }
    }
}
