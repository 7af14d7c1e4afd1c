//! Received bytes.

ghost use Rattle.std.specs.Prelude.{◌≡◌, ℕ, [], ◌∷◌, IfOk, IfErr};
ghost use Rattle.ap_model.specs.declared.event.Out.{Out};
ghost use Rattle.mac_frame.specs.Spelling.{IsFrame, spelling};
ghost use Rattle.ap_model.specs.Steps.{FrameComes, Checked, check_of};
ghost use Rattle.ap_core.specs.Handles.{reading, rules, IsRead, ruled_by};
ghost use Rattle.ap_core.specs.Noted.{IsNoted};
ghost use Rattle.ap_core.specs.Telling.{Tells};

use crate::outcome::Outcome;
use crate::room::Room;
use crate::rules::{follow, is_ours};
use crate::state::{Came, Setting, State};
use ap_model::{Judge, LinkConfig, Out};
use assoc::{ClassAnswer, class_check, class_of};
use bpf_regions::Frame;
use mac_frame::{FrameFault, MacFrame, parse};
use std::alloc::{AllocError, Global};

/// The note for a frame for another access point, or from a group address.
const NOT_OURS: u8 = 56;

#[inline(never)]
fn noted(alloc: Global, number: u8) -> Result<Vec<Out>, AllocError>
    ensures { IfOk result (λ outs. outs.items ≡ Out.Note number ∷ []) }
{
    let room = Room::new(alloc)?;
    Ok(room.note(number))
}

/// The note of the fault, for bytes that weren't read. Fails if memory ran out.
fn unread(alloc: Global, fault: FrameFault) -> Result<Vec<Out>, AllocError>
    ensures { IfOk result (λ outs. IsNoted fault outs.items) }
{
    match fault {
        FrameFault::Memory => Err(AllocError),
        FrameFault::Fault(fault) => {
            let note = noted(alloc, fault.number())?;
            Ok(note)
        }
    }
}

/// Handles a frame for this access point.
fn check<J: Judge>(
    setting: Setting<'_>,
    state: &mut State,
    came: Came<'_>,
    judge: &mut J,
) -> Result<Outcome, AllocError>
    requires came { IsRead state.old.link came }
    ensures step { IfOk result
        (λ o. Tells J.gives (λ asks outs. Checked
        (ruled_by setting.entry state.old) (reading state.old)
        came.entry.frame (check_of (ruled_by setting.entry state.old)
        (reading state.old) came.entry.frame) asks outs (reading state.new)) judge.old
        o.outs.items o.dropped judge.new) }
    ensures shard { state.new.link.shard ≡ state.old.link.shard }
    ensures refused { IfErr result (λ _. (state.new ≡ state.old) × (judge.new ≡ judge.old)) }
{
    let Setting { alloc, config } = setting;
    let station = came.frame.sender();
    match class_check(came.standing, came.class) {
        ClassAnswer::Permitted => {
            let outcome = follow(setting, state, came, judge)?;
            Ok(outcome)
        }
        ClassAnswer::Deauthenticate(reason) => {
            let room = Room::new(alloc)?;
            let answer = MacFrame::deauthentication(alloc, station, config.bssid(), reason);
            Ok(Outcome {
                outs: room.send(&answer),
                dropped: false,
            })
        }
        ClassAnswer::Disassociate(reason) => {
            let room = Room::new(alloc)?;
            let answer = MacFrame::disassociation(alloc, station, config.bssid(), reason);
            Ok(Outcome {
                outs: room.send(&answer),
                dropped: false,
            })
        }
    }
}

/// Handles a well-formed frame.
fn on_frame<J: Judge>(
    setting: Setting<'_>,
    state: &mut State,
    frame: MacFrame,
    bytes: &[u8],
    judge: &mut J,
) -> Result<Outcome, AllocError>
    requires grammar { IsFrame frame }
    requires bytes { bytes.now ≡ spelling frame }
    ensures step { IfOk result
        (λ o. Tells J.gives (λ asks outs. FrameComes
        (ruled_by setting.entry state.old) (reading state.old) bytes.now asks outs
        (reading state.new)) judge.old o.outs.items o.dropped judge.new) }
    ensures shard { state.new.link.shard ≡ state.old.link.shard }
    ensures refused { IfErr result (λ _. (state.new ≡ state.old) × (judge.new ≡ judge.old)) }
{
    if !is_ours(setting.config, &frame) {
        let outs = noted(setting.alloc, NOT_OURS)?;
        return Ok(Outcome {
            outs,
            dropped: false,
        });
    }
    let bytes = match Frame::new(bytes) {
        Some(bytes) => bytes,
        None => unreachable!(),
    };
    let class = class_of(frame.subtype());
    let standing = state.link.standing(frame.sender());
    let came = Came {
        frame,
        bytes,
        class,
        standing,
    };
    let outcome = check(setting, state, came, judge)?;
    Ok(outcome)
}

pub(crate) fn receive<J: Judge>(
    alloc: Global,
    state: &mut State,
    config: &LinkConfig,
    bytes: &[u8],
    judge: &mut J,
) -> Result<Outcome, AllocError>
    ensures step { IfOk result
        (λ o. Tells J.gives (λ asks outs. FrameComes (rules state.old.link.shard config.now)
        (reading state.old) bytes.now asks outs (reading state.new)) judge.old o.outs.items
        o.dropped judge.new) }
    ensures shard { state.new.link.shard ≡ state.old.link.shard }
    ensures refused { IfErr result (λ _. (state.new ≡ state.old) × (judge.new ≡ judge.old)) }
{
    match parse(alloc, bytes) {
        Ok(frame) => {
            let setting = Setting { alloc, config };
            let outcome = on_frame(setting, state, frame, bytes, judge)?;
            Ok(outcome)
        }
        Err(fault) => {
            let outs = unread(alloc, fault)?;
            Ok(Outcome {
                outs,
                dropped: false,
            })
        }
    }
}
