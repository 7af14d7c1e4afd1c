//! Dispatches a frame to its rule.

ghost use Rattle.std.specs.Prelude.{◌≡◌, ◌≢◌, ℕ, ◌↔◌, IsTrue, IfOk, IfErr, [], ◌∷◌, None, Some, IsSome};
ghost use Rattle.mac_frame.specs.Spelling.{management_subtype};
ghost use Rattle.mac_frame.specs.Spelling.{Frame as SpelledFrame};
ghost use Rattle.ap_model.specs.Readings.{Rules};
ghost use Rattle.assoc.specs.Standings.{standing};
ghost use Rattle.assoc.specs.Classes.{class_of, class_answer};
ghost use Rattle.assoc.specs.declared.class.Class.{Class};
ghost use Rattle.assoc.specs.declared.class.ClassAnswer.{ClassAnswer};
ghost use Rattle.ap_model.specs.Steps.{IsOurs, ManagementComes, DataKindComes, ControlComes, Follows};
ghost use Rattle.ap_core.specs.Comes.{HandlesManagement};
ghost use Rattle.ap_core.specs.Handles.{reading, rules, sender, IsRead, ruled_by};
ghost use Rattle.ap_core.specs.Telling.{Tells};

use crate::ends::on_delba;
use crate::management::{Asked, on_association, on_authentication};
use crate::moves::{deauthenticate, disassociate};
use crate::outcome::Outcome;
use crate::packets::{DataFrame, on_plain_data, on_qos_data};
use crate::requests::on_request;
use crate::setups::{SetupRequest, on_setup};
use crate::state::{Came, Setting, State};
use ap_model::{Judge, LinkConfig, Out};
use assoc::Class;
use hooks::Asker;
use mac_frame::{Address, Content, Control, DataKind, MacFrame, Management, SequenceNumber};
use std::alloc::{AllocError, Global};

/// Whether a frame is for this access point, and its sender isn't a group address.
pub(crate) fn is_ours(config: &LinkConfig, frame: &MacFrame) -> bool
    ensures { (shard : ℕ) → (IsTrue result ↔ IsOurs (rules shard config.now) frame.now) }
{
    let bssid = config.bssid();
    let named = match frame.bssid() {
        Some(named) => named == bssid,
        None => true,
    };
    frame.receiver() == bssid && named && !frame.sender().is_group()
}

/// A management frame of class 1, which asks for no verdict.
fn on_class_one(
    setting: Setting<'_>,
    state: &mut State,
    asker: Asker,
    body: Management,
) -> Result<Vec<Out>, AllocError>
    requires stands { asker.standing ≡ standing state.old.link asker.station }
    requires class { class_of (management_subtype body) ≡ Class.One }
    ensures step { IfOk result
        (λ outs. (f : SpelledFrame) → f.sender ≡ asker.station →
        ManagementComes (ruled_by setting.entry state.old) (reading state.old) f body
        [] outs.items (reading state.new)) }
    ensures shard { state.new.link.shard ≡ state.old.link.shard }
    ensures refused { IfErr result (λ _. state.new ≡ state.old) }
{
    match body {
        Management::Authentication {
            algorithm,
            transaction,
            status: _,
        } => {
            let outs = on_authentication(setting, state, asker, algorithm, transaction)?;
            Ok(outs)
        }
        Management::Deauthentication { reason: _ } => {
            deauthenticate(state, asker.station);
            Ok(Vec::new(setting.alloc))
        }
        _ => unreachable!(),
    }
}

/// A management frame of class 2, from a known station.
fn on_class_two<J: Judge>(
    setting: Setting<'_>,
    state: &mut State,
    came: &Came<'_>,
    body: Management,
    judge: &mut J,
) -> Result<Vec<Out>, AllocError>
    requires came { IsRead state.old.link came.now }
    requires class { class_of (management_subtype body) ≡ Class.Two }
    requires known { IsSome (standing state.old.link (sender came.now)) }
    ensures step { IfOk result (λ outs. HandlesManagement J.gives setting.entry state.old
        came.now.frame body judge.old outs.items state.new judge.new) }
    ensures shard { state.new.link.shard ≡ state.old.link.shard }
    ensures refused { IfErr result (λ _. (state.new ≡ state.old) × (judge.new ≡ judge.old)) }
{
    match body {
        Management::AssociationRequest {
            capability,
            listen_interval,
        } => {
            let asked = Asked {
                came,
                capability,
                listen_interval,
                again: false,
            };
            let outs = on_association(setting, state, &asked, judge)?;
            Ok(outs)
        }
        Management::ReassociationRequest {
            capability,
            listen_interval,
            current_ap: _,
        } => {
            let asked = Asked {
                came,
                capability,
                listen_interval,
                again: true,
            };
            let outs = on_association(setting, state, &asked, judge)?;
            Ok(outs)
        }
        Management::Disassociation { reason: _ } => {
            disassociate(state, came.frame.sender());
            Ok(Vec::new(setting.alloc))
        }
        Management::AssociationResponse { .. } => Ok(Vec::new(setting.alloc)),
        Management::ReassociationResponse { .. } => Ok(Vec::new(setting.alloc)),
        _ => unreachable!(),
    }
}

/// A management frame of class 3, which concerns an agreement.
fn on_class_three<J: Judge>(
    setting: Setting<'_>,
    state: &mut State,
    came: &Came<'_>,
    body: Management,
    judge: &mut J,
) -> Result<Vec<Out>, AllocError>
    requires came { IsRead state.old.link came.now }
    requires class { class_of (management_subtype body) ≡ Class.Three }
    ensures step { IfOk result (λ outs. HandlesManagement J.gives setting.entry state.old
        came.now.frame body judge.old outs.items state.new judge.new) }
    ensures shard { state.new.link.shard ≡ state.old.link.shard }
    ensures refused { IfErr result (λ _. (state.new ≡ state.old) × (judge.new ≡ judge.old)) }
{
    match body {
        Management::AddbaRequest {
            dialog_token,
            parameters,
            timeout,
            start,
        } => {
            let request = SetupRequest {
                came,
                token: dialog_token,
                parameters,
                timeout,
                start,
            };
            let outs = on_setup(setting, state, &request, judge)?;
            Ok(outs)
        }
        Management::Delba {
            parameters,
            reason: _,
        } => {
            if !parameters.initiator {
                return Ok(Vec::new(setting.alloc));
            }
            let station = came.frame.sender();
            let outs = on_delba(setting.alloc, state, station, parameters.tid)?;
            Ok(outs)
        }
        Management::AddbaResponse { .. } => Ok(Vec::new(setting.alloc)),
        _ => unreachable!(),
    }
}

/// A management frame of a permitted class.
#[inline(never)]
fn on_management<J: Judge>(
    setting: Setting<'_>,
    state: &mut State,
    came: &Came<'_>,
    body: Management,
    judge: &mut J,
) -> Result<Vec<Out>, AllocError>
    requires came { IsRead state.old.link came.now }
    requires class { came.now.class ≡ class_of (management_subtype body) }
    requires permitted { class_answer came.now.standing came.now.class ≡ ClassAnswer.Permitted }
    ensures step { IfOk result (λ outs. HandlesManagement J.gives setting.entry state.old
        came.now.frame body judge.old outs.items state.new judge.new) }
    ensures shard { state.new.link.shard ≡ state.old.link.shard }
    ensures refused { IfErr result (λ _. (state.new ≡ state.old) × (judge.new ≡ judge.old)) }
{
    match came.class {
        Class::One => {
            let asker = Asker {
                station: came.frame.sender(),
                standing: came.standing,
            };
            let outs = on_class_one(setting, state, asker, body)?;
            Ok(outs)
        }
        Class::Two => {
            let outs = on_class_two(setting, state, came, body, judge)?;
            Ok(outs)
        }
        Class::Three => {
            let outs = on_class_three(setting, state, came, body, judge)?;
            Ok(outs)
        }
    }
}

/// A control frame of a permitted class.
#[inline(never)]
fn on_control(
    setting: Setting<'_>,
    state: &mut State,
    station: Address,
    body: Control,
) -> Result<Vec<Out>, AllocError>
    ensures step { IfOk result
        (λ outs. (f : SpelledFrame) → f.sender ≡ station →
        ControlComes (ruled_by setting.entry state.old) (reading state.old) f body []
        outs.items (reading state.new)) }
    ensures shard { state.new.link.shard ≡ state.old.link.shard }
    ensures refused { IfErr result (λ _. state.new ≡ state.old) }
{
    match body {
        Control::BlockAckReq { tid, start } => {
            let outs = on_request(setting, state, station, tid, start)?;
            Ok(outs)
        }
        Control::BlockAck { .. } => Ok(Vec::new(setting.alloc)),
    }
}

/// The fields of a data frame.
#[derive(Clone, Copy)]
struct DataHead {
    destination: Address,
    number: SequenceNumber,
    kind: DataKind,
}

/// A data frame of a permitted class.
fn on_data_kind<J: Judge>(
    alloc: Global,
    state: &mut State,
    came: Came<'_>,
    head: DataHead,
    judge: &mut J,
) -> Result<Outcome, AllocError>
    requires came { IsRead state.old.link came }
    ensures step { IfOk result
        (λ o. (c : Rules) → Tells J.gives
        (λ asks outs. DataKindComes c (reading state.old) came.entry.frame head.destination
        head.number head.kind asks outs (reading state.new)) judge.old o.outs.items o.dropped
        judge.new) }
    ensures shard { state.new.link.shard ≡ state.old.link.shard }
    ensures refused { IfErr result (λ _. (state.new ≡ state.old) × (judge.new ≡ judge.old)) }
{
    let Came {
        frame,
        bytes,
        class: _,
        standing,
    } = came;
    let DataHead {
        destination,
        number,
        kind,
    } = head;
    match kind {
        DataKind::Data => {
            let data = DataFrame {
                frame,
                bytes,
                destination,
                tid: None,
                number,
                standing,
            };
            let outcome = on_plain_data(alloc, state, data, judge)?;
            Ok(outcome)
        }
        DataKind::QosData { qos } => {
            let data = DataFrame {
                frame,
                bytes,
                destination,
                tid: Some(qos.tid),
                number,
                standing,
            };
            let outcome = on_qos_data(alloc, state, data, qos.tid, judge)?;
            Ok(outcome)
        }
        DataKind::Null => {
            Ok(Outcome {
                outs: Vec::new(alloc),
                dropped: false,
            })
        }
        DataKind::QosNull { .. } => {
            Ok(Outcome {
                outs: Vec::new(alloc),
                dropped: false,
            })
        }
    }
}

/// Handles a frame of a permitted class.
pub(crate) fn follow<J: Judge>(
    setting: Setting<'_>,
    state: &mut State,
    came: Came<'_>,
    judge: &mut J,
) -> Result<Outcome, AllocError>
    requires came { IsRead state.old.link came }
    requires permitted { class_answer came.standing came.class ≡ ClassAnswer.Permitted }
    ensures step { IfOk result
        (λ o. Tells J.gives (λ asks outs. Follows
        (ruled_by setting.entry state.old) (reading state.old)
        came.entry.frame came.entry.frame.content asks outs (reading state.new)) judge.old
        o.outs.items o.dropped judge.new) }
    ensures shard { state.new.link.shard ≡ state.old.link.shard }
    ensures refused { IfErr result (λ _. (state.new ≡ state.old) × (judge.new ≡ judge.old)) }
{
    match came.frame.content() {
        Content::Management { body, .. } => {
            // A place of its own: where data comes, the frame then needs no place in memory.
            let managed = came;
            let outs = on_management(setting, state, &managed, body, judge)?;
            Ok(Outcome {
                outs,
                dropped: false,
            })
        }
        Content::Control { body } => {
            let outs = on_control(setting, state, came.frame.sender(), body)?;
            Ok(Outcome {
                outs,
                dropped: false,
            })
        }
        Content::Data {
            destination,
            sequence,
            kind,
        } => {
            let head = DataHead {
                destination,
                number: sequence,
                kind,
            };
            let outcome = on_data_kind(setting.alloc, state, came, head, judge)?;
            Ok(outcome)
        }
    }
}
