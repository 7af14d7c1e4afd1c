//! Authentication and association.

ghost use Rattle.std.specs.Prelude.{◌≡◌, ◌≢◌, ℕ, ◌≤◌, ◌↔◌, ◌⊎◌, IsTrue, IfOk, IfErr, [], ◌∷◌, length, None, Some, IsSome};
ghost use Rattle.assoc.specs.declared.standing.Known.{Known};
ghost use Rattle.assoc.specs.Standings.{standing, IsFull};
ghost use Rattle.ap_model.specs.Changes.{sends};
ghost use Rattle.ap_model.specs.Associations.{AuthenticationStatus, Authenticates, Associates, Suits, Names, association_answer};
ghost use Rattle.mac_frame.specs.Elements.{rates_text};
ghost use Rattle.hooks.specs.Contexts as contexts;
ghost use Rattle.ap_model.specs.Asks.{Handled};
ghost use Rattle.ap_core.specs.Handles.{reading, rules, request, sender, IsRead, ruled_by};

use crate::moves::{associate, authenticate};
use crate::room::Room;
use crate::state::{Came, Setting, State};
use ap_model::{Judge, LinkConfig, Out};
use bpf_regions::{Context, Hook};
use hooks::{Asker, assoc_verdict, association_context};
use mac_frame::{AidField, Capability, ElementsBuf, MacFrame, Status};
use std::alloc::AllocError;

fn authentication_status(state: &State, asker: Asker, algorithm: u16, transaction: u16) -> Status
    requires { asker.standing ≡ standing state.now.link asker.station }
    ensures { AuthenticationStatus (reading state.now) asker.station algorithm transaction result }
{
    if algorithm != 0 {
        return Status::UNSUPPORTED_AUTH_ALGORITHM;
    }
    if transaction != 1 {
        return Status::TRANSACTION_SEQUENCE_ERROR;
    }
    match asker.standing {
        Some(_) => return Status::SUCCESS,
        None => {
            if state.link.is_full() {
                return Status::DENIED_NO_MORE_STAS;
            }
            return Status::SUCCESS;
        }
    }
}

pub(crate) fn on_authentication(
    setting: Setting<'_>,
    state: &mut State,
    asker: Asker,
    algorithm: u16,
    transaction: u16,
) -> Result<Vec<Out>, AllocError>
    requires { asker.standing ≡ standing state.old.link asker.station }
    ensures step { IfOk result
        (λ outs. Authenticates (ruled_by setting.entry state.old)
        (reading state.old) asker.station algorithm transaction [] outs.items
        (reading state.new)) }
    ensures shard { state.new.link.shard ≡ state.old.link.shard }
    ensures refused { IfErr result (λ _. state.new ≡ state.old) }
{
    let Setting { alloc, config } = setting;
    let room = Room::new(alloc)?;
    let station = asker.station;
    let status = authentication_status(state, asker, algorithm, transaction);
    let answer = MacFrame::authentication(alloc, station, config.bssid(), algorithm, status);
    if !status.is_success() {
        return Ok(room.send(&answer));
    }
    authenticate(state, station)?;
    Ok(room.send(&answer))
}

/// A received association or reassociation request, and its fields other than elements.
#[derive(Clone, Copy)]
pub(crate) struct Asked<'a, 'b> {
    pub(crate) came: &'a Came<'b>,
    pub(crate) capability: Capability,
    pub(crate) listen_interval: u16,
    /// Whether it is a reassociation.
    pub(crate) again: bool,
}

/// Whether a request asks for an infrastructure network and lists rates.
fn suits(asked: &Asked<'_, '_>) -> bool
    ensures { IsTrue result ↔ Suits (request asked.now) }
{
    let capability = asked.capability;
    capability.is_ess() && asked.came.frame.rates().is_some()
}

/// Whether a request names this network.
fn names(config: &LinkConfig, asked: &Asked<'_, '_>) -> bool
    ensures { (shard : ℕ) → (IsTrue result ↔ Names (rules shard config.now)
        (request asked.now)) }
{
    match asked.came.frame.ssid() {
        Some(text) => text == config.ssid(),
        None => false,
    }
}

fn response(
    config: &LinkConfig,
    asked: &Asked<'_, '_>,
    status: Status,
    aid: AidField,
    rates: ElementsBuf,
) -> MacFrame
    requires rates { rates ≡ rates_text config.now.rates }
    requires few { length config.now.rates ≤ 8 }
    ensures is { (shard : ℕ) → sends result ≡ association_answer (rules shard config.now)
        (sender asked.now.came.now) asked.now.again status aid }
    ensures short { length result.tail ≤ 12 }
{
    let station = asked.came.frame.sender();
    let bssid = config.bssid();
    if asked.again {
        return MacFrame::reassociation_response(station, bssid, status, aid, rates);
    }
    MacFrame::association_response(station, bssid, status, aid, rates)
}

/// Memory for a response, and the rates in it.
#[derive(Drop)]
struct AnswerRoom {
    room: Room,
    rates: ElementsBuf,
}

fn refuse(room: AnswerRoom, config: &LinkConfig, asked: &Asked<'_, '_>, status: Status) -> Vec<Out>
    requires rates { room.rates ≡ rates_text config.now.rates }
    requires few { length config.now.rates ≤ 8 }
    ensures { (shard : ℕ) → result.items ≡ association_answer (rules shard config.now)
        (sender asked.now.came.now) asked.now.again status 0 ∷ [] }
{
    let answer = response(config, asked, status, AidField::NONE, room.rates);
    room.room.send(&answer)
}

/// The hook's context for a request.
fn context_of(asked: &Asked<'_, '_>) -> Context
    ensures { result ≡ contexts.association_context (sender asked.now.came.now)
        asked.now.came.now.standing asked.now.capability asked.now.listen_interval
        asked.now.again }
{
    let asker = Asker {
        station: asked.came.frame.sender(),
        standing: asked.came.standing,
    };
    association_context(asker, asked.capability, asked.listen_interval, asked.again)
}

/// Answers a request, with all memory already allocated.
fn answer_request<J: Judge>(
    state: &mut State,
    config: &LinkConfig,
    asked: &Asked<'_, '_>,
    room: AnswerRoom,
    judge: &mut J,
) -> Vec<Out>
    requires came { IsRead state.old.link asked.now.came.now }
    requires known { IsSome (standing state.old.link (sender asked.now.came.now)) }
    requires rates { room.rates ≡ rates_text config.now.rates }
    requires few { length config.now.rates ≤ 8 }
    ensures step { Handled J.gives (λ asks outs. Associates (rules state.old.link.shard config.now)
        (reading state.old) (sender asked.now.came.now) (request asked.now) asks outs
        (reading state.new)) judge.old result.items judge.new }
    ensures shard { state.new.link.shard ≡ state.old.link.shard }
{
    if !suits(asked) {
        return refuse(room, config, asked, Status::REFUSED_CAPABILITIES_MISMATCH);
    }
    if !names(config, asked) {
        return refuse(room, config, asked, Status::DENIED_OTHER_REASON);
    }
    let station = asked.came.frame.sender();
    let Some(granted) = state.link.free_aid(station) else {
        return refuse(room, config, asked, Status::DENIED_NO_MORE_STAS);
    };
    let context = context_of(asked);
    let verdict = judge.judge(Hook::Association, &asked.came.bytes, &context);
    let status = assoc_verdict(verdict);
    if !status.is_success() {
        return refuse(room, config, asked, status);
    }
    associate(state, station, granted);
    let aid = AidField::granted(granted);
    let answer = response(config, asked, status, aid, room.rates);
    room.room.send(&answer)
}

/// Handles an association or reassociation request. Everything is allocated before the verdict is
/// asked for.
pub(crate) fn on_association<J: Judge>(
    setting: Setting<'_>,
    state: &mut State,
    asked: &Asked<'_, '_>,
    judge: &mut J,
) -> Result<Vec<Out>, AllocError>
    requires came { IsRead state.old.link asked.now.came.now }
    requires known { IsSome (standing state.old.link (sender asked.now.came.now)) }
    ensures step { IfOk result
        (λ outs. Handled J.gives (λ asks outs. Associates
        (ruled_by setting.entry state.old) (reading state.old)
        (sender asked.now.came.now) (request asked.now) asks outs (reading state.new)) judge.old
        outs.items judge.new) }
    ensures shard { state.new.link.shard ≡ state.old.link.shard }
    ensures refused { IfErr result (λ _. (state.new ≡ state.old) × (judge.new ≡ judge.old)) }
{
    let Setting { alloc, config } = setting;
    let room = Room::new(alloc)?;
    let rates = ElementsBuf::rates(alloc, config.rates())?;
    let room = AnswerRoom { room, rates };
    let outs = answer_request(state, config, asked, room, judge);
    Ok(outs)
}
