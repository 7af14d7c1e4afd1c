//! ADDBA requests (IEEE 802.11-2016, 11.5.2).

ghost use Rattle.std.specs.Prelude.{◌≡◌, ℕ, ◌+◌, ◌≤◌, ◌<◌, [], ◌∷◌, None, Some, IfOk, IfErr, vec_len, vec_capacity};
ghost use Rattle.mac_types.specs.declared.fields.BlockAckPolicy.{BlockAckPolicy};
ghost use Rattle.hooks.specs.Contexts as contexts;
ghost use Rattle.ap_model.specs.Changes.{sends};
ghost use Rattle.ap_model.specs.Agreements.{setup_answer};
ghost use Rattle.ap_agreements.specs.Tables.{key_of, agreement_in, held_under};
ghost use Rattle.ap_core.specs.Comes.{HandlesSetup};
ghost use Rattle.ap_core.specs.Handles.{reading, rules, setup, sender, IsRead, IsGranted, ruled_by};

use crate::room::{FrameRoom, Room};
use crate::state::{Came, Setting, State};
use crate::ups::pass_replaced;
use ap_agreements::Entry;
use ap_model::{Judge, Out};
use bpf_regions::{Context, Hook};
use hooks::{Asker, addba_context, addba_verdict};
use mac_frame::{
    AddbaResponse, BlockAckParameters, BlockAckPolicy, BufferSize, MacFrame, SequenceNumber, Status,
};
use std::alloc::AllocError;

/// A received ADDBA request, and what it asks for.
#[derive(Clone, Copy)]
pub(crate) struct SetupRequest<'a, 'b> {
    pub(crate) came: &'a Came<'b>,
    pub(crate) token: u8,
    pub(crate) parameters: BlockAckParameters,
    pub(crate) timeout: u16,
    pub(crate) start: SequenceNumber,
}

/// Memory for a grant: for its outputs, the response and the agreement.
#[derive(Drop)]
struct GrantRoom {
    outs: Vec<Out>,
    frame: FrameRoom,
    entry: Entry,
}

/// The response to a request; its size is 0 in a refusal.
fn answer(
    setting: Setting<'_>,
    request: &SetupRequest<'_, '_>,
    status: Status,
    size: u8,
) -> MacFrame
    ensures is { (shard : ℕ) → sends result ≡ setup_answer (rules shard setting.entry.config.now)
        (sender request.now.came.now) (setup request.now) status size }
    ensures short { result.tail ≡ [] }
{
    let size = match BufferSize::new(u16::from(size)) {
        Some(size) => size,
        None => unreachable!(),
    };
    let station = request.came.frame.sender();
    let bssid = setting.config.bssid();
    let response = AddbaResponse {
        dialog_token: request.token,
        status,
        parameters: BlockAckParameters::immediate(request.parameters.tid, size),
        timeout: request.timeout,
    };
    MacFrame::addba_response(setting.alloc, station, bssid, response)
}

/// The hook's context for a request.
fn context_of(request: &SetupRequest<'_, '_>) -> Context
    ensures { result ≡ contexts.addba_context (sender request.now.came.now)
        request.now.came.now.standing request.now.parameters.tid
        request.now.parameters.buffer_size request.now.timeout request.now.start }
{
    let asker = Asker {
        station: request.came.frame.sender(),
        standing: request.came.standing,
    };
    let parameters = request.parameters;
    addba_context(
        asker,
        parameters.tid,
        parameters.buffer_size,
        request.timeout,
        request.start,
    )
}

/// Grants a request, with all memory already allocated: an existing agreement is replaced, and all
/// that it held is passed up first.
fn grant(
    setting: Setting<'_>,
    state: &mut State,
    request: &SetupRequest<'_, '_>,
    size: u8,
    room: GrantRoom,
) -> Vec<Out>
    requires room { 1 ≤ state.old.agreements.room }
    requires key { key_of room.entry ≡ (sender request.now.came.now, request.now.parameters.tid) }
    requires some { 1 ≤ size }
    requires fits { size ≤ 64 }
    requires outs { held_under (agreement_in state.old.agreements.kept (sender request.now.came.now)
        request.now.parameters.tid) + 1 ≤ vec_capacity room.outs }
    requires empty { room.outs.items ≡ [] }
    ensures step { IsGranted (ruled_by setting.entry state.old) (reading state.old)
        (sender request.now.came.now) (setup request.now) size result.items (reading state.new) }
    ensures shard { state.new.link.shard ≡ state.old.link.shard }
{
    let GrantRoom {
        mut outs,
        frame,
        entry,
    } = room;
    let opened = entry.opened(request.start, size, request.timeout, state.clock);
    let replaced = state.agreements.put(opened);
    pass_replaced(replaced, &mut outs);
    let answer = answer(setting, request, Status::SUCCESS, size);
    outs.push_reserved(frame.send(&answer));
    outs
}

/// Handles a request for an immediate policy. Everything is allocated before the verdict is asked for.
fn on_immediate<J: Judge>(
    setting: Setting<'_>,
    state: &mut State,
    request: &SetupRequest<'_, '_>,
    judge: &mut J,
) -> Result<Vec<Out>, AllocError>
    requires came { IsRead state.old.link request.now.came.now }
    requires immediate { request.now.parameters.policy ≡ BlockAckPolicy.Immediate }
    ensures step { IfOk result (λ outs. HandlesSetup J.gives setting.entry state.old
        request.now judge.old outs.items state.new judge.new) }
    ensures shard { state.new.link.shard ≡ state.old.link.shard }
    ensures refused { IfErr result (λ _. (state.new ≡ state.old) × (judge.new ≡ judge.old)) }
{
    let station = request.came.frame.sender();
    let tid = request.parameters.tid;
    let held = state.agreements.held(station, tid);
    let mut outs = Vec::with_capacity(setting.alloc, held + 1)?;
    let frame = FrameRoom::new(setting.alloc)?;
    let entry = Entry::new(setting.alloc, station, tid)?;
    state.agreements.reserve()?;
    let context = context_of(request);
    let verdict = judge.judge(Hook::Addba, &request.came.bytes, &context);
    match addba_verdict(verdict, request.parameters.buffer_size) {
        None => {
            let answer = answer(setting, request, Status::REQUEST_DECLINED, 0);
            outs.push_reserved(frame.send(&answer));
            Ok(outs)
        }
        Some(size) => {
            let room = GrantRoom { outs, frame, entry };
            let outs = grant(setting, state, request, size, room);
            Ok(outs)
        }
    }
}

/// Declines a request for a delayed policy, without asking for a verdict.
fn decline(setting: Setting<'_>, request: &SetupRequest<'_, '_>) -> Result<Vec<Out>, AllocError>
    ensures { IfOk result
        (λ outs. (shard : ℕ) → outs.items ≡ setup_answer (rules shard setting.entry.config.now)
        (sender request.now.came.now) (setup request.now) 37 0 ∷ []) }
{
    let room = Room::new(setting.alloc)?;
    let answer = answer(setting, request, Status::REQUEST_DECLINED, 0);
    Ok(room.send(&answer))
}

pub(crate) fn on_setup<J: Judge>(
    setting: Setting<'_>,
    state: &mut State,
    request: &SetupRequest<'_, '_>,
    judge: &mut J,
) -> Result<Vec<Out>, AllocError>
    requires came { IsRead state.old.link request.now.came.now }
    ensures step { IfOk result (λ outs. HandlesSetup J.gives setting.entry state.old
        request.now judge.old outs.items state.new judge.new) }
    ensures shard { state.new.link.shard ≡ state.old.link.shard }
    ensures refused { IfErr result (λ _. (state.new ≡ state.old) × (judge.new ≡ judge.old)) }
{
    match request.parameters.policy {
        BlockAckPolicy::Immediate => {
            let outs = on_immediate(setting, state, request, judge)?;
            Ok(outs)
        }
        BlockAckPolicy::Delayed => {
            let outs = decline(setting, request)?;
            Ok(outs)
        }
    }
}
