//! Data, with an agreement and without (IEEE 802.11-2016, 10.24.7.6.2).

ghost use Rattle.std.specs.Prelude.{◌≡◌, ℕ, IfOk, IfErr, Some, None};
ghost use Rattle.blockack.specs.Reading.{IsAlone};
ghost use Rattle.assoc.specs.Standings.{standing};
ghost use Rattle.hooks.specs.Contexts as contexts;
ghost use Rattle.hooks.specs.Verdicts.{data_verdict};
ghost use Rattle.ap_model.specs.Agreements.{agreement_for};
ghost use Rattle.ap_core.specs.Handles.{reading, held_item};
ghost use Rattle.ap_core.specs.DataFrames.{IsRead, IsUnder, IsWantedFor, HandlesData, JudgesData};

use crate::outcome::Outcome;
use crate::room::with_out;
use crate::state::State;
use crate::ups::Ups;
use ap_model::{Held, Judge, Octets, Out, Up};
use assoc::Standing;
use bpf_regions::{Context, Frame, Hook};
use hooks::{Asker, DataVerdict, data_context, data_verdict};
use mac_frame::{Address, MacFrame, SequenceNumber, Tid};
use std::alloc::{AllocError, Global};

/// A received data frame: as parsed, its bytes, its fields, and its sender's standing.
#[derive(Drop)]
pub(crate) struct DataFrame<'a> {
    pub(crate) frame: MacFrame,
    pub(crate) bytes: Frame<'a>,
    pub(crate) destination: Address,
    pub(crate) tid: Option<Tid>,
    pub(crate) number: SequenceNumber,
    pub(crate) standing: Standing,
}

/// The hook's context for data, with the start of its agreement's window.
#[inline(always)]
fn context_of(came: &DataFrame<'_>, start: Option<SequenceNumber>) -> Context
    ensures { result ≡ contexts.data_context came.now.frame.sender came.now.standing came.now.tid
        came.now.number start }
{
    let asker = Asker {
        station: came.frame.sender(),
        standing: came.standing,
    };
    data_context(asker, came.tid, came.number, start)
}

/// Passes data up at once, unless its verdict drops it. Everything is allocated before the verdict
/// is asked for.
#[inline(always)]
fn deliver<J: Judge>(
    alloc: Global,
    state: &State,
    came: DataFrame<'_>,
    start: Option<SequenceNumber>,
    judge: &mut J,
) -> Result<Outcome, AllocError>
    requires came { IsRead (standing state.now.link) came }
    ensures step { IfOk result
        (λ o. JudgesData J.gives state.now came.entry start judge.old o.outs.items o.dropped
        judge.new) }
    ensures refused { IfErr result (λ _. judge.new ≡ judge.old) }
{
    let outs = Vec::with_capacity(alloc, 1)?;
    let context = context_of(&came, start);
    let DataFrame {
        frame,
        bytes,
        destination,
        tid,
        number,
        standing: _,
    } = came;
    let source = frame.sender();
    let verdict = judge.judge(Hook::Data, &bytes, &context);
    match data_verdict(verdict) {
        DataVerdict::Pass(mark) => {
            let up = Up {
                source,
                destination,
                tid,
                number,
                mark,
                body: Octets::new(frame.into_tail()),
            };
            Ok(Outcome {
                outs: with_out(outs, Out::Up(up)),
                dropped: false,
            })
        }
        DataVerdict::Discard => {
            Ok(Outcome {
                outs,
                dropped: true,
            })
        }
    }
}

/// Handles data without an agreement.
#[inline(always)]
pub(crate) fn on_plain_data<J: Judge>(
    alloc: Global,
    state: &State,
    came: DataFrame<'_>,
    judge: &mut J,
) -> Result<Outcome, AllocError>
    requires came { IsRead (standing state.now.link) came }
    requires plain { agreement_for (reading state.now) came.frame.sender came.tid ≡ None }
    ensures step { IfOk result
        (λ o. HandlesData J.gives state.now came.entry judge.old o.outs.items o.dropped
        state.now judge.new) }
    ensures refused { IfErr result (λ _. judge.new ≡ judge.old) }
{
    let outcome = deliver(alloc, state, came, None, judge)?;
    Ok(outcome)
}

/// The agreement of a data frame: its index, its TID and its window's first number.
#[derive(Clone, Copy)]
pub(crate) struct Under {
    pub(crate) at: usize,
    pub(crate) tid: Tid,
    pub(crate) start: SequenceNumber,
}

/// An agreement whose window wants a data frame, and the most frames that the window then passes up: none if the data
/// waits for an earlier number.
#[derive(Clone, Copy)]
struct Wanted {
    under: Under,
    most: usize,
}

/// Handles data that its agreement's window releases at once, and nothing after it.
fn on_data_alone<J: Judge>(
    alloc: Global,
    state: &mut State,
    came: DataFrame<'_>,
    under: Under,
    judge: &mut J,
) -> Result<Outcome, AllocError>
    requires came { IsRead (standing state.old.link) came }
    requires under { IsUnder state.old.agreements.kept came under IsAlone }
    ensures step { IfOk result
        (λ o. HandlesData J.gives state.old came.entry judge.old o.outs.items o.dropped
        state.new judge.new) }
    ensures shard { state.new.link.shard ≡ state.old.link.shard }
    ensures refused { IfErr result (λ _. (state.new ≡ state.old) × (judge.new ≡ judge.old)) }
{
    let number = came.number;
    let clock = state.clock;
    let outcome = deliver(alloc, state, came, Some(under.start), judge)?;
    state.agreements.pass_alone(under.at, number, clock);
    Ok(outcome)
}

/// What a window takes for the frame: nothing if the verdict drops it.
fn item_of(verdict: u64, destination: Address, body: Octets) -> Option<Held>
    ensures { result ≡ held_item destination body (data_verdict verdict) }
{
    match data_verdict(verdict) {
        DataVerdict::Pass(mark) => Some(Held::new(destination, mark, body)),
        DataVerdict::Discard => None,
    }
}

/// Handles data that its agreement's window wants. Everything is allocated before the verdict is
/// asked for.
fn on_wanted_data<J: Judge>(
    alloc: Global,
    state: &mut State,
    came: DataFrame<'_>,
    wanted: Wanted,
    judge: &mut J,
) -> Result<Outcome, AllocError>
    requires came { IsRead (standing state.old.link) came }
    requires under { IsUnder state.old.agreements.kept came wanted.under
        (IsWantedFor wanted.most) }
    ensures step { IfOk result
        (λ o. HandlesData J.gives state.old came.entry judge.old o.outs.items o.dropped
        state.new judge.new) }
    ensures shard { state.new.link.shard ≡ state.old.link.shard }
    ensures refused { IfErr result (λ _. (state.new ≡ state.old) × (judge.new ≡ judge.old)) }
{
    let Wanted { under, most } = wanted;
    let outs = Vec::with_capacity(alloc, most)?;
    let station = came.frame.sender();
    let context = context_of(&came, Some(under.start));
    let verdict = judge.judge(Hook::Data, &came.bytes, &context);
    let number = came.number;
    let destination = came.destination;
    let body = Octets::new(came.frame.into_tail());
    let item = item_of(verdict, destination, body);
    let dropped = item.is_none();
    let clock = state.clock;
    if most == 0 {
        state.agreements.hold(under.at, number, item, clock);
        return Ok(Outcome { outs, dropped });
    }
    let mut ups = Ups {
        station,
        tid: under.tid,
        outs,
    };
    state
        .agreements
        .pass_to(under.at, number, item, clock, &mut ups);
    Ok(Outcome {
        outs: ups.outs,
        dropped,
    })
}

pub(crate) fn on_qos_data<J: Judge>(
    alloc: Global,
    state: &mut State,
    came: DataFrame<'_>,
    tid: Tid,
    judge: &mut J,
) -> Result<Outcome, AllocError>
    requires came { IsRead (standing state.old.link) came }
    requires tid { came.tid ≡ Some tid }
    ensures step { IfOk result
        (λ o. HandlesData J.gives state.old came.entry judge.old o.outs.items o.dropped
        state.new judge.new) }
    ensures shard { state.new.link.shard ≡ state.old.link.shard }
    ensures refused { IfErr result (λ _. (state.new ≡ state.old) × (judge.new ≡ judge.old)) }
{
    let station = came.frame.sender();
    match state.agreements.get_placed(station, tid) {
        None => {
            let outcome = on_plain_data(alloc, state, came, judge)?;
            Ok(outcome)
        }
        Some((at, entry)) => {
            let start = entry.start();
            let under = Under { at, tid, start };
            if entry.passes_alone(came.number) {
                let outcome = on_data_alone(alloc, state, came, under, judge)?;
                return Ok(outcome);
            }
            if entry.wants(came.number) {
                let most = entry.most_passed(came.number);
                let wanted = Wanted { under, most };
                let outcome = on_wanted_data(alloc, state, came, wanted, judge)?;
                return Ok(outcome);
            }
            let clock = state.clock;
            state.agreements.leave(at, came.number, clock);
            Ok(Outcome {
                outs: Vec::new(alloc),
                dropped: false,
            })
        }
    }
}
