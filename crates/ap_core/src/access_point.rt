//! Eight shards.

ghost use Rattle.std.specs.Prelude.{◌≡◌, ◌+◌, ◌≤◌, ◌<◌, [], ◌∷◌, Some, IfSome, IfOk, IfErr, MatchOption, replicate, vec_len, vec_capacity};
ghost use Rattle.std.specs.Option.{option_map};
ghost use Rattle.ap_model.specs.declared.event.Event.{Event};
ghost use Rattle.ap_model.specs.AccessPoint.{shard_of, shard_of_address, shard_of_bytes, InPlace};
ghost use Rattle.ap_core.specs.AccessPoints.{rules_of, outs_in, AreFresh, RunsAll, RunsOne, TickedBelow};

use crate::shard::Shard;
use ap_model::{Event, Judge, LinkConfig, Out};
use mac_frame::Address;
use std::alloc::{AllocError, Global};

fn shard_of_address(station: Address) -> usize
    ensures is { result ≡ shard_of_address station }
    ensures fits { result < 8 }
{
    let [.., last] = station.octets();
    usize::from(last % 8)
}

/// The shard of a frame's sender; 0 if the bytes are too short to name one.
pub fn shard_of_bytes(bytes: &[u8]) -> usize
    ensures is { result ≡ shard_of_bytes bytes.now }
    ensures fits { result < 8 }
{
    match bytes.get(15) {
        Some(last) => usize::from(*last % 8),
        None => 0,
    }
}

/// The shard that an event concerns: of a frame its sender's, or 0 if the bytes are too short to
/// name one; of an operator's command its station's. `None` for a tick, which concerns all.
pub fn shard_of(event: &Event) -> Option<usize>
    ensures is { result ≡ shard_of event.now }
    ensures fits { IfSome result (λ s. s < 8) }
{
    match event {
        Event::Frame(bytes) => Some(shard_of_bytes(bytes.bytes())),
        Event::Tick(_) => None,
        Event::Kick { station, .. } => Some(shard_of_address(*station)),
        Event::Close { station, .. } => Some(shard_of_address(*station)),
    }
}

/// Eight copies of a configuration.
fn eight_copies(config: &LinkConfig) -> Result<[LinkConfig; 8], AllocError>
    ensures { IfOk result (λ r. r ≡ replicate 8 config.now) }
{
    [config; 8].try_map(|one| one.clone())
}

/// Eight shards of an access point that have handled nothing, each at the index of its number.
pub fn new_shards(alloc: Global, config: &LinkConfig) -> Result<[Shard; 8], AllocError>
    ensures fresh { IfOk result (AreFresh config.now) }
    ensures place { IfOk result (λ shards. InPlace (rules_of shards)) }
{
    let [first, second, third, fourth, fifth, sixth, seventh, eighth] = eight_copies(config)?;
    Ok([
        Shard::with_config(alloc, 0, first),
        Shard::with_config(alloc, 1, second),
        Shard::with_config(alloc, 2, third),
        Shard::with_config(alloc, 3, fourth),
        Shard::with_config(alloc, 4, fifth),
        Shard::with_config(alloc, 5, sixth),
        Shard::with_config(alloc, 6, seventh),
        Shard::with_config(alloc, 7, eighth),
    ])
}

/// Ticks the first `count` shards. The list has capacity for their outputs and `beside` more.
/// Everything is allocated first, from the last shard down.
fn tick_below(
    alloc: Global,
    shards: &mut [Shard; 8],
    count: usize,
    units: u32,
    beside: usize,
) -> Result<Vec<Out>, AllocError>
    requires { count ≤ 8 }
    ensures ticked { IfOk result
        (λ outs. TickedBelow count units shards.old shards.new outs.items) }
    ensures room { IfOk result (λ outs. vec_len outs + beside ≤ vec_capacity outs) }
    ensures refused { IfErr result (λ _. shards.new ≡ shards.old) }
{
    if count == 0 {
        let outs = Vec::with_capacity(alloc, beside)?;
        return Ok(outs);
    }
    let last = count - 1;
    let room = shards[last].tick_room(alloc, units)?;
    let most = shards[last].most_outs(units);
    let needed = beside.saturating_add(most);
    let mut outs = tick_below(alloc, shards, last, units, needed)?;
    let shard = &mut shards[last];
    shard.tick(alloc, units, room, &mut outs);
    Ok(outs)
}

/// Ticks all eight shards, or none.
fn tick_all(alloc: Global, shards: &mut [Shard; 8], units: u32) -> Option<Vec<Out>>
    ensures { MatchOption result (shards.new ≡ shards.old)
        (λ outs. TickedBelow 8 units shards.old shards.new outs.items) }
{
    match tick_below(alloc, shards, 8, units, 0) {
        Ok(outs) => Some(outs),
        Err(_) => None,
    }
}

/// Handles an event at its shard. `None` if it is refused for lack of memory.
fn handle_at<J: Judge>(
    alloc: Global,
    shards: &mut [Shard; 8],
    at: usize,
    event: &Event,
    judge: &mut J,
) -> Option<Vec<Out>>
    requires fits { at < 8 }
    requires concerns { shard_of event.now ≡ Some at }
    ensures { RunsOne J.gives shards.old event.now judge.old
        (option_map (λ outs. outs.items) result) shards.new judge.new }
{
    let shard = &mut shards[at];
    match shard.handle(alloc, event, judge) {
        Ok(outs) => Some(outs),
        Err(_) => None,
    }
}

/// Receives bytes that the caller keeps, at the shard that they concern (`shard_of_bytes`), as
/// `handle_one` handles the event of such a frame.
pub fn receive_one<J: Judge>(
    alloc: Global,
    shards: &mut [Shard; 8],
    bytes: &[u8],
    judge: &mut J,
) -> Option<Vec<Out>>
    ensures { RunsOne J.gives shards.old (Event.Frame bytes.now) judge.old
        (option_map (λ outs. outs.items) result) shards.new judge.new }
{
    let shard = &mut shards[shard_of_bytes(bytes)];
    match shard.receive(alloc, bytes, judge) {
        Ok(outcome) => Some(outcome.outs),
        Err(_) => None,
    }
}

/// Handles an event at the shards that it concerns (`shard_of`): a tick at all eight shards, or at
/// none. Returns its outputs, those of a tick ordered by shard. `None` if it is refused for lack of
/// memory, which changes nothing and asks for no verdict.
pub fn handle_one<J: Judge>(
    alloc: Global,
    shards: &mut [Shard; 8],
    event: &Event,
    judge: &mut J,
) -> Option<Vec<Out>>
    ensures { RunsOne J.gives shards.old event.now judge.old
        (option_map (λ outs. outs.items) result) shards.new judge.new }
{
    match event {
        Event::Frame(bytes) => receive_one(alloc, shards, bytes.bytes(), judge),
        Event::Tick(units) => tick_all(alloc, shards, *units),
        Event::Kick { station, reason: _ } => {
            let at = shard_of_address(*station);
            handle_at(alloc, shards, at, event, judge)
        }
        Event::Close { station, tid: _ } => {
            let at = shard_of_address(*station);
            handle_at(alloc, shards, at, event, judge)
        }
    }
}

/// Handles events in order, each at the shard that it concerns (`shard_of`); a tick at all eight
/// shards, or at none. Lists the outputs of each, those of a tick ordered by shard. `None` is an
/// event that was refused for lack of memory, which changed nothing and asked for no verdict. If
/// allocating the list fails, no event is handled.
pub fn handle_all<J: Judge>(
    alloc: Global,
    shards: &mut [Shard; 8],
    events: &[Event],
    judge: &mut J,
) -> Result<Vec<Option<Vec<Out>>>, AllocError>
    // Shard s is at index s.
    requires place { InPlace (rules_of shards.old) }
    // The outputs and verdicts of each shard are a run of the link, from its readings.
    ensures run { IfOk result
        (λ results. RunsAll J.gives shards.old events.now judge.old (outs_in results.items)
        shards.new judge.new) }
    ensures place { InPlace (rules_of shards.new) }
    ensures refused { IfErr result (λ _. (shards.new ≡ shards.old) × (judge.new ≡ judge.old)) }
{
    let mut results = Vec::with_capacity(alloc, events.len())?;
    for event in events {
        let result = handle_one(alloc, shards, event, judge);
        results.push_reserved(result);
    }
    Ok(results)
}
