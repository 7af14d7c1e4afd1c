//! Events at eight shards.

ghost use Rattle.std.specs.Prelude.{◌≡◌, ℕ, Some, IfOk, length};
ghost use Rattle.bpf_helpers.specs.Hooked.{IsFitting};
ghost use Rattle.bpf_helpers.specs.HookPorts.{given_by};
ghost use Rattle.ap_model.specs.AccessPoint.{InPlace, shard_of};
ghost use Rattle.ap_core.specs.AccessPoints.{rules_of, readings_of, outs_in};
ghost use Rattle.uses_policies.specs.Policed.{IsGiven};
ghost use Rattle.uses_policies.specs.Eight.{EventsPoliced, HeadlineHolds};

use crate::one::view_of;
use crate::policies::Policies;
use ap_core::{Event, LinkConfig, ListJudge, Out, Shard, handle_all, new_shards, shard_of};
use ap_laws::link_law;
use bpf_helpers::WorkerView;
use hook_judge::{CountedState, SetJudge};
use std::alloc::{AllocError, Global};

/// What a worker's programs read of the shard that an event concerns.
fn view_at<'t>(shards: &[Shard; 8], event: &Event, policies: Policies<'_, 't>) -> WorkerView<'t>
    ensures maps { result.maps ≡ policies.entry.maps }
    ensures worker { result.worker ≡ policies.entry.worker }
    ensures given { (s : ℕ) → shard_of event.now ≡ Some s →
        IsGiven policies.entry (readings_of shards.now s) (given_by result) }
{
    match shard_of(event) {
        Some(at) => view_of(&shards[at], policies),
        None => view_of(&shards[0], policies),
    }
}

/// Handles one event, in a list of its own, at the shards that it concerns.
fn decide_at(
    alloc: Global,
    shards: &mut [Shard; 8],
    event: &[Event],
    policies: Policies<'_, '_>,
    state: &mut CountedState,
) -> Result<Vec<Option<Vec<Out>>>, AllocError>
    requires one { length event.now ≡ 1 }
    requires place { InPlace (rules_of shards.old) }
    requires seats { IsFitting policies.maps.now policies.worker state.old.seats }
    ensures policed { IfOk result
        (λ results. EventsPoliced policies.entry shards.old event.now (outs_in results.items)
        shards.new) }
    ensures place { InPlace (rules_of shards.new) }
    ensures seats { IsFitting policies.entry.maps.now policies.entry.worker state.new.seats }
{
    let view = view_at(shards, &event[0], policies);
    let mut judge = SetJudge::new(policies.set, view, state);
    let results = handle_all(alloc, shards, event, &mut judge)?;
    Ok(results)
}

/// Handles a list of events at any eight shards, each at the index of its number, where they stay, judged by a worker's
/// policies. If it succeeds, then whatever other seats do to the maps meanwhile, the entries of each shard are a link
/// run in which each verdict is that of the policies. One set judges the whole list.
pub fn go_on(
    alloc: Global,
    shards: &mut [Shard; 8],
    events: &[Event],
    policies: Policies<'_, '_>,
    state: &mut CountedState,
) -> Result<Vec<Option<Vec<Out>>>, AllocError>
    requires place { InPlace (rules_of shards.old) }
    requires seats { IsFitting policies.maps.now policies.worker state.old.seats }
    ensures policed { IfOk result
        (λ results. EventsPoliced policies.entry shards.old events.now (outs_in results.items)
        shards.new) }
    ensures place { InPlace (rules_of shards.new) }
    ensures seats { IsFitting policies.entry.maps.now policies.entry.worker state.new.seats }
{
    let mut results = Vec::new(alloc);
    for at in 0..events.len() {
        let mut one = decide_at(alloc, shards, &events[at..at + 1], policies, state)?;
        results.append(&mut one)?;
    }
    Ok(results)
}

/// Handles a list of events at a new access point, judged by a worker's policies. If it succeeds, then for all events,
/// and whatever other seats do to the maps meanwhile, the main theorem holds: no program faults or exceeds its budget;
/// the outputs are the link's under these verdicts; no data of a station that was not associated is passed up; each
/// agreement has passed up exactly its accepted numbers below its window, once each, in increasing order; and no two
/// stations hold one identifier. One set judges the whole list. To load programs between events, or to follow the
/// worker's draw word and accesses from event to event, call `decide`, which handles one event by its own set.
pub fn serve(
    alloc: Global,
    config: &LinkConfig,
    events: &[Event],
    policies: Policies<'_, '_>,
    state: &mut CountedState,
) -> Result<Vec<Option<Vec<Out>>>, AllocError>
    requires seats { IsFitting policies.maps.now policies.worker state.old.seats }
    ensures headline { IfOk result
        (λ results. HeadlineHolds policies.entry config.now events.now (outs_in results.items)) }
    ensures seats { IsFitting policies.entry.maps.now policies.entry.worker state.new.seats }
{
    link_law::<ListJudge<'_>>();
    let nobody = ListJudge::new(&[]);
    let mut shards = new_shards(alloc, config)?;
    let results = go_on(alloc, &mut shards, events, policies, state)?;
    drop(nobody);
    Ok(results)
}
