//! Events at one shard.

ghost use Rattle.std.specs.Prelude.{◌≡◌, IfOk, IfErr};
ghost use Rattle.bpf_helpers.specs.Hooked.{IsFitting};
ghost use Rattle.ap_core.specs.Shards.{reads, ruled};
ghost use Rattle.ap_model.specs.Runs.{History};
ghost use Rattle.ap_model.specs.Stations.{AreAssociated};
ghost use Rattle.uses_policies.specs.Headline.{EventHolds};

use crate::policies::Policies;
use ap_core::{Event, Out, Shard};
use ap_laws::link_law;
use bpf_helpers::WorkerView;
use hook_judge::{CountedState, SetJudge};
use std::alloc::{AllocError, Global};

/// What a worker's programs read of this shard, which has a history.
pub fn view_of<'t>(shard: &Shard, policies: Policies<'_, 't>) -> WorkerView<'t>
    ensures maps { result.maps ≡ policies.entry.maps }
    ensures worker { result.worker ≡ policies.entry.worker }
    ensures clock { result.clock ≡ (reads shard.now).clock }
    ensures stations { AreAssociated (reads shard.now).standing result.stations }
    ensures history { ∥ History (ruled shard.now) (reads shard.now) ∥₁ }
{
    WorkerView {
        maps: policies.maps,
        worker: policies.worker,
        clock: shard.clock(),
        stations: shard.stations(),
    }
}

/// Handles an event at any one shard, judged by a worker's policies. If it succeeds, the main theorem holds of the
/// shard's entries, whatever other seats do to the maps meanwhile. Each event may have its own set, so programs may be
/// loaded between events; the worker's state continues from event to event. An event that is refused for lack of memory
/// leaves shard and state unchanged.
pub fn decide(
    alloc: Global,
    shard: &mut Shard,
    event: &Event,
    policies: Policies<'_, '_>,
    state: &mut CountedState,
) -> Result<Vec<Out>, AllocError>
    requires seats { IsFitting policies.maps.now policies.worker state.old.seats }
    ensures headline { IfOk result
        (λ outs. ∥ EventHolds policies.entry shard.old event.now state.old outs.items shard.new
        state.new ∥₁) }
    ensures seats { IsFitting policies.entry.maps.now policies.entry.worker state.new.seats }
    ensures refused { IfErr result (λ _. (shard.new ≡ shard.old) × (state.new ≡ state.old)) }
{
    link_law::<SetJudge<'_, '_, '_>>();
    let mut judge = SetJudge::new(policies.set, view_of(shard, policies), state);
    let outs = shard.handle(alloc, event, &mut judge)?;
    Ok(outs)
}
