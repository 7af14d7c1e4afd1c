//! What programs read of the shard that an event concerns.

ghost use Rattle.std.specs.Prelude.{◌≡◌, ◌<◌, ℕ, Some};
ghost use Rattle.bpf_helpers.specs.HookPorts.{given_by};
ghost use Rattle.ap_model.specs.AccessPoint.{shard_of};
ghost use Rattle.ap_core.specs.Shards.{reads};
ghost use Rattle.ap_core.specs.AccessPoints.{readings_of};
ghost use Rattle.ap_single.specs.Leading.{IsGiven};

use ap_core::{Event, Shard, shard_of};
use bpf_helpers::{MapTables, WorkerView};

/// What programs read of this shard.
fn view_of<'t>(shard: &Shard, maps: &'t [MapTables]) -> WorkerView<'t>
    ensures maps { result.maps ≡ maps.entry }
    ensures given { IsGiven maps.now (reads shard.now) (given_by result) }
{
    WorkerView {
        maps,
        worker: 0,
        clock: shard.clock(),
        stations: shard.stations(),
    }
}

/// What programs read of the shard with this number.
pub(crate) fn view_in<'t>(shards: &[Shard; 8], at: usize, maps: &'t [MapTables]) -> WorkerView<'t>
    requires fits { at < 8 }
    ensures maps { result.maps ≡ maps.entry }
    ensures worker { result.worker ≡ 0 }
    ensures given { IsGiven maps.now (readings_of shards.now at) (given_by result) }
{
    view_of(&shards[at], maps)
}

/// What programs read of the shard that an event concerns.
pub fn view_at<'t>(shards: &[Shard; 8], event: &Event, maps: &'t [MapTables]) -> WorkerView<'t>
    ensures maps { result.maps ≡ maps.entry }
    ensures worker { result.worker ≡ 0 }
    ensures given { (s : ℕ) → shard_of event.now ≡ Some s →
        IsGiven maps.now (readings_of shards.now s) (given_by result) }
{
    match shard_of(event) {
        Some(at) => view_in(shards, at, maps),
        None => view_in(shards, 0, maps),
    }
}
