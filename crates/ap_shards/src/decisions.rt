//! One event, under the lock of its shard.

ghost use Rattle.std.specs.Prelude.{◌≡◌, ◌<◌};
ghost use Rattle.bpf_helpers.specs.Hooked.{IsFitting};
ghost use Rattle.ap_locked.specs.Tokens.{rules};
ghost use Rattle.ap_shards.specs.Desks.{ByDesk};
ghost use Rattle.ap_shards.specs.Fates.{Comes, ComesAt};
ghost use Rattle.ap_shards.specs.Judged.{HoldsOn, WasTaken};

use crate::desk::Desk;
use crate::fate::Fate;
use crate::shards::Shards;
use crate::tokens::ShardTokens;
use ap_books::Ledgers;
use ap_locked::{Journals, Locked, ShardToken};
use ap_model::Event;
use bpf_helpers::WorkerView;
use hook_judge::{CountedState, SetJudge};
use std::sync::Wait;

/// Decides the event with the shard's clock and number of stations.
fn decide_at<B: Ledgers + Journals, const SHARD: usize>(
    locked: &mut Locked<B, SHARD>,
    mine: &mut ShardToken<B, SHARD>,
    desk: Desk<'_, '_>,
    state: &mut CountedState,
    event: &Event,
) -> Fate
    requires { IsFitting desk.maps.now desk.worker state.old.seats }
    ensures fate { Comes (ByDesk desk.entry state.old state.new)
        (rules SHARD B.config) mine.old event.now result mine.new }
    ensures taken { WasTaken result }
    ensures holds { HoldsOn result state.old state.new }
    ensures fitting { IsFitting desk.entry.maps.now desk.entry.worker state.new.seats }
{
    let view = WorkerView {
        maps: desk.maps,
        worker: desk.worker,
        clock: locked.clock(),
        stations: locked.stations(),
    };
    let mut judge = SetJudge::new(desk.set, view, state);
    match locked.decide(desk.alloc, mine, event, &mut judge) {
        Ok((outs, dropped)) => Fate::Decided { outs, dropped },
        Err(_) => Fate::Refused,
    }
}

impl<B: Ledgers + Journals> Shards<B> {
    /// Decides an event under the lock of this shard, by the programs of a published set over a
    /// worker's tables, and counts their runs. `mine` then has its entry, and counts it. An event that is refused for lack of
    /// memory changes neither the tokens nor the worker's state.
    pub fn decide<R: Wait>(
        &self,
        rt: &R,
        mine: &mut ShardTokens<B>,
        desk: Desk<'_, '_>,
        state: &mut CountedState,
        at: (u16, &Event),
    ) -> Fate
        requires shard { at.0 < 8 }
        requires fitting { IsFitting desk.maps.now desk.worker state.old.seats }
        ensures fate { ComesAt (ByDesk desk.entry state.old state.new)
            B.config at.entry.0 mine.old at.entry.1.now result mine.new }
        ensures taken { WasTaken result }
        ensures holds { HoldsOn result state.old state.new }
        ensures fitting { IsFitting desk.entry.maps.now desk.entry.worker state.new.seats }
    {
        let (shard, event) = at;
        match shard {
            0 => decide_at(&mut *self.of0.lock(rt), &mut mine.of0, desk, state, event),
            1 => decide_at(&mut *self.of1.lock(rt), &mut mine.of1, desk, state, event),
            2 => decide_at(&mut *self.of2.lock(rt), &mut mine.of2, desk, state, event),
            3 => decide_at(&mut *self.of3.lock(rt), &mut mine.of3, desk, state, event),
            4 => decide_at(&mut *self.of4.lock(rt), &mut mine.of4, desk, state, event),
            5 => decide_at(&mut *self.of5.lock(rt), &mut mine.of5, desk, state, event),
            6 => decide_at(&mut *self.of6.lock(rt), &mut mine.of6, desk, state, event),
            7 => decide_at(&mut *self.of7.lock(rt), &mut mine.of7, desk, state, event),
            _ => unreachable!(),
        }
    }
}
