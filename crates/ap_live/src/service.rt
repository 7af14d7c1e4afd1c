//! How a worker serves its queue.

ghost use Rattle.std.specs.Prelude.{◌≡◌, ◌<◌, IfNone, IfSome};
ghost use Rattle.bpf_helpers.specs.Hooked.{IsFitting};
ghost use Rattle.ap_shards.specs.Desks.{ByDesk};
ghost use Rattle.ap_shards.specs.Fates.{ComesAt};
ghost use Rattle.ap_shards.specs.Judged.{HoldsOn};
ghost use Rattle.ap_live.specs.Headline.{WorkerHeadline};
ghost use Rattle.ap_live.specs.Serving.{Becomes, Served, ServedOne, progress_of};
ghost use Rattle.ap_live.specs.Tokens.{IsWorker};

use crate::gate::Gate;
use crate::live::LiveAp;
use crate::tagged::Tagged;
use crate::tokens::WorkerToken;
use ap_books::Ledgers;
use ap_locked::Journals;
use ap_queues::Item;
use ap_shards::{Desk, Fate, ShardTokens};
use core::mem::replace_with;
use hook_judge::CountedState;
use std::alloc::{AllocError, Global};
use std::sync::Wait;

/// An item that a worker took, and the gate to inform.
struct Taken<'a, G: Gate> {
    item: &'a Item,
    gate: &'a G,
}

impl<B: Ledgers + Journals> LiveAp<B> {
    /// Serves the worker's queue until it is found empty, the gate says stop, or an allocation fails;
    /// no clause says how many events that are. Each item that was taken is reported in `list`, in
    /// order, with the fate of its event. The main theorem holds of the reports, whatever other workers
    /// and operators do meanwhile.
    pub fn serve<R: Wait, G: Gate>(
        &self,
        rt: &R,
        alloc: Global,
        worker: &mut WorkerToken<B>,
        gate: &G,
        list: &mut Vec<Tagged>,
    ) -> Result<(), AllocError>
        requires { IsWorker self.now worker.old }
        ensures own { IsWorker self.now worker.new }
        ensures number { worker.new.number ≡ worker.old.number }
        ensures served { Served B.config self.now worker.old worker.new list.old.items
            list.new.items }
        ensures headline { WorkerHeadline B.config self.now worker.old worker.new list.old.items
            list.new.items }
    {
        for _ in rt.forever() {
            if list.reserve(1).is_err() {
                return Err(AllocError);
            }
            let Some(tagged) = self.serve_one(rt, alloc, worker, gate) else {
                return Ok(());
            };
            let stopped = matches!(tagged.fate, Fate::NotHandled);
            list.push_reserved(tagged);
            if stopped {
                return Ok(());
            }
        }
        unreachable!()
    }

    /// Serves the oldest event of the worker's queue, and reports it with its fate; `None` if there is
    /// none. The event is decided under its shard's lock, by the programs of one whole published set,
    /// unless the gate says stop: then it is reported as not handled.
    fn serve_one<R: Wait, G: Gate>(
        &self,
        rt: &R,
        alloc: Global,
        worker: &mut WorkerToken<B>,
        gate: &G,
    ) -> Option<Tagged>
        requires { IsWorker self.now worker.old }
        ensures own { IsWorker self.now worker.new }
        ensures number { worker.new.number ≡ worker.old.number }
        ensures served { IfSome result (λ t. ServedOne B.config self.now worker.old t worker.new) }
        ensures none { IfNone result (progress_of worker.new ≡ progress_of worker.old) }
    {
        let queue = self.lines.queue(worker.number);
        let queued = queue.take(rt, &mut worker.pass)?;
        let item = queued.item;
        // Proofs have from it that the event concerns the shard.
        let _shard = item.shard;
        let taken = Taken { item: &item, gate };
        let fate = self.handle(rt, alloc, worker, taken);
        Some(Tagged { item, fate })
    }

    /// The fate of an event that was taken.
    fn handle<R: Wait, G: Gate>(
        &self,
        rt: &R,
        alloc: Global,
        worker: &mut WorkerToken<B>,
        taken: Taken<'_, G>,
    ) -> Fate
        requires { IsWorker self.now worker.old }
        ensures own { IsWorker self.now worker.new }
        ensures number { worker.new.number ≡ worker.old.number }
        ensures pass { worker.new.pass ≡ worker.old.pass }
        ensures became { Becomes B.config self.now worker.old.number (progress_of worker.old)
            taken.entry.item.now.event taken.entry.item.now.shard result (progress_of worker.new) }
    {
        let Taken { item, gate } = taken;
        if gate.stop(item.call) {
            return Fate::NotHandled;
        }
        gate.begin(item.call);
        let fate = replace_with(
            worker,
            (self, rt, alloc, item),
            |worker, (ap, rt, alloc, item)| { ap.decided(rt, alloc, worker, item) },
        );
        gate.end(item.call);
        fate
    }

    /// Enters the published set, decides the event by it under the shard's lock, and leaves the set.
    fn decided<R: Wait>(
        &self,
        rt: &R,
        alloc: Global,
        worker: WorkerToken<B>,
        item: &Item,
    ) -> (WorkerToken<B>, Fate)
        requires { IsWorker self.now worker }
        ensures own { IsWorker self.now result.0 }
        ensures number { result.0.number ≡ worker.number }
        ensures pass { result.0.pass ≡ worker.pass }
        ensures became { Becomes B.config self.now worker.number (progress_of worker)
            item.now.event item.now.shard result.1 (progress_of result.0) }
    {
        let WorkerToken {
            number,
            pass,
            reader,
            mut state,
            mut shards,
        } = worker;
        let entered = self.entrance.enter(rt, reader);
        let desk = Desk {
            alloc,
            set: entered.set(),
            maps: self.tables.maps(),
            worker: number,
        };
        let fate = self.fate_of(rt, &mut shards, desk, &mut state, item);
        let worker = WorkerToken {
            number,
            pass,
            reader: entered.leave(),
            state,
            shards,
        };
        (worker, fate)
    }

    /// Decides the event under its shard's lock.
    fn fate_of<R: Wait>(
        &self,
        rt: &R,
        mine: &mut ShardTokens<B>,
        desk: Desk<'_, '_>,
        state: &mut CountedState,
        item: &Item,
    ) -> Fate
        requires { IsFitting desk.maps.now desk.worker state.old.seats }
        ensures fate { ComesAt (ByDesk desk.entry state.old state.new)
            B.config item.now.shard mine.old item.now.event result mine.new }
        ensures holds { HoldsOn result state.old state.new }
        ensures fitting { IsFitting desk.entry.maps.now desk.entry.worker state.new.seats }
        ensures inside { item.now.shard < 8 }
    {
        let at = (item.shard, &item.event);
        let fate = self.shards.decide(rt, mine, desk, state, at);
        fate
    }
}
