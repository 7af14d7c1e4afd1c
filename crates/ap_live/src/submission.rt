//! How an operator puts events, and what a worker took of them.

ghost use Rattle.std.specs.Prelude.{◌≡◌, ◌<◌, ◌-◌, [], slice_index_or, IfErr, IsTrue, OnOk};
ghost use Rattle.ap_queues.specs.Lines.{AreAllTakenAt, ArePassesOf, AreTakenAt, HaveMade, numbers_of, puts_of};
ghost use Rattle.ap_queues.specs.Passes.{taken_by};
ghost use Rattle.ap_queues.specs.Queues.{items_of};
ghost use Rattle.ap_queues.specs.Putting.{IsTick, first_shard, shard_count, served};
ghost use Rattle.ap_queues.specs.Refusing.{StopsAt};
ghost use Rattle.ap_live.specs.Tokens.{IsOperator, IsWorker};

use crate::live::LiveAp;
use crate::tokens::{OperatorToken, WorkerToken};
use ap_books::Ledgers;
use ap_locked::Journals;
use ap_model::Event;
use ap_queues::{LinePasses, Unserved};
use std::sync::Wait;

impl<B: Ledgers + Journals> LiveAp<B> {
    /// Puts an event into the queue of its shard's worker, and a tick into those of all shards, as
    /// `EventLines::submit`. Fails with 61 only if a queue held 256 items at a moment of the call, and
    /// returns the event and that queue's shard, the first that did not get it.
    pub fn submit<R: Wait>(
        &self,
        rt: &R,
        operator: &mut OperatorToken<B>,
        call: u64,
        event: Event,
    ) -> Result<(), Unserved>
        requires own { IsOperator self.now operator.old }
        ensures own { IsOperator self.now operator.new }
        ensures put { OnOk result
            (puts_of operator.new.lines ≡ served (puts_of operator.old.lines) call event
            (first_shard event) (shard_count event)) }
        ensures refused { IfErr result
            (StopsAt self.now.queues operator.old.lines operator.new.lines call event
            (first_shard event) (shard_count event)) }
        ensures same { operator.new ≡ record operator.old { lines = operator.new.lines } }
    {
        self.lines.submit(rt, &mut operator.lines, call, event)
    }

    /// Continues a tick at this shard, as `submit`.
    pub fn submit_at<R: Wait>(
        &self,
        rt: &R,
        operator: &mut OperatorToken<B>,
        call: u64,
        event: Event,
        shard: u16,
    ) -> Result<(), Unserved>
        requires own { IsOperator self.now operator.old }
        requires tick { IsTick event }
        requires below { shard < 8 }
        ensures own { IsOperator self.now operator.new }
        ensures put { OnOk result
            (puts_of operator.new.lines ≡ served (puts_of operator.old.lines) call event shard
            (8 - shard)) }
        ensures refused { IfErr result
            (StopsAt self.now.queues operator.old.lines operator.new.lines call event shard
            (8 - shard)) }
        ensures same { operator.new ≡ record operator.old { lines = operator.new.lines } }
    {
        self.lines
            .submit_at(rt, &mut operator.lines, call, event, shard)
    }

    /// Brings a worker and an operator together: what the worker took of this operator is a prefix of
    /// what that put into its queue, in order, once each. Does nothing at run time.
    pub fn meet(&self, worker: &mut WorkerToken<B>, operator: &mut OperatorToken<B>)
        requires worker { IsWorker self.now worker.old }
        requires operator { IsOperator self.now operator.old }
        ensures worker { IsWorker self.now worker.new }
        ensures operator { IsOperator self.now operator.new }
        ensures order { AreTakenAt worker.old.number operator.old.lines worker.old.pass }
        ensures taken { taken_by worker.new.pass ≡ taken_by worker.old.pass }
        ensures put { puts_of operator.new.lines ≡ puts_of operator.old.lines }
        ensures numbers { numbers_of operator.new.lines ≡ numbers_of operator.old.lines }
        ensures same { worker.new ≡ record worker.old { pass = worker.new.pass } }
        ensures same_operator { operator.new ≡ record operator.old { lines = operator.new.lines } }
    {
        let WorkerToken { number, pass, .. } = worker;
        self.lines.meet(*number, pass, &mut operator.lines);
    }

    /// As `meet`, for the only operator: it put all that the worker took, which is a prefix of what it put
    /// into the worker's queue, in order, once each. Returns whether that queue is empty: then the worker
    /// took all that was put. `left` has the handles of the queues that were not given.
    pub fn meet_alone(
        &self,
        worker: &mut WorkerToken<B>,
        operator: &mut OperatorToken<B>,
        left: &mut LinePasses,
    ) -> bool
        requires worker { IsWorker self.now worker.old }
        requires operator { IsOperator self.now operator.old }
        requires left { ArePassesOf self.now.queues left.old }
        requires alone { HaveMade 1 left.old }
        ensures worker { IsWorker self.now worker.new }
        ensures operator { IsOperator self.now operator.new }
        ensures left { ArePassesOf self.now.queues left.new }
        ensures made { HaveMade 1 left.new }
        ensures order { AreAllTakenAt worker.old.number operator.old.lines worker.old.pass }
        ensures whole { IsTrue result →
            slice_index_or (puts_of operator.old.lines) worker.old.number []
            ≡ items_of (taken_by worker.old.pass) }
        ensures taken { taken_by worker.new.pass ≡ taken_by worker.old.pass }
        ensures put { puts_of operator.new.lines ≡ puts_of operator.old.lines }
        ensures numbers { numbers_of operator.new.lines ≡ numbers_of operator.old.lines }
        ensures same { worker.new ≡ record worker.old { pass = worker.new.pass } }
        ensures same_operator { operator.new ≡ record operator.old { lines = operator.new.lines } }
    {
        let WorkerToken { number, pass, .. } = worker;
        self.lines
            .meet_alone(*number, pass, &mut operator.lines, left)
    }
}
