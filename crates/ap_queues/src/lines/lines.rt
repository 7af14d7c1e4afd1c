//! The queues of all workers.

ghost use Rattle.std.specs.Prelude.{◌≡◌, ◌<◌, [], length, slice_get, slice_index_or, Some, IfOk, IsTrue, OnOk};
ghost use Rattle.ap_queues.specs.Passes.{IsWorkerOf, taken_by};
ghost use Rattle.ap_queues.specs.declared.queue.EventQueue.{EventQueue};
ghost use Rattle.ap_queues.specs.Lines.{ArePassesOf, AreLinesOf, AreTakenAt, AreAllTakenAt, HasPutNothing, HaveMade, MakesNoMore, MakesOneMore, numbers_of, puts_of};
ghost use Rattle.ap_queues.specs.Queues.{items_of};

use crate::lines::fault::{LineFault, Unserved};
use crate::lines::passes::{LinePasses, OperatorLines};
use crate::{EventQueue, WorkerPass};
use std::alloc::{AllocError, Global};
use std::marker::Model;

/// The queue of each worker, by worker number. Threads share it by reference.
#[derive(Drop)]
pub struct EventLines {
    pub(crate) queues: Vec<EventQueue>,
}

impl Model for EventLines {
    ghost use Rattle.std.specs.Prelude.{List, ◌<◌, length};
    ghost use Rattle.ap_queues.specs.declared.queue.EventQueue.{EventQueue};

    ghost Value = { List EventQueue };

    ghost view = { λ l. l.queues.items };

    ghost invariant = { λ l. 0 < length l.queues.items };
}

impl EventLines {
    /// An empty queue for each of this many workers, and the source of their handles.
    pub fn open(alloc: Global, workers: usize) -> Result<(EventLines, LinePasses), AllocError>
        requires some { 0 < workers }
        ensures workers { IfOk result (λ r. length r.0 ≡ workers) }
        ensures own { IfOk result (λ r. ArePassesOf r.0 r.1) }
        ensures unmade { IfOk result (λ r. HaveMade 0 r.1) }
    {
        let mut queues = Vec::with_capacity(alloc, workers)?;
        let mut makers = Vec::with_capacity(alloc, workers)?;
        let mut passes = Vec::with_capacity(alloc, workers)?;
        for _ in 0..workers {
            let (queue, maker, pass) = EventQueue::open(alloc)?;
            queues.push_reserved(queue);
            makers.push_reserved(maker);
            passes.push_reserved(Some(pass));
        }
        let lines = EventLines { queues };
        Ok((
            lines,
            LinePasses {
                makers,
                workers: passes,
            },
        ))
    }

    /// How many workers there are.
    pub fn workers(&self) -> usize
        ensures is { result ≡ length self.now }
        ensures some { 0 < result }
    {
        self.queues.len()
    }

    /// The queue of a worker.
    pub fn queue(&self, worker: usize) -> &EventQueue
        requires there { worker < length self.now }
        ensures is { slice_get self.now worker ≡ Some result.now }
    {
        &self.queues[worker]
    }

    /// The handles of the next operator, which has put nothing. Fault 62: a queue has given all 8; fault
    /// 40: lack of memory. No clause says when it succeeds; only tests show that 8 operators get
    /// theirs.
    pub fn operator(&self, alloc: Global, left: &mut LinePasses) -> Result<OperatorLines, LineFault>
        requires { ArePassesOf self.now left.old }
        ensures left { ArePassesOf self.now left.new }
        ensures own { IfOk result (AreLinesOf self.now) }
        ensures unput { IfOk result (HasPutNothing self.now) }
        ensures made { OnOk result (MakesOneMore left.old left.new) }
    {
        let mut passes = Vec::with_capacity(alloc, self.queues.len())?;
        for worker in 0..self.queues.len() {
            let maker = &mut left.makers[worker];
            let Some(pass) = self.queues[worker].operator(maker) else {
                return Err(LineFault::NoPass);
            };
            passes.push_reserved(pass);
        }
        Ok(OperatorLines { passes })
    }

    /// The handle of a worker, which has taken nothing; given once, after that fault 62. Only tests
    /// show that it is given.
    pub fn worker(&self, left: &mut LinePasses, worker: usize) -> Result<WorkerPass, LineFault>
        requires own { ArePassesOf self.now left.old }
        requires there { worker < length self.now }
        ensures left { ArePassesOf self.now left.new }
        ensures own { IfOk result
            (λ p. (q : EventQueue) → slice_get self.now worker ≡ Some q → IsWorkerOf q p) }
        ensures untaken { IfOk result (λ p. taken_by p ≡ []) }
        ensures made { MakesNoMore left.old left.new }
    {
        match left.workers[worker].take() {
            Some(pass) => Ok(pass),
            None => Err(LineFault::NoPass),
        }
    }

    /// Brings the worker with this number and an operator together: what the worker took of this
    /// operator is a prefix of what that put into its queue, in order, once each. Does nothing at run
    /// time.
    pub fn meet(&self, number: usize, worker: &mut WorkerPass, operator: &mut OperatorLines)
        requires there { number < length self.now }
        requires worker { (q : EventQueue) → slice_get self.now number ≡ Some q →
            IsWorkerOf q worker.old }
        requires operator { AreLinesOf self.now operator.old }
        ensures worker { (q : EventQueue) → slice_get self.now number ≡ Some q →
            IsWorkerOf q worker.new }
        ensures operator { AreLinesOf self.now operator.new }
        ensures taken { taken_by worker.new ≡ taken_by worker.old }
        ensures numbers { numbers_of operator.new ≡ numbers_of operator.old }
        ensures put { puts_of operator.new ≡ puts_of operator.old }
        ensures order { AreTakenAt number operator.old worker.old }
    {
        self.queues[number].meet(worker, &mut operator.passes[number]);
    }

    /// As `meet`, for the only operator that the queues have: it put all that the worker took, which is a
    /// prefix of what it put into the worker's queue, in order, once each. Returns whether that queue is
    /// empty: then the worker took all that was put.
    pub fn meet_alone(
        &self,
        number: usize,
        worker: &mut WorkerPass,
        operator: &mut OperatorLines,
        left: &mut LinePasses,
    ) -> bool
        requires there { number < length self.now }
        requires worker { (q : EventQueue) → slice_get self.now number ≡ Some q →
            IsWorkerOf q worker.old }
        requires operator { AreLinesOf self.now operator.old }
        requires left { ArePassesOf self.now left.old }
        requires alone { HaveMade 1 left.old }
        ensures worker { (q : EventQueue) → slice_get self.now number ≡ Some q →
            IsWorkerOf q worker.new }
        ensures operator { AreLinesOf self.now operator.new }
        ensures left { ArePassesOf self.now left.new }
        ensures taken { taken_by worker.new ≡ taken_by worker.old }
        ensures numbers { numbers_of operator.new ≡ numbers_of operator.old }
        ensures put { puts_of operator.new ≡ puts_of operator.old }
        ensures made { HaveMade 1 left.new }
        ensures order { AreAllTakenAt number operator.old worker.old }
        ensures whole { IsTrue result →
            slice_index_or (puts_of operator.old) number [] ≡ items_of (taken_by worker.old) }
    {
        let maker = &mut left.makers[number];
        self.queues[number].meet_alone(worker, &mut operator.passes[number], maker)
    }
}
