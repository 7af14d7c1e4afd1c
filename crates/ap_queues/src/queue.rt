//! A queue and its handles.

ghost use Rattle.std.specs.Prelude.{◌≡◌, ◌+◌, ◌<◌, ◌≤◌, ◌++◌, ◌∷◌, [], true, IfOk, IfErr, OnOk, OnErr, IfSome, IfNone, IsTrue};
ghost use Rattle.crossbeam_queue.specs.Passes.{view, ruled_capacity};

use crate::item::{Item, Queued, View};
use crate::rule::{
    Alone, Founding, Gathering, Hiring, Meeting, OneQueue, Parting, Puts, Releasing, Sparing,
    Takes, Whole,
};
use crossbeam_queue::{Pass, RuledArrayQueue};
use std::alloc::{AllocError, Global};
use std::sync::Wait;
use std::{fmt, mem};

/// The most events that a queue holds.
const ROOM: usize = 256;

const MOST_OPERATORS: u8 = 8;

/// The events that wait for one worker, at most 256, oldest first. Threads share it by reference.
#[derive(Drop)]
pub struct EventQueue {
    queue: RuledArrayQueue<Queued, View, OneQueue>,
    ghost room: { ruled_capacity queue ≡ 256 },
}

/// Makes the operators of a queue, at most 8.
#[derive(Drop)]
pub struct PassMaker {
    made: u8,
    pass: Pass<Queued, View>,
    ghost makes: { (view pass).makes ≡ true },
    ghost count: { (view pass).made ≡ made },
}

/// The right to put events as the operator with this number (0 to 7). It has one owner at a time.
#[derive(Drop)]
pub struct OperatorPass {
    number: u8,
    pass: Pass<Queued, View>,
    ghost puts: { (view pass).puts ≡ true },
    ghost own: { (view pass).operator ≡ number },
}

/// The right to take events. Each queue has one.
#[derive(Drop)]
pub struct WorkerPass {
    pass: Pass<Queued, View>,
    ghost takes: { (view pass).takes ≡ true },
}

/// 61: the queue was full. Returns the item.
#[derive(Drop)]
pub struct QueueFull {
    pub item: Item,
}

impl EventQueue {
    ghost use Rattle.std.specs.Prelude.{◌≡◌, ◌+◌, ◌<◌, ◌≤◌, ◌++◌, ◌∷◌, [], IfOk, IfErr, OnOk, OnErr, IfSome, IfNone, IsTrue, MatchOption};
    ghost use Rattle.ap_queues.specs.Passes.{IsMakerOf, IsOperatorOf, IsWorkerOf, number_of, put_by, taken_by, WasFull, AreTaken, AreAllTaken};
    ghost use Rattle.ap_queues.specs.Queues.{items_of};

    /// An empty queue, the maker of its operators, and the handle of its worker.
    pub fn open(alloc: Global) -> Result<(EventQueue, PassMaker, WorkerPass), AllocError>
        ensures maker { IfOk result (λ r. IsMakerOf r.0 r.1) }
        ensures worker { IfOk result (λ r. IsWorkerOf r.0 r.2) }
        ensures unmade { IfOk result (λ r. r.1.made ≡ 0) }
        ensures untaken { IfOk result (λ r. taken_by r.2 ≡ []) }
    {
        let (queue, mut pass) = RuledArrayQueue::ruled(alloc, ROOM)?;
        let worker = queue.another::<Founding>(&mut pass);
        Ok((
            EventQueue { queue },
            PassMaker { made: 0, pass },
            WorkerPass { pass: worker },
        ))
    }

    /// The handle of the next operator; `None` only if all 8 were given already.
    pub fn operator(&self, maker: &mut PassMaker) -> Option<OperatorPass>
        requires { IsMakerOf self.now maker.old }
        ensures maker { IsMakerOf self.now maker.new }
        ensures operator { IfSome result (λ p. IsOperatorOf self.now p) }
        ensures number { IfSome result (λ p. number_of p ≡ maker.old.made) }
        ensures unput { IfSome result (λ p. put_by p ≡ []) }
        ensures made { IfSome result (λ _. maker.new.made ≡ maker.old.made + 1) }
        ensures none { IfNone result (8 ≤ maker.old.made) }
    {
        if maker.made >= MOST_OPERATORS {
            return None;
        }
        let PassMaker { made, pass } = maker;
        let number = *made;
        let pass = self.queue.another::<Hiring>(pass);
        *made = number + 1;
        Some(OperatorPass { number, pass })
    }

    /// Puts an item, which becomes the last that the operator put. Fails, and returns the item, only if
    /// the queue held 256 items at a moment of the call.
    pub fn put<R: Wait>(
        &self,
        rt: &R,
        operator: &mut OperatorPass,
        item: Item,
    ) -> Result<(), QueueFull>
        requires { IsOperatorOf self.now operator.old }
        ensures operator { IsOperatorOf self.now operator.new }
        ensures number { number_of operator.new ≡ number_of operator.old }
        ensures put { OnOk result (put_by operator.new ≡ put_by operator.old ++ item ∷ []) }
        ensures refused { OnErr result (put_by operator.new ≡ put_by operator.old) }
        ensures back { IfErr result (λ full. full.item ≡ item) }
        ensures full { OnErr result (WasFull operator.old) }
    {
        let queued = Queued {
            operator: operator.number,
            item,
        };
        match self
            .queue
            .push_as::<Puts, R>(rt, &mut operator.pass, queued)
        {
            Ok(()) => Ok(()),
            Err(back) => {
                let Queued { item, .. } = back;
                Err(QueueFull { item })
            }
        }
    }

    /// Takes the oldest item, or returns `None` if the queue is empty, which no clause says.
    pub fn take<R: Wait>(&self, rt: &R, worker: &mut WorkerPass) -> Option<Queued>
        requires { IsWorkerOf self.now worker.old }
        ensures worker { IsWorkerOf self.now worker.new }
        ensures taken { IfSome result (λ q. taken_by worker.new ≡ taken_by worker.old ++ q ∷ []) }
        ensures none { IfNone result (taken_by worker.new ≡ taken_by worker.old) }
    {
        self.queue.pop_as::<Takes, R>(rt, &mut worker.pass)
    }

    /// Brings a worker and an operator together: what was taken of this operator is a prefix of what it
    /// put, in its order, once each. Does nothing at run time.
    pub fn meet(&self, worker: &mut WorkerPass, operator: &mut OperatorPass)
        requires worker { IsWorkerOf self.now worker.old }
        requires operator { IsOperatorOf self.now operator.old }
        ensures worker { IsWorkerOf self.now worker.new }
        ensures operator { IsOperatorOf self.now operator.new }
        ensures taken { taken_by worker.new ≡ taken_by worker.old }
        ensures number { number_of operator.new ≡ number_of operator.old }
        ensures put { put_by operator.new ≡ put_by operator.old }
        ensures order { AreTaken operator.old worker.old }
    {
        let mine = &mut worker.pass;
        let spare = self.queue.another::<Sparing>(mine);
        let OperatorPass { number: _, pass } = operator;
        let theirs = mem::replace(pass, spare);
        self.queue.absorb::<Meeting>(mine, theirs);
        self.queue.learn_as::<Whole>(mine);
        *pass = self.queue.another::<Parting>(mine);
    }

    /// As `meet`, for the only operator that the queue has: it put all that was taken, which is a prefix
    /// of what it put, in its order, once each. Returns whether the queue is empty: then all that it put
    /// was taken.
    pub fn meet_alone(
        &self,
        worker: &mut WorkerPass,
        operator: &mut OperatorPass,
        maker: &mut PassMaker,
    ) -> bool
        requires worker { IsWorkerOf self.now worker.old }
        requires operator { IsOperatorOf self.now operator.old }
        requires maker { IsMakerOf self.now maker.old }
        requires alone { maker.old.made ≡ 1 }
        ensures worker { IsWorkerOf self.now worker.new }
        ensures operator { IsOperatorOf self.now operator.new }
        ensures maker { IsMakerOf self.now maker.new }
        ensures taken { taken_by worker.new ≡ taken_by worker.old }
        ensures number { number_of operator.new ≡ number_of operator.old }
        ensures put { put_by operator.new ≡ put_by operator.old }
        ensures made { maker.new.made ≡ maker.old.made }
        ensures order { AreAllTaken operator.old worker.old }
        ensures whole { IsTrue result → put_by operator.old ≡ items_of (taken_by worker.old) }
    {
        let mine = &mut worker.pass;
        let spare = self.queue.another::<Sparing>(mine);
        let spare_maker = self.queue.another::<Sparing>(mine);
        let OperatorPass { pass, .. } = operator;
        let theirs = mem::replace(pass, spare);
        self.queue.absorb::<Meeting>(mine, theirs);
        let PassMaker { pass: source, .. } = maker;
        let makers = mem::replace(source, spare_maker);
        self.queue.absorb::<Gathering>(mine, makers);
        self.queue.learn_as::<Alone>(mine);
        let is_empty = self.queue.is_empty_as::<Alone>(mine);
        *source = self.queue.another::<Releasing>(mine);
        *pass = self.queue.another::<Parting>(mine);
        is_empty
    }
}

impl QueueFull {
    /// 61.
    pub fn number(&self) -> u8
        ensures is { result ≡ 61 }
    {
        61
    }
}

impl fmt::Display for QueueFull {
    fn fmt<W: fmt::Write>(&self, f: &mut fmt::Formatter<W>) -> fmt::Result {
        f.write_str("the queue of the worker is full")
    }
}
