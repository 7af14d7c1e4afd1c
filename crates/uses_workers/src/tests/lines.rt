//! An operator with the queues of several workers.

ghost use Rattle.std.specs.Prelude.{◌≡◌, ◌<◌, length};
ghost use Rattle.ap_queues.specs.Passes.{IsWorkerOf};
ghost use Rattle.ap_queues.specs.Lines.{ArePassesOf, AreLinesOf, HaveMade};

use crate::tests::same::{holds, same};
use ap_model::{Event, Octets};
use ap_queues::{
    EventLines, EventQueue, LineFault, LinePasses, OperatorLines, Unserved, WorkerPass,
};
use std::alloc::Global;
use std::process::Abort;
use std::sync::Wait;

/// A frame of a sender of shard 1.
fn frame(rt: &impl Abort, alloc: Global) -> Event {
    Event::Frame(Octets::copy(alloc, &[9; 16]).expect(rt, "memory"))
}

/// Whether `count` frames for shard 1 could be put.
fn put_frames<R: Wait + Abort>(
    rt: &R,
    alloc: Global,
    lines: &EventLines,
    operator: &mut OperatorLines,
    count: u64,
) -> bool
    requires { AreLinesOf lines.now operator.old }
    ensures { AreLinesOf lines.now operator.new }
{
    let mut right = true;
    for call in 0..count {
        let event = frame(rt, alloc);
        right = right && lines.submit(rt, operator, call, event).is_ok();
    }
    right
}

/// Whether a frame was returned, with 61 and this shard.
fn is_back(answer: Result<(), Unserved>, shard: u16) -> bool {
    let Some(back) = answer.err() else {
        return false;
    };
    matches!(back.event, Event::Frame(_)) && back.number() == 61 && back.shard == shard
}

/// Whether a tick of `units` units was returned, with this shard as the first that did not get it.
fn is_left(answer: Result<(), Unserved>, units: u32, shard: u16) -> bool {
    let Some(left) = answer.err() else {
        return false;
    };
    matches!(left.event, Event::Tick(number) if number == units) && left.shard == shard
}

/// Whether the queue has exactly `count` items.
fn has<R: Wait>(rt: &R, queue: &EventQueue, worker: &mut WorkerPass, count: u64) -> bool
    requires { IsWorkerOf queue.now worker.old }
    ensures { IsWorkerOf queue.now worker.new }
{
    let mut right = true;
    for _ in 0..count {
        right = right && queue.take(rt, worker).is_some();
    }
    right && queue.take(rt, worker).is_none()
}

/// How many of ten operators get queue handles, and the last refusal.
fn count_operators(
    alloc: Global,
    lines: &EventLines,
    left: &mut LinePasses,
) -> (u32, Option<LineFault>)
    requires { ArePassesOf lines.now left.old }
    ensures { ArePassesOf lines.now left.new }
{
    let mut count = 0u32;
    let mut last = None;
    for _ in 0..10 {
        match lines.operator(alloc, left) {
            Ok(_) => count = count.saturating_add(1),
            Err(fault) => last = Some(fault),
        }
    }
    (count, last)
}

/// The queues of `workers` workers, and all their handles.
fn opened(rt: &impl Abort, alloc: Global, workers: usize) -> (EventLines, LinePasses)
    requires { 0 < workers }
    ensures workers { length result.0 ≡ workers }
    ensures own { ArePassesOf result.0 result.1 }
    ensures unmade { HaveMade 0 result.1 }
{
    EventLines::open(alloc, workers).expect(rt, "queues")
}

/// The queues of two workers, and the handles of an operator that has put 256 frames for shard 1.
fn filled<R: Wait + Abort>(rt: &R, alloc: Global) -> (EventLines, LinePasses, OperatorLines)
    ensures workers { length result.0 ≡ 2 }
    ensures left { ArePassesOf result.0 result.1 }
    ensures operator { AreLinesOf result.0 result.2 }
{
    let (lines, mut left) = opened(rt, alloc, 2);
    let mut operator = lines.operator(alloc, &mut left).expect(rt, "an operator");
    let is_filled = put_frames(rt, alloc, &lines, &mut operator, 256);
    holds(rt, is_filled, "256 frames");
    (lines, left, operator)
}

#[test]
fn a_queue_that_nobody_serves_takes_256_events(rt: HostRuntime) {
    let (lines, _left, mut operator) = filled(&rt, rt.alloc());
    let frame = frame(&rt, rt.alloc());
    let answer = lines.submit(&rt, &mut operator, 256, frame);
    holds(&rt, is_back(answer, 1), "a 257th frame comes back");
}

#[test]
fn a_tick_goes_on_where_a_queue_was_full(rt: HostRuntime) {
    let (lines, mut passes, mut operator) = filled(&rt, rt.alloc());
    let mut even = lines.worker(&mut passes, 0).expect(&rt, "a worker");
    let mut odd = lines.worker(&mut passes, 1).expect(&rt, "a worker");
    holds(
        &rt,
        lines.worker(&mut passes, 1).is_err(),
        "no third worker",
    );
    let answer = lines.submit(&rt, &mut operator, 300, Event::Tick(7));
    holds(&rt, is_left(answer, 7, 1), "the tick comes back");
    holds(&rt, has(&rt, lines.queue(1), &mut odd, 256), "the frames");
    let answer = lines.submit_at(&rt, &mut operator, 300, Event::Tick(7), 1);
    holds(&rt, answer.is_ok(), "the rest of the tick");
    holds(&rt, has(&rt, lines.queue(0), &mut even, 4), "even shards");
    holds(&rt, has(&rt, lines.queue(1), &mut odd, 4), "odd shards");
}

#[test]
fn a_lone_operator_meets_a_worker(rt: HostRuntime) {
    let (lines, mut left) = opened(&rt, rt.alloc(), 2);
    let mut operator = lines
        .operator(rt.alloc(), &mut left)
        .expect(&rt, "an operator");
    let mut odd = lines.worker(&mut left, 1).expect(&rt, "a worker");
    let is_put = put_frames(&rt, rt.alloc(), &lines, &mut operator, 3);
    holds(&rt, is_put, "three frames");
    holds(&rt, has(&rt, lines.queue(1), &mut odd, 3), "the frames");
    let is_empty = lines.meet_alone(1, &mut odd, &mut operator, &mut left);
    holds(&rt, is_empty, "an empty queue");
    let is_put = put_frames(&rt, rt.alloc(), &lines, &mut operator, 2);
    holds(&rt, is_put, "two more");
    holds(&rt, has(&rt, lines.queue(1), &mut odd, 2), "and no other");
}

#[test]
fn eight_operators_have_passes(rt: HostRuntime) {
    let (lines, mut left) = opened(&rt, rt.alloc(), 3);
    same(&rt, lines.workers(), 3, "workers");
    let operators = count_operators(rt.alloc(), &lines, &mut left);
    same(&rt, operators, (8, Some(LineFault::NoPass)), "operators");
    same(&rt, LineFault::NoPass.number(), 62, "number");
}
