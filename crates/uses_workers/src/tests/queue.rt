//! A queue with its operators and its worker, on one thread and on two.

ghost use Rattle.std.specs.Prelude.{◌≡◌, ◌+◌};
ghost use Rattle.ap_queues.specs.Passes.{IsMakerOf, IsOperatorOf, IsWorkerOf};

use crate::tests::same::{holds, same};
use ap_model::Event;
use ap_queues::{EventQueue, Item, OperatorPass, PassMaker, Queued, WorkerPass};
use std::alloc::Global;
use std::process::Abort;
use std::sync::Wait;
use std::thread::{Threads, join, yield_now};

/// How many events go from one thread to the other.
const EVENTS: u64 = 100_000;

/// A tick for a shard, with as many units as its call's number.
fn item(call: u64) -> Item {
    Item {
        call,
        shard: (call % 8) as u16,
        event: Event::Tick((call % 1000) as u32),
    }
}

/// Whether each call could be put, one after the other.
fn put_all<R: Wait>(rt: &R, queue: &EventQueue, operator: &mut OperatorPass, calls: u64) -> bool
    requires { IsOperatorOf queue.now operator.old }
    ensures { IsOperatorOf queue.now operator.new }
{
    let mut right = true;
    for call in 0..calls {
        right = right && queue.put(rt, operator, item(call)).is_ok();
    }
    right
}

/// The units of a tick.
fn units_of(event: &Event) -> Option<u32> {
    match event {
        Event::Tick(units) => Some(*units),
        _ => None,
    }
}

/// Whether this is the item with this call, of this operator.
fn is_item(queued: Option<Queued>, operator: u8, call: u64) -> bool {
    let Some(queued) = queued else {
        return false;
    };
    let Item {
        call: found,
        shard,
        event,
    } = queued.item;
    queued.operator == operator
        && found == call
        && u64::from(shard) == call % 8
        && units_of(&event) == Some((call % 1000) as u32)
}

/// Whether the next item is the one with this call, of this operator.
fn takes<R: Wait>(
    rt: &R,
    queue: &EventQueue,
    worker: &mut WorkerPass,
    operator: u8,
    call: u64,
) -> bool
    requires { IsWorkerOf queue.now worker.old }
    ensures { IsWorkerOf queue.now worker.new }
{
    is_item(queue.take(rt, worker), operator, call)
}

/// Whether `calls` items of the first operator come in order, from call 1 on.
fn takes_all<R: Wait>(rt: &R, queue: &EventQueue, worker: &mut WorkerPass, calls: u64) -> bool
    requires { IsWorkerOf queue.now worker.old }
    ensures { IsWorkerOf queue.now worker.new }
{
    let mut right = true;
    for call in 0..calls {
        right = right && takes(rt, queue, worker, 0, call.saturating_add(1));
    }
    right
}

/// How many operators the queue has left, of at most ten.
fn count_operators(queue: &EventQueue, maker: &mut PassMaker) -> u32
    requires { IsMakerOf queue.now maker.old }
    ensures { IsMakerOf queue.now maker.new }
{
    let mut count = 0u32;
    for _ in 0..10 {
        if queue.operator(maker).is_some() {
            count = count.saturating_add(1);
        }
    }
    count
}

/// A queue, the maker of its operators' handles, and its worker's handle.
fn opened(rt: &impl Abort, alloc: Global) -> (EventQueue, PassMaker, WorkerPass)
    ensures maker { IsMakerOf result.0 result.1 }
    ensures worker { IsWorkerOf result.0 result.2 }
    ensures unmade { result.1.made ≡ 0 }
{
    EventQueue::open(alloc).expect(rt, "a queue")
}

/// The handle of the next operator.
fn operator(rt: &impl Abort, queue: &EventQueue, maker: &mut PassMaker) -> OperatorPass
    requires { IsMakerOf queue.now maker.old }
    ensures maker { IsMakerOf queue.now maker.new }
    ensures operator { IsOperatorOf queue.now result }
    ensures made { maker.new.made ≡ maker.old.made + 1 }
{
    queue.operator(maker).expect(rt, "an operator")
}

/// Puts the item with this call.
fn put<R: Wait + Abort>(rt: &R, queue: &EventQueue, operator: &mut OperatorPass, call: u64)
    requires { IsOperatorOf queue.now operator.old }
    ensures { IsOperatorOf queue.now operator.new }
{
    let is_put = queue.put(rt, operator, item(call)).is_ok();
    holds(rt, is_put, "an item is put");
}

/// Takes the item with this call, of this operator.
fn take<R: Wait + Abort>(
    rt: &R,
    queue: &EventQueue,
    worker: &mut WorkerPass,
    operator: u8,
    call: u64,
)
    requires { IsWorkerOf queue.now worker.old }
    ensures { IsWorkerOf queue.now worker.new }
{
    let is_taken = takes(rt, queue, worker, operator, call);
    holds(rt, is_taken, "an item is taken");
}

/// What is returned if an item can't be put: the number of the refusal, the call, the shard and the units.
fn handed_back<R: Wait>(
    rt: &R,
    queue: &EventQueue,
    operator: &mut OperatorPass,
    call: u64,
) -> Option<(u8, u64, u16, Option<u32>)>
    requires { IsOperatorOf queue.now operator.old }
    ensures { IsOperatorOf queue.now operator.new }
{
    let full = queue.put(rt, operator, item(call)).err()?;
    let Item { call, shard, event } = &full.item;
    Some((full.number(), *call, *shard, units_of(event)))
}

#[test]
fn a_full_queue_hands_the_item_back(rt: HostRuntime) {
    let (queue, mut maker, mut worker) = opened(&rt, rt.alloc());
    let mut pass = operator(&rt, &queue, &mut maker);
    holds(&rt, put_all(&rt, &queue, &mut pass, 256), "256 items");
    let back = handed_back(&rt, &queue, &mut pass, 999);
    same(&rt, back, Some((61, 999, 7, Some(999))), "one more");
    take(&rt, &queue, &mut worker, 0, 0);
    put(&rt, &queue, &mut pass, 256);
    holds(&rt, takes_all(&rt, &queue, &mut worker, 256), "256 more");
    holds(&rt, queue.take(&rt, &mut worker).is_none(), "and no other");
}

#[test]
fn operators_keep_their_order(rt: HostRuntime) {
    let (queue, mut maker, mut worker) = opened(&rt, rt.alloc());
    let mut one = operator(&rt, &queue, &mut maker);
    let mut two = operator(&rt, &queue, &mut maker);
    put(&rt, &queue, &mut one, 5);
    put(&rt, &queue, &mut two, 9);
    put(&rt, &queue, &mut one, 3);
    take(&rt, &queue, &mut worker, 0, 5);
    queue.meet(&mut worker, &mut one);
    take(&rt, &queue, &mut worker, 1, 9);
    take(&rt, &queue, &mut worker, 0, 3);
}

#[test]
fn a_lone_operator_put_all_that_was_taken(rt: HostRuntime) {
    let (queue, mut maker, mut worker) = opened(&rt, rt.alloc());
    let mut only = operator(&rt, &queue, &mut maker);
    put(&rt, &queue, &mut only, 5);
    put(&rt, &queue, &mut only, 3);
    take(&rt, &queue, &mut worker, 0, 5);
    let is_empty = queue.meet_alone(&mut worker, &mut only, &mut maker);
    holds(&rt, !is_empty, "one is left");
    put(&rt, &queue, &mut only, 9);
    take(&rt, &queue, &mut worker, 0, 3);
    take(&rt, &queue, &mut worker, 0, 9);
    let is_empty = queue.meet_alone(&mut worker, &mut only, &mut maker);
    holds(&rt, is_empty, "none is left");
}

#[test]
fn there_are_eight_operators(rt: HostRuntime) {
    let (queue, mut maker, _worker) = opened(&rt, rt.alloc());
    same(&rt, count_operators(&queue, &mut maker), 8, "operators");
}

/// Puts each call in order, and retries while the queue is full.
fn put_patiently<R: Wait>(rt: &R, queue: &EventQueue, operator: &mut OperatorPass)
    requires { IsOperatorOf queue.now operator.old }
{
    let mut call = 0;
    for _ in rt.forever() {
        if call >= EVENTS {
            break;
        }
        match queue.put(rt, operator, item(call)) {
            Ok(()) => call += 1,
            Err(_) => yield_now(),
        }
    }
}

/// Whether the calls come in order.
fn take_patiently<R: Wait>(rt: &R, queue: &EventQueue, worker: &mut WorkerPass) -> bool
    requires { IsWorkerOf queue.now worker.old }
{
    let mut next = 0;
    let mut right = true;
    for _ in rt.forever() {
        if next >= EVENTS {
            break;
        }
        match queue.take(rt, worker) {
            Some(queued) => {
                right = right && queued.item.call == next;
                next += 1;
            }
            None => yield_now(),
        }
    }
    right
}

/// Whether one thread takes in order what another puts.
fn goes_through<R: Threads + Wait + Sync>(
    rt: &R,
    queue: &EventQueue,
    operator: &mut OperatorPass,
    worker: &mut WorkerPass,
) -> bool
    requires operator { IsOperatorOf queue.now operator.old }
    requires worker { IsWorkerOf queue.now worker.old }
{
    let (_, right) = join(
        rt,
        || put_patiently(rt, queue, operator),
        || take_patiently(rt, queue, worker),
    );
    right
}

#[test]
fn threads_hand_events_over(rt: HostRuntime) {
    let (queue, mut maker, mut worker) = opened(&rt, rt.alloc());
    let mut pass = operator(&rt, &queue, &mut maker);
    let is_through = goes_through(&rt, &queue, &mut pass, &mut worker);
    holds(&rt, is_through, "the order");
}
