//! What the operator and the workers share.

use crate::crew::bell::Bell;
use crate::crew::hand::Done;
use crate::crew::serving::Serving;
use crate::source::Post;
use std::mem;
use std::sync::atomic::AtomicU64;
use std::sync::{Mutex, Wait};

/// An order for a worker: to serve in the interval with this number.
#[derive(Drop)]
pub struct Order<W: Serving + Drop> {
    pub worker: W,
    pub interval: u64,
}

/// What the operator and one worker's thread share: an order for when the desk is rung for, orders, of which `None` is the
/// last, and finished work.
#[derive(Drop)]
pub struct Desk<W: Serving + Drop> {
    next: Mutex<Option<Order<W>>>,
    pub orders: Post<Option<Order<W>>>,
    pub reports: Post<Done<W>>,
}

impl<W: Serving + Drop> Desk<W> {
    /// An empty desk.
    pub fn new() -> Desk<W> {
        Desk {
            next: Mutex::new(None),
            orders: Post::new(),
            reports: Post::new(),
        }
    }

    /// Leaves an order for when the desk is rung for.
    pub fn leave<R: Wait>(&self, rt: &R, order: Order<W>) {
        *self.next.lock(rt) = Some(order);
    }

    /// Gives its thread the last order. One that was left, or that the thread hasn't taken, is dropped.
    pub fn end<R: Wait>(&self, rt: &R) {
        let mut next = self.next.lock(rt);
        *next = None;
        self.orders.put(rt, None);
    }
}

/// Rings for the desk with this number: its thread gets the order that was left there. That thread rings for the next desk,
/// so who rings for the first wakes one thread alone.
pub fn ring<W: Serving + Drop, R: Wait>(rt: &R, desks: &[Desk<W>], number: usize) {
    let Some(desk) = desks.get(number) else {
        return;
    };
    // Under this lock, so that no order follows the last one, which `end` gives.
    let mut next = desk.next.lock(rt);
    if let Some(order) = mem::replace(&mut *next, None) {
        desk.orders.put(rt, Some(order));
    }
}

/// Signals between the operator and all workers.
#[derive(Drop)]
pub struct Signs {
    /// The number of the last interval to which no event is added.
    pub closed: AtomicU64,
    /// Not 0 if an allocation failed for a worker's list.
    pub trouble: AtomicU64,
    /// Struck if a queue is full, and if an interval is closed: idle workers sleep for it.
    pub feeding: Bell,
    /// Struck if a worker has served: an operator that found a queue full sleeps for it.
    pub serving: Bell,
}

impl Signs {
    /// No interval is closed, no worker is in trouble, and no bell was struck.
    pub fn new() -> Signs {
        Signs {
            closed: AtomicU64::new(0),
            trouble: AtomicU64::new(0),
            feeding: Bell::new(),
            serving: Bell::new(),
        }
    }
}
