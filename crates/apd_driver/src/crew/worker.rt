//! A worker's thread.

use crate::crew::desk::{Desk, Order, Signs, ring};
use crate::crew::hand::Done;
use crate::crew::serving::Serving;
use std::sync::Wait;
use std::sync::atomic::Ordering;

/// Serves the events in the queue. If there are none, it sleeps until a queue is full or an interval is closed. True if the
/// interval is over: it was closed beforehand, or an allocation failed.
fn turn<W: Serving + Drop, R: Wait>(
    rt: &R,
    signs: &Signs,
    done: &mut Done<W>,
    interval: u64,
) -> bool {
    let strokes = signs.feeding.strokes();
    let closed = signs.closed.load(Ordering::SeqCst) >= interval;
    match done.worker.serve(rt) {
        Ok(handled) => {
            if handled {
                signs.serving.strike();
            } else if !closed {
                signs.feeding.sleep(rt, strokes);
            }
            closed
        }
        Err(_) => {
            done.refused = true;
            signs.trouble.store(1, Ordering::SeqCst);
            signs.serving.strike();
            true
        }
    }
}

/// Serves for one interval: until it is closed and the queue is then found empty, or an allocation fails.
fn serve_interval<W: Serving + Drop, R: Wait>(rt: &R, signs: &Signs, order: Order<W>) -> Done<W> {
    let Order { worker, interval } = order;
    let mut done = Done {
        worker,
        refused: false,
    };
    for _ in rt.forever() {
        if turn(rt, signs, &mut done, interval) {
            return done;
        }
    }
    unreachable!()
}

/// The thread of the worker at the desk with this number: an interval for each order, until the last.
pub fn work<W: Serving + Drop, R: Wait>(rt: &R, desks: &[Desk<W>], number: usize, signs: &Signs) {
    let Some(desk) = desks.get(number) else {
        return;
    };
    for _ in rt.forever() {
        let Some(order) = desk.orders.take(rt) else {
            return;
        };
        ring(rt, desks, number.saturating_add(1));
        let done = serve_interval(rt, signs, order);
        desk.reports.put(rt, done);
    }
    unreachable!()
}
