//! Workers that serve while operators submit.

use crate::hands::Hand;
use crate::tally::Tally;
use ap_books::Ledgers;
use ap_live::{OpenGate, Tagged};
use ap_locked::Journals;
use std::alloc::Global;
use std::sync::Wait;
use std::sync::atomic::AtomicU64;
use std::sync::atomic::Ordering::SeqCst;
use std::thread;

/// Serves the queue. True if no operator submits any more and the queue was empty, or if an allocation failed.
fn turn<B: Ledgers + Journals, R: Wait>(
    rt: &R,
    alloc: Global,
    hand: &mut Hand<'_, B>,
    tally: &mut Tally,
    list: &mut Vec<Tagged>,
    operating: &AtomicU64,
) -> bool {
    let over = operating.load(SeqCst) == 0;
    let refused = hand.serve(rt, alloc, &OpenGate, list).is_err();
    let none = list.is_empty();
    tally.take(list);
    if none && !over {
        thread::yield_now();
    }
    refused || (over && none)
}

/// Serves until no operator submits any more and the queue is empty, or an allocation fails. Returns the tally.
pub(crate) fn serve_on<B: Ledgers + Journals, R: Wait>(
    rt: &R,
    alloc: Global,
    hand: &mut Hand<'_, B>,
    operating: &AtomicU64,
) -> Tally {
    let mut tally = Tally::new();
    let mut list = Vec::new(alloc);
    for _ in rt.forever() {
        if turn(rt, alloc, hand, &mut tally, &mut list, operating) {
            return tally;
        }
    }
    unreachable!()
}
