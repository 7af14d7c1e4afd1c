//! One submitter beside the workers. The rate is of all events, in the time from the submitter's start until the last
//! worker has served all.

use crate::clock::{nanos_since, now, rate};
use crate::programs::Case;
use crate::returned::Returned;
use crate::stations::{begin, event, play_case};
use ap_books::Ledgers;
use ap_live::{OpenGate, Tagged};
use ap_locked::Journals;
use ap_model::Event;
use live_scenes::{Chief, Hand, Scene, Story};
use std::alloc::Global;
use std::mem;
use std::rt::Clock;
use std::sync::atomic::AtomicU64;
use std::sync::atomic::Ordering::SeqCst;
use std::sync::{Mutex, Wait};
use std::thread::{Threads, yield_now};
use std::time::Instant;

/// How many events a worker serves before it hands their reports back.
const MANY: usize = 1024;

/// How many events, under which program, and what was measured.
#[derive(Drop)]
struct Submitted {
    text: &'static str,
    count: u64,
    /// What is to be submitted, the last first.
    events: Mutex<Vec<Event>>,
    /// When the story began, and how many nanoseconds after that the submitter began, and the last worker ended.
    start: Option<Instant>,
    begun: AtomicU64,
    ended: AtomicU64,
    /// 0 once all is submitted.
    submitting: AtomicU64,
    served: AtomicU64,
    returned: Returned,
}

/// `count` data frames of all stations alternating, the last first.
fn events_of(alloc: Global, count: u64) -> Option<Vec<Event>> {
    let mut events = Vec::new(alloc);
    for place in 0..count {
        let index = count.wrapping_sub(place).wrapping_sub(1);
        events.push(event(alloc, index)?).ok()?;
    }
    Some(events)
}

impl Submitted {
    fn new(alloc: Global, case: Case, start: Option<Instant>) -> Submitted {
        Submitted {
            text: case.text,
            count: case.count,
            events: Mutex::new(Vec::new(alloc)),
            start,
            begun: AtomicU64::new(0),
            ended: AtomicU64::new(0),
            submitting: AtomicU64::new(1),
            served: AtomicU64::new(0),
            returned: Returned::new(alloc),
        }
    }

    /// A worker serves its queue once, and hands the list back if it is long. True if no more events come.
    fn serve<B: Ledgers + Journals, R: Wait>(
        &self,
        rt: &R,
        alloc: Global,
        hand: &mut Hand<'_, B>,
        list: &mut Vec<Tagged>,
    ) -> bool {
        let over = self.submitting.load(SeqCst) == 0;
        let before = list.len();
        let refused = hand.serve(rt, alloc, &OpenGate, list).is_err();
        let events = list.len().saturating_sub(before);
        self.served.fetch_add(events as u64, SeqCst);
        if events == 0 && !over {
            yield_now();
        }
        if list.len() >= MANY {
            self.returned.put(rt, mem::replace(list, Vec::new(alloc)));
        }
        refused || (over && events == 0)
    }
}

impl<R: Wait + Clock> Story<R> for Submitted {
    fn prepare<B: Ledgers + Journals>(&mut self, rt: &R, alloc: Global, scene: &mut Scene<'_, B>) {
        if !begin(rt, alloc, scene, self.text) {
            return;
        }
        if let Some(events) = events_of(alloc, self.count) {
            *self.events.lock(rt) = events;
        }
    }

    /// Serves the queue until no more events come.
    fn work<B: Ledgers + Journals>(&self, rt: &R, alloc: Global, hand: &mut Hand<'_, B>) {
        let mut list = Vec::new(alloc);
        for _ in rt.forever() {
            if self.serve(rt, alloc, hand, &mut list) {
                break;
            }
        }
        self.ended.store(nanos_since(rt, self.start), SeqCst);
        self.returned.put(rt, list);
    }

    /// Submits all events.
    fn operate<B: Ledgers + Journals>(&self, rt: &R, alloc: Global, chief: &mut Chief<'_, B>) {
        let mut events = mem::replace(&mut *self.events.lock(rt), Vec::new(alloc));
        self.begun.store(nanos_since(rt, self.start), SeqCst);
        for number in 1..u32::MAX {
            let Some(event) = events.pop() else {
                break;
            };
            chief.put(rt, 1, event);
            if number as usize % MANY == 0 {
                self.returned.free(rt, alloc);
            }
        }
        self.submitting.store(0, SeqCst);
    }
}

/// Measures so many events by so many workers under a program, and prints the rate. None if an allocation fails.
pub fn report<R: Threads + Wait + Clock + Eprint + Sync>(
    rt: &R,
    alloc: Global,
    case: Case,
) -> Option<()> {
    let mut submitted = Submitted::new(alloc, case, now(rt));
    play_case(rt, alloc, case.workers, &mut submitted)?;
    let (workers, name) = (case.workers, case.name);
    let served = submitted.served.load(SeqCst);
    let nanos = submitted
        .ended
        .load(SeqCst)
        .saturating_sub(submitted.begun.load(SeqCst));
    let events = rate(served, nanos);
    let _ = eprintln!(rt;
        "workers {workers}, {name}, submitted: {events} events a second, of {served}"
    );
    Some(())
}
