//! Queues that are filled with 256 events each, and then served by all workers at once, repeatedly.
//!
//! In each round a worker waits until the queues are full and all workers have arrived, and then serves its own queue
//! until that is empty, without waiting for anybody. It notes how many events that were, and the nanoseconds from its
//! first take to the end. Two rates are printed, in events a second:
//!
//! - of each worker the events of all rounds, divided by the sum of its own times; and the sum of these quotients. So
//!   many events the workers serve while their queues are full;
//! - all events, divided by the sum of the times of the rounds, each from the first worker's first take until the
//!   slowest has ended. So the time counts in which workers that have ended wait for the slowest.
//!
//! The thread that fills the queues sleeps while they are served, for at least a millisecond, so that it takes no
//! processor from a worker.

use crate::clock::{nanos_since, now, rate};
use crate::programs::Case;
use crate::returned::Returned;
use crate::stations::{begin, event, play_case};
use ap_books::Ledgers;
use ap_live::OpenGate;
use ap_locked::Journals;
use live_scenes::{Chief, Hand, Scene, Story};
use std::alloc::Global;
use std::rt::Clock;
use std::sync::Wait;
use std::sync::atomic::AtomicU64;
use std::sync::atomic::Ordering::SeqCst;
use std::thread::{Threads, sleep, yield_now};
use std::time::Duration;

/// How many events a queue holds.
const ROOM: u64 = 256;

/// How many rounds, of how many workers, under which program; by which counters the threads wait for each other; and
/// what was measured.
#[derive(Drop)]
struct Filled {
    text: &'static str,
    workers: u64,
    rounds: u64,
    /// How many rounds are filled, and how many times a worker met the others, or has served.
    filled: AtomicU64,
    met: AtomicU64,
    ended: AtomicU64,
    /// How many events were served, and in how many nanoseconds, the waiting for the slowest included.
    served: AtomicU64,
    nanos: AtomicU64,
    /// The sum of the workers' own rates.
    own: AtomicU64,
    returned: Returned,
}

/// Waits until a counter has reached `far`.
fn await_sign<R: Wait>(rt: &R, sign: &AtomicU64, far: u64) {
    for _ in rt.forever() {
        if sign.load(SeqCst) >= far {
            return;
        }
        yield_now();
    }
}

/// Waits likewise, asleep meanwhile.
fn await_asleep<R: Wait + Clock>(rt: &R, sign: &AtomicU64, far: u64) {
    for _ in rt.forever() {
        sleep(rt, Duration::from_millis(1));
        if sign.load(SeqCst) >= far {
            return;
        }
    }
}

impl Filled {
    fn new(alloc: Global, case: Case) -> Filled {
        Filled {
            text: case.text,
            workers: u64::from(case.workers),
            rounds: case.count,
            filled: AtomicU64::new(0),
            met: AtomicU64::new(0),
            ended: AtomicU64::new(0),
            served: AtomicU64::new(0),
            nanos: AtomicU64::new(0),
            own: AtomicU64::new(0),
            returned: Returned::new(alloc),
        }
    }

    /// A worker waits until the queues are filled for a round and all workers have arrived.
    fn meet<R: Wait>(&self, rt: &R, round: u64) {
        await_sign(rt, &self.filled, round);
        self.met.fetch_add(1, SeqCst);
        await_sign(rt, &self.met, self.workers.wrapping_mul(round));
    }

    /// A worker serves its queue in a round. How many events, and the nanoseconds of its own. The first worker also
    /// adds the time until all have served. The reports are handed back after the time is taken.
    fn serve<B: Ledgers + Journals, R: Wait + Clock>(
        &self,
        rt: &R,
        alloc: Global,
        hand: &mut Hand<'_, B>,
        round: u64,
    ) -> (u64, u64) {
        let mut list = Vec::new(alloc);
        self.meet(rt, round);
        let start = now(rt);
        let _ = hand.serve(rt, alloc, &OpenGate, &mut list);
        let nanos = nanos_since(rt, start);
        self.ended.fetch_add(1, SeqCst);
        if hand.number == 0 {
            await_sign(rt, &self.ended, self.workers.wrapping_mul(round));
            self.nanos.fetch_add(nanos_since(rt, start), SeqCst);
        }
        let events = list.len() as u64;
        self.returned.put(rt, list);
        (events, nanos)
    }

    /// Reports that all queues are filled for another round, and waits until all workers have served it. Frees what
    /// they have handed back.
    fn end_round<R: Wait + Clock>(&self, rt: &R, alloc: Global) {
        let filled = self.filled.fetch_add(1, SeqCst).wrapping_add(1);
        await_asleep(rt, &self.ended, self.workers.wrapping_mul(filled));
        self.returned.free(rt, alloc);
    }
}

impl<R: Wait + Clock> Story<R> for Filled {
    fn prepare<B: Ledgers + Journals>(&mut self, rt: &R, alloc: Global, scene: &mut Scene<'_, B>) {
        if !begin(rt, alloc, scene, self.text) {
            self.rounds = 0;
        }
    }

    /// Serves the worker's queue in each round, and adds the worker's own rate.
    fn work<B: Ledgers + Journals>(&self, rt: &R, alloc: Global, hand: &mut Hand<'_, B>) {
        let (mut events, mut nanos) = (0u64, 0u64);
        for round in 1..self.rounds.saturating_add(1) {
            let (more, longer) = self.serve(rt, alloc, hand, round);
            events = events.wrapping_add(more);
            nanos = nanos.wrapping_add(longer);
        }
        self.served.fetch_add(events, SeqCst);
        self.own.fetch_add(rate(events, nanos), SeqCst);
    }

    /// Fills all queues, repeatedly, with data of the stations alternating.
    fn operate<B: Ledgers + Journals>(&self, rt: &R, alloc: Global, chief: &mut Chief<'_, B>) {
        let many = self.workers.wrapping_mul(ROOM).max(1);
        for index in 0..self.rounds.saturating_mul(many) {
            let place = index % many;
            if let Some(event) = event(alloc, index) {
                let _ = chief.submit(rt, place, event);
            }
            if place.wrapping_add(1) == many {
                self.end_round(rt, alloc);
            }
        }
    }
}

/// Measures so many rounds of so many workers under a program, and prints the rates. None if an allocation fails.
pub fn report<R: Threads + Wait + Clock + Eprint + Sync>(
    rt: &R,
    alloc: Global,
    case: Case,
) -> Option<()> {
    let mut filled = Filled::new(alloc, case);
    play_case(rt, alloc, case.workers, &mut filled)?;
    let (workers, name) = (case.workers, case.name);
    let served = filled.served.load(SeqCst);
    let _ = eprintln!(rt;
        "workers {workers}, {name}, filled: {} events a second, {} with the wait for the slowest, of {served}",
        filled.own.load(SeqCst),
        rate(served, filled.nanos.load(SeqCst))
    );
    Some(())
}
