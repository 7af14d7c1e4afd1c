//! Operators, workers and a publisher, all at once.

use crate::hands::{Chief, Hand};
use crate::operators::{Diary, operate_on};
use crate::programs::publish;
use crate::scenes::{Scene, Story};
use crate::service::serve_on;
use crate::tally::Tally;
use ap_books::{Ledgers, Totals};
use ap_live::OpenGate;
use ap_locked::Journals;
use bpf_regions::WordWidth;
use std::alloc::{AllocError, Global};
use std::sync::atomic::AtomicU64;
use std::sync::atomic::Ordering::SeqCst;
use std::sync::{Mutex, Wait};
use std::thread::yield_now;
use versions::Publisher;

/// How often the publisher yields before it publishes again.
const YIELDS: u32 = 200;

/// What a soak found.
#[derive(Clone, Copy)]
pub struct Found {
    /// How many items operators put, and the outcome of their commands.
    pub put: u64,
    pub acted: Totals,
    /// What workers reported.
    pub served: Totals,
    /// How many things were wrong.
    wrong: u64,
    /// How often a program was published.
    pub published: u64,
    /// The final counters of the shared map, and the sums of the workers' map: data passed up, and data dropped.
    shared: [u64; 2],
    summed: [u64; 2],
}

impl Found {
    fn new() -> Found {
        Found {
            put: 0,
            acted: Totals::new(),
            served: Totals::new(),
            wrong: 0,
            published: 0,
            shared: [0, 0],
            summed: [0, 0],
        }
    }

    fn add_tally(&mut self, tally: &Tally) {
        self.served = self.served.and(tally.totals);
        self.wrong = self.wrong.wrapping_add(tally.wrong);
    }

    fn add_diary(&mut self, diary: Diary) {
        self.put = self.put.wrapping_add(diary.put);
        self.acted = self.acted.and(diary.acted);
        self.wrong = self.wrong.wrapping_add(diary.wrong);
    }

    /// The first fault found, in words, given the totals.
    pub fn fault(&self, totals: Totals) -> Option<&'static str> {
        if self.published < 2 {
            return Some("nothing was published while events were served");
        }
        if self.wrong != 0 {
            return Some("an event was refused, out of its order, or led to something else");
        }
        if self.served.events != self.put {
            return Some("another number of events was served than was put");
        }
        if totals != self.served.and(self.acted) {
            return Some("the totals aren't what was handed back");
        }
        let counted = [self.served.up, self.served.dropped];
        if self.shared != counted {
            return Some("the shared counters aren't what was handed back");
        }
        if self.summed != counted {
            return Some("the sums of the workers' counters aren't what was handed back");
        }
        None
    }
}

fn pause() {
    for _ in 0..YIELDS {
        yield_now();
    }
}

/// A soak: each of four operators submits `events` data frames.
#[derive(Drop)]
pub struct Soak {
    events: u64,
    found: Mutex<Found>,
    /// How many operators are still at work.
    operating: AtomicU64,
}

impl Soak {
    /// A soak that hasn't run. It needs an access point with four operators and maps of 8-byte words.
    pub fn new(events: u64) -> Soak {
        Soak {
            events,
            found: Mutex::new(Found::new()),
            operating: AtomicU64::new(4),
        }
    }

    /// What it has found so far.
    pub fn found<R: Wait>(&self, rt: &R) -> Found {
        *self.found.lock(rt)
    }
}

/// The text of a program that adds 1 to a word of both maps. With word 0 it passes the data up, with word 1 it drops it.
fn counting(alloc: Global, word: u64) -> Result<String, AllocError> {
    let offset = word.wrapping_mul(8);
    format!(in alloc;
        "lddw r1, value 0 0
mov r2, 1
atomic_add [r1+{offset}], r2
lddw r1, value 1 0
atomic_add [r1+{offset}], r2
mov r0, {word}
exit
"
    )
}

/// Publishes that program. False if an allocation fails.
fn publish_counting<R: Wait>(rt: &R, alloc: Global, publisher: &mut Publisher, word: u64) -> bool {
    match counting(alloc, word) {
        Ok(text) => publish(rt, alloc, publisher, text.as_str(), WordWidth::Eight),
        Err(_) => false,
    }
}

/// Publishes the two programs alternately while there are operators. Returns how many it published.
fn publish_on<R: Wait>(
    rt: &R,
    alloc: Global,
    publisher: &mut Publisher,
    operating: &AtomicU64,
) -> u64 {
    let mut published = 0u64;
    for _ in rt.forever() {
        if operating.load(SeqCst) == 0 {
            return published;
        }
        for word in [1, 0] {
            if publish_counting(rt, alloc, publisher, word) {
                published = published.wrapping_add(1);
            }
            pause();
        }
    }
    unreachable!()
}

/// Reads both counters of both maps.
fn read_counters<B: Ledgers + Journals>(chief: &mut Chief<'_, B>, found: &mut Found) {
    for word in 0..2u32 {
        let place = word as usize;
        found.shared[place] = chief.read(0, word).unwrap_or(u64::MAX);
        found.summed[place] = chief.sum(1, word).unwrap_or(u64::MAX);
    }
}

/// Eight stations of each of four operators set up their agreements.
fn join_all<B: Ledgers + Journals, R: Wait>(
    rt: &R,
    alloc: Global,
    scene: &mut Scene<'_, B>,
    found: &mut Found,
) {
    if let Some(chief) = scene.chiefs.first_mut() {
        for owner in 0..4u8 {
            if chief.join(rt, alloc, owner) {
                found.put = found.put.wrapping_add(24);
            }
        }
    }
    let mut tally = Tally::new();
    let mut list = scene.serve(rt, alloc, &OpenGate);
    tally.take(&mut list);
    found.add_tally(&tally);
}

impl<R: Wait> Story<R> for Soak {
    fn prepare<B: Ledgers + Journals>(&mut self, rt: &R, alloc: Global, scene: &mut Scene<'_, B>) {
        let mut found = Found::new();
        if !publish_counting(rt, alloc, scene.publisher, 0) {
            found.wrong = 1;
        }
        join_all(rt, alloc, scene, &mut found);
        *self.found.lock(rt) = found;
    }

    fn work<B: Ledgers + Journals>(&self, rt: &R, alloc: Global, hand: &mut Hand<'_, B>) {
        let tally = serve_on(rt, alloc, hand, &self.operating);
        self.found.lock(rt).add_tally(&tally);
    }

    fn operate<B: Ledgers + Journals>(&self, rt: &R, alloc: Global, chief: &mut Chief<'_, B>) {
        let diary = operate_on(rt, alloc, chief, self.events, &self.operating);
        self.found.lock(rt).add_diary(diary);
    }

    fn publish(&self, rt: &R, alloc: Global, publisher: &mut Publisher) {
        let published = publish_on(rt, alloc, publisher, &self.operating);
        self.found.lock(rt).published = published;
    }

    fn finish<B: Ledgers + Journals>(&mut self, rt: &R, scene: &mut Scene<'_, B>) {
        if let Some(chief) = scene.chiefs.first_mut() {
            read_counters(chief, &mut *self.found.lock(rt));
        }
    }
}
