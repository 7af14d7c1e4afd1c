//! Stories as tables: frames that are held while operators act, stopped workers, full queues, and sums over workers.

use crate::tests::gates::{Holding, Sign};
use crate::tests::same::same;
use crate::tests::scene::{fill, puts, serve, tell};
use ap_books::{Ledgers, Totals};
use ap_live::{Fate, OpenGate, Tagged};
use ap_locked::Journals;
use ap_model::Out;
use bpf_regions::WordWidth;
use live_scenes::{Chief, Hand, Scene, Story, publish};
use std::alloc::Global;
use std::process::Abort;
use std::sync::Wait;
use std::thread::Threads;

/// Station A, of shard 2, and station B, of shard 3.
const A: [u8; 6] = [2, 0, 0, 0, 0, 0x0a];

const B: [u8; 6] = [2, 0, 0, 0, 0, 0x0b];

/// What one thread does before the others begin, and what it finds.
#[derive(Clone, Copy)]
enum Step {
    /// Puts the frames of a station, a step and the calls from the first to the last, as `puts`: how many could be put.
    Put([u8; 6], u8, u64, u64),
    /// Puts the frames by which a station is associated, and all workers serve: their fates, or 0 if one could not be put.
    Join([u8; 6]),
    /// All workers serve: their fates.
    Serve,
    /// All workers serve by the story's gate: their fates.
    ServeGated,
    /// Publishes a program: 1, or 0 if it could not be published.
    Publish(&'static str),
    /// Takes the sum of word 0 of the workers' map.
    Sum,
    /// Fills a queue, as `fill`: how many frames it took.
    Fill,
}

/// What threads do after the steps.
#[derive(Clone, Copy, PartialEq)]
enum Beside {
    Nothing,
    /// Workers serve, and one is held and let go.
    Serving,
    /// Meanwhile an operator sends A away, and A is then refused.
    Kicking,
}

impl Beside {
    /// Whether a worker was held and let go, A was sent away, and A was refused after it.
    fn signs(self) -> (bool, bool, bool) {
        match self {
            Beside::Nothing => (false, false, false),
            Beside::Serving => (true, false, false),
            Beside::Kicking => (true, true, true),
        }
    }
}

/// A story: its operators, the width of its maps' words, its steps with what each finds, what threads do then, and which
/// calls the gate is about.
struct Row {
    operators: usize,
    width: WordWidth,
    steps: &'static [(Step, u64)],
    beside: Beside,
    /// The call that is held, the call whose end lets it go, and the call at which a worker is stopped.
    gate: (u64, u64, u64),
    /// The totals of events, of frames sent, and of data passed up.
    totals: (u64, u64, u64),
}

/// A call that never comes.
const NONE: u64 = u64::MAX;

/// A story as it is told, with this many workers, and how many steps found something else.
#[derive(Drop)]
struct Told {
    row: &'static Row,
    workers: usize,
    wrong: u64,
    gate: Holding,
    kicked: Sign,
    refused: Sign,
}

/// Whether A is deauthenticated for this reason, and there is no other output.
fn sends_away(outs: &[Out], reason: u8) -> bool {
    let wanted = [
        0xc0, 0, 0, 0, 2, 0, 0, 0, 0, 0x0a, 2, 0, 0, 0, 0, 1, 2, 0, 0, 0, 0, 1, 0, 0, reason, 0,
    ];
    match outs {
        [Out::Send(frame)] => frame.bytes() == wanted.as_slice(),
        _ => false,
    }
}

/// Whether an event was decided so that A is deauthenticated for having sent data.
fn is_sent_away(list: &[Tagged]) -> bool {
    let Some(tagged) = list.first() else {
        return false;
    };
    match &tagged.fate {
        Fate::Decided { outs, .. } => sends_away(outs.as_slice(), 7),
        _ => false,
    }
}

/// The sum of word 0 of the workers' map.
fn sum_of<L: Ledgers + Journals>(scene: &mut Scene<'_, L>) -> u64 {
    match scene.chiefs.first_mut() {
        Some(chief) => chief.sum(1, 0).unwrap_or(NONE),
        None => NONE,
    }
}

/// One operator puts the frames of a station, a step and the calls from the first to the last: how many could be put.
fn put<L: Ledgers + Journals, R: Wait>(
    rt: &R,
    alloc: Global,
    scene: &mut Scene<'_, L>,
    frame: ([u8; 6], u8),
    calls: (u64, u64),
) -> u64 {
    let (station, step) = frame;
    let mut count = 0u64;
    for call in calls.0..calls.1.saturating_add(1) {
        if puts(rt, alloc, scene, station, step, call) {
            count = count.wrapping_add(1);
        }
    }
    count
}

/// A station is associated: the fates of its two frames, or 0 if one could not be put.
fn join<L: Ledgers + Journals, R: Wait>(
    rt: &R,
    alloc: Global,
    scene: &mut Scene<'_, L>,
    station: [u8; 6],
) -> u64 {
    for step in 0..2 {
        if !puts(rt, alloc, scene, station, step, 0) {
            return 0;
        }
    }
    serve(rt, alloc, scene, &OpenGate)
}

/// What a step finds.
fn found<L: Ledgers + Journals, R: Wait>(
    rt: &R,
    alloc: Global,
    scene: &mut Scene<'_, L>,
    step: (&Step, WordWidth, &Holding),
) -> u64 {
    let (step, width, gate) = step;
    match step {
        Step::Put(station, step, first, last) => {
            put(rt, alloc, scene, (*station, *step), (*first, *last))
        }
        Step::Join(station) => join(rt, alloc, scene, *station),
        Step::Serve => serve(rt, alloc, scene, &OpenGate),
        Step::ServeGated => serve(rt, alloc, scene, gate),
        Step::Publish(text) => u64::from(publish(rt, alloc, scene.publisher, text, width)),
        Step::Sum => sum_of(scene),
        Step::Fill => fill(rt, alloc, scene),
    }
}

impl<R: Wait> Story<R> for Told {
    fn prepare<L: Ledgers + Journals>(&mut self, rt: &R, alloc: Global, scene: &mut Scene<'_, L>) {
        let row = self.row;
        if scene.hands.len() != self.workers || scene.chiefs.len() != row.operators {
            self.wrong = 100;
        }
        for (step, wanted) in row.steps {
            let step = (step, row.width, &self.gate);
            if found(rt, alloc, scene, step) != *wanted {
                self.wrong = self.wrong.wrapping_add(1);
            }
        }
    }

    fn work<L: Ledgers + Journals>(&self, rt: &R, alloc: Global, hand: &mut Hand<'_, L>) {
        if self.row.beside == Beside::Nothing {
            return;
        }
        let mut list = Vec::new(alloc);
        let _ = hand.serve(rt, alloc, &self.gate, &mut list);
        if is_sent_away(list.as_slice()) {
            self.refused.give();
        }
    }

    fn operate<L: Ledgers + Journals>(&self, rt: &R, alloc: Global, chief: &mut Chief<'_, L>) {
        if self.row.beside != Beside::Kicking {
            return;
        }
        self.gate.begun.wait();
        if let Ok(outs) = chief.kick(rt, alloc, A, 1) {
            if sends_away(outs.as_slice(), 1) {
                self.kicked.give();
            }
        }
        self.gate.let_go.give();
    }
}

/// A story is told with this many workers, and all is found that should be.
fn is_told<R: Threads + Wait + Abort + Sync>(
    rt: &R,
    alloc: Global,
    row: &'static Row,
    workers: u32,
) {
    let mut story = Told {
        row,
        workers: workers as usize,
        wrong: 0,
        gate: Holding::new(row.gate),
        kicked: Sign::new(),
        refused: Sign::new(),
    };
    let totals = tell(rt, alloc, (workers, row.operators), row.width, &mut story);
    let (events, sent, up) = row.totals;
    let wanted = Totals {
        events,
        sent,
        up,
        dropped: 0,
        notes: 0,
    };
    let passed = story.gate.passed.is_given();
    let signs = (passed, story.kicked.is_given(), story.refused.is_given());
    same(rt, story.wrong, 0, "steps that found something else");
    same(
        rt,
        signs,
        row.beside.signs(),
        "held and let go, sent away, refused",
    );
    same(rt, totals, wanted, "totals");
}

/// The same with two workers, and with eight.
fn are_told<R: Threads + Wait + Abort + Sync>(rt: &R, alloc: Global, rows: &'static [Row]) {
    for row in rows {
        is_told(rt, alloc, row, 2);
        is_told(rt, alloc, row, 8);
    }
}

/// A worker is held at a data frame of A. Meanwhile an operator sends A away.
static KICKED: [Row; 1] = [Row {
    operators: 1,
    width: WordWidth::Eight,
    steps: &[(Step::Join(A), 11), (Step::Put(A, 3, 3, 3), 1)],
    beside: Beside::Kicking,
    gate: (3, NONE, NONE),
    totals: (4, 4, 0),
}];

#[test]
fn a_kick_overtakes_a_frame_that_is_held(rt: HostRuntime) {
    are_told(&rt, rt.alloc(), &KICKED);
}

/// Call 1, of shard 2, is held until call 2, of shard 3, has ended.
static MET: [Row; 1] = [Row {
    operators: 1,
    width: WordWidth::Eight,
    steps: &[(Step::Put(A, 0, 1, 1), 1), (Step::Put(B, 0, 2, 2), 1)],
    beside: Beside::Serving,
    gate: (1, 2, NONE),
    totals: (2, 2, 0),
}];

#[test]
fn a_frame_is_held_until_another_shard_has_served(rt: HostRuntime) {
    are_told(&rt, rt.alloc(), &MET);
}

/// A worker is stopped at the third of five calls, and continues later or not.
static STOPPED: [Row; 2] = [
    Row {
        operators: 1,
        width: WordWidth::Eight,
        steps: &[(Step::Put(A, 0, 1, 5), 5), (Step::ServeGated, 113)],
        beside: Beside::Nothing,
        gate: (NONE, NONE, 3),
        totals: (2, 2, 0),
    },
    Row {
        operators: 1,
        width: WordWidth::Eight,
        steps: &[
            (Step::Put(A, 0, 1, 5), 5),
            (Step::ServeGated, 113),
            (Step::Serve, 11),
        ],
        beside: Beside::Nothing,
        gate: (NONE, NONE, 3),
        totals: (4, 4, 0),
    },
];

#[test]
fn a_worker_is_stopped_and_goes_on(rt: HostRuntime) {
    are_told(&rt, rt.alloc(), &STOPPED);
}

const COUNTS: &str = "lddw r1, value 1 0\nmov r2, 1\natomic_add [r1+0], r2\nmov r0, 0\nexit\n";

const STORES_MOST: &str = "lddw r1, value 1 0\nmov r2, -1\nstxw [r1+0], r2\nmov r0, 0\nexit\n";

const STORES_2: &str = "lddw r1, value 1 0\nmov r2, 2\nstxw [r1+0], r2\nmov r0, 0\nexit\n";

/// Data of A and of B, each under a program. The sum is mod 2^32 for words of 4 bytes.
static SUMMED: [Row; 2] = [
    Row {
        operators: 1,
        width: WordWidth::Eight,
        steps: &[
            (Step::Join(A), 11),
            (Step::Join(B), 11),
            (Step::Publish(COUNTS), 1),
            (Step::Put(A, 3, 0, 2), 3),
            (Step::Serve, 111),
            (Step::Publish(COUNTS), 1),
            (Step::Put(B, 3, 0, 1), 2),
            (Step::Serve, 11),
            (Step::Sum, 5),
        ],
        beside: Beside::Nothing,
        gate: (NONE, NONE, NONE),
        totals: (9, 4, 5),
    },
    Row {
        operators: 1,
        width: WordWidth::Four,
        steps: &[
            (Step::Join(A), 11),
            (Step::Join(B), 11),
            (Step::Publish(STORES_MOST), 1),
            (Step::Put(A, 3, 0, 0), 1),
            (Step::Serve, 1),
            (Step::Publish(STORES_2), 1),
            (Step::Put(B, 3, 0, 0), 1),
            (Step::Serve, 1),
            (Step::Sum, 1),
        ],
        beside: Beside::Nothing,
        gate: (NONE, NONE, NONE),
        totals: (6, 4, 2),
    },
];

#[test]
fn words_of_all_workers_are_added_up(rt: HostRuntime) {
    are_told(&rt, rt.alloc(), &SUMMED);
}

/// A queue is filled, and then served. All eight operators have their tokens.
static FULL: [Row; 1] = [Row {
    operators: 8,
    width: WordWidth::Eight,
    // The fates are 256 times the digit 1, mod 2^64.
    steps: &[(Step::Fill, 256), (Step::Serve, 8198552921648689607)],
    beside: Beside::Nothing,
    gate: (NONE, NONE, NONE),
    totals: (256, 256, 0),
}];

#[test]
fn a_queue_that_nobody_serves_takes_256_events(rt: HostRuntime) {
    are_told(&rt, rt.alloc(), &FULL);
}
