//! Watchers that are told of each event, and workers that run concurrently.

use crate::tests::lab::JOINING;
use crate::tests::memory::{MANNER, lines_alone, run_to, told_of, words};
use crate::tests::same::same;
use crate::tests::told::Text::{self, Answered};
use crate::tests::told::{ANY, tells};
use apd_run::{Gate, Watcher};
use std::alloc::Global;
use std::process::Abort;
use std::sync::Wait;
use std::sync::atomic::{AtomicU64, Ordering};
use std::thread;
use std::thread::Threads;

/// How many iterations the first call waits at most.
const TURNS: u64 = 1000000;

/// Adds up what it is told. If `meets` is set, it holds call 1 until another has ended, and tells whether that was so.
#[derive(Drop)]
struct Sums {
    lines: AtomicU64,
    begun: AtomicU64,
    ended: AtomicU64,
    met: AtomicU64,
    meets: bool,
}

impl Sums {
    /// The number of lines, the sums of the calls that began and of those that ended, and whether two met.
    fn told(&self) -> [u64; 4] {
        [
            self.lines.load(Ordering::SeqCst),
            self.begun.load(Ordering::SeqCst),
            self.ended.load(Ordering::SeqCst),
            self.met.load(Ordering::SeqCst),
        ]
    }

    /// Waits until a call has ended, but not for ever.
    fn meet(&self) {
        for _ in 0..TURNS {
            if self.ended.load(Ordering::SeqCst) != 0 {
                self.met.store(1, Ordering::SeqCst);
                return;
            }
            thread::yield_now();
        }
    }
}

impl Gate for &Sums {
    fn begin(&self, call: u64) {
        self.begun.fetch_add(call, Ordering::SeqCst);
        if self.meets && call == 1 {
            self.meet();
        }
    }

    fn end(&self, call: u64) {
        self.ended.fetch_add(call, Ordering::SeqCst);
    }
}

impl Watcher for &Sums {
    fn start(&self, lines: u64) {
        self.lines.fetch_add(lines, Ordering::SeqCst);
    }
}

/// A script, whether its first two events are to meet, by how many workers it runs, what is added up, and what is
/// printed.
type Row = (&'static [u8], bool, u8, [u64; 4], Text<'static>);

/// Fails if a watcher is told anything else.
fn adds_up<R: Threads + Wait + Abort + Sync>(rt: &R, alloc: Global, row: &Row) {
    let (script, meets, workers, wanted, printed) = *row;
    let sums = Sums {
        lines: AtomicU64::new(0),
        begun: AtomicU64::new(0),
        ended: AtomicU64::new(0),
        met: AtomicU64::new(0),
        meets,
    };
    let page = lines_alone(Vec::new(alloc));
    let asked = (words(workers, MANNER), &sums);
    let (page, err, status) = run_to(rt, alloc, script, asked, page);
    let told = told_of(page, err, status);
    tells(rt, &told, (0, printed, ANY), "a watched run");
    drop(told);
    same(
        rt,
        sums.told(),
        wanted,
        "lines, calls and whether they meet",
    );
}

/// The sum of the lines of its events is 40: lines 1, 2 and 5 concern one shard each, and all eight tell of the tick
/// of line 4.
const LONG: &[u8] = b"frame b000000002000000000102000000000a0200000000011000000001000000\n\
    frame 0000000002000000000102000000000a020000000001200001000a0000036c6162010482848b96\n\
    wait\ntick 1\nkick 02000000000a 1\nunload data\n# end\n";

/// Events of two shards.
const SHORT: &[u8] = b"frame b000000002000000000102000000000a0200000000011000000001000000\n\
    frame b000000002000000000102000000000b0200000000011000000001000000\n";

const TOTALS: Text<'static> = Answered(b"total events 2 sent 2 up 0 dropped 0 notes 0\n");

static ROWS: &[Row] = &[
    (LONG, false, 1, [6, 40, 40, 0], ANY),
    (LONG, false, 2, [6, 40, 40, 0], ANY),
    (LONG, false, 8, [6, 40, 40, 0], ANY),
    (SHORT, true, 1, [2, 3, 3, 0], ANY),
    (SHORT, true, 2, [2, 3, 3, 1], ANY),
    (SHORT, true, 8, [2, 3, 3, 1], ANY),
    // none is one, and more workers than eight are eight
    (JOINING, false, 0, [2, 3, 3, 0], TOTALS),
    (JOINING, false, 9, [2, 3, 3, 0], TOTALS),
    (JOINING, false, 255, [2, 3, 3, 0], TOTALS),
];

#[test]
fn watchers_are_told_and_shards_run_beside_each_other(rt: HostRuntime) {
    for row in ROWS {
        adds_up(&rt, rt.alloc(), row);
    }
}
