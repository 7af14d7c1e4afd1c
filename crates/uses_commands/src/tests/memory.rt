//! Runs of files in memory, and of inputs.

use crate::tests::lab::LAB;
use crate::tests::told::{File, Told, folder_of};
use apd_driver::{Destination, Form, Manner, Recorder, Recording, Source};
use apd_run::{Limits, OpenGate, RunWords, Streams, Surroundings, Watcher, live, run};
use std::alloc::Global;
use std::sync::Wait;
use std::thread::Threads;

/// A run that isn't strict, and prints lines.
pub const MANNER: Manner = Manner {
    strict: false,
    form: Form::LINES,
};

/// A strict run that prints lines.
pub const STRICT: Manner = Manner {
    strict: true,
    form: Form::LINES,
};

/// The arguments to run the file `script` by `workers` workers.
pub fn words(workers: u8, manner: Manner) -> RunWords<'static> {
    RunWords {
        config: "lab",
        script: "script",
        workers,
        manner,
        verbose: false,
        prompts: false,
        capture: "capture",
    }
}

/// The configuration, and the programs that lines name: `mark.hex` lets data pass with mark 5, and `drop.hex` drops it.
static PROGRAMS: &[File<'static>] = &[
    ("lab", LAB),
    ("mark.hex", b"b700000002050000 9500000000000000\n"),
    ("drop.hex", b"b700000001000000 9500000000000000\n"),
];

/// Lines in memory, without a capture.
pub type Page<L> = Destination<L, Option<Recorder<Vec<u8>>>>;

/// Lines that go to a writer, without a capture.
pub fn lines_alone<L: Drop>(lines: L) -> Page<L> {
    Destination {
        lines,
        capture: None,
    }
}

/// What a run told whose lines went to memory.
pub fn told_of(page: Page<Vec<u8>>, err: Vec<u8>, status: u8) -> Told {
    let Destination { lines, capture } = page;
    drop(capture);
    Told {
        status,
        out: lines,
        err,
    }
}

/// Runs a script. The watcher is told of each event.
pub fn run_to<R, G, P>(
    rt: &R,
    alloc: Global,
    script: &[u8],
    asked: (RunWords<'_>, G),
    out: P,
) -> (P, Vec<u8>, u8)
where
    R: Threads + Wait + Sync,
    G: Watcher + Copy + Send,
    P: Recording + Drop,
{
    let (words, gate) = asked;
    let mut folder = folder_of(alloc, PROGRAMS, ("script", script), usize::MAX);
    let mut err = Vec::new(alloc);
    let surroundings = Surroundings {
        files: &mut folder,
        limits: Limits::MOST,
        gate,
        err: &mut err,
    };
    let (out, status) = run(rt, alloc, words, surroundings, out);
    drop(folder);
    (out, err, status)
}

/// Runs an input.
pub fn live_to<R, S, P>(
    rt: &R,
    alloc: Global,
    words: RunWords<'_>,
    input: S,
    out: P,
) -> (P, Vec<u8>, u8)
where
    R: Threads + Wait + Sync,
    S: Source + Drop,
    P: Recording + Drop,
{
    let mut folder = folder_of(alloc, PROGRAMS, ("-", b""), usize::MAX);
    let mut err = Vec::new(alloc);
    let surroundings = Surroundings {
        files: &mut folder,
        limits: Limits::MOST,
        gate: OpenGate,
        err: &mut err,
    };
    let streams = Streams {
        input,
        out,
        typed: false,
        shown: false,
    };
    let (out, status) = live(rt, alloc, words, surroundings, streams);
    drop(folder);
    (out, err, status)
}

/// Runs an input, whose lines go to memory.
pub fn lived<R: Threads + Wait + Sync, S: Source + Drop>(
    rt: &R,
    alloc: Global,
    words: RunWords<'_>,
    input: S,
) -> Told {
    let page = lines_alone(Vec::new(alloc));
    let (page, err, status) = live_to(rt, alloc, words, input, page);
    told_of(page, err, status)
}
