//! Captures of runs, in files that can't be written.

use crate::tests::memory::{MANNER, run_to, words};
use crate::tests::same::same;
use crate::tests::told::Text::{self, All};
use crate::tests::told::{ANY, Told, tells};
use crate::tests::writers::Narrow;
use apd_driver::{Destination, InFile, Recorder};
use apd_run::OpenGate;
use std::alloc::Global;
use std::io::ErrorKind;
use std::sync::Wait;
use std::thread::Threads;

static SCRIPT: &[u8] = b"tick 1000\n\
    frame b000000002000000000102000000000a0200000000011000000001000000\n\
    frame 0000000002000000000102000000000a020000000001200001000a0000036c6162010482848b96\n\
    wait\nload data mark.hex\ntick 3\n\
    frame 0801000002000000000102000000000a0200000000ff300068656c6c6f\nwait\n\
    frame 0801000002000000000102000000000a0200000000ff4000aaaa03000000080045\n";

/// Runs the script. Its capture goes to a file that has room for 100 bytes, unless it isn't made. Returns the capture's
/// length, too.
fn recorded<R: Threads + Wait + Sync>(
    rt: &R,
    alloc: Global,
    unmade: Option<ErrorKind>,
) -> (Told, usize) {
    let mut tape = Narrow::new(alloc, 100, ErrorKind::StorageFull);
    tape.unmade = unmade;
    let page = Destination {
        lines: Vec::new(alloc),
        capture: InFile {
            recorder: Recorder::new(alloc, tape),
        },
    };
    let asked = (words(2, MANNER), OpenGate);
    let (page, err, status) = run_to(rt, alloc, SCRIPT, asked, page);
    let told = Told {
        status,
        out: page.lines,
        err,
    };
    let InFile { recorder } = page.capture;
    (told, recorder.tape.taken.len())
}

/// Whether the file isn't made, what is wanted of the lines and of the error, and the capture's length.
static UNWRITTEN: &[(Option<ErrorKind>, Text<'_>, &[u8], usize)] = &[
    (
        None,
        ANY,
        b"apd: cannot write capture: no storage space\n",
        100,
    ),
    (
        Some(ErrorKind::AlreadyExists),
        All(b""),
        b"apd: cannot write capture: it exists already; `--force` replaces it\n",
        0,
    ),
];

#[test]
fn a_capture_that_is_not_written_ends_the_run(rt: HostRuntime) {
    let alloc = rt.alloc();
    for (unmade, out, err, len) in UNWRITTEN {
        let (told, found) = recorded(&rt, alloc, *unmade);
        tells(&rt, &told, (2, *out, All(err)), "what is told");
        drop(told);
        same(&rt, found, *len, "the capture");
    }
}
