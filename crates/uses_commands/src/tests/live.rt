//! Lines that come while the access point runs, in chunks of any length.

use crate::tests::memory::{MANNER, lines_alone, live_to, lived, words};
use crate::tests::same::same;
use crate::tests::told::Text::{All, Answered, Idle};
use crate::tests::told::{ANY, Wanted, joined, tells};
use crate::tests::writers::Narrow;
use apd_driver::Direct;
use std::alloc::Global;
use std::io::{self, Error, ErrorKind, Read, Write};
use std::process::Abort;
use std::sync::Wait;
use std::sync::atomic::{AtomicU64, Ordering};
use std::thread::Threads;

/// Gives a text in chunks of at most `step` bytes, and fails at its end if `fails` is set.
#[derive(Drop)]
pub struct Chunks<'a> {
    pub left: &'a [u8],
    pub step: usize,
    pub fails: bool,
}

impl Read for Chunks<'_> {
    fn read(&mut self, buf: &mut [u8]) -> io::Result<usize> {
        let count = self.left.len().min(self.step).min(buf.len());
        if count == 0 && self.fails {
            return Err(Error::from(ErrorKind::BrokenPipe));
        }
        let (chunk, left) = self.left.split_at(count);
        buf[..count].copy_from_slice(chunk);
        self.left = left;
        Ok(count)
    }
}

/// By how many workers a text is run, each with the length of the chunks in which it comes.
type By = &'static [(u8, usize)];

/// What a text shows, how it comes, and whether a read fails at its end; its beginning, how many letters follow, and
/// its end; and what is wanted of it.
type Talk = (
    &'static str,
    (By, bool),
    (&'static [u8], usize, &'static [u8]),
    Wanted<'static, 'static>,
);

/// Fails where a text is answered otherwise.
fn talks<R: Threads + Wait + Abort + Sync>(rt: &R, alloc: Global, talk: &Talk) {
    let (what, (by, fails), (begun, count, end), wanted) = *talk;
    let letters = [b'a'].repeat(alloc, count).expect(rt, "memory");
    let text = joined(rt, alloc, &[begun, letters.as_slice(), end]);
    drop(letters);
    for (workers, step) in by {
        let input = Direct {
            input: Chunks {
                left: text.as_slice(),
                step: *step,
                fails,
            },
        };
        let told = lived(rt, alloc, words(*workers, MANNER), input);
        tells(rt, &told, wanted, what);
        drop(told);
    }
}

const BY_ALL: By = &[
    (1, 1),
    (1, 7),
    (1, 65536),
    (2, 1),
    (2, 7),
    (2, 65536),
    (8, 1),
    (8, 7),
    (8, 65536),
];

const LONG: By = &[(1, 100), (1, 8192), (1, 65536)];

const ONE: &[u8] = b"1 error unknown word `frme` (did you mean `frame`?)\n";

const TOO_LONG: &[u8] = b"1 error the line has more than 8192 bytes\n";

const CANNOT: &[u8] = b"apd: cannot read the input, or cannot write\n";

static TALKS: &[Talk] = &[
    (
        "chunks of any length are answered alike",
        (BY_ALL, false),
        (
            b"frame b000000002000000000102000000000a0200000000011000000001000000\n\
            frame 0000000002000000000102000000000a020000000001200001000a0000036c6162010482848b96\n\
            \n# nothing\nfrme 00\nload data mark.hex\nwait\n\
            frame 0801000002000000000102000000000a0200000000ff300068656c6c6f\n\
            tick\nframe 0801000002000000000102000000000a0200000000ff300068656c6c6f",
            0,
            b"",
        ),
        (
            1,
            Answered(
                b"5 error unknown word `frme` (did you mean `frame`?)\n6 loaded 2\n\
                8 up 02000000000a 0200000000ff - 3 5 68656c6c6f\n9 error `tick` takes N\n\
                10 up 02000000000a 0200000000ff - 3 5 68656c6c6f\n\
                total events 4 sent 2 up 2 dropped 0 notes 0\n",
            ),
            ANY,
        ),
    ),
    (
        "a failed read ends the run",
        (&[(2, 65536)], true),
        (b"frme\nfrme", 0, b""),
        (2, All(ONE), All(CANNOT)),
    ),
    (
        "the longest line is read",
        (LONG, false),
        (b"#", 8191, b"\nwait\n"),
        (0, Idle(b""), ANY),
    ),
    (
        "a longer line has one answer",
        (LONG, false),
        (b"#", 8192, b"\nwait\n"),
        (1, Idle(TOO_LONG), ANY),
    ),
    (
        "a line in many parts has one answer",
        (LONG, false),
        (b"#", 80000, b"\nwait\n"),
        (1, Idle(TOO_LONG), ANY),
    ),
];

#[test]
fn texts_are_answered_in_chunks_of_any_length(rt: HostRuntime) {
    for talk in TALKS {
        talks(&rt, rt.alloc(), talk);
    }
}

/// Standard output that counts the bytes that were flushed.
#[derive(Drop)]
struct Flushed<'a> {
    taken: u64,
    flushed: &'a AtomicU64,
}

impl Write for Flushed<'_> {
    fn write(&mut self, buf: &[u8]) -> io::Result<usize> {
        self.taken = self.taken.saturating_add(buf.len() as u64);
        Ok(buf.len())
    }

    fn flush(&mut self) -> io::Result<()> {
        self.flushed.store(self.taken, Ordering::SeqCst);
        Ok(())
    }
}

/// Gives a malformed line a read, twice, and fails where the answers to those before aren't flushed.
#[derive(Drop)]
struct Patient<'a> {
    reads: u64,
    flushed: &'a AtomicU64,
}

impl Read for Patient<'_> {
    fn read(&mut self, buf: &mut [u8]) -> io::Result<usize> {
        let line = b"frme\n";
        let answered = self.reads.saturating_mul(ONE.len() as u64);
        if self.flushed.load(Ordering::SeqCst) != answered || buf.len() < line.len() {
            return Err(Error::from(ErrorKind::BrokenPipe));
        }
        if self.reads == 2 {
            return Ok(0);
        }
        self.reads = self.reads.saturating_add(1);
        buf[..line.len()].copy_from_slice(line);
        Ok(line.len())
    }
}

/// What is told on standard error of an input whose answers go to a writer, and the status.
fn written<R: Threads + Wait + Sync, I: Read + Drop, O: Write + Drop>(
    rt: &R,
    alloc: Global,
    input: I,
    out: O,
) -> (Vec<u8>, u8) {
    let input = Direct { input };
    let (page, err, status) = live_to(rt, alloc, words(2, MANNER), input, lines_alone(out));
    drop(page);
    (err, status)
}

#[test]
fn answers_are_flushed_before_the_next_read(rt: HostRuntime) {
    let flushed = AtomicU64::new(0);
    let input = Patient {
        reads: 0,
        flushed: &flushed,
    };
    let out = Flushed {
        taken: 0,
        flushed: &flushed,
    };
    let (_, status) = written(&rt, rt.alloc(), input, out);
    same(&rt, status, 1, "the status");
}

/// Why no write succeeds, and what is told.
static UNWRITTEN: &[(ErrorKind, &[u8])] = &[
    (ErrorKind::BrokenPipe, b""),
    (ErrorKind::StorageFull, CANNOT),
];

#[test]
fn a_reader_that_goes_away_ends_a_run_quietly(rt: HostRuntime) {
    let alloc = rt.alloc();
    for (why, told) in UNWRITTEN {
        let input = Chunks {
            left: b"frame 00\n",
            step: 7,
            fails: false,
        };
        let out = Narrow::new(alloc, 0, *why);
        let (err, status) = written(&rt, alloc, input, out);
        same(&rt, (err.as_slice(), status), (*told, 2), "what is told");
    }
}
