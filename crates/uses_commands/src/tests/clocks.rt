//! Time that passes by a clock: its ticks, agreements that end by themselves, with events beside frames and as JSON in
//! their place, and a thread that reads when asked.

use crate::tests::live::Chunks;
use crate::tests::memory::{MANNER, lived, words};
use crate::tests::same::same;
use crate::tests::told::{ANY, Text, tells};
use apd_driver::{Arrival, Direct, Form, Manner, Passing, Source, Style, Timed};
use apd_files::FileFault;
use std::alloc::Global;
use std::io;
use std::process::Abort;
use std::sync::Wait;
use std::sync::atomic::{AtomicU64, Ordering};
use std::thread::Threads;
use std::time::{Clock, Duration, Instant};

/// A clock that shows this many microseconds, and the number of lines on standard error.
#[derive(Drop)]
pub struct Hand {
    pub micros: AtomicU64,
    pub lines: AtomicU64,
}

impl Hand {
    pub fn at(micros: u64) -> Hand {
        Hand {
            micros: AtomicU64::new(micros),
            lines: AtomicU64::new(0),
        }
    }
}

impl Clock for Hand {
    fn monotonic(&self) -> io::Result<Duration> {
        Ok(Duration::from_micros(self.micros.load(Ordering::SeqCst)))
    }

    fn since_1970(&self) -> io::Result<Duration> {
        self.monotonic()
    }
}

/// What a clock shows one after the other, and the tick at each.
static TICKS: &[(u64, u32)] = &[
    (0, 0),
    (1023, 0),
    (1024, 1),
    (2047, 0),
    (1024, 0),
    (5120, 4),
    (0, 0),
    (5120, 0),
    (6143, 0),
    (6144, 1),
    (1024 * 4294967295 + 6144, 4294967295),
    (1024 * 4294967295 + 6144, 0),
    (2048 * 4294967295 + 9216, 4294967295),
    (0, 0),
    (2048 * 4294967295 + 9216, 3),
];

#[test]
fn a_tick_is_what_was_not_told_before(rt: HostRuntime) {
    let hand = Hand::at(0);
    let begun = Instant::now(&hand).expect(&rt, "a value");
    let mut passing = Passing::since(begun);
    for (micros, units) in TICKS {
        hand.micros.store(*micros, Ordering::SeqCst);
        let now = Instant::now(&hand).expect(&rt, "a value");
        same(&rt, passing.tell(now), *units, "the tick");
    }
}

/// The lines that come, or none for a while, and the units that have passed then.
type Step<'a> = (&'a [u8], u32);

/// Gives texts, or nothing for a while, each when its units have passed by a clock.
#[derive(Drop)]
struct Steps<'a> {
    steps: &'a [Step<'a>],
    done: usize,
    hand: Hand,
    passing: Option<Passing>,
}

impl<'a> Steps<'a> {
    /// Steps of which none was done, by a clock that shows 0.
    fn new(steps: &'a [Step<'a>]) -> Steps<'a> {
        let hand = Hand::at(0);
        let passing = match Instant::now(&hand) {
            Ok(begun) => Some(Passing::since(begun)),
            Err(_) => None,
        };
        Steps {
            steps,
            done: 0,
            hand,
            passing,
        }
    }

    /// Moves the clock on by the units of the step that was done last.
    fn pass(&self) {
        if let Some((_, units)) = self.steps.get(self.done.saturating_sub(1)) {
            let micros = u64::from(*units).saturating_mul(1024);
            self.hand.micros.fetch_add(micros, Ordering::SeqCst);
        }
    }
}

impl Source for Steps<'_> {
    ghost use Rattle.apd_driver.specs.Clocks.{since_if};

    ghost clock = { λ s. since_if s.passing };

    fn next(&mut self, alloc: Global) -> Result<Arrival, FileFault> {
        let Some((lines, _)) = self.steps.get(self.done) else {
            return Ok(Arrival::Bytes(Vec::new(alloc)));
        };
        self.done = self.done.saturating_add(1);
        if lines.is_empty() {
            return Ok(Arrival::Nothing);
        }
        match Vec::from_slice(alloc, lines) {
            Ok(bytes) => Ok(Arrival::Bytes(bytes)),
            Err(_) => Err(FileFault::NoMemory),
        }
    }

    fn passed(&mut self) -> u32 {
        self.pass();
        let Some(passing) = &mut self.passing else {
            return 0;
        };
        match Instant::now(&self.hand) {
            Ok(now) => return passing.tell(now),
            Err(_) => return 0,
        }
    }

    fn end(self) {}
}

/// A style, the steps of an input, and what is printed.
type Course = (&'static str, Style, &'static [Step<'static>], Text<'static>);

/// Fails where an input, by one, two or eight workers, is answered otherwise.
fn passes<R: Threads + Wait + Abort + Sync>(rt: &R, alloc: Global, course: &Course) {
    let (what, style, steps, printed) = *course;
    let manner = Manner {
        strict: false,
        form: Form {
            style,
            colours: false,
        },
    };
    for workers in [1, 2, 8] {
        let told = lived(rt, alloc, words(workers, manner), Steps::new(steps));
        tells(rt, &told, (0, printed, ANY), what);
        drop(told);
    }
}

/// A station's authentication and its association, and a request for an agreement with a timeout of 10 units from
/// number 100 on.
const AGREED: &[u8] = b"frame b000000002000000000102000000000a0200000000011000000001000000\n\
    frame 0000000002000000000102000000000a020000000001200001000a0000036c6162010482848b96\n\
    frame d000000002000000000102000000000a020000000001400003000702010a004006\n";

const DATA: &[u8] = b"frame 0801000002000000000102000000000a0200000000ff300068656c6c6f\n";

/// The same and data that the agreement holds, at once; then it ends while nothing comes; data, a frame that is none,
/// data that is dropped, and a station that leaves.
const EVENTS: &[Step<'_>] = &[
    (
        b"frame b000000002000000000102000000000a0200000000011000000001000000\n\
        frame 0000000002000000000102000000000a020000000001200001000a0000036c6162010482848b96\n\
        frame d000000002000000000102000000000a020000000001400003000702010a004006\n\
        frame 8801000002000000000102000000000a0200000000ff500600006c617465\n",
        0,
    ),
    (b"", 10),
    (DATA, 0),
    (b"frame 00\nload data drop.hex\n", 0),
    (DATA, 0),
    (b"kick 02000000000a 3\n", 0),
];

static COURSES: &[Course] = &[
    (
        "an agreement ends while nothing comes",
        Style::Lines,
        &[
            (AGREED, 0),
            (
                b"frame 8801000002000000000102000000000a0200000000ff500600006c617465\n",
                3,
            ),
            (b"", 9),
            (b"", 1),
            (b"", 0),
            (b"", 4294967295),
            (b"counters\n", 0),
        ],
        Text::Answered(
            b"3 send d000000002000000000a0200000000010200000000010000030107000002010a00\n\
            0 up 02000000000a 0200000000ff 0 101 0 6c617465\n\
            0 send d000000002000000000a0200000000010200000000010000030200002700\n\
            5 events 36 sent 4 up 1 dropped 0 notes 0\n\
            total events 36 sent 4 up 1 dropped 0 notes 0\n",
        ),
    ),
    (
        "frames are followed by what they mean",
        Style::Notices,
        EVENTS,
        Text::All(
            b"1 send b000000002000000000a0200000000010200000000010000000002000000\n\
            1 authenticated 02000000000a\n\
            2 send 1000000002000000000a02000000000102000000000100000100000002c0010482848b96\n\
            2 associated 02000000000a 2\n\
            3 send d000000002000000000a0200000000010200000000010000030107000002010a00\n\
            3 agreement 02000000000a 0 size 4\n\
            0 up 02000000000a 0200000000ff 0 101 0 6c617465\n\
            0 send d000000002000000000a0200000000010200000000010000030200002700\n\
            0 ended 02000000000a 0 reason 39\n\
            5 up 02000000000a 0200000000ff - 3 0 68656c6c6f\n\
            6 note 50\n\
            7 loaded 2\n\
            8 drop 02000000000a 3\n\
            9 send c000000002000000000a02000000000102000000000100000300\n\
            9 left 02000000000a reason 3\n\
            total events 16 sent 5 up 2 dropped 1 notes 1\n",
        ),
    ),
    (
        "outputs are objects",
        Style::Json,
        EVENTS,
        Text::All(
            b"{\"line\":1,\"event\":\"authenticated\",\"station\":\"02000000000a\"}\n\
            {\"line\":2,\"event\":\"associated\",\"station\":\"02000000000a\",\"aid\":2}\n\
            {\"line\":3,\"event\":\"agreement\",\"station\":\"02000000000a\",\"tid\":0,\"size\":4}\n\
            {\"line\":0,\"event\":\"up\",\"source\":\"02000000000a\",\
            \"destination\":\"0200000000ff\",\"tid\":0,\"number\":101,\"mark\":0,\
            \"body\":\"6c617465\"}\n\
            {\"line\":0,\"event\":\"ended\",\"station\":\"02000000000a\",\"tid\":0,\"reason\":39}\n\
            {\"line\":5,\"event\":\"up\",\"source\":\"02000000000a\",\
            \"destination\":\"0200000000ff\",\"tid\":null,\"number\":3,\"mark\":0,\
            \"body\":\"68656c6c6f\"}\n\
            {\"line\":6,\"event\":\"note\",\"number\":50}\n\
            {\"line\":7,\"event\":\"loaded\",\"budget\":2}\n\
            {\"line\":8,\"event\":\"drop\",\"station\":\"02000000000a\",\"number\":3}\n\
            {\"line\":9,\"event\":\"left\",\"station\":\"02000000000a\",\"reason\":3}\n\
            total events 16 sent 5 up 2 dropped 1 notes 1\n",
        ),
    ),
];

#[test]
fn time_passes_while_nothing_comes(rt: HostRuntime) {
    for course in COURSES {
        passes(&rt, rt.alloc(), course);
    }
}

/// Gives a line a read, three times.
fn three_lines() -> Chunks<'static> {
    Chunks {
        left: b"frme\nfrme\nfrme\n",
        step: 5,
        fails: false,
    }
}

#[test]
fn a_thread_reads_the_same_lines(rt: HostRuntime) {
    let alloc = rt.alloc();
    let input = Direct {
        input: three_lines(),
    };
    let direct = lived(&rt, alloc, words(2, MANNER), input);
    let hand = Hand::at(0);
    let input = Timed::start(&rt, alloc, &hand, three_lines()).expect(&rt, "a thread");
    let timed = lived(&rt, alloc, words(2, MANNER), input);
    let wanted = (direct.status, Text::All(direct.out.as_slice()), ANY);
    tells(&rt, &timed, wanted, "the same by a thread");
    drop(timed);
    drop(direct);
}
