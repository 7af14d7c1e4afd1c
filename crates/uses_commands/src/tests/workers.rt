//! Scripts that run with one worker and with several.

ghost use Rattle.std.specs.Prelude.{◌≡◌, vec_len};

use crate::tests::echo::{Echo, Place, Places};
use crate::tests::memory::{MANNER, STRICT, lines_alone, told_of};
use crate::tests::told::Text::Idle;
use crate::tests::told::{ANY, Told, joined, tells};
use apd_driver::{Manner, Notes, Script, Staff, Terminal, run_lines};
use apd_script::read_script;
use bpf_regions::Shapes;
use std::alloc::Global;
use std::process::Abort;
use std::sync::{Arc, Mutex, Wait};
use std::thread::Threads;

/// An operator and `workers` workers, with a place for each.
fn staff(rt: &impl Abort, alloc: Global, workers: u8) -> Staff<Echo, Places>
    ensures { vec_len result.workers ≡ result.operator.workers }
{
    let mut places = Vec::new(alloc);
    let mut hands = Vec::new(alloc);
    for _ in 0..workers {
        let place: Place = Arc::new(alloc, Mutex::new(None)).expect(rt, "memory");
        let mine = Arc::try_clone(&place).expect(rt, "one more owner");
        places.push(place).expect(rt, "memory");
        hands
            .push(Echo {
                place: mine,
                refused: Vec::new(alloc),
            })
            .expect(rt, "memory");
    }
    let operator = Places {
        places,
        workers: hands.len() as u64,
    };
    Staff {
        operator,
        workers: hands,
    }
}

/// Runs a script with `workers` workers.
fn ran<R: Threads + Wait + Abort + Sync>(
    rt: &R,
    alloc: Global,
    workers: u8,
    script: &[u8],
    manner: Manner,
) -> Told {
    let shapes = Shapes::new(Vec::new(alloc)).expect(rt, "no maps");
    let commands = read_script(alloc, script, &shapes).expect(rt, "a script");
    let notes = Notes::new(alloc, "script", &shapes, false).expect(rt, "memory");
    let mut err = Vec::new(alloc);
    let page = Terminal {
        out: lines_alone(Vec::new(alloc)),
        err: &mut err,
        notes,
        manner,
        prompts: false,
        is_flushed: false,
        reader_left: false,
    };
    let staff = staff(rt, alloc, workers);
    let lines = Script {
        commands: commands.as_slice(),
    };
    let (page, status) = run_lines(rt, alloc, staff, lines, page);
    let page = page.end();
    told_of(page, err, status)
}

/// In which manner a script runs, its beginning, whether it is long, what is printed before the totals, and the status. A
/// long script has 4095 lines without effect and a tick more, and runs by two workers; others by 1, 2 and 8.
type Row = (Manner, &'static [u8], bool, &'static [u8], u8);

static ROWS: &[Row] = &[
    // any number of workers prints the same
    (
        MANNER,
        b"tick 10\ntick 0\ntick 30\nunload data\nwait\ntick 60\nload data absent\n",
        false,
        b"1 memory\n3 memory\n4 memory\n6 memory\n7 unreadable\n",
        3,
    ),
    // a strict run ends with the interval of a refused line
    (
        STRICT,
        b"load data absent\ntick 0\nload data absent\nwait\ntick 20\n",
        false,
        b"1 unreadable\n3 unreadable\n",
        1,
    ),
    (
        STRICT,
        b"load data absent\ntick 10\nwait\ntick 20\n",
        false,
        b"1 unreadable\n2 memory\n",
        3,
    ),
    (
        STRICT,
        b"tick 0\nwait\nload data absent\n",
        false,
        b"3 unreadable\n",
        1,
    ),
    (
        STRICT,
        b"tick 10\nwait\ntick 20\n",
        false,
        b"1 memory\n3 memory\n",
        3,
    ),
    // an interval has at most 4096 lines: a refused line, as many others as fill its interval, and a line that is
    // refused in the next
    (STRICT, b"load data absent\n", true, b"1 unreadable\n", 1),
    (
        MANNER,
        b"load data absent\n",
        true,
        b"1 unreadable\n4097 memory\n",
        3,
    ),
];

/// Fails if a script prints something else, or has another status.
fn prints<R: Threads + Wait + Abort + Sync>(rt: &R, alloc: Global, row: &Row) {
    let (manner, first, is_long, printed, status) = *row;
    let (count, last, workers): (usize, &[u8], &[u8]) = if is_long {
        (4095, b"tick 10\n", &[2])
    } else {
        (0, b"", &[1, 2, 8])
    };
    let kick = b"kick 02000000000a 8\n".as_slice();
    let middle = kick.repeat(alloc, count).expect(rt, "memory");
    let script = joined(rt, alloc, &[first, middle.as_slice(), last]);
    for count in workers {
        let told = ran(rt, alloc, *count, script.as_slice(), manner);
        tells(rt, &told, (status, Idle(printed), ANY), "a script");
        drop(told);
    }
}

#[test]
fn any_number_of_workers_prints_the_same(rt: HostRuntime) {
    for row in ROWS {
        prints(&rt, rt.alloc(), row);
    }
}
