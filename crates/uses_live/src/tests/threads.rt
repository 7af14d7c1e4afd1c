//! A publisher and its readers, each on its own thread.

ghost use Rattle.std.specs.Prelude.{◌≡◌};
ghost use Rattle.std.specs.Arc.{arc_value};
ghost use Rattle.bpf_regions.specs.declared.hooks.Hook.TheVariants.{Association, Addba, Data};

use crate::tests::programs::{accepted, answers_of, notes_of};
use crate::tests::rows::{answers_for, enter_after, opened};
use crate::tests::same::same;
use bpf_machine::Accepted;
use bpf_regions::Hook;
use std::alloc::Global;
use std::process::Abort;
use std::sync::atomic::AtomicU32;
use std::sync::atomic::Ordering::SeqCst;
use std::sync::{Arc, Wait};
use std::thread;
use std::thread::{Threads, join};
use versions::{Entrance, News, ProgramSet, Published, Publisher, Reader};

/// How often each reader enters, runs and leaves.
const ROUNDS: u32 = 100_000;

/// A program for each hook.
#[derive(Drop)]
struct Side {
    association: Arc<Accepted>,
    addba: Arc<Accepted>,
    frames: Arc<Accepted>,
    ghost for_association: { (arc_value association).hook ≡ Association },
    ghost for_addba: { (arc_value addba).hook ≡ Addba },
    ghost for_frames: { (arc_value frames).hook ≡ Data },
}

/// A program for each hook, of one text.
fn side_of(rt: &impl Abort, alloc: Global, text: &str) -> Side {
    Side {
        association: accepted(rt, alloc, text, Hook::Association, &[]),
        addba: accepted(rt, alloc, text, Hook::Addba, &[]),
        frames: accepted(rt, alloc, text, Hook::Data, &[]),
    }
}

/// Publishes a program. False if that fails.
fn load<R: Wait>(rt: &R, publisher: &mut Publisher, hook: Hook, program: &Arc<Accepted>) -> bool
    requires { (arc_value program.now).hook ≡ hook }
    ensures { publisher.new.list ≡ publisher.old.list }
{
    match Arc::try_clone(program) {
        Ok(another) => publisher.publish(rt, hook, Some(another)).is_ok(),
        Err(_) => false,
    }
}

/// Publishes the programs of all three hooks, one after the other. False if one fails.
fn load_all<R: Wait>(rt: &R, publisher: &mut Publisher, side: &Side) -> bool
    ensures { publisher.new.list ≡ publisher.old.list }
{
    load(rt, publisher, Hook::Association, &side.association)
        && load(rt, publisher, Hook::Addba, &side.addba)
        && load(rt, publisher, Hook::Data, &side.frames)
}

/// Exchanges one side's programs for the other's and back, while there are readers. False if a publication fails.
fn exchange<R: Wait>(
    rt: &R,
    publisher: &mut Publisher,
    sides: (&Side, &Side),
    reading: &AtomicU32,
) -> bool {
    let mut right = true;
    for _ in 0..u32::MAX {
        if reading.load(SeqCst) == 0 {
            break;
        }
        right = right && load_all(rt, publisher, sides.1) && load_all(rt, publisher, sides.0);
    }
    right
}

/// Whether a published set can have these notes: the hooks' programs are exchanged in the order of the hooks.
fn is_published(notes: [Option<u64>; 3]) -> bool {
    let [association, addba, frames] = notes;
    let known = [association, addba, frames]
        .iter()
        .all(|note| *note == Some(1) || *note == Some(2));
    known && !(association == frames && association != addba)
}

/// Whether each set that a reader enters may have been published.
fn read_many<R: Wait>(rt: &R, entrance: &Entrance, reader: Reader, reading: &AtomicU32) -> bool
    requires { reader.list ≡ entrance.now.list }
{
    let mut reader = reader;
    let mut right = true;
    for _ in 0..ROUNDS {
        let held = entrance.enter(rt, reader);
        right = right && is_published(notes_of(held.set()));
        reader = held.leave();
    }
    reading.fetch_sub(1, SeqCst);
    right
}

/// A reader, with the entrance to its sets.
#[derive(Drop)]
struct Reading<'e> {
    entrance: &'e Entrance,
    reader: Reader,
    ghost own: { reader.list ≡ entrance.now.list },
}

/// Each reader reads in a thread of its own. How many entered only sets that may have been published.
fn read_by_all<R: Threads + Wait + Sync>(
    rt: &R,
    readers: &mut [Option<Reading<'_>>],
    reading: &AtomicU32,
) -> u32 {
    let right = AtomicU32::new(0);
    thread::for_each_mut(
        rt,
        readers,
        4,
        &|_place, slot| {
            if let Some(Reading { entrance, reader }) = slot.take() {
                if read_many(rt, entrance, reader, reading) {
                    right.fetch_add(1, SeqCst);
                }
            }
        },
    );
    right.load(SeqCst)
}

/// A reader that has learned all loads so far.
fn told_reader<'e>(
    rt: &impl Abort,
    publisher: &mut Publisher,
    sets: &mut Published,
    entrance: &'e Entrance,
) -> Option<Reading<'e>>
    requires publisher { publisher.old.list ≡ entrance.now.list }
    requires sets { sets.old.list ≡ entrance.now.list }
    ensures publisher { publisher.new ≡ publisher.old }
    ensures sets { sets.new.list ≡ entrance.now.list }
{
    let reader = sets.reader().expect(rt, "a reader");
    let reader = entrance.learn(reader, publisher.tell());
    Some(Reading { entrance, reader })
}

/// Four threads read while this one publishes.
fn read_beside<R: Threads + Wait + Sync>(
    rt: &R,
    readers: &mut [Option<Reading<'_>>],
    publisher: &mut Publisher,
    sides: (&Side, &Side),
) -> (u32, bool) {
    let left = AtomicU32::new(4);
    let reading = &left;
    join(
        rt,
        || read_by_all(rt, readers, reading),
        move || exchange(rt, publisher, sides, reading),
    )
}

/// Publishes a program for data. Returns whether it did, and the news of the loads so far.
fn load_and_tell<R: Wait>(
    rt: &R,
    publisher: &mut Publisher,
    program: &Arc<Accepted>,
) -> (bool, News)
    requires { (arc_value program.now).hook ≡ Data }
    ensures { result.1.list ≡ publisher.old.list }
{
    let done = load(rt, publisher, Hook::Data, program);
    (done, publisher.tell())
}

/// Publishes a program for data in one thread, while another runs the programs of a set.
fn publish_beside<R: Threads + Wait + Sync>(
    rt: &R,
    publisher: &mut Publisher,
    program: &Arc<Accepted>,
    set: &ProgramSet,
) -> ([Option<u64>; 3], bool, News)
    requires { (arc_value program.now).hook ≡ Data }
    ensures { result.2.list ≡ publisher.old.list }
{
    let (answers, (done, news)) = join(
        rt,
        || answers_of(set),
        move || load_and_tell(rt, publisher, program),
    );
    (answers, done, news)
}

#[test]
fn no_set_is_mixed(rt: HostRuntime) {
    let alloc = rt.alloc();
    let one = side_of(&rt, alloc, "mov r1, 1\ncall 5\nmov r0, 0\nexit");
    let two = side_of(&rt, alloc, "mov r1, 2\ncall 5\nmov r0, 0\nexit");
    let (mut publisher, mut sets) = opened(&rt, alloc, &[], 4);
    let began = load_all(&rt, &mut publisher, &one);
    let entrance = sets.entrance();
    let mut readers = [
        told_reader(&rt, &mut publisher, &mut sets, &entrance),
        told_reader(&rt, &mut publisher, &mut sets, &entrance),
        told_reader(&rt, &mut publisher, &mut sets, &entrance),
        told_reader(&rt, &mut publisher, &mut sets, &entrance),
    ];
    let (read, changed) = read_beside(&rt, &mut readers[..], &mut publisher, (&one, &two));
    publisher.close(&rt);
    same(&rt, (began, read, changed), (true, 4, true), "all is right");
}

#[test]
fn a_run_beside_a_publication(rt: HostRuntime) {
    let alloc = rt.alloc();
    let one = accepted(&rt, alloc, "mov r0, 1\nexit", Hook::Data, &[]);
    let zero = accepted(&rt, alloc, "mov r0, 0\nexit", Hook::Data, &[]);
    let (mut publisher, mut sets) = opened(&rt, alloc, &[], 1);
    let reader = sets.reader().expect(&rt, "a reader");
    let began = load(&rt, &mut publisher, Hook::Data, &one);
    let held = enter_after(&rt, &mut publisher, &sets, reader);
    let (answers, changed, news) = publish_beside(&rt, &mut publisher, &zero, held.set());
    let reader = sets.learn(held.leave(), news);
    let (after, _reader) = answers_for(&rt, &sets, reader);
    publisher.close(&rt);
    same(&rt, (began, changed), (true, true), "publications");
    same(&rt, answers, [None, None, Some(1)], "beside the second");
    same(&rt, after, [None, None, Some(0)], "after it");
}
