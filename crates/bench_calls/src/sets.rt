//! How long a reader takes to enter a published set and to leave it: by 1, 2 and 4 threads, alone and while a publisher
//! publishes about 1000 times a second.

ghost use Rattle.std.specs.Prelude.{◌≡◌};

use crate::asked::Asked;
use crate::clock::{now, print_since};
use bpf_regions::{Hook, Shapes};
use std::alloc::Global;
use std::rt::Clock;
use std::sync::Wait;
use std::sync::atomic::AtomicU32;
use std::sync::atomic::Ordering::SeqCst;
use std::thread::{Threads, for_each_mut, join, sleep};
use std::time::Duration;
use versions::new_publisher::published;
use versions::{Entrance, Published, Publisher, Reader};

/// A reader, and the entrance of its set.
#[derive(Drop)]
struct Visitor {
    entrance: Entrance,
    reader: Reader,
    ghost own: { reader.list ≡ entrance.list },
}

/// Enters and leaves `times` times.
fn visit<R: Wait>(rt: &R, visitor: Visitor, times: u64) {
    let Visitor { entrance, reader } = visitor;
    let mut reader = reader;
    for _ in 0..times {
        reader = entrance.enter(rt, reader).leave();
    }
}

/// A visitor, if a reader is left.
fn visitor_of(sets: &mut Published) -> Option<Visitor>
    ensures { sets.new.list ≡ sets.old.list }
{
    let entrance = sets.entrance();
    let reader = sets.reader().ok()?;
    Some(Visitor { entrance, reader })
}

/// As many visitors as there are readers, each in a slot from which its thread takes it.
fn visitors_of(alloc: Global, sets: &mut Published, count: u32) -> Option<Vec<Option<Visitor>>> {
    let mut visitors = Vec::new(alloc);
    for _ in 0..count {
        visitors.push(Some(visitor_of(sets)?)).ok()?;
    }
    Some(visitors)
}

/// Each visitor enters `times` times, in a thread of its own. Then the publisher is told to stop.
fn visit_all<R: Threads + Wait + Sync>(
    rt: &R,
    visitors: &mut [Option<Visitor>],
    times: u64,
    publishing: &AtomicU32,
) {
    for_each_mut(
        rt,
        visitors,
        4,
        &|_place, slot| {
            if let Some(visitor) = slot.take() {
                visit(rt, visitor, times);
            }
        },
    );
    publishing.store(0, SeqCst);
}

/// Publishes the set again, about 1000 times a second, until told to stop. Returns how often.
fn publish_on<R: Wait + Clock>(rt: &R, publisher: &mut Publisher, publishing: &AtomicU32) -> u64 {
    let mut published = 0u64;
    for _ in 0..u32::MAX {
        if publishing.load(SeqCst) == 0 {
            break;
        }
        let is_ok = publisher.publish(rt, Hook::Data, None).is_ok();
        published = published.wrapping_add(u64::from(is_ok));
        sleep(rt, Duration::from_millis(1));
    }
    published
}

/// Prints how long it takes all visitors to enter `times` times each, while `publishing` is 1 with a publisher beside
/// them; the sum is how often that published. None if there are none.
fn report_visits<R: Threads + Wait + Clock + Eprint + Sync>(
    rt: &R,
    publisher: &mut Publisher,
    visitors: Option<Vec<Option<Visitor>>>,
    times: u64,
    publishing: &AtomicU32,
) -> Option<()> {
    let mut visitors = visitors?;
    let start = now(rt);
    let (loads, _) = join(
        rt,
        || publish_on(rt, publisher, publishing),
        || visit_all(rt, visitors.as_mut_slice(), times, publishing),
    );
    print_since(rt, "  an entry", start, times, loads);
    Some(())
}

/// The same for so many threads, at a new set. None if an allocation fails.
fn report<R: Threads + Wait + Clock + Eprint + Sync>(
    rt: &R,
    alloc: Global,
    threads: u32,
    times: u64,
    publishing: &AtomicU32,
) -> Option<()> {
    let _ = eprintln!(rt; "{threads} threads");
    let no_maps = Shapes::new(Vec::new(alloc))?;
    let (mut publisher, mut sets) = published(rt, alloc, no_maps, threads).ok()?;
    let visitors = visitors_of(alloc, &mut sets, threads);
    let measured = report_visits(rt, &mut publisher, visitors, times, publishing);
    publisher.close(rt);
    measured
}

/// Prints the result of each measurement, of as many entries of each thread as the first number says. None if an
/// allocation fails.
pub fn print_times<R: Threads + Wait + Clock + Eprint + Sync>(
    rt: &R,
    alloc: Global,
    asked: Asked<'_>,
) -> Option<()> {
    let times = asked.number(0, 100_000, 1000);
    for publishing in [0, 1] {
        for threads in [1, 2, 4] {
            report(rt, alloc, threads, times, &AtomicU32::new(publishing))?;
        }
    }
    Some(())
}
