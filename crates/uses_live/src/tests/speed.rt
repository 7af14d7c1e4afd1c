//! Measures how many accesses a second threads make; no test depends on it.

ghost use Rattle.std.specs.Prelude.{◌≡◌, ◌<◌, ◌≤◌};
ghost use Rattle.bpf_regions.specs.Maps.{word_count};

use bpf_regions::{MapOp, Scope, Shape, WordWidth};
use shared_maps::{MapSeat, MapTable};
use std::alloc::Global;
use std::process::Abort;
use std::rt::Clock;
use std::thread;
use std::thread::Threads;
use std::time::{Duration, Instant};

const ACCESSES: u32 = 1_000_000;

/// A seat of a table, and the word that it adds to.
#[derive(Drop)]
struct Adder<'t> {
    table: &'t MapTable,
    seat: MapSeat,
    word: u32,
    ghost own: { seat.table ≡ table.now.table },
    ghost inside: { word < word_count table.now.shape },
}

fn add_many(table: &MapTable, word: u32, seat: &mut MapSeat)
    requires own { seat.old.table ≡ table.now.table }
    requires inside { word < word_count table.now.shape }
    ensures own { seat.new.table ≡ table.now.table }
{
    for _ in 0..ACCESSES {
        table.access(seat, word, MapOp::Add(1));
    }
}

/// How many accesses a second these make, each in a thread of its own.
fn rate_of<R: Threads + Clock + Sync + Abort>(rt: &R, adders: &mut [Adder<'_>]) -> u128 {
    let count = adders.len();
    let start = now(rt);
    thread::for_each_mut(
        rt,
        adders,
        4,
        &|_place, adder| add_many(adder.table, adder.word, &mut adder.seat),
    );
    let micros = spent(rt, start).as_micros().max(1);
    count as u128 * u128::from(ACCESSES) * 1_000_000 / micros
}

/// One more seat.
fn seat(rt: &impl Abort, table: &mut MapTable) -> MapSeat
    ensures table { (table.new.table ≡ table.old.table) × (table.new.shape ≡ table.old.shape) }
    ensures own { result.table ≡ table.old.table }
{
    table.seat().expect(rt, "a seat")
}

/// The rates of 1, 2 and 4 threads on words this far apart.
fn rates_on_words<R: Threads + Clock + Sync + Abort>(
    rt: &R,
    alloc: Global,
    apart: u32,
) -> (u128, u128, u128)
    requires near { apart ≤ 64 }
{
    let shape = Shape {
        entries: 256,
        words: 1,
        width: WordWidth::Eight,
        scope: Scope::Shared,
    };
    let mut table = MapTable::new(alloc, shape, 4).expect(rt, "a table");
    let one = seat(rt, &mut table);
    let two = seat(rt, &mut table);
    let three = seat(rt, &mut table);
    let four = seat(rt, &mut table);
    let mut adders = [
        placed(&table, one, 0),
        placed(&table, two, apart),
        placed(&table, three, 2 * apart),
        placed(&table, four, 3 * apart),
    ];
    let by_one = rate_of(rt, &mut adders[..1]);
    let by_two = rate_of(rt, &mut adders[..2]);
    (by_one, by_two, rate_of(rt, &mut adders[..]))
}

fn placed<'t>(table: &'t MapTable, seat: MapSeat, word: u32) -> Adder<'t>
    requires own { seat.table ≡ table.now.table }
    requires inside { word < word_count table.now.shape }
{
    Adder { table, seat, word }
}

fn now<R: Clock + Abort>(rt: &R) -> Instant {
    Instant::now(rt).expect(rt, "a clock")
}

fn spent<R: Clock + Abort>(rt: &R, start: Instant) -> Duration {
    start.elapsed(rt).expect(rt, "a clock")
}

#[test]
fn accesses_in_a_second(rt: HostRuntime) {
    for apart in [0, 64] {
        let (one, two, four) = rates_on_words(&rt, rt.alloc(), apart);
        println!(rt; "words {apart} apart: {one} by 1 thread, {two} by 2, {four} by 4").expect(
            &rt, "output",
        );
    }
}
