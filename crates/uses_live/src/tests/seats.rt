//! What two seats return, in one thread and in two.

ghost use Rattle.std.specs.Prelude.{◌≡◌, ◌<◌};
ghost use Rattle.bpf_regions.specs.Maps.{word_count, IsShape};

use crate::tests::same::{holds, same};
use bpf_regions::{MapOp, Scope, Shape, WordWidth};
use shared_maps::{MapFault, MapSeat, MapTable};
use std::alloc::{AllocError, Global};
use std::process::Abort;
use std::thread::{Threads, join};

fn two_words(width: WordWidth) -> Shape
    ensures valid { IsShape result }
    ensures words { word_count result ≡ 2 }
{
    Shape {
        entries: 1,
        words: 2,
        width,
        scope: Scope::Shared,
    }
}

/// A table of two words, with its two seats.
fn table_of(rt: &impl Abort, alloc: Global, width: WordWidth) -> (MapTable, MapSeat, MapSeat)
    ensures words { word_count result.0.shape ≡ 2 }
    ensures seats { (result.1.table ≡ result.0.table) × (result.2.table ≡ result.0.table) }
{
    let mut table = MapTable::new(alloc, two_words(width), 2).expect(rt, "a table");
    let one = table.seat().expect(rt, "a first seat");
    let other = table.seat().expect(rt, "a second seat");
    (table, one, other)
}

/// The answers of a thousand accesses that add 1.
fn add_a_thousand(rt: &impl Abort, alloc: Global, table: &MapTable, mut seat: MapSeat) -> Vec<u64>
    requires own { seat.table ≡ table.now.table }
    requires words { 0 < word_count table.now.shape }
{
    let mut answers = Vec::new(alloc);
    for _ in 0..1000 {
        let answer = table.access(&mut seat, 0, MapOp::Add(1));
        answers.push(answer).expect(rt, "memory");
    }
    answers
}

/// The same in two threads; all answers in ascending order.
fn add_in_two_threads<R: Threads + Sync + Abort>(
    rt: &R,
    alloc: Global,
    table: &MapTable,
    one: MapSeat,
    other: MapSeat,
) -> Vec<u64>
    requires own { (one.table ≡ table.now.table) × (other.table ≡ table.now.table) }
    requires words { 0 < word_count table.now.shape }
{
    let (mut answers, others) = join(
        rt,
        || add_a_thousand(rt, alloc, table, one),
        || add_a_thousand(rt, alloc, table, other),
    );
    answers.extend_from_slice(&others).expect(rt, "memory");
    answers.sort_unstable();
    answers
}

/// What a third seat loads after a thousand adds in each of two threads, whose answers are all there once.
fn loaded_after_two_threads<R: Threads + Sync + Abort>(
    rt: &R,
    alloc: Global,
    width: WordWidth,
) -> u64 {
    let mut table = MapTable::new(alloc, two_words(width), 3).expect(rt, "a table");
    let one = table.seat().expect(rt, "a first seat");
    let other = table.seat().expect(rt, "a second seat");
    let mut third = table.seat().expect(rt, "a third seat");
    let answers = add_in_two_threads(rt, alloc, &table, one, other);
    same(rt, answers.len(), 2000, "answers");
    holds(rt, answers.iter().copied().eq(0..2000), "each answer");
    table.access(&mut third, 0, MapOp::Load)
}

#[test]
fn adds_of_two_threads_are_each_there_once(rt: HostRuntime) {
    for width in [WordWidth::Four, WordWidth::Eight] {
        let loaded = loaded_after_two_threads(&rt, rt.alloc(), width);
        same(&rt, loaded, 2000, "the sum");
    }
}

/// What a store of 9 in word 0 returns, and what the seat then loads.
fn stored_and_loaded(rt: &impl Abort, alloc: Global) -> (u64, u64) {
    let (table, mut seat, _other) = table_of(rt, alloc, WordWidth::Eight);
    same(rt, seat.number(), 1, "the number of a first seat");
    let stored = table.access(&mut seat, 0, MapOp::Store(9));
    (stored, table.access(&mut seat, 0, MapOp::Load))
}

/// What storing the greatest short number in word 0 and adding 1 return, and then both words; the second was 7.
fn carried(rt: &impl Abort, alloc: Global) -> (u64, u64, u64, u64) {
    let (table, mut one, _other) = table_of(rt, alloc, WordWidth::Four);
    table.access(&mut one, 1, MapOp::Store(7));
    let stored = table.access(&mut one, 0, MapOp::Store(0xffff_ffff));
    let added = table.access(&mut one, 0, MapOp::Add(1));
    let first = table.access(&mut one, 0, MapOp::Load);
    (stored, added, first, table.access(&mut one, 1, MapOp::Load))
}

/// What the second seat loads from a word after meeting the first, which stored 12 there.
fn met(rt: &impl Abort, alloc: Global) -> u64 {
    let (table, mut one, mut other) = table_of(rt, alloc, WordWidth::Eight);
    table.access(&mut one, 1, MapOp::Store(12));
    table.meet(&mut one, &mut other);
    table.access(&mut other, 1, MapOp::Load)
}

#[test]
fn seats_read_what_is_stored(rt: HostRuntime) {
    let alloc = rt.alloc();
    same(&rt, stored_and_loaded(&rt, alloc), (0, 9), "a store");
    // a short number doesn't carry out of its word
    let wanted = (0, 4294967295, 0, 7);
    same(&rt, carried(&rt, alloc), wanted, "a sum that wraps");
    same(&rt, met(&rt, alloc), 12, "a store of another seat");
}

/// Consecutive operations on a word that is 0 at first, and what each returns in a word of eight bytes. A shorter word
/// returns the low bits.
const OPERATIONS: &[(MapOp, u64)] = &[
    (MapOp::Load, 0),
    (MapOp::Store(u64::MAX), 0),
    (MapOp::Add(2), u64::MAX),
    (MapOp::Or(6), 1),
    (MapOp::And(3), 7),
    (MapOp::Xor(6), 3),
    (MapOp::Swap(9), 5),
    (
        MapOp::CompareExchange {
            expected: 9,
            new: 1,
        },
        9,
    ),
    (
        MapOp::CompareExchange {
            expected: 9,
            new: 2,
        },
        1,
    ),
    (MapOp::Load, 1),
];

/// Does each operation in word 1, whose numbers have these `bits`; word 0 is unchanged.
fn operate(rt: &impl Abort, alloc: Global, width: WordWidth, bits: u64) {
    let (table, mut seat, _other) = table_of(rt, alloc, width);
    for (operation, answer) in OPERATIONS {
        let found = table.access(&mut seat, 1, *operation);
        same(
            rt,
            (*operation, found),
            (*operation, answer & bits),
            "word 1",
        );
    }
    same(rt, table.access(&mut seat, 0, MapOp::Load), 0, "word 0");
}

#[test]
fn each_operation_at_each_width(rt: HostRuntime) {
    operate(&rt, rt.alloc(), WordWidth::Four, 0xffff_ffff);
    operate(&rt, rt.alloc(), WordWidth::Eight, u64::MAX);
}

const LARGEST: Shape = Shape {
    entries: 4096,
    words: 8,
    width: WordWidth::Four,
    scope: Scope::Worker,
};

/// What a swap with 3 returns in the last word of the largest map, and then that word and the one before it.
fn swapped_last(rt: &impl Abort, alloc: Global) -> (u64, u64, u64) {
    let mut table = MapTable::new(alloc, LARGEST, 1).expect(rt, "a table");
    holds(rt, table.shape() == LARGEST, "the shape");
    let mut seat = table.seat().expect(rt, "a seat");
    let swapped = table.access(&mut seat, 32767, MapOp::Swap(3));
    let last = table.access(&mut seat, 32767, MapOp::Load);
    (swapped, last, table.access(&mut seat, 32766, MapOp::Load))
}

#[test]
fn the_last_word_of_the_largest_map(rt: HostRuntime) {
    same(&rt, swapped_last(&rt, rt.alloc()), (0, 3, 0), "last words");
}

/// The number of a fault, 0 if there is none.
fn refused<T: Drop>(answer: Result<T, MapFault>) -> u8 {
    match answer {
        Ok(_) => 0,
        Err(fault) => fault.number(),
    }
}

/// A table gives `seats` seats, numbered in order, and none after them.
fn gives(rt: &impl Abort, alloc: Global, seats: u32) {
    let shape = two_words(WordWidth::Eight);
    let mut table = MapTable::new(alloc, shape, seats).expect(rt, "a table");
    for number in 1..=seats {
        let seat = table.seat().expect(rt, "a seat");
        same(rt, seat.number(), number, "the number of a seat");
    }
    for more in 1..3 {
        same(
            rt,
            (seats, more, refused(table.seat())),
            (seats, more, 62),
            "more seats",
        );
    }
}

#[test]
fn seats_are_limited(rt: HostRuntime) {
    for seats in [0, 17, u32::MAX] {
        let shape = two_words(WordWidth::Eight);
        let number = refused(MapTable::new(rt.alloc(), shape, seats));
        same(
            &rt,
            (seats, number),
            (seats, 62),
            "a table of so many seats",
        );
    }
    for seats in [1, 2, 16] {
        gives(&rt, rt.alloc(), seats);
    }
}

/// A fault prints this text.
fn is_told(rt: &impl Abort, alloc: Global, fault: MapFault, text: &str) {
    let told = fault.to_string(alloc).expect(rt, "memory");
    same(rt, told.as_str(), text, "text");
}

#[test]
fn faults_have_numbers_and_texts(rt: HostRuntime) {
    let alloc = rt.alloc();
    let no_memory = MapFault::from(AllocError);
    same(&rt, no_memory.number(), 40, "the number for no memory");
    is_told(&rt, alloc, no_memory, "no memory for a table of map words");
    is_told(
        &rt,
        alloc,
        MapFault::NoSeat,
        "no seat at the table of map words",
    );
}
