ghost use Rattle.std.specs.Prelude.{◌≡◌, ◌<◌, ◌≤◌, ℕ, [], ◌∷◌, length, slice_get};
ghost use Rattle.bpf_regions.specs.Maps.{word_count, IsShape};
ghost use Rattle.bpf_regions.specs.declared.maps.Scope.TheVariants.{Worker};
ghost use Rattle.bpf_model.specs.Run.{words_in};
ghost use Rattle.bpf_helpers.specs.Sums.{AreSeated};
ghost use Rattle.bpf_helpers.specs.Hooked.{HaveTables, IsFitting, KeepTables, shapes_of};

use crate::tests::interrupted::Interrupted;
use crate::tests::same::same;
use bpf_decode::decode;
use bpf_helpers::{HookPort, MapTables, WorkerState, WorkerView, run_hook};
use bpf_machine::{Accepted, run};
use bpf_regions::{Context, Frame, Hook, MapOp, Scope, Shape, Shapes, WordWidth};
use bpf_text::assemble;
use bpf_verifier::verify;
use shared_maps::{MapFault, MapSeat};
use std::alloc::Global;
use std::process::Abort;

fn shape_of(words: u32, width: WordWidth, scope: Scope) -> Shape
    requires some { 0 < words }
    requires few { words ≤ 8 }
    ensures valid { IsShape result }
    ensures words { word_count result ≡ words }
    ensures width { result.width ≡ width }
    ensures scope { result.scope ≡ scope }
{
    Shape {
        entries: 1,
        words,
        width,
        scope,
    }
}

/// One map, with tables of three seats for two workers.
fn one_map(rt: &impl Abort, alloc: Global, shape: Shape) -> [MapTables; 1]
    requires valid { IsShape shape }
    ensures tables { (worker : ℕ) → worker < 2 → HaveTables result worker }
    ensures shapes { shapes_of result ≡ shape ∷ [] }
{
    [MapTables::new(alloc, shape, 2, 3).expect(rt, "tables")]
}

/// The accepted program of this text, over one map of this shape.
fn admitted(rt: &impl Abort, alloc: Global, text: &str, shape: Shape) -> Accepted
    ensures shapes { result.code.shapes ≡ shape ∷ [] }
{
    let code = assemble(alloc, text).expect(rt, text);
    let shapes = Vec::from_array(alloc, [shape]).expect(rt, "memory");
    let shapes = Shapes::new(shapes).expect(rt, "a map within the limits");
    let program = decode(alloc, &code, shapes).expect(rt, text);
    verify(alloc, program, Hook::Data).expect(rt, text)
}

/// What a worker reads.
fn view_of(maps: &[MapTables], worker: usize) -> WorkerView<'_>
    ensures maps { result.maps.now ≡ maps.now }
    ensures worker { result.worker ≡ worker }
{
    WorkerView {
        maps,
        worker,
        clock: 77,
        stations: 2007,
    }
}

/// Two workers with one map.
#[derive(Drop)]
struct Two {
    maps: [MapTables; 1],
    one: WorkerState,
    other: WorkerState,
    ghost one_fits: { IsFitting maps 0 one.seats },
    ghost other_fits: { IsFitting maps 1 other.seats },
}

/// The state of a worker whose draws start from this word.
fn seated(
    rt: &impl Abort,
    alloc: Global,
    maps: &mut [MapTables],
    worker: usize,
    draw: u64,
) -> WorkerState
    requires there { HaveTables maps.old worker }
    ensures fitting { IsFitting maps.new worker result.seats }
    ensures tables { KeepTables maps.old maps.new }
{
    WorkerState::seated(alloc, maps, worker, draw).expect(rt, "seats")
}

/// Two workers with one map, whose draws start from these words.
fn two_workers(rt: &impl Abort, alloc: Global, shape: Shape, draws: (u64, u64)) -> Two
    requires valid { IsShape shape }
    ensures shapes { shapes_of result.maps ≡ shape ∷ [] }
{
    let mut maps = one_map(rt, alloc, shape);
    let one = seated(rt, alloc, &mut maps, 0, draws.0);
    let other = seated(rt, alloc, &mut maps, 1, draws.1);
    Two { maps, one, other }
}

impl Two {
    /// The R0 of a program that worker 0 runs on an empty frame.
    fn by_one(&mut self, rt: &impl Abort, alloc: Global, shape: Shape, text: &str) -> u64
        requires { shapes_of self.old.maps ≡ shape ∷ [] }
        ensures { shapes_of self.new.maps ≡ shape ∷ [] }
    {
        let accepted = admitted(rt, alloc, text, shape);
        let frame = Frame::new(&[]).expect(rt, "an empty frame");
        let context = Context::new([0; 32]);
        let view = view_of(&self.maps, 0);
        run_hook(&accepted, &frame, &context, view, &mut self.one).r0
    }

    /// The R0 of a program that worker 1 runs on an empty frame.
    fn by_other(&mut self, rt: &impl Abort, alloc: Global, shape: Shape, text: &str) -> u64
        requires { shapes_of self.old.maps ≡ shape ∷ [] }
        ensures { shapes_of self.new.maps ≡ shape ∷ [] }
    {
        let accepted = admitted(rt, alloc, text, shape);
        let frame = Frame::new(&[]).expect(rt, "an empty frame");
        let context = Context::new([0; 32]);
        let view = view_of(&self.maps, 1);
        run_hook(&accepted, &frame, &context, view, &mut self.other).r0
    }
}

const DRAW: &str = "call 4\nexit";

#[test]
fn helpers_tell_of_the_shard_and_draw(rt: HostRuntime) {
    let alloc = rt.alloc();
    let shape = shape_of(1, WordWidth::Eight, Scope::Shared);
    let mut two = two_workers(&rt, alloc, shape, (0, 1));
    let third = two.by_one(&rt, alloc, shape, "call 4\ncall 4\ncall 4\nexit");
    same(&rt, third, 1876011003808476466, "a third draw");
    let clock = two.by_one(&rt, alloc, shape, "call 2\nexit");
    same(&rt, clock, 77, "the clock");
    let first = two.by_other(&rt, alloc, shape, DRAW);
    let second = two.by_other(&rt, alloc, shape, DRAW);
    same(
        &rt,
        (first, second),
        (1, 7806831264735756412),
        "draws of the other",
    );
    let stations = two.by_other(&rt, alloc, shape, "call 3\nexit");
    same(&rt, stations, 2007, "stations");
    let fourth = two.by_one(&rt, alloc, shape, DRAW);
    same(&rt, fourth, 11166244414315200793, "a fourth draw");
}

/// Adds 1 to word 0 of map 0.
const COUNT: &str = "lddw r1, value 0 0\nmov r2, 1\natomic_add [r1+0], r2\nmov r0, 0\nexit";

const LOAD: &str = "lddw r1, value 0 0\nldxdw r0, [r1+0]\nexit";

/// Two workers: worker 0 has counted three times, worker 1 twice.
fn counted(rt: &impl Abort, alloc: Global, shape: Shape) -> Two
    requires valid { IsShape shape }
    ensures shapes { shapes_of result.maps ≡ shape ∷ [] }
{
    let mut two = two_workers(rt, alloc, shape, (0, 0));
    two.by_one(rt, alloc, shape, COUNT);
    two.by_other(rt, alloc, shape, COUNT);
    two.by_one(rt, alloc, shape, COUNT);
    two.by_other(rt, alloc, shape, COUNT);
    two.by_one(rt, alloc, shape, COUNT);
    two
}

/// The sum of word 0 over the tables of one map of this shape.
fn sum_of(rt: &impl Abort, alloc: Global, maps: [MapTables; 1], shape: Shape) -> u64
    requires shapes { shapes_of maps ≡ shape ∷ [] }
    requires words { 0 < word_count shape }
{
    let mut maps = maps;
    let mut seats = maps[0].seat_each(alloc).expect(rt, "seats");
    maps[0].sum(&mut seats, 0)
}

/// What each of the two then loads, and the sum of the word over the tables.
fn counts(rt: &impl Abort, alloc: Global, scope: Scope) -> (u64, u64, u64) {
    let shape = shape_of(1, WordWidth::Eight, scope);
    let mut two = counted(rt, alloc, shape);
    let one = two.by_one(rt, alloc, shape, LOAD);
    let other = two.by_other(rt, alloc, shape, LOAD);
    let Two {
        maps,
        one: _one,
        other: _other,
    } = two;
    (one, other, sum_of(rt, alloc, maps, shape))
}

#[test]
fn each_worker_counts_in_its_own_table(rt: HostRuntime) {
    let own = counts(&rt, rt.alloc(), Scope::Worker);
    same(&rt, own, (3, 2, 5), "a table for each");
    let shared = counts(&rt, rt.alloc(), Scope::Shared);
    same(&rt, shared, (5, 5, 5), "one table");
}

/// Stores 7 in word 0 and 55 in word 7.
const FILL: &str =
    "lddw r1, value 0 0\nmov r2, 7\nstxdw [r1+0], r2\nmov r2, 55\nstxdw [r1+56], r2\nmov r0, 0\nexit";

/// The R0 of a program, if another worker stores 9 in word 0 right after the program's first load.
fn interrupted_run(rt: &impl Abort, accepted: &Accepted, two: Two) -> u64
    requires shapes { shapes_of two.maps ≡ accepted.now.code.shapes }
    requires words { 0 < words_in (slice_get (shapes_of two.maps) 0) }
{
    let Two {
        maps,
        mut one,
        mut other,
    } = two;
    let port = HookPort {
        view: view_of(&maps, 0),
        state: &mut one,
    };
    let other = HookPort {
        view: view_of(&maps, 1),
        state: &mut other,
    };
    let mut port = Interrupted {
        port,
        other,
        number: Some(9),
    };
    let frame = Frame::new(&[]).expect(rt, "an empty frame");
    run(accepted, &frame, &Context::new([0; 32]), &mut port).r0
}

/// The same, over a map whose word 0 is 7 and whose word 7 is 55.
fn interrupted(rt: &impl Abort, alloc: Global, text: &str) -> u64 {
    let shape = shape_of(8, WordWidth::Eight, Scope::Shared);
    let mut two = two_workers(rt, alloc, shape, (0, 0));
    two.by_other(rt, alloc, shape, FILL);
    let accepted = admitted(rt, alloc, text, shape);
    interrupted_run(rt, &accepted, two)
}

/// Loads word 0, and then the word with that index.
const INDEXED: &str = "lddw r6, value 0 0
ldxdw r2, [r6+0]
jlt r2, 8, +2
mov r0, 0
exit
lsh r2, 3
add r6, r2
ldxdw r0, [r6+0]
exit";

/// Loads word 0 twice.
const TWICE: &str = "lddw r6, value 0 0\nldxdw r2, [r6+0]\nldxdw r0, [r6+0]\nexit";

#[test]
fn a_store_between_two_loads_is_seen(rt: HostRuntime) {
    same(&rt, interrupted(&rt, rt.alloc(), INDEXED), 55, "the word");
    same(&rt, interrupted(&rt, rt.alloc(), TWICE), 9, "the store");
}

/// Stores a number in word 1 of a worker's table.
fn store(map: &MapTables, seats: &mut [MapSeat], worker: usize, number: u64)
    requires seated { AreSeated map.now.tables seats.old }
    requires there { (map.now.shape.scope ≡ Worker) × (worker < length map.now.tables) }
    requires words { word_count map.now.shape ≡ 2 }
    ensures seated { AreSeated map.now.tables seats.new }
{
    let table = map.table(worker);
    table.access(&mut seats[worker], 1, MapOp::Store(number));
}

/// A map with a table of two words for each of two workers, and a seat at each table.
fn worker_map(rt: &impl Abort, alloc: Global, width: WordWidth) -> (MapTables, Vec<MapSeat>)
    ensures seated { AreSeated result.0.tables result.1.items }
    ensures two { (result.0.shape.scope ≡ Worker) × (length result.0.tables ≡ 2) }
    ensures words { word_count result.0.shape ≡ 2 }
{
    let shape = shape_of(2, width, Scope::Worker);
    let mut map = MapTables::new(alloc, shape, 2, 1).expect(rt, "tables");
    let seats = map.seat_each(alloc).expect(rt, "seats");
    (map, seats)
}

/// The sums of both words, after one worker stores `first` and the other `second` in the second word.
fn sums_of(map: &MapTables, seats: &mut [MapSeat], first: u64, second: u64) -> (u64, u64)
    requires seated { AreSeated map.now.tables seats.old }
    requires two { (map.now.shape.scope ≡ Worker) × (length map.now.tables ≡ 2) }
    requires words { word_count map.now.shape ≡ 2 }
{
    store(map, seats, 0, first);
    store(map, seats, 1, second);
    (map.sum(seats, 0), map.sum(seats, 1))
}

/// A width, what the two workers store, and the sum.
const SUMS: &[(WordWidth, u64, u64, u64)] = &[
    (WordWidth::Four, 0xffff_ffff, 2, 1),
    (WordWidth::Four, 3, 4, 7),
    (WordWidth::Eight, 0xffff_ffff, 2, 0x1_0000_0001),
    (WordWidth::Eight, u64::MAX, 2, 1),
];

#[test]
fn sums_are_taken_in_the_width_of_the_words(rt: HostRuntime) {
    for (width, first, second, total) in SUMS {
        let (map, mut seats) = worker_map(&rt, rt.alloc(), *width);
        let sums = sums_of(&map, &mut seats, *first, *second);
        same(&rt, sums, (0, *total), "the sums");
    }
}

/// The number of a fault, 0 if there is none.
fn refused<T: Drop>(answer: Result<T, MapFault>) -> u8 {
    match answer {
        Ok(_) => 0,
        Err(fault) => fault.number(),
    }
}

#[test]
fn seats_are_limited(rt: HostRuntime) {
    let alloc = rt.alloc();
    let shape = shape_of(1, WordWidth::Four, Scope::Worker);
    for seats in [0, 17] {
        let number = refused(MapTables::new(alloc, shape, 3, seats));
        same(
            &rt,
            (seats, number),
            (seats, 62),
            "too few or too many seats",
        );
    }
    let mut map = MapTables::new(alloc, shape, 3, 1).expect(&rt, "tables");
    let seats = map.seat_each(alloc).expect(&rt, "a seat at each table");
    same(&rt, seats.len(), 3, "seats");
    same(&rt, refused(map.seat(2)), 62, "a second seat");
}
