//! An operator and two workers with the tables of maps.

ghost use Rattle.std.specs.Prelude.{◌≡◌, ◌<◌};
ghost use Rattle.bpf_regions.specs.declared.maps.Scope.TheVariants as scopes;
ghost use Rattle.bpf_helpers.specs.Hooked.{IsFitting, KeepTables};
ghost use Rattle.ap_tables.specs.Stocks.{AreOperators, Names};

use crate::tests::same::{holds, same};
use ap_tables::{ApTables, OperatorSeats};
use bpf_helpers::{HookPort, WorkerState, WorkerView};
use bpf_regions::{MapOp, Scope, Shape, Shapes, WordWidth};
use bpf_tagged::Port;
use std::alloc::Global;
use std::process::Abort;

/// A map of one word of four bytes.
const fn one_word(scope: Scope) -> Shape {
    Shape {
        entries: 1,
        words: 1,
        width: WordWidth::Four,
        scope,
    }
}

/// Tables of a shared map and of a worker's map, of one word of four bytes each, for two workers.
fn two_maps(rt: &impl Abort, alloc: Global) -> ApTables
    ensures { result.workers ≡ 2 }
{
    let maps = [one_word(Scope::Shared), one_word(Scope::Worker)];
    let maps = Vec::from_array(alloc, maps).expect(rt, "memory");
    let shapes = Shapes::new(maps).expect(rt, "maps within the limits");
    ApTables::new(alloc, &shapes, 2).expect(rt, "memory")
}

/// Stores a number in a word of a shared map, and loads it again.
fn stored(tables: &ApTables, operator: &mut OperatorSeats, value: u64) -> Option<u64>
    requires { AreOperators tables.now.maps operator.old }
    ensures { AreOperators tables.now.maps operator.new }
{
    if !tables.has_word(Scope::Shared, 0, 0) {
        return None;
    }
    tables.store(operator, 0, 0, value);
    Some(tables.read(operator, 0, 0))
}

/// A worker's program stores a number in the word of the worker map.
fn put(tables: &ApTables, worker: usize, state: &mut WorkerState, value: u64)
    requires fitting { IsFitting tables.now.maps worker state.old.seats }
    requires there { Names scopes.Worker tables.now.maps 1 0 }
{
    let view = WorkerView {
        maps: tables.maps(),
        worker,
        clock: 0,
        stations: 0,
    };
    let mut port = HookPort { view, state };
    port.access(1, 0, MapOp::Store(value));
}

/// The sum of the word of the worker map, after both workers stored a number there.
fn summed(
    tables: &ApTables,
    operator: &mut OperatorSeats,
    one: &mut WorkerState,
    other: &mut WorkerState,
) -> Option<u64>
    requires own { AreOperators tables.now.maps operator.old }
    requires one { IsFitting tables.now.maps 0 one.old.seats }
    requires other { IsFitting tables.now.maps 1 other.old.seats }
{
    if !tables.has_word(Scope::Worker, 1, 0) {
        return None;
    }
    put(tables, 0, one, 0xffff_ffff);
    put(tables, 1, other, 2);
    Some(tables.sum(operator, 1, 0))
}

/// The state of a worker of the tables.
fn worker(rt: &impl Abort, alloc: Global, tables: &mut ApTables, number: usize) -> WorkerState
    requires there { number < tables.old.workers }
    ensures tables { KeepTables tables.old.maps tables.new.maps }
    ensures workers { tables.new.workers ≡ tables.old.workers }
    ensures fitting { IsFitting tables.new.maps number result.seats }
{
    tables.worker(alloc, number, 0).expect(rt, "a worker")
}

#[test]
fn a_sum_is_taken_in_the_width_of_the_words(rt: HostRuntime) {
    let mut tables = two_maps(&rt, rt.alloc());
    let mut one = worker(&rt, rt.alloc(), &mut tables, 0);
    let mut other = worker(&rt, rt.alloc(), &mut tables, 1);
    let mut operator = tables.operator(rt.alloc()).expect(&rt, "an operator");
    let sum = summed(&tables, &mut operator, &mut one, &mut other);
    same(&rt, sum, Some(1), "the sum");
}

#[test]
fn an_operator_reads_what_it_stored(rt: HostRuntime) {
    let mut tables = two_maps(&rt, rt.alloc());
    let mut operator = tables.operator(rt.alloc()).expect(&rt, "an operator");
    let read = stored(&tables, &mut operator, 9);
    same(&rt, read, Some(9), "what it stored");
    holds(&rt, !tables.has_word(Scope::Shared, 0, 1), "one word");
    holds(&rt, !tables.has_word(Scope::Shared, 1, 0), "another scope");
    holds(&rt, !tables.has_word(Scope::Worker, 2, 0), "two maps");
}
