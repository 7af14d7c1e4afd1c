//! Shared tables.

ghost use Rattle.std.specs.Prelude.{◌≡◌};
ghost use Rattle.bpf_regions.specs.Maps.{word_count};

use crate::live::{Live, load_both};
use crate::tests::same::same;
use bpf_regions::{MapOp, Scope, Shape, WordWidth};
use shared_maps::{MapSeat, MapTable};
use std::alloc::Global;
use std::process::Abort;

/// A table of two words, of which the second holds `number`, with its two seats.
fn table_of(
    rt: &impl Abort,
    alloc: Global,
    width: WordWidth,
    number: u64,
) -> (MapTable, MapSeat, MapSeat)
    ensures shape { (result.0.shape.width ≡ width) × (word_count result.0.shape ≡ 2) }
    ensures seats { (result.1.table ≡ result.0.table) × (result.2.table ≡ result.0.table) }
{
    let shape = Shape {
        entries: 2,
        words: 1,
        width,
        scope: Scope::Worker,
    };
    let mut table = MapTable::new(alloc, shape, 2).expect(rt, "a table");
    let mut one = table.seat().expect(rt, "a first seat");
    let other = table.seat().expect(rt, "a second seat");
    table.access(&mut one, 1, MapOp::Store(number));
    (table, one, other)
}

#[test]
fn threads_share_the_tables(rt: HostRuntime) {
    let (table, one, other) = table_of(&rt, rt.alloc(), WordWidth::Eight, 12);
    let live = Live {
        maps: vec![in rt.alloc(); table].expect(&rt, "memory"),
    };
    let ((a, _), (b, _)) = load_both(&rt, &live, 0, 1, one, other);
    same(&rt, (a, b), (12, 12), "what is loaded");
}
