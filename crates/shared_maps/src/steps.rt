//! The steps on the words of a table.

ghost use Rattle.std.specs.Prelude.{◌≡◌, ◌+◌, ◌*◌, ◌/◌, ◌^◌, ◌<◌};
ghost use Rattle.bpf_regions.specs.Maps.{bytes_of};
ghost use Rattle.shared_maps.specs.History.{modulus};
ghost use Rattle.shared_maps.specs.Seats.{Extends};
ghost use Rattle.shared_maps.specs.Kept.{known, shift_of, Learned, Confirmed};
ghost use Rattle.shared_maps.specs.Tables.{IsLaid};

use crate::rule::{Asking, Confirms, Learns, Makes, Mapped};
use crate::seen::View;
use atomic_table::{Seat, Table};
use bpf_regions::{MapOp, Shape, WordWidth};
use std::alloc::Global;

/// The words of a map. A word of four bytes holds its number in the upper half; the lower half is 0.
pub type Words = Table<(), View, Shape, Mapped, Global>;

/// The seat reads the history so far.
pub fn learn<J: Asking>(table: &Words, seat: &mut Seat<(), View>)
    requires asked { J.shape ≡ table.now.shared.key }
    requires own { seat.old.table_id ≡ table.now.shared.table_id }
    requires some_words { 0 < table.now.shared.table_id.words }
    ensures own { (seat.new.table_id ≡ seat.old.table_id) × (seat.new.id ≡ seat.old.id) }
    ensures learned { Learned table.now.shared.key seat.old.me seat.new.me }
{
    table.shared.load::<Learns<J>>(seat, 0);
}

/// The seat confirms what it has seen.
pub fn confirm<J: Asking>(table: &Words, seat: &mut Seat<(), View>)
    requires asked { J.shape ≡ table.now.shared.key }
    requires own { seat.old.table_id ≡ table.now.shared.table_id }
    requires some_words { 0 < table.now.shared.table_id.words }
    ensures own { (seat.new.table_id ≡ seat.old.table_id) × (seat.new.id ≡ seat.old.id) }
    ensures confirmed { Confirmed table.now.shared.key seat.old.me seat.new.me }
{
    table.shared.load::<Confirms<J>>(seat, 0);
}

/// One access of the seat: one atomic step, never retried.
pub fn step<J: Asking>(
    table: &Words,
    shape: Shape,
    seat: &mut Seat<(), View>,
    word: usize,
    operation: MapOp,
) -> u64
    requires laid { IsLaid table.now.shared.table_id table.now.shared.key shape }
    requires asked { (J.operation ≡ operation) × (J.shape ≡ shape) }
    requires own { seat.old.table_id ≡ table.now.shared.table_id }
    requires inside { word < table.now.shared.table_id.words }
    requires numbered { 0 < seat.old.me.0.number }
    ensures own { (seat.new.table_id ≡ seat.old.table_id) × (seat.new.id ≡ seat.old.id)
        × (seat.new.me.1 ≡ seat.old.me.1) }
    ensures made { Extends shape (known seat.old.me.0) word operation result (known seat.new.me.0) }
    ensures in_range { result < modulus shape.width }
{
    let shared = &table.shared;
    let shift = shift_of(shape.width);
    let found = match operation {
        MapOp::Load => shared.load::<Makes<J>>(seat, word),
        MapOp::Store(x) => {
            shared.store::<Makes<J>>(seat, word, x << shift);
            return 0;
        }
        MapOp::Swap(x) => shared.swap::<Makes<J>>(seat, word, x << shift),
        MapOp::Add(x) => shared.fetch_add::<Makes<J>>(seat, word, x << shift),
        MapOp::Or(x) => shared.fetch_or::<Makes<J>>(seat, word, x << shift),
        MapOp::And(x) => shared.fetch_and::<Makes<J>>(seat, word, x << shift),
        MapOp::Xor(x) => shared.fetch_xor::<Makes<J>>(seat, word, x << shift),
        MapOp::CompareExchange { expected, new } => {
            shared.compare_exchange::<Makes<J>>(seat, word, expected << shift, new << shift)
        }
    };
    number_in(found, shape.width)
}

/// How many bits a number is shifted left in its word.
fn shift_of(width: WordWidth) -> u32
    ensures is { result ≡ shift_of width }
    ensures whole { 8 * bytes_of width + result ≡ 64 }
{
    match width {
        WordWidth::Four => 32,
        WordWidth::Eight => 0,
    }
}

/// The number that a word holds.
fn number_in(found: u64, width: WordWidth) -> u64
    ensures number { result ≡ found / 2 ^ shift_of width }
    ensures in_range { result < modulus width }
{
    found >> shift_of(width)
}
