//! A table of map words, and its seats.

ghost use Rattle.std.specs.Prelude.{◌≡◌, ◌+◌, ◌<◌, ◌≤◌, ◌⊎◌, IfOk, IfErr, MatchResult, Err};
ghost use Rattle.bpf_regions.specs.Maps.{word_count, IsShape};
ghost use Rattle.shared_maps.specs.declared.fault.MapFault.TheVariants.{NoMemory, NoSeat};
ghost use Rattle.shared_maps.specs.Faults.{AreSeats};
ghost use Rattle.shared_maps.specs.History.{IsAnswer};
ghost use Rattle.shared_maps.specs.Seats.{Extends, Meets, newcomer};
ghost use Rattle.shared_maps.specs.Kept.{known};
ghost use Rattle.shared_maps.specs.Tables.{Map, Place, IsLaid, IsNumbering, IsNumbered};

use crate::fault::MapFault;
use crate::rule::{Follows, Hears, Numbers, Tells};
use crate::seen::View;
use crate::steps::{Words, confirm, learn, step};
use atomic_table::{Perch, Seat, Table};
use bpf_regions::{MapOp, Shape};
use std::alloc::Global;
use std::marker::{Brand, Model};

/// The words of one map, all 0 at first. Threads share it by reference.
#[derive(Drop)]
pub struct MapTable {
    table: Words,
    shape: Shape,
    seats: u32,
    given: u32,
    // The seat that numbers the others is kept here: threads share the table, but can't share a seat.
    root: Perch<(), View>,
}

impl Model for MapTable {
    ghost Value = { Map };

    ghost view = { λ t. record {
      table = t.table.shared.table_id;
      shape = t.shape;
      seats = t.seats;
      given = t.given;
    } };

    ghost invariant = { λ t. IsLaid t.table.shared.table_id t.table.shared.key t.shape
        × IsNumbering t.table.shared.table_id t.root t.given × (t.given ≤ t.seats) };
}

/// One user's handle on a table: what it has seen of the table's history, and its own accesses. It may move to another
/// thread.
#[derive(Drop)]
pub struct MapSeat {
    // Gives the struct a size: an element of zero bytes can't be borrowed from a slice.
    number: u32,
    seat: Seat<(), View>,
}

impl Model for MapSeat {
    ghost Value = { Place };

    ghost view = { λ s. record { table = s.seat.table_id; known = known s.seat.me.0 } };

    ghost invariant = { λ s. IsNumbered s.seat.me s.number };
}

impl MapSeat {
    /// The seat's number, at least 1; `MapTable::seat` numbers seats in order.
    pub fn number(&self) -> u32
        ensures is { result ≡ self.now.known.number }
        ensures some_number { 0 < result }
    {
        self.number
    }
}

impl MapTable {
    /// A table of zeros for `seats` seats. Fault 62 unless they are 1 to 16; otherwise the only fault is 40, lack of
    /// memory.
    pub fn new(alloc: Global, shape: Shape, seats: u32) -> Result<MapTable, MapFault>
        requires valid { IsShape shape }
        ensures shape { IfOk result (λ table. table.shape ≡ shape) }
        ensures seats { IfOk result (λ table. (table.seats ≡ seats) × (table.given ≡ 0)) }
        ensures in_limits { IfOk result (λ _. AreSeats seats) }
        ensures memory { AreSeats seats → IfErr result (λ fault. fault ≡ NoMemory) }
        ensures no_seat { (seats ≡ 0) ⊎ (16 < seats) → result ≡ Err NoSeat }
    {
        if seats == 0 || seats > 16 {
            return Err(MapFault::NoSeat);
        }
        let zeros = vec![in alloc; 0; shape.word_count() as usize]?;
        let (table, seat) = Table::of_words(alloc, zeros.as_slice(), &shape)?;
        let root = Perch::new(&seat, 0);
        let _ = root.give(seat, 0, 2);
        Ok(MapTable {
            table,
            shape,
            seats,
            given: 0,
            root,
        })
    }

    pub fn shape(&self) -> Shape
        ensures is { result ≡ self.now.shape }
        ensures valid { IsShape result }
    {
        self.shape
    }

    /// The next seat. Fault 62, the only one, comes once all are handed out.
    /// No contract promises that a remaining seat is given: only tests show it.
    pub fn seat(&mut self) -> Result<MapSeat, MapFault>
        ensures same { (self.new.table ≡ self.old.table) × (self.new.shape ≡ self.old.shape)
            × (self.new.seats ≡ self.old.seats) }
        ensures given { MatchResult result (λ seat. self.new.given ≡ self.old.given + 1)
            (λ _. self.new.given ≡ self.old.given) }
        ensures few { self.new.given ≤ self.new.seats }

        ensures own { IfOk result (λ seat. seat.table ≡ self.old.table) }
        ensures newcomer { IfOk result (λ seat. seat.known ≡ newcomer self.new.given) }
        ensures no_seat { IfErr result (λ fault. fault ≡ NoSeat) }
        ensures spent { self.old.given ≡ self.old.seats → result ≡ Err NoSeat }
    {
        if self.given == self.seats {
            return Err(MapFault::NoSeat);
        }
        let (_, found) = self.root.take(0);
        let Some(mut root) = found else {
            return Err(MapFault::NoSeat);
        };
        let seat = self.table.shared.split_seat::<Numbers>(&mut root);
        let perch = Perch::new(&root, 0);
        let _ = perch.give(root, 0, 2);
        self.root = perch;
        self.given += 1;
        let number = self.given;
        Ok(MapSeat { number, seat })
    }

    /// One access to a word of the table by one of its seats: one atomic step, never retried.
    /// A store returns 0, every other access the old number. Numbers count mod 2^(8 * width).
    pub fn access(&self, seat: &mut MapSeat, word: u32, operation: MapOp) -> u64
        requires own { seat.old.table ≡ self.now.table }
        requires inside { word < word_count self.now.shape }
        ensures table { seat.new.table ≡ seat.old.table }
        ensures made { Extends self.now.shape seat.old.known word operation result seat.new.known }
        ensures in_range { IsAnswer self.now.shape.width operation result }
    {
        let at = word as usize;
        step::<Brand>(&self.table, self.shape, &mut seat.seat, at, operation)
    }

    /// Afterwards both seats have seen the same history, which extends what each had seen.
    /// So either reads what the other stored, if no one else stores.
    pub fn meet(&self, one: &mut MapSeat, other: &mut MapSeat)
        requires own { (one.old.table ≡ self.now.table) × (other.old.table ≡ self.now.table) }
        ensures tables { (one.new.table ≡ one.old.table) × (other.new.table ≡ other.old.table) }
        ensures met { Meets self.now.shape one.old.known other.old.known
            one.new.known other.new.known }
    {
        let shared = &self.table.shared;
        let told = shared.split_seat::<Tells>(&mut other.seat);
        shared.join_seat::<Hears>(&mut one.seat, told);
        learn::<Brand>(&self.table, &mut one.seat);
        let told = shared.split_seat::<Tells>(&mut one.seat);
        shared.join_seat::<Follows>(&mut other.seat, told);
        confirm::<Brand>(&self.table, &mut other.seat);
    }
}
