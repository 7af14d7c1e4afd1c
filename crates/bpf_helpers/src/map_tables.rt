//! The tables of one map.

ghost use Rattle.std.specs.Prelude.{◌≡◌, ◌<◌, ◌%◌, ◌⊎◌, ℕ, List, length, sum, Some, Err, IfOk, IfErr};
ghost use Rattle.std.specs.List.{All};
ghost use Rattle.bpf_regions.specs.Maps.{word_count, IsShape};
ghost use Rattle.shared_maps.specs.declared.fault.MapFault.TheVariants.{NoMemory, NoSeat};
ghost use Rattle.shared_maps.specs.Faults.{AreSeats};
ghost use Rattle.shared_maps.specs.History.{modulus};
ghost use Rattle.bpf_helpers.specs.Tables.{Tables, table_count, place_of, table_of, IsNew, AreSameTables, KeepsTables, GaveSeat};
ghost use Rattle.bpf_helpers.specs.Sums.{AreSeated, Loads};

use crate::sums::sum_of_word;
use bpf_regions::{Scope, Shape};
use shared_maps::{MapFault, MapSeat, MapTable};
use std::alloc::{AllocError, Global};
use std::marker::Model;

/// The tables of one map: one that all workers share, or one for each worker, by the map's scope.
/// Threads share it by reference.
#[derive(Drop)]
pub struct MapTables {
    shape: Shape,
    tables: Vec<MapTable>,
}

impl Model for MapTables {
    ghost use Rattle.bpf_helpers.specs.Tables.{Tables, AreTables};

    ghost Value = { Tables };

    ghost view = { λ m. record { shape = m.shape; tables = m.tables.items } };

    ghost invariant = { λ m. AreTables (record { shape = m.shape; tables = m.tables.items }) };
}

fn table_count(scope: Scope, workers: usize) -> usize
    ensures is { result ≡ table_count scope workers }
{
    match scope {
        Scope::Shared => 1,
        Scope::Worker => workers,
    }
}

fn place_of(scope: Scope, worker: usize) -> usize
    ensures is { result ≡ place_of scope worker }
{
    match scope {
        Scope::Shared => 0,
        Scope::Worker => worker,
    }
}

fn seat_each(alloc: Global, tables: &mut [MapTable]) -> Result<Vec<MapSeat>, MapFault>
    ensures seated { IfOk result (λ seats. AreSeated tables.new seats.items) }
    ensures tables { AreSameTables tables.old tables.new }
{
    let mut seats = Vec::with_capacity(alloc, tables.len())?;
    for table in tables.iter_mut() {
        let seat = table.seat()?;
        seats.push_reserved(seat);
    }
    Ok(seats)
}

impl MapTables {
    /// Tables of zeros for `workers` workers, each table with `seats` seats.
    /// Fault 62 if the seats aren't 1 to 16; otherwise the only fault is 40, lack of memory.
    pub fn new(alloc: Global, shape: Shape, workers: usize, seats: u32) -> Result<Self, MapFault>
        requires valid { IsShape shape }
        requires some_worker { 0 < workers }
        ensures shape { IfOk result (λ m. m.shape ≡ shape) }
        ensures count { IfOk result (λ m. length m.tables ≡ table_count shape.scope workers) }
        ensures new { IfOk result (λ m. All (IsNew seats) m.tables) }
        ensures memory { AreSeats seats → IfErr result (λ fault. fault ≡ NoMemory) }
        ensures no_seat { (seats ≡ 0) ⊎ (16 < seats) → result ≡ Err NoSeat }
    {
        let mut tables = Vec::new(alloc);
        for _ in 0..table_count(shape.scope, workers) {
            let table = MapTable::new(alloc, shape, seats)?;
            if let Err(refused) = tables.push(table) {
                return Err(AllocError::from(refused).into());
            }
        }
        Ok(MapTables { shape, tables })
    }

    pub fn shape(&self) -> Shape
        ensures is { result ≡ self.now.shape }
        ensures valid { IsShape result }
    {
        self.shape
    }

    /// The table that a worker's programs use.
    pub fn table(&self, worker: usize) -> &MapTable
        requires there { place_of self.now.shape.scope worker < length self.now.tables }
        ensures is { table_of self.now worker ≡ Some result.now }
        ensures shape { result.now.shape ≡ self.now.shape }
    {
        &self.tables[place_of(self.shape.scope, worker)]
    }

    /// The next seat of the table that a worker's programs use. Fault 62, the only one, comes once all are handed out,
    /// and changes nothing. No contract promises that a remaining seat is given: only tests show it.
    pub fn seat(&mut self, worker: usize) -> Result<MapSeat, MapFault>
        requires there { place_of self.old.shape.scope worker < length self.old.tables }
        ensures given { IfOk result (λ seat. GaveSeat self.old worker seat self.new) }
        ensures no_seat { IfErr result (λ fault. (fault ≡ NoSeat) × (self.new ≡ self.old)) }
    {
        let place = place_of(self.shape.scope, worker);
        self.tables[place].seat()
    }

    /// The next seat of each table, in worker order. After an error the seats given until then are lost. No clause
    /// says which error comes when: fault 62 if a table has no seat left, fault 40 for lack of memory.
    pub fn seat_each(&mut self, alloc: Global) -> Result<Vec<MapSeat>, MapFault>
        ensures seated { IfOk result (λ seats. AreSeated self.new.tables seats.items) }
        ensures tables { KeepsTables self.old self.new }
    {
        seat_each(alloc, self.tables.as_mut_slice())
    }

    /// Loads a word once from each table, in worker order, and returns the sum mod 2^(8 * width).
    /// It never waits and allocates nothing.
    pub fn sum(&self, seats: &mut [MapSeat], word: u32) -> u64
        requires seated { AreSeated self.now.tables seats.old }
        requires inside { word < word_count self.now.shape }
        ensures is { (answers : List ℕ) × Loads word self.now.tables seats.old answers seats.new
            × (result ≡ sum answers % modulus self.now.shape.width) }
        ensures seated { AreSeated self.now.tables seats.new }
    {
        sum_of_word(self.tables.as_slice(), seats, word, self.shape.width)
    }
}
