//! The tables of all maps.

ghost use Rattle.std.specs.Prelude.{◌≡◌, ◌<◌, ◌≤◌, ◌↔◌, IsTrue, IfOk};
ghost use Rattle.bpf_regions.specs.declared.maps.Scope.TheVariants.{Shared, Worker};
ghost use Rattle.bpf_regions.specs.declared.maps.MapOp.TheVariants.{Load, Store};
ghost use Rattle.bpf_regions.specs.declared.maps.WordWidth.{WordWidth};
ghost use Rattle.shared_maps.specs.History.{IsAnswer};
ghost use Rattle.bpf_helpers.specs.Hooked.{IsFitting, KeepTables, shapes_of};
ghost use Rattle.ap_tables.specs.Stocks.{AreOperators, Names};
ghost use Rattle.ap_tables.specs.Accesses.{Accesses, Sums};

use crate::seats::{MapSeats, OperatorSeats};
use bpf_helpers::{MapTables, WorkerState};
use bpf_regions::{MapOp, Scope, Shapes};
use shared_maps::MapFault;
use std::alloc::{AllocError, Global};
use std::marker::Model;

/// The most operators.
const OPERATORS: u32 = 8;

/// The tables of all maps, for this many workers. Threads share it by reference.
#[derive(Drop)]
pub struct ApTables {
    maps: Vec<MapTables>,
    workers: usize,
}

impl Model for ApTables {
    ghost use Rattle.ap_tables.specs.Stocks.{Stock, IsStocked};

    ghost Value = { Stock };

    ghost view = { λ t. record { maps = t.maps.items; workers = t.workers } };

    ghost invariant = { λ t. IsStocked (record { maps = t.maps.items; workers = t.workers }) };
}

/// How many seats each table of a map has: one for each operator and for each worker that uses it.
fn seats_for(scope: Scope, workers: u32) -> u32
    requires { workers ≤ 8 }
    ensures some { 1 ≤ result }
    ensures few { result ≤ 16 }
{
    match scope {
        Scope::Shared => OPERATORS + workers,
        Scope::Worker => OPERATORS + 1,
    }
}

fn seats_of_all(alloc: Global, maps: &mut [MapTables]) -> Result<Vec<MapSeats>, MapFault>
    ensures tables { KeepTables maps.old maps.new }
    ensures seated { IfOk result (λ s. AreOperators maps.new s.items) }
{
    let mut all = Vec::with_capacity(alloc, maps.len())?;
    for map in maps.iter_mut() {
        let seats = map.seat_each(alloc)?;
        all.push_reserved(MapSeats::new(seats));
    }
    Ok(all)
}

impl ApTables {
    /// Tables of zeros for maps of these shapes and this many workers.
    pub fn new(alloc: Global, shapes: &Shapes, workers: u32) -> Result<ApTables, AllocError>
        requires some { 0 < workers }
        requires few { workers ≤ 8 }
        ensures shapes { IfOk result (λ t. shapes_of t.maps ≡ shapes.now) }
        ensures workers { IfOk result (λ t. t.workers ≡ workers) }
    {
        shapes.whole();
        let mut maps = Vec::new(alloc);
        for shape in shapes.as_slice() {
            let seats = seats_for(shape.scope, workers);
            let Ok(map) = MapTables::new(alloc, *shape, workers as usize, seats) else {
                return Err(AllocError);
            };
            maps.push(map)?;
        }
        Ok(ApTables {
            maps,
            workers: workers as usize,
        })
    }

    /// The maps; a worker's programs use that worker's tables.
    pub fn maps(&self) -> &[MapTables]
        ensures is { result.now ≡ self.now.maps }
    {
        self.maps.as_slice()
    }

    /// Whether there is a map of that number and scope that has this word.
    pub fn has_word(&self, scope: Scope, map: usize, word: u32) -> bool
        ensures { IsTrue result ↔ Names scope self.now.maps map word }
    {
        match self.maps.get(map) {
            Some(tables) => {
                let shape = tables.shape();
                shape.scope == scope && word < shape.word_count()
            }
            None => false,
        }
    }

    /// The seats of the next operator. Fault 62: a table has no seat left; fault 40: lack of memory; either way the
    /// seats taken so far are lost. Only tests show that 8 operators get theirs.
    pub fn operator(&mut self, alloc: Global) -> Result<OperatorSeats, MapFault>
        ensures tables { KeepTables self.old.maps self.new.maps }
        ensures workers { self.new.workers ≡ self.old.workers }
        ensures seated { IfOk result (AreOperators self.new.maps) }
    {
        let maps = seats_of_all(alloc, self.maps.as_mut_slice())?;
        Ok(OperatorSeats { maps })
    }

    /// The mutable state of a worker's programs: the next seat of each table that they use, and the first word to
    /// draw. Faults 62 and 40 as for `operator`.
    pub fn worker(
        &mut self,
        alloc: Global,
        worker: usize,
        draw: u64,
    ) -> Result<WorkerState, MapFault>
        requires there { worker < self.old.workers }
        ensures tables { KeepTables self.old.maps self.new.maps }
        ensures workers { self.new.workers ≡ self.old.workers }
        ensures fitting { IfOk result (λ s. IsFitting self.new.maps worker s.seats) }
        ensures draw { IfOk result (λ s. s.draw ≡ draw) }
    {
        WorkerState::seated(alloc, self.maps.as_mut_slice(), worker, draw)
    }

    /// One access to a word of a shared map.
    fn access(&self, operator: &mut OperatorSeats, map: usize, word: u32, operation: MapOp) -> u64
        requires own { AreOperators self.now.maps operator.old }
        requires there { Names Shared self.now.maps map word }
        ensures own { AreOperators self.now.maps operator.new }
        ensures made { Accesses self.now.maps operator.old map word operation result operator.new }
        ensures in_range { (width : WordWidth) × IsAnswer width operation result }
    {
        let table = self.maps[map].table(0);
        operator.maps[map].access(table, word, operation)
    }

    /// Stores a number in a word of a shared map, mod 2^(8 * width). It never blocks or allocates.
    pub fn store(&self, operator: &mut OperatorSeats, map: usize, word: u32, value: u64)
        requires own { AreOperators self.now.maps operator.old }
        requires there { Names Shared self.now.maps map word }
        ensures own { AreOperators self.now.maps operator.new }
        ensures made { Accesses self.now.maps operator.old map word (Store value) 0 operator.new }
    {
        self.access(operator, map, word, MapOp::Store(value));
    }

    /// Loads a word of a shared map. It never blocks or allocates.
    pub fn read(&self, operator: &mut OperatorSeats, map: usize, word: u32) -> u64
        requires own { AreOperators self.now.maps operator.old }
        requires there { Names Shared self.now.maps map word }
        ensures own { AreOperators self.now.maps operator.new }
        ensures made { Accesses self.now.maps operator.old map word Load result operator.new }
    {
        self.access(operator, map, word, MapOp::Load)
    }

    /// Loads a word of a worker's map once from each worker's table, by worker number, and returns the sum mod 2^(8 *
    /// width). It never blocks or allocates.
    pub fn sum(&self, operator: &mut OperatorSeats, map: usize, word: u32) -> u64
        requires own { AreOperators self.now.maps operator.old }
        requires there { Names Worker self.now.maps map word }
        ensures own { AreOperators self.now.maps operator.new }
        ensures made { Sums self.now.maps operator.old map word result operator.new }
    {
        operator.maps[map].sum(&self.maps[map], word)
    }
}
