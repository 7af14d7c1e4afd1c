//! What the programs of one worker read and change.

ghost use Rattle.std.specs.Prelude.{◌≡◌, ◌<◌, ◌≤◌, length, slice_get, Some, IfOk};
ghost use Rattle.bpf_regions.specs.Maps.{word_count};
ghost use Rattle.shared_maps.specs.History.{IsAnswer};
ghost use Rattle.shared_maps.specs.Tables.{Place};
ghost use Rattle.bpf_helpers.specs.Draws.{next_draw};
ghost use Rattle.bpf_helpers.specs.Hooked.{HaveTables, IsFitting, KeepTables, AccessedBy};

use crate::draws::drawn_after;
use crate::map_tables::MapTables;
use bpf_regions::MapOp;
use shared_maps::{MapFault, MapSeat, MapTable};
use std::alloc::Global;
use std::marker::Model;

/// What the programs of a worker read: the maps, of which they use that worker's tables; and the clock and the number
/// of associated stations, at most 2007, of the shard that handles the frame.
#[derive(Clone, Copy)]
pub struct WorkerView<'t> {
    pub maps: &'t [MapTables],
    pub worker: usize,
    pub clock: u64,
    pub stations: u16,
    pub ghost few: { stations ≤ 2007 },
}

/// What the programs of a worker change: a seat at each of its tables, in map order, and the word drawn next.
#[derive(Drop)]
pub struct WorkerState {
    seats: Vec<MapSeat>,
    draw: u64,
}

impl Model for WorkerState {
    ghost use Rattle.bpf_helpers.specs.Hooked.{Held};

    ghost Value = { Held };

    ghost view = { λ s. record { seats = s.seats.items; draw = s.draw } };
}

impl WorkerState {
    pub fn new(seats: Vec<MapSeat>, draw: u64) -> Self
        ensures is { result ≡ record { seats = seats.items; draw = draw } }
    {
        WorkerState { seats, draw }
    }

    /// With the next seat of each of a worker's tables, and the first word to draw. After an error the seats given
    /// until then are lost. No clause says which error comes when: fault 62 if a table has no seat left, fault 40 for
    /// lack of memory.
    pub fn seated(
        alloc: Global,
        maps: &mut [MapTables],
        worker: usize,
        draw: u64,
    ) -> Result<Self, MapFault>
        requires there { HaveTables maps.old worker }
        ensures fitting { IfOk result (λ s. IsFitting maps.new worker s.seats) }
        ensures draw { IfOk result (λ s. s.draw ≡ draw) }
        ensures tables { KeepTables maps.old maps.new }
    {
        let mut seats = Vec::with_capacity(alloc, maps.len())?;
        for map in maps.iter_mut() {
            let seat = map.seat(worker)?;
            seats.push_reserved(seat);
        }
        Ok(WorkerState { seats, draw })
    }

    /// Returns the drawn word, and puts the next one in its place.
    pub(crate) fn drawn(&mut self) -> u64
        ensures is { result ≡ self.old.draw }
        ensures next { self.new ≡ record self.old { draw = next_draw self.old.draw } }
    {
        let word = self.draw;
        self.draw = drawn_after(word);
        word
    }

    /// One access to a word of a table by the seat at index `at`.
    pub(crate) fn access(&mut self, at: usize, table: &MapTable, word: u32, operation: MapOp) -> u64
        requires there { at < length self.old.seats }
        requires own { (s : Place) →
            slice_get self.old.seats at ≡ Some s → s.table ≡ table.now.table }
        requires inside { word < word_count table.now.shape }
        ensures made { AccessedBy table.now self.old.seats at word operation result self.new.seats }
        ensures draw { self.new.draw ≡ self.old.draw }
        ensures in_range { IsAnswer table.now.shape.width operation result }
    {
        table.access(&mut self.seats[at], word, operation)
    }
}
