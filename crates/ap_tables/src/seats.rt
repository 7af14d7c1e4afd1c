//! An operator's seats.

ghost use Rattle.std.specs.Prelude.{◌≡◌, ◌<◌, ◌%◌, ℕ, List, length, slice_get, sum, Some};
ghost use Rattle.bpf_regions.specs.Maps.{word_count};
ghost use Rattle.shared_maps.specs.History.{IsAnswer, modulus};
ghost use Rattle.shared_maps.specs.Tables.{Place};
ghost use Rattle.bpf_helpers.specs.Hooked.{AccessedBy};
ghost use Rattle.bpf_helpers.specs.Sums.{AreSeated, Loads};

use bpf_helpers::MapTables;
use bpf_regions::MapOp;
use shared_maps::{MapSeat, MapTable};
use std::marker::Model;

/// An operator's seats at the tables of one map, one at each, in their order.
#[derive(Drop)]
pub struct MapSeats {
    seats: Vec<MapSeat>,
}

impl Model for MapSeats {
    ghost use Rattle.std.specs.Prelude.{List};
    ghost use Rattle.shared_maps.specs.Tables.{Place};

    ghost Value = { List Place };

    ghost view = { λ s. s.seats.items };
}

/// An operator's seats at all tables of all maps, in the maps' order. Only that operator has them.
#[derive(Drop)]
pub struct OperatorSeats {
    pub(crate) maps: Vec<MapSeats>,
}

impl Model for OperatorSeats {
    ghost use Rattle.std.specs.Prelude.{List};
    ghost use Rattle.shared_maps.specs.Tables.{Place};

    ghost Value = { List (List Place) };

    ghost view = { λ o. o.maps.items };
}

impl MapSeats {
    pub(crate) fn new(seats: Vec<MapSeat>) -> MapSeats
        ensures is { result ≡ seats.items }
    {
        MapSeats { seats }
    }

    /// One access to a word of a map's first table, by its seat.
    pub(crate) fn access(&mut self, table: &MapTable, word: u32, operation: MapOp) -> u64
        requires there { 0 < length self.old }
        requires own { (s : Place) → slice_get self.old 0 ≡ Some s → s.table ≡ table.now.table }
        requires inside { word < word_count table.now.shape }
        ensures made { AccessedBy table.now self.old 0 word operation result self.new }
        ensures in_range { IsAnswer table.now.shape.width operation result }
    {
        table.access(&mut self.seats[0], word, operation)
    }

    /// Loads a word once from each table, by worker number, and returns the sum mod 2^(8 * width).
    pub(crate) fn sum(&mut self, tables: &MapTables, word: u32) -> u64
        requires seated { AreSeated tables.now.tables self.old }
        requires inside { word < word_count tables.now.shape }
        ensures is { (answers : List ℕ) × Loads word tables.now.tables self.old answers self.new
            × (result ≡ sum answers % modulus tables.now.shape.width) }
        ensures seated { AreSeated tables.now.tables self.new }
    {
        tables.sum(self.seats.as_mut_slice(), word)
    }
}
