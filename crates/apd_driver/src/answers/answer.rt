//! What a question of `apd live` is answered.

ghost use Rattle.std.specs.Prelude.{◌≤◌};

use ap_books::Totals;
use bpf_regions::{Hook, Shape};
use mac_types::{Address, SequenceNumber, Tid};

/// A known station, and its association identifier if it is associated.
#[derive(Clone, Copy)]
pub struct StationRow {
    pub station: Address,
    pub aid: Option<u16>,
}

/// An agreement in force.
#[derive(Clone, Copy)]
pub struct AgreementRow {
    pub station: Address,
    pub tid: Tid,
    /// The first number of its window.
    pub start: SequenceNumber,
    /// How many numbers its window has.
    pub size: u16,
    /// How many numbers its window holds.
    pub held: usize,
    /// In units of 1024 microseconds; 0 for none.
    pub timeout: u16,
}

/// A program in force, which executes at most `budget` instructions, and what was counted of its runs since its load. All
/// but the most are mod 2^64.
#[derive(Drop)]
pub struct ProgramRow {
    pub hook: Hook,
    pub budget: u32,
    pub runs: u64,
    /// The most steps of a run.
    pub most: u32,
    /// The steps of all runs.
    pub steps: u64,
    /// How many runs admitted an association, granted an agreement, or passed data.
    pub granted: u64,
    /// How many refused an association, declined an agreement, or dropped data.
    pub denied: u64,
    /// The newest of its notes, the oldest first.
    pub says: Vec<u64>,
    pub ghost within: { most ≤ budget },
}

/// An entry of a map.
#[derive(Drop)]
pub struct EntryRow {
    pub index: u32,
    pub words: Vec<u64>,
}

/// What a question is answered.
#[derive(Drop)]
pub enum Answer {
    /// How each line is written.
    Usages(Vec<String>),
    Stations(Vec<StationRow>),
    Agreements(Vec<AgreementRow>),
    Programs(Vec<ProgramRow>),
    /// What was counted so far.
    Counters(Totals),
    /// The entries of the map with this number and shape that aren't all 0.
    Dump {
        map: u32,
        shape: Shape,
        entries: Vec<EntryRow>,
    },
}
