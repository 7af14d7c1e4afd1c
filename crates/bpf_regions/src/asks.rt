//! A program's queries while it runs.

use crate::maps::MapOp;

/// A helper whose result comes from outside the program.
#[derive(Clone, Copy, Debug, PartialEq, Eq)]
pub enum Helper {
    /// Helper 2: the shard's clock, any number below 2^64.
    Now,
    /// Helper 3: how many stations are associated, 0 to 2007.
    Stations,
    /// Helper 4: a number below 2^64 from a sequence.
    Draw,
}

/// One query: an access to a map word, or a helper call.
#[derive(Clone, Copy, Debug, PartialEq, Eq)]
pub enum Ask {
    /// `word` is the entry's index times the words per entry, plus the word's index in the entry.
    Access { map: u32, word: u32, op: MapOp },
    Help(Helper),
}
