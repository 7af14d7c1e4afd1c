//! New ledgers of one shard.

use std::sync::ledger::Blank;

/// A ledger for each count, without a book yet.
#[derive(Drop)]
pub struct Blanks {
    pub events: Blank,
    pub sent: Blank,
    pub up: Blank,
    pub dropped: Blank,
    pub notes: Blank,
}

impl Blanks {
    ghost use Rattle.ap_books.specs.Naming.{AreInParts};

    /// New ledgers, each divided into this many parts.
    pub fn new(parts: u64) -> Blanks
        ensures { AreInParts parts result }
    {
        Blanks {
            events: Blank::new(parts),
            sent: Blank::new(parts),
            up: Blank::new(parts),
            dropped: Blank::new(parts),
            notes: Blank::new(parts),
        }
    }
}
