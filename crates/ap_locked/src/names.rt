//! Which journal, ledgers and configuration a shard has.

ghost use Rattle.ap_books.specs.Naming.{AreInParts};
ghost use Rattle.ap_locked.specs.Naming.{AreForPages};

use crate::entry::SignedEntry;
use crate::pages::NewLedgers;
use ap_books::Blanks;
use ap_journal::Opened;
use std::marker::Brand;

/// The journal of each shard of an access point, and the configuration of all of them. Each access
/// point has its own type for these.
pub trait Journals {
    ghost use Rattle.std.specs.Prelude.{ℕ};
    ghost use Rattle.logbook.specs.Pages.{Book};
    ghost use Rattle.ap_model.specs.Readings.{Config};

    ghost journal_of: { ℕ → Book };

    ghost config: { Config };
}

impl Journals for Brand {
    ghost use Rattle.std.specs.Prelude.{[]};

    ghost journal_of = { λ shard. record { number = 0; log_name = 0; cells_name = 0 } };

    ghost config = { record { bssid = []; ssid = []; rates = [] } };
}

/// What a shard begins with, not yet named: new ledgers, and an empty journal.
#[derive(Drop)]
pub struct NewShard {
    pub blanks: Blanks,
    pub pages: NewLedgers,
    pub journal: Opened<SignedEntry>,
}

impl NewShard {
    /// New ledgers, each divided into this many parts, and a new journal.
    pub fn new(parts: u64) -> NewShard
        ensures parts { AreInParts parts result.blanks }
        ensures pages { AreForPages parts result.pages }
    {
        NewShard {
            blanks: Blanks::new(parts),
            pages: NewLedgers::new(parts),
            journal: Opened::new(),
        }
    }
}
