//! A shard of the link as its lock guards it: with its books, and its journal, which only proofs
//! have. `Locked::new` makes one, and a `ShardToken` with all parts of its ledgers;
//! `Locked::decide` decides an event; `Locked::reconcile` compares all pages with the journal. It
//! depends on `ap_core`, `ap_journal` and `ap_books`. Promised of every `Locked`: the entries of
//! its journal lead from the opening to its state, each as a step of the link, and its books have
//! counted exactly these. Promised of every `ShardToken`: the shard handled, from the opening, the
//! prefix of the journal that it has seen; its own entries are among these in order, and its shares
//! have counted them. Each token writes its entries on a page of its own: all pages together are
//! the journal, each entry at its own place (`Locked::reconcile`).
#![tactic(auto)]

mod decisions;
mod entry;
mod locked;
mod names;
mod pages;
mod token;

pub use entry::{JournalEntry, SignedEntry};
pub use locked::Locked;
pub use names::{Journals, NewShard};
pub use pages::{JournalPage, NewLedgers, Pages};
pub use token::ShardToken;
