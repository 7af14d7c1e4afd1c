//! Tables of map words that threads share: each access is one atomic step of one legal history.
//!
//! Main calls: `MapTable::access` and `MapTable::meet`. It depends on `atomic_table` and `bpf_regions`. After an
//! access, what the seat has seen is a legal history, which extends what it had seen and ends with this access; after
//! `meet` both seats have seen the same history.
//!
//! Neither `access` nor `meet` takes a `Wait`, and each returns whatever other threads do. A lock round the words
//! would not do: `Mutex::lock` needs a `Wait`, so a body with it doesn't compile, and if `try_lock` finds the lock
//! taken, there is no value to return.
#![tactic(auto)]

mod fault;
mod rule;
mod seen;
mod steps;
mod table;

pub use fault::MapFault;
pub use seen::Entry;
pub use table::{MapSeat, MapTable};
