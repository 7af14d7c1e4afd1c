//! The tables of an access point's maps: one for each shared map, and one per worker for each
//! worker's map.
//!
//! Main calls: `ApTables::store`, `read` and `sum`, each by an operator's seats; none blocks or
//! allocates. It depends on `bpf_helpers`. Promised: `store` and `read` are one access each, `sum`
//! is one load from each worker's table, by worker number, and each of these is in its table's
//! legal history.
#![tactic(auto)]

mod seats;
mod tables;

pub use seats::OperatorSeats;
pub use tables::ApTables;
