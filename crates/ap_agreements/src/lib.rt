//! The block acknowledgement agreements of a shard (IEEE 802.11-2016, 10.24 and 11.5), by station
//! and TID: each with its reorder window, its timeout and its last use.
//!
//! Main calls: `Agreements::hold`, `pass_to`, `put`, `remove` and `take_late`. It depends on `ap_model` and
//! `blockack`. Clauses see a table as the agreement of each station and TID; each call says which
//! of them it changes, and that the others stay.
#![tactic(auto)]

mod agreements;
mod entry;
mod in_force;
mod key;

pub use agreements::Agreements;
pub use entry::{Entry, Released};
pub use in_force::AgreementInForce;
