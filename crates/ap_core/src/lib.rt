//! The core of the access point: handles its events.
//!
//! Main calls: `Shard::handle`, `Shard::handle_with_drop`, and over eight shards `handle_one`,
//! `handle_all` and, for bytes that the caller keeps, `receive_one`. It depends on `ap_agreements`.
//! A shard's type guarantees that a history leads to its readings. `handle` is one step of the
//! link, with the relation's outputs, or a refusal for lack of memory that changes nothing and asks
//! no judge. `handle_with_drop` also returns whether a verdict dropped data.
#![tactic(auto)]

mod access_point;
mod ends;
mod management;
mod moves;
mod outcome;
mod packets;
mod receive;
mod requests;
mod room;
mod rules;
mod setups;
mod shard;
mod state;
mod ticks;
mod ups;

pub use access_point::{handle_all, handle_one, new_shards, receive_one, shard_of, shard_of_bytes};
pub use ap_agreements::AgreementInForce;
pub use ap_model::{AskLog, Event, Held, Judge, LinkConfig, ListJudge, Octets, Out, Up};
pub use assoc::{Known, KnownStation};
pub use outcome::Outcome;
pub use shard::Shard;
