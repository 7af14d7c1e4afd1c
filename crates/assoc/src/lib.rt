//! Which stations a shard of the access point knows, the standing of each, which association identifiers are granted,
//! and which frames a standing permits (IEEE 802.11-2016, 11.3).
//!
//! Main calls: `Link::on_auth`, `Link::on_assoc`, `class_check`. It depends on `mac_frame`. Each call of `Link` moves
//! one station and no other. At most 512 are known; no two hold the same association identifier. `free_aid` returns
//! the least free one. A refusal for lack of memory changes nothing.
#![tactic(auto)]

mod class;
mod holders;
mod link;
mod standing;
mod station_key;

pub use class::{Class, ClassAnswer, class_check, class_of};
pub use link::Link;
pub use standing::{Known, KnownStation, Standing, aid_of, state_of};
