//! Defines the link of an access point: its events and outputs, its judge, and the relation that says which outputs an
//! event may have (IEEE 802.11-2016, 10.24, 11.3 and 11.5).
//!
//! The relation is `Step`, over a shard's readings (`specs/Steps.antt`); a history is a run of such steps from the
//! opening. The code has the types `Event`, `Out`, `LinkConfig`, the trait `Judge`, with `ListJudge` and `AskLog`. It
//! depends on `hooks` and `blockack`.
#![tactic(auto)]

mod ask_log;
mod config;
mod event;
mod held;
mod judge;
mod octets;

pub use ask_log::AskLog;
pub use config::LinkConfig;
pub use event::{Event, Out, Up};
pub use held::Held;
pub use judge::{Judge, ListJudge};
pub use octets::Octets;
