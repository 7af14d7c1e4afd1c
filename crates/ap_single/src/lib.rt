//! The access point of one caller: eight shards, and the programs by which they judge.
//!
//! Main calls: `AccessPoint::new`, `handle` and, for bytes that the caller keeps, `receive`. It depends on `ap_core` and
//! `program_judge`. An event is a step of the link whose verdicts are those of the caller's programs, over the caller's
//! maps; an event refused for lack of memory changes nothing and queries nothing. No call waits.
#![tactic(auto)]

mod access_point;
mod views;

pub use access_point::AccessPoint;
pub use views::view_at;
