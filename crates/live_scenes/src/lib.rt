//! Runs a `Story` with all tokens of an access point that several threads serve: hands them out, and takes them back.
//!
//! Main calls: `play`, which opens an access point, hands its tokens to a story, and then returns the totals; `Hand`
//! and `Chief`, by which a story serves and submits; `Soak`, the story that tests and a benchmark run. It depends on
//! `ap_live`. The types promise that a `Hand` has the token of a worker of its access point, and a `Chief` that of an
//! operator, each with one part of each ledger. So the totals can be read once all parts are back.
#![tactic(auto)]

mod configurations;
mod crew;
mod frames;
mod hands;
mod meetings;
mod operators;
mod programs;
mod purse;
mod scenes;
mod service;
mod soaks;
mod tally;

pub use configurations::settings;
pub use frames::{address, data, joining};
pub use hands::{Chief, Hand};
pub use meetings::{meet_operator, meet_workers, submit_and_meet};
pub use programs::publish;
pub use scenes::{Scene, Story, play};
pub use soaks::{Found, Soak};
