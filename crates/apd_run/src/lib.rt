//! Runs of scripts and of lines as they come: the access point with its worker threads, the programs that lines load, and
//! the messages about a run.
//!
//! Main calls: `run` and `live`, for the commands `apd run` and `apd live`. They run lines by `apd_driver`, on an access
//! point of `ap_live`. A `Watcher`, as `Progress`, is told of the run.
#![tactic(auto)]

mod access;
mod loads;
mod progress;
mod runner;

pub use progress::{Progress, Watcher};
pub use runner::{Gate, Limits, OpenGate, RunWords, StateLimit, Streams, Surroundings, live, run};
