//! The commands `apd run`, which runs a script on a new access point, and `apd live`, which runs lines as they come.
//!
//! Main calls: `run` and `live`. It depends on `apd_config`, `apd_script`, `apd_files` and `access`. `run` parses the
//! whole script before any line runs. What is written to `out`, and the status, are those of `run_live`; texts of faults
//! go to `err`. A `Watcher` is told of the run and of each of its events.
mod command;
mod fault;
mod setup;

pub use crate::access::{Gate, Limits, OpenGate, StateLimit};
pub use command::{RunWords, Streams, Surroundings, live, run};
