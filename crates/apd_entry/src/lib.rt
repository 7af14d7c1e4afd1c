//! The program as a function of its words, files and streams, with the threads that `run` and `live` take.
//!
//! Main call: `perform`, which reads the words once; what they ask for determines the rest.
#![tactic(auto)]

mod destination;
mod entry;
mod limits;
mod lines;

pub use apd_run::Streams;
pub use entry::{Messages, perform};
pub use lines::Standard;
