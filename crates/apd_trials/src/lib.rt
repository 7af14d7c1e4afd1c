//! Cases for policies, judged: what becomes of each expectation.
//!
//! Main call: `run_cases`. It depends on `apd_cases`, `bpf_verifier`, `bpf_helpers` and `hooks`. `run_cases` returns a row
//! for each expectation, in order, with what the verifier says of its policy, or what a run on its frame shows.
//! `Row::is_ok` tells whether that meets the expectation, `count_rows` counts both kinds, and a `Report` gathers what is
//! printed for files, one after another.
#![tactic(auto)]

mod admission;
mod bench;
mod blame;
mod fault;
mod found;
mod report;
mod row;
mod texts;
mod trial;

pub use admission::{Admission, Reason, Setup};
pub use bench::{Bench, run_cases};
pub use fault::{CaseFault, Trouble};
pub use found::Found;
pub use report::Report;
pub use row::{Row, Tally, count_rows};
pub use trial::Ended;
