//! Files of cases for policies: which policy gets which frame, and what should come of it.
//!
//! Main calls: `read_cases` and `Situation::follow`. It depends on `apd_script`, which cuts lines into words.
//! `read_cases` returns exactly what the lines of a text say, each with its number, or the number of the first malformed
//! line; `line_fault` says in words why that is malformed. A `Situation` is what holds after some lines: each holds until
//! the next of its kind.
#![tactic(auto)]

mod cases;
mod expect_line;
mod keywords;
mod line;
mod situation;
mod text;
mod why;

pub use cases::{Unread, read_cases};
pub use line::{Expectation, Line, Numbered, Place, StationCount, Verdict};
pub use situation::{Policy, Preset, Situation};
pub use why::{LineFault, line_fault};
