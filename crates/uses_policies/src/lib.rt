//! What callers of the access point may conclude of verified programs and link together, as contracts of functions that
//! only call lower crates.
#![tactic(auto)]

mod eight;
mod one;
mod policies;

pub use eight::{go_on, serve};
pub use one::decide;
pub use policies::Policies;
