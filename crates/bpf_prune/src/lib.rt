//! Keeps finished states with their budgets, the newest 64 of each slot.
//!
//! Main calls: `Finished::keep`, `Finished::covering` and `Work::examine`. The crate depends on `bpf_absstate`.
//! `keeping_law` says that a state which 64 later ones of its slot push out may as well not be kept.
//! `covering` returns the budget of the newest kept state that includes a given one; each
//! comparison starts where an earlier one found a difference, and counts as work before it is made.
//! A refused allocation changes nothing. That a kept budget is right is the caller's promise, not
//! this crate's.
#![tactic(auto)]

pub mod finished;
pub mod kept;
pub mod laws;
pub mod work;

pub use finished::Finished;
pub use kept::{Entry, Kept};
pub use work::{TooMuchWork, Work, parts_of};
