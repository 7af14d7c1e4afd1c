//! Performs every check of one instruction, and computes its successors: the next abstract states.
//!
//! Main calls: `examine`, and `examine_moved`, which consumes the state. The crate depends on
//! `bpf_rules`. Both return exactly what the rules define (`examined`): the successors, or the
//! first fault in the order of the checks; or lack of memory. The other functions are their parts,
//! by kind of instruction; the contract of each is its part of the rules. They take the state, or a
//! copy of it, and change it; they copy only what other states share.
#![tactic(auto)]

pub mod branches;
pub mod bytes;
pub mod examination;
pub mod flow;
pub mod memory;
pub mod operands;
pub mod places;

pub use examination::{examine, examine_moved};
