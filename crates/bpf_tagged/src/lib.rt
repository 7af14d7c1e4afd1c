//! The tagged machine: one step, which tests each access and each kind of value.
//!
//! Main calls: `perform::perform_slot` and `Machine::start`. The crate depends on `bpf_values`. A
//! step of a `Machine` is one step of the definition `next` of `bpf_model`: it ends with a number,
//! faults with a number, or continues, possibly with a note. A step queries its `Port` at most
//! once; the port's answers are in range. No call allocates.
#![tactic(auto)]

mod atomics;
mod calls;
mod helpers;
pub mod input;
mod jumps;
mod loads;
pub mod machine;
mod operations;
pub mod perform;
pub mod port;
mod stores;

pub use input::Input;
pub use machine::{Machine, Stepped};
pub use port::Port;
