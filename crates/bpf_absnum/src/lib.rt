//! What the verifier knows of a machine's number: an interval, a signed interval and a tristate
//! number.
//!
//! Main calls: `AbsNum::alu` (the result of an operation) and `AbsNum::branch` (what remains on a
//! branch of a conditional jump). It depends on `bpf_interval` and `bpf_values`. Each operation
//! returns what its definition in `specs/` says. `number::laws::number_law` says that it keeps every
//! result of the machine, and every pair of words that takes a branch. No call allocates.
#![tactic(auto)]

pub mod number;

pub use number::AbsNum;
