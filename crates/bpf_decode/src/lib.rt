//! Programs from bytes, and bytes from programs (RFC 9669, section 3).
//!
//! Main calls: `decode` and `encode`. The crate depends on `bpf_insn` and `bpf_regions`. `decode`
//! returns a `Program` only for well-formed code of 1 to 16384 slots; it refuses other code with
//! its first fault, by slot and then number, and well-formed code only for lack of memory. Some
//! bytes spell each `Program`, by its type invariant; the contract of `Program::whole` states what
//! follows for its slots. `encode` returns the same bytes (`spelling_law`).
#![tactic(auto)]

mod check;
pub mod decoder;
pub mod encoder;
pub mod fault;
pub mod flow;
pub mod program;
mod slots;
mod targets;

pub use decoder::decode;
pub use encoder::{encode, spelling_law};
pub use fault::{DecodeFault, SlotFault};
pub use flow::jump_target;
pub use program::Program;
