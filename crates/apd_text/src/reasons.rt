//! The verifier's reasons, for people: why it refuses a program and what it knew at that point, or how much work
//! admitting the program took.
//!
//! Main call: `reason_text`. It depends on `bpf_verifier`, whose exploration found what the text says. Only tests show
//! the texts.
mod access;
mod choice;
mod costs;
mod cure;
mod reason;
mod refusal;
mod values;
mod way;

pub use reason::{fault_text, insn_text, reason_text};
pub use values::{NumberText, SlotText, ValueText};
