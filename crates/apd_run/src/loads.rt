//! Putting programs in force while an access point runs.
//!
//! Main calls: `Loads::load`, `Loads::adopt` and `Loads::unload`. It depends on `apd_files`, `bpf_decode`,
//! `bpf_verifier`, `bpf_cert` and `versions`. Each publishes the program that a file's digits spell, if the verifier
//! or a certificate admits it for the hook, within limits of states and of work; otherwise it publishes nothing. The
//! result is what a run prints of the line.
mod adoption;
mod programs;

pub use adoption::Adoption;
pub use bpf_verifier::{Limits, StateLimit};
pub use programs::Loads;
