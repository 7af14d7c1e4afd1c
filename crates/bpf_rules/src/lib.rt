//! The verifier's rules: the successors of an abstract state by one instruction, as definitions in
//! `specs/`.
//!
//! `examined` of `specs/Examined.antt` gives the successors, or the fault that is met first;
//! `specs/Covers.antt` says when these cover all that the machine may do. The code is two types,
//! `Fault` with its number and `Ways`. It depends on `bpf_absstate` and `bpf_decode`. `bpf_checks`
//! implements the rules; `bpf_sound_flow` and `bpf_sound_memory` prove them sound, `bpf_plain` that
//! plain programs pass them.
#![tactic(auto)]

pub mod fault;
pub mod ways;

pub use fault::Fault;
pub use ways::Ways;
