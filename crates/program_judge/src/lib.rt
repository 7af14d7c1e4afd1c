//! Verdicts by programs that nobody replaces meanwhile.
//!
//! Main calls: `Programs::put` and `ProgramJudge::new`. It depends on `bpf_helpers` and `ap_model`. A `ProgramJudge`
//! returns R0 of a run of the hook's program, on that frame and context; or 0, 64 and 0 for hooks without one.
//! `proofs/Judging` has it for any queries, one after another.
#![tactic(auto)]

mod judge;
mod programs;

pub use judge::ProgramJudge;
pub use programs::Programs;
