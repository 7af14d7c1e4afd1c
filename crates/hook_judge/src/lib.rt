//! Verdicts by the programs of a published set.
//!
//! Main call: `SetJudge::new`. It depends on `versions`, `bpf_helpers` and `ap_model`. A `SetJudge` returns R0 of a
//! run of its set's program for the hook, on that frame and context; or 0, 64 and 0 for hooks without one. Each run is
//! counted, once, in the worker's `HookCounts`, under its load's number. `proofs/Judging` has it for any queries, one after
//! another.
#![tactic(auto)]

mod counts;
mod hook_counts;
mod judge;
mod run;
mod state;

pub use counts::RunCounts;
pub use hook_counts::HookCounts;
pub use judge::SetJudge;
pub use run::{Figures, ProgramRun};
pub use state::CountedState;
