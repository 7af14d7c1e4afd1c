//! Programs that are safe to run, and whole runs: `Machine::run`, `run`, `trace` and `limited_run::probe`.
//!
//! The crate depends on `bpf_bare`, for `Machine`, `run` and `trace`, and on `bpf_tagged`, for `probe`. An `Accepted` is
//! safe within its budget, by its type invariant. `Machine::run` returns R0 and the steps, and keeps the first 16 notes,
//! of the run that the definition gives for the port's answers, with each query made once and in order; it allocates
//! nothing and performs no checks. `run` does so on a machine of its own. `Bare` is the machine of `run`, one step at a
//! time. `probe` runs any program, to its end, its fault or a limit of steps.
#![tactic(auto)]

pub mod accepted;
pub mod bare;
pub mod limited_run;
pub mod list_port;
pub mod logged_run;
mod one_step;
pub mod outcome;
mod silent;
pub mod whole_run;

pub use accepted::Accepted;
pub use bare::Bare;
pub use bpf_bare::Word;
pub use bpf_tagged::Port;
pub use list_port::ListPort;
pub use logged_run::trace;
pub use outcome::{Exit, Outcome, Probe, Step};
pub use whole_run::{Machine, run};
