//! The queues of an access point's workers, one each, and the handles of operators and workers.
mod fault;
mod lines;
mod passes;
mod submission;

pub use fault::{LineFault, Unserved};
pub use lines::EventLines;
pub use passes::{LinePasses, OperatorLines};
