//! The results of whole runs.

use arrayvec::ArrayVec;

/// The result of a run that ended: R0, the number of steps counting EXIT, and the first 16 notes.
#[derive(Drop)]
pub struct Outcome {
    pub r0: u64,
    pub steps: u32,
    pub notes: ArrayVec<u64, 16>,
}

/// How a run ended: R0, and the number of steps counting EXIT.
#[derive(Clone, Copy, Debug, PartialEq, Eq)]
pub struct Exit {
    pub r0: u64,
    pub steps: u32,
}

/// The result of a run within a limit of steps.
#[derive(Drop)]
pub enum Probe {
    /// The run ended within the limit.
    Ended(Outcome),
    /// The run had this fault at slot `pc`, after at most as many steps as the limit allows.
    Faulted { pc: usize, number: u8 },
    /// The run made as many steps as the limit allows, and doesn't fault next.
    Cut,
}

/// One step of a run: the slot of its instruction, and its note, if any.
#[derive(Clone, Copy, Debug, PartialEq, Eq)]
pub struct Step {
    pub pc: usize,
    pub note: Option<u64>,
}
