//! The claim of a certificate's entry.

use bpf_absstate::AbsState;

/// An abstract state, and within how many instructions each run from it is claimed to end.
#[derive(Drop)]
pub struct Claim {
    pub state: AbsState,
    pub budget: u32,
    /// Whether it may include a reached state: it says nothing of R0 to R5 of calling functions.
    pub is_open: bool,
}
