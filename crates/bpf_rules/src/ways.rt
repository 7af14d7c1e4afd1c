//! The successors of a state.

use bpf_absstate::AbsState;

/// The states that come next: none after the main function's EXIT, or if neither branch of a conditional jump can be
/// taken; two if both may be.
#[derive(Drop)]
pub enum Ways {
    Nowhere,
    One(AbsState),
    /// The fall-through and the jump.
    Two(AbsState, AbsState),
}
