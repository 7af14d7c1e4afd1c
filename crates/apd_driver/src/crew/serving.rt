//! What a worker does.

use std::alloc::AllocError;
use std::sync::Wait;

/// A worker, which handles the events of its own queue, and keeps what became of each until the operator takes it over.
pub trait Serving {
    /// Handles events until its queue is empty. Returns whether it handled any. Err: an allocation failed for what
    /// became of one.
    fn serve<R: Wait>(&mut self, rt: &R) -> Result<bool, AllocError>;
}
