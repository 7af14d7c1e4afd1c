//! Who is informed of each event that a worker takes.

/// Is asked and informed by workers, possibly concurrently. It may block one. Nothing is promised
/// about the calls that it gets.
pub trait Gate {
    /// Before the shard's lock is taken.
    fn begin(&self, _call: u64) {}

    /// After the lock was released.
    fn end(&self, _call: u64) {}

    /// Whether the worker must stop before this event, which then isn't handled.
    fn stop(&self, _call: u64) -> bool {
        false
    }
}

/// Blocks and stops no worker.
#[derive(Clone, Copy, Debug)]
pub struct OpenGate;

impl Gate for OpenGate {}
