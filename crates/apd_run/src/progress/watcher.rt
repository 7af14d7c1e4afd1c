//! Watching a run.

use ap_live::{Gate, OpenGate};

/// Is told of a run, and of each of its events.
pub trait Watcher: Gate {
    /// The script was read. The argument is the number of its last line with a command, counted from 1, or 0 if it has
    /// none. Events come after this.
    fn start(&self, _lines: u64) {}
}

impl Watcher for OpenGate {}
