//! What may pass between threads.

ghost use Rattle.core.specs.Thread.{IsSend};
ghost use Rattle.apd_c.specs.contracts.handle.Handle.{the_row};

/// A handle may pass to another thread, whatever it holds: what it owns is the same to each thread.
pub fn handles_law()
    ensures { IsSend the_row }
{}
