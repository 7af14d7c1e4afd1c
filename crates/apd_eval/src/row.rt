//! Rows of queries, and who takes them.

ghost use Rattle.std.specs.Prelude.{◌≡◌, ◌<◌, ◌+◌, ◌^◌, ℕ, List, IfOk};
ghost use Rattle.apd_eval.specs.declared.row.Row.{Row};

use crate::ruling::Ruling;
use bpf_regions::Frame;
use std::alloc::AllocError;

/// A query of a packet of a capture, which are counted from 1.
#[derive(Clone, Copy)]
pub struct Row {
    pub packet: usize,
    pub ruling: Ruling,
}

/// Takes rows as they come, each with the frame of its packet.
pub(crate) trait TakesRows<'a> {
    /// How many rows it has taken.
    ghost taken: { Self → ℕ };

    /// It takes this row with this frame, and becomes that.
    ghost takes: { Self → Row → List ℕ → Self → Type 0 };

    /// Takes a row.
    fn take(&mut self, row: &Row, frame: &Frame<'a>) -> Result<(), AllocError>
        requires room { taken self.old + 1 < 2 ^ 64 }
        ensures is { IfOk result (λ _. takes self.old row.now frame.now self.new) }
        ensures counted { IfOk result (λ _. taken self.new ≡ taken self.old + 1) };
}
