//! The console of a run.

ghost use Rattle.std.specs.Prelude.{◌≡◌, true, Bool, OnOk};
ghost use Rattle.std.specs.Io.KnownBytes.{Keeps};
ghost use Rattle.apd_driver.specs.declared.manner.Manner.{Manner};

use crate::Report;
use crate::captures::Printing;
use crate::manner::Manner;
use apd_script::Numbered;
use std::io;

/// A run writes its lines and its capture to it, and tells it what became of the lines.
pub trait Console: Printing {
    // How the run goes on and prints.
    ghost manner: { Self → Manner };

    // Whether all that was written is flushed.
    ghost is_flushed: { Self → Bool };

    /// How the run goes on and prints.
    fn how(&self) -> Manner
        ensures is { result ≡ manner self.now };

    /// Flushes all that was written.
    fn flush_all(&mut self) -> io::Result<()>
        ensures flushed { OnOk result (is_flushed self.new ≡ true) }
        ensures keeps { Keeps (Self.contents self.old) (Self.contents self.new) }
        ensures kept { Self.recorded self.new ≡ Self.recorded self.old };

    /// Tells what became of consecutive commands, for which the operator made these reports, in order.
    fn tell(&mut self, commands: &[Numbered<'_>], reports: &[Report])
        ensures output { Self.contents self.new ≡ Self.contents self.old }
        ensures kept { Self.recorded self.new ≡ Self.recorded self.old };
}
