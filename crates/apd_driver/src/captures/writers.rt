//! Writers of a run's lines that may keep a capture beside them.

ghost use Rattle.std.specs.Prelude.{◌≡◌, OnOk};
ghost use Rattle.std.specs.Io.KnownBytes.{Appends, Keeps};
ghost use Rattle.apd_files.specs.Beginning.{AppendsBeginning};
ghost use Rattle.apd_driver.specs.Capturing.{AreKnown, Begins, Recorded, Records};

use crate::Report;
use crate::captures::recorder::Unrecorded;
use apd_files::Unwritten;
use apd_script::Numbered;
use std::io;
use std::io::Write;

/// A writer of a run's lines, with the run's capture, if it keeps one.
pub trait Printing: Write {
    // What is known of the capture.
    ghost recorded: { Self → Recorded };

    /// Writes a text in as many writes as it needs, and leaves the capture as it is. If a write fails, a prefix of the text
    /// was written.
    fn print(&mut self, text: &[u8]) -> Result<(), Unwritten>
        ensures whole { OnOk result
            (Appends (Self.contents self.old) (Self.contents self.new) text.now) }
        ensures beginning { AppendsBeginning
            (Self.contents self.old) (Self.contents self.new) text.now }
        ensures kept { recorded self.new ≡ recorded self.old };

    /// Flushes the lines, and leaves the capture as it is.
    fn flush_lines(&mut self) -> io::Result<()>
        ensures keeps { Keeps (Self.contents self.old) (Self.contents self.new) }
        ensures kept { recorded self.new ≡ recorded self.old };

    /// Adds the packets of consecutive commands, and of the reports that are printed of them, in order, to the capture.
    fn record(&mut self, commands: &[Numbered<'_>], reports: &[Report]) -> Result<(), Unrecorded>
        ensures output { Self.contents self.new ≡ Self.contents self.old }
        ensures packets { OnOk result
            (Records (recorded self.old) (recorded self.new) commands.now reports.now) };
}

/// The same before the run.
pub trait Recording: Printing {
    /// Makes the capture, if there is one, and writes what it begins with.
    fn begin(&mut self) -> Result<(), Unrecorded>
        ensures output { Self.contents self.new ≡ Self.contents self.old }
        ensures heading { OnOk result (AreKnown Self.recorded
            → Begins (Self.recorded self.old) (Self.recorded self.new)) };
}
