//! Where the lines of a run go, and its capture.

ghost use Rattle.std.specs.Prelude.{OnOk};
ghost use Rattle.apd_driver.specs.Capturing.{AreKnown, Begins, Recorded, Records, recorded_if_any};

use crate::Report;
use crate::captures::recorder::{Recorder, Unrecorded};
use crate::captures::writers::{Printing, Recording};
use apd_files::{Tape, Unwritten, write_whole};
use apd_script::Numbered;
use std::io;
use std::io::Write;

/// A capture that a run keeps, or none.
pub trait Capturing {
    // What is known of the capture.
    ghost recorded: { Self → Recorded };

    /// Makes the capture, and writes what it begins with.
    fn begin(&mut self) -> Result<(), Unrecorded>
        ensures heading { OnOk result
            (AreKnown recorded → Begins (recorded self.old) (recorded self.new)) };

    /// Writes the packets of consecutive commands, and of the reports that are printed of them, in order.
    fn record(&mut self, commands: &[Numbered<'_>], reports: &[Report]) -> Result<(), Unrecorded>
        ensures packets { OnOk result
            (Records (recorded self.old) (recorded self.new) commands.now reports.now) };
}

/// A writer that is open.
impl<T: Write + Drop> Capturing for Recorder<T> {
    ghost use Rattle.std.specs.Prelude.{Some};

    ghost recorded = { λ r. Some (T.contents r.tape, r.time) };

    fn begin(&mut self) -> Result<(), Unrecorded> {
        self.write_heading()
    }

    fn record(&mut self, commands: &[Numbered<'_>], reports: &[Report]) -> Result<(), Unrecorded> {
        self.write(commands, reports)
    }
}

/// A capture in a file that opens as the run begins.
#[derive(Drop)]
pub struct InFile<T: Drop> {
    pub recorder: Recorder<T>,
}

impl<T: Tape + Drop> Capturing for InFile<T> {
    ghost use Rattle.std.specs.Prelude.{Some};

    ghost recorded = { λ f. Some (T.contents f.recorder.tape, f.recorder.time) };

    fn begin(&mut self) -> Result<(), Unrecorded> {
        self.recorder.tape.open()?;
        self.recorder.write_heading()
    }

    fn record(&mut self, commands: &[Numbered<'_>], reports: &[Report]) -> Result<(), Unrecorded> {
        self.recorder.write(commands, reports)
    }
}

/// A capture, if one is wanted.
impl<C: Capturing> Capturing for Option<C> {
    ghost recorded = { λ o. recorded_if_any C.recorded o };

    fn begin(&mut self) -> Result<(), Unrecorded> {
        match self {
            Some(capture) => capture.begin(),
            None => Ok(()),
        }
    }

    fn record(&mut self, commands: &[Numbered<'_>], reports: &[Report]) -> Result<(), Unrecorded> {
        match self {
            Some(capture) => capture.record(commands, reports),
            None => Ok(()),
        }
    }
}

/// Where the lines of a run go, and its capture.
#[derive(Drop)]
pub struct Destination<L: Drop, C: Drop> {
    pub lines: L,
    pub capture: C,
}

impl<L: Write + Drop, C: Drop> Write for Destination<L, C> {
    ghost contents = { λ d. L.contents d.lines };

    fn write(&mut self, buf: &[u8]) -> io::Result<usize> {
        self.lines.write(buf)
    }

    fn flush(&mut self) -> io::Result<()> {
        self.lines.flush()
    }
}

impl<L: Write + Drop, C: Capturing + Drop> Printing for Destination<L, C> {
    ghost recorded = { λ d. C.recorded d.capture };

    fn print(&mut self, text: &[u8]) -> Result<(), Unwritten> {
        write_whole(&mut self.lines, text)
    }

    fn flush_lines(&mut self) -> io::Result<()> {
        self.lines.flush()
    }

    fn record(&mut self, commands: &[Numbered<'_>], reports: &[Report]) -> Result<(), Unrecorded> {
        self.capture.record(commands, reports)
    }
}

impl<L: Write + Drop, C: Capturing + Drop> Recording for Destination<L, C> {
    fn begin(&mut self) -> Result<(), Unrecorded> {
        self.capture.begin()
    }
}

/// A writer of lines that nobody reads.
#[derive(Clone, Copy)]
pub struct Unprinted;

impl Write for Unprinted {
    fn write(&mut self, buf: &[u8]) -> io::Result<usize> {
        Ok(buf.len())
    }

    fn flush(&mut self) -> io::Result<()> {
        Ok(())
    }
}
