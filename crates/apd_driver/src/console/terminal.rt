//! The console of the commands `apd run` and `apd live`.

ghost use Rattle.std.specs.Prelude.{◌≡◌};

use crate::Report;
use crate::captures::{Printing, Unrecorded};
use crate::console::console::Console;
use crate::console::notes::Notes;
use crate::manner::Manner;
use apd_files::Unwritten;
use apd_script::Numbered;
use std::io;
use std::io::{ErrorKind, Write};

/// Standard output, standard error, and the messages that go there.
#[derive(Drop)]
pub struct Terminal<'a, O: Drop, E> {
    pub out: O,
    pub err: &'a mut E,
    pub notes: Notes,
    pub manner: Manner,
    /// Whether a prompt on standard error asks for lines.
    pub prompts: bool,
    /// Whether all that was written is flushed.
    pub is_flushed: bool,
    /// Whether a write failed since nobody reads standard output any more.
    pub reader_left: bool,
}

impl<'a, O: Drop, E> Terminal<'a, O, E> {
    /// Remembers why a write failed.
    fn failed(&mut self, why: ErrorKind)
        ensures out { self.new.out ≡ self.old.out }
        ensures manner { self.new.manner ≡ self.old.manner }
    {
        self.is_flushed = false;
        self.reader_left = why == ErrorKind::BrokenPipe;
    }
}

impl<'a, O: Drop, E: Write> Terminal<'a, O, E> {
    /// Asks whoever types for a line.
    fn prompt(&mut self)
        ensures out { self.new.out ≡ self.old.out }
        ensures manner { self.new.manner ≡ self.old.manner }
        ensures flushed { self.new.is_flushed ≡ self.old.is_flushed }
    {
        if self.prompts {
            let _ = self.err.write_all(b"> ");
            let _ = self.err.flush();
        }
    }
}

impl<'a, O: Write + Drop, E: Write> Write for Terminal<'a, O, E> {
    ghost contents = { λ t. O.contents t.out };

    fn write(&mut self, buf: &[u8]) -> io::Result<usize> {
        match self.out.write(buf) {
            Ok(count) => {
                self.is_flushed = false;
                Ok(count)
            }
            Err(error) => {
                self.failed(error.kind());
                Err(error)
            }
        }
    }

    fn flush(&mut self) -> io::Result<()> {
        self.out.flush()
    }
}

impl<'a, O: Printing + Drop, E: Write> Printing for Terminal<'a, O, E> {
    ghost recorded = { λ t. O.recorded t.out };

    fn print(&mut self, text: &[u8]) -> Result<(), Unwritten> {
        self.is_flushed = false;
        match self.out.print(text) {
            Ok(()) => Ok(()),
            Err(why) => {
                self.failed(why.0);
                Err(why)
            }
        }
    }

    fn flush_lines(&mut self) -> io::Result<()> {
        self.out.flush_lines()
    }

    fn record(&mut self, commands: &[Numbered<'_>], reports: &[Report]) -> Result<(), Unrecorded> {
        match self.out.record(commands, reports) {
            Ok(()) => Ok(()),
            Err(why) => {
                self.reader_left = matches!(why, Unrecorded::Unwritten(ErrorKind::BrokenPipe));
                Err(why)
            }
        }
    }
}

impl<'a, O: Printing + Drop, E: Write> Console for Terminal<'a, O, E> {
    ghost manner = { λ t. t.manner };

    ghost is_flushed = { λ t. t.is_flushed };

    fn how(&self) -> Manner {
        self.manner
    }

    fn flush_all(&mut self) -> io::Result<()> {
        match self.out.flush_lines() {
            Ok(()) => {
                self.is_flushed = true;
                self.prompt();
                Ok(())
            }
            Err(error) => {
                self.failed(error.kind());
                Err(error)
            }
        }
    }

    fn tell(&mut self, commands: &[Numbered<'_>], reports: &[Report]) {
        self.notes.tell(&mut *self.err, commands, reports);
    }
}

impl<'a, O: Drop, E: Write> Terminal<'a, O, E> {
    /// Writes the last messages of a run, and returns standard output.
    pub fn end(self) -> O
        ensures { result ≡ self.entry.out }
    {
        let Terminal {
            out,
            err,
            notes,
            ..
        } = self;
        notes.end(err);
        out
    }
}
