//! Files that are written as their bytes come.
//!
//! Main traits: `Tapes`, from which a `Tape` comes by its path, and `Tape`, which opens once and then takes bytes. No
//! contract says what a file does with the bytes.
ghost use Rattle.std.specs.Prelude.{OnOk};
ghost use Rattle.apd_files.specs.Tapes.{IsEmpty};

use crate::outputs::Unwritten;
use std::alloc::AllocError;
use std::io::Write;

/// A file that takes bytes at its end, once it is open.
pub trait Tape: Write {
    /// Makes the file, without bytes.
    fn open(&mut self) -> Result<(), Unwritten>
        ensures empty { OnOk result (IsEmpty (Self.contents self.new)) };
}

/// Where tapes come from.
pub trait Tapes {
    type Tape: Tape + Drop;

    /// The tape of a path, which isn't open. If a file exists there, `replaces` says whether opening the tape puts an empty
    /// file in its place, or is refused with `AlreadyExists`.
    fn tape(&self, path: &str, replaces: bool) -> Result<Self::Tape, AllocError>;
}
