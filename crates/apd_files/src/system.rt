//! The files of the system.
ghost use Rattle.std.specs.Prelude.{◌≡◌, true, Err};

use crate::inputs::{FileFault, Files};
use crate::outputs::{Unwritten, write_whole};
use crate::tapes::{Tape, Tapes};
use std::alloc::{AllocError, Global};
use std::io::{self, Error, ErrorKind, Input, Read, Write};
use std::{fs, rt};

const BLOCK: usize = 1 << 16;

/// The files of the system, relative to the working directory, at most one of which is open. The path `-` is standard
/// input, which opens once. Nothing is known of what they hold.
#[derive(Drop)]
pub struct RealFiles<'a, R: rt::Files + Input + AllocGlobal> {
    rt: &'a R,
    open: Option<R::File>,
    input: Option<R::Reader>,
    input_is_taken: bool,
}

impl<'a, R: rt::Files + Input + AllocGlobal> RealFiles<'a, R> {
    /// The files; none is open.
    pub fn new(rt: &'a R) -> Self {
        RealFiles {
            rt,
            open: None,
            input: None,
            input_is_taken: false,
        }
    }

    /// Opens standard input, unless it was opened earlier: then `Taken`.
    fn open_input(&mut self) -> Result<(), FileFault>
        ensures taken { self.new.input_is_taken ≡ true }
        ensures once { self.old.input_is_taken ≡ true → result ≡ Err FileFault.Taken }
    {
        if self.input_is_taken {
            return Err(FileFault::Taken);
        }
        self.input_is_taken = true;
        self.open = None;
        self.input = Some(self.rt.reader());
        Ok(())
    }

    fn open_file(&mut self, path: &str) -> Result<(), FileFault> {
        match fs::open(self.rt, path) {
            Ok(file) => {
                self.open = Some(file);
                self.input = None;
                Ok(())
            }
            Err(error) => Err(fault_of(&error)),
        }
    }
}

/// Why the system didn't read a file.
fn fault_of(error: &Error) -> FileFault {
    match error.kind() {
        ErrorKind::OutOfMemory => FileFault::NoMemory,
        ErrorKind::NotFound => FileFault::Missing,
        ErrorKind::IsADirectory => FileFault::Directory,
        ErrorKind::PermissionDenied => FileFault::NotAllowed,
        _ => FileFault::Failed,
    }
}

/// The next bytes of a reader, none at its end. An interrupted read is repeated.
pub fn block_of<F: Read>(alloc: Global, file: &mut F) -> Result<Vec<u8>, FileFault> {
    let Ok(mut block) = vec![in alloc; 0u8; BLOCK] else {
        return Err(FileFault::NoMemory);
    };
    for _ in 0..u64::MAX {
        match file.read(block.as_mut_slice()) {
            Ok(count) => {
                block.truncate(count);
                return Ok(block);
            }
            Err(error) => {
                if error.kind() != ErrorKind::Interrupted {
                    return Err(fault_of(&error));
                }
            }
        }
    }
    Err(FileFault::Failed)
}

impl<R: rt::Files + Input + AllocGlobal> Files for RealFiles<'_, R> {
    fn open(&mut self, path: &str) -> Result<(), FileFault> {
        if path == "-" {
            return self.open_input();
        }
        self.open_file(path)
    }

    fn next_block(&mut self) -> Result<Vec<u8>, FileFault> {
        if let Some(file) = &mut self.open {
            return block_of(self.rt.alloc(), file);
        }
        match &mut self.input {
            Some(input) => block_of(self.rt.alloc(), input),
            None => Err(FileFault::Failed),
        }
    }

    fn save(&mut self, path: &str, bytes: &[u8]) -> Result<(), Unwritten> {
        match fs::create(self.rt, path) {
            Ok(mut file) => write_whole(&mut file, bytes),
            Err(error) => Err(Unwritten(error.kind())),
        }
    }
}

/// A file of the system that is written as its bytes come. Nothing is known of what it holds.
#[derive(Drop)]
pub struct RealTape<'a, R: rt::Files> {
    rt: &'a R,
    path: String,
    replaces: bool,
    file: Option<R::File>,
}

impl<R: rt::Files> Write for RealTape<'_, R> {
    fn write(&mut self, buf: &[u8]) -> io::Result<usize> {
        match &mut self.file {
            Some(file) => file.write(buf),
            None => Err(Error::from(ErrorKind::NotFound)),
        }
    }

    fn flush(&mut self) -> io::Result<()> {
        match &mut self.file {
            Some(file) => file.flush(),
            None => Ok(()),
        }
    }
}

impl<R: rt::Files> Tape for RealTape<'_, R> {
    fn open(&mut self) -> Result<(), Unwritten> {
        let made = if self.replaces {
            fs::create(self.rt, self.path.as_str())
        } else {
            fs::File::create_new(self.rt, self.path.as_str())
        };
        match made {
            Ok(file) => {
                self.file = Some(file);
                Ok(())
            }
            Err(error) => Err(Unwritten(error.kind())),
        }
    }
}

impl<'a, R: rt::Files + Input + AllocGlobal> Tapes for RealFiles<'a, R> {
    type Tape = RealTape<'a, R>;

    fn tape(&self, path: &str, replaces: bool) -> Result<RealTape<'a, R>, AllocError> {
        let path = String::from_str(self.rt.alloc(), path)?;
        Ok(RealTape {
            rt: self.rt,
            path,
            replaces,
            file: None,
        })
    }
}
