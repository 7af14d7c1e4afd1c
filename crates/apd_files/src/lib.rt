//! The files of `apd`: code, certificates and others, read whole or by blocks, and written outputs.
//!
//! Main calls: `read_code`, `read_certificate` and `read_whole` read a file, and `write_whole` writes to a writer. The
//! commands access files by the trait `Files`, and write one as its bytes come by a `Tape`; `RealFiles` are the system's,
//! read in blocks of 64 KiB. No contract says what those hold: programs that the gate runs show that they are really read
//! and written.
#![tactic(auto)]

mod inputs;
mod outputs;
mod system;
mod tapes;

pub use inputs::{
    CodeFault, DigitFault, FileFault, FileKind, Files, path_of_word, read_certificate, read_code,
    read_whole, shown,
};
pub use outputs::{Unwritten, write_whole};
pub use system::{RealFiles, RealTape, block_of};
pub use tapes::{Tape, Tapes};
