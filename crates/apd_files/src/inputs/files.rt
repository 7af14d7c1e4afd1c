//! Access to files.

ghost use Rattle.std.specs.Prelude.{◌≡◌, ◌⊎◌, ◌≤◌, ℕ, List, Some, None, IfOk, IfErr, OnOk, IfSome, length};
ghost use Rattle.std.specs.declared.option.Option.{Option};
ghost use Rattle.apd_files.specs.Kinds.{most_of};
ghost use Rattle.apd_files.specs.Held.{Holds, IsUnopened, IsUnread, Saved, Saves, path_of};
ghost use Rattle.apd_files.specs.Reading.{Opens, Gives};

use crate::outputs::Unwritten;
use std::alloc::{AllocError, Global};
use std::fmt::Write;
use std::io::ErrorKind;
use thiserror::Error;

/// Why a file wasn't read. Its text explains it to people.
#[derive(Clone, Copy, Debug, PartialEq, Eq, Error)]
pub enum FileFault {
    #[error("there is no such file")]
    Missing,
    #[error("it is a directory")]
    Directory,
    #[error("it is not allowed")]
    NotAllowed,
    /// The system gives another reason.
    #[error("reading failed")]
    Failed,
    /// It is standard input, which was already opened.
    #[error("standard input is read once")]
    Taken,
    /// It has more bytes than this limit for its kind.
    #[error("it has more than {0} bytes")]
    TooLong(u64),
    #[error("out of memory")]
    NoMemory,
}

/// What a file is read for, which determines how much of it may be read.
#[derive(Clone, Copy, Debug, PartialEq, Eq)]
pub enum FileKind {
    /// A configuration: 1 MiB.
    Configuration,
    /// Code in hex digits, with white space: 1 GiB, of which only as much is kept as can matter.
    Code,
    /// A certificate in hex digits: 256 MiB.
    Certificate,
    /// Assembler text: 16 MiB.
    Text,
    /// A capture: 1 GiB.
    Capture,
    /// A script: 1 GiB. It is read whole, since it is parsed before its first event.
    Script,
}

impl FileKind {
    /// The most bytes that a file of this kind may have.
    pub fn most(self) -> u64
        ensures { result ≡ most_of self }
    {
        match self {
            FileKind::Configuration => 1 << 20,
            FileKind::Certificate => 1 << 28,
            FileKind::Text => 1 << 24,
            FileKind::Code | FileKind::Capture | FileKind::Script => 1 << 30,
        }
    }
}

/// Files that are read one at a time and block by block, and written whole.
pub trait Files {
    // What is known of the file at a path: nothing, its bytes, or that it can't be read.
    ghost held: { Self → List ℕ → Option (Option (List ℕ)) } = { λ _ _. None };

    // What is known of the unread part of the open file: nothing, or its bytes.
    ghost left: { Self → Option (List ℕ) } = { λ _. None };

    // The files that were written, if known.
    ghost saved: { Self → Saved } = { λ _. None };

    /// Opens the file at the path, and closes the one that was open. No file changes. The path `-` is standard input if
    /// there is one. If the file is known to exist, only lack of memory is a fault.
    fn open(&mut self, path: &str) -> Result<(), FileFault>
        ensures ok { OnOk result (Opens (held self.old path.now) (left self.new)) }
        ensures fault { IfErr result (λ e. IfSome (held self.old path.now) (IsUnopened e)) }
        ensures same { held self.new ≡ held self.old };

    /// The next bytes of the open file; none only at its end. If the rest of the file is known, only lack of memory is
    /// a fault.
    fn next_block(&mut self) -> Result<Vec<u8>, FileFault>
        ensures ok { IfOk result (λ block. Gives block.items (left self.old) (left self.new)) }
        ensures fault { IfErr result (λ e. (e ≡ FileFault.NoMemory) ⊎ (left self.old ≡ None)) }
        ensures same { held self.new ≡ held self.old };

    /// Writes a file of these bytes, in place of an existing one. After a failure nothing is known of it. Files that
    /// can't be written return an error.
    fn save(&mut self, path: &str, bytes: &[u8]) -> Result<(), Unwritten>
        ensures saved { OnOk result (Saves path.now bytes.now (saved self.old) (saved self.new)) }
    {
        Err(Unwritten(ErrorKind::Unsupported))
    }
}

/// The bytes of the file at the path. `TooLong`: there are more than its kind may have; reading then stops at the first
/// block beyond them. No file changes.
pub fn read_whole<F: Files>(
    alloc: Global,
    path: &str,
    kind: FileKind,
    files: &mut F,
) -> Result<Vec<u8>, FileFault>
    ensures ok { IfOk result (λ bytes. Holds (F.held files.old) path.now bytes.items) }
    ensures short { IfOk result (λ bytes. length bytes.items ≤ most_of kind) }
    ensures unread { IfErr result (λ e. IfSome (F.held files.old path.now) (IsUnread kind e)) }
    ensures same { F.held files.new ≡ F.held files.old }
{
    let most = kind.most();
    files.open(path)?;
    let mut bytes = Vec::new(alloc);
    while bytes.len() as u64 <= most {
        let block = files.next_block()?;
        if block.is_empty() {
            return Ok(bytes);
        }
        if bytes.extend_from_slice(block.as_slice()).is_err() {
            return Err(FileFault::NoMemory);
        }
    }
    Err(FileFault::TooLong(most))
}

/// The path of the file that a word of a script names: `-` there is an ordinary file name.
pub fn path_of_word(word: &str) -> &str
    ensures is { result.now ≡ path_of word.now }
{
    if word == "-" { "./-" } else { word }
}

/// A path as messages show it: control characters are escaped.
pub fn shown(alloc: Global, path: &str) -> Result<String, AllocError> {
    let mut text = String::new(alloc);
    for character in path.chars() {
        if character.is_control() {
            write!(text, "{}", character.escape_debug())?;
        } else {
            text.push(character)?;
        }
    }
    Ok(text)
}
