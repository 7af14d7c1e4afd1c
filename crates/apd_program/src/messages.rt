//! Writing help texts and messages.

ghost use Rattle.std.specs.Prelude.{◌≡◌};
ghost use Rattle.apd_program.specs.Printed.{PrintsText, fault_status};

use crate::fault::ProgramFault;
use apd_files::{Unwritten, shown, write_whole};
use std::alloc::{AllocError, Global};
use std::io::{ErrorKind, Write};

/// The message if memory ran out. It is a constant, since making a text takes memory.
pub(crate) const NO_MEMORY: &str = "apd: out of memory\n";

/// Prints a text that was asked for, such as help, and returns the status: 0, or 2 if a write failed.
pub(crate) fn print_text<W: Write, E: Write>(
    alloc: Global,
    text: &str,
    out: &mut W,
    err: &mut E,
) -> u8
    ensures is { PrintsText text.now (W.contents out.old) (W.contents out.new) result }
{
    match write_whole(out, text.as_bytes()) {
        Ok(()) => 0,
        Err(Unwritten(why)) => unwritten(alloc, why, err),
    }
}

/// Reports why a write failed, and returns the status 2.
pub(crate) fn unwritten<E: Write>(alloc: Global, why: ErrorKind, err: &mut E) -> u8
    ensures is { result ≡ 2 }
{
    if let Ok(text) = format!(in alloc; "apd: cannot write: {why}\n") {
        say(text.as_str(), err);
    }
    2
}

/// Reports why a file can't be written, and returns 2.
pub(crate) fn unsaved<E: Write>(alloc: Global, path: &str, why: ErrorKind, err: &mut E) -> u8
    ensures is { result ≡ 2 }
{
    let Ok(path) = shown(alloc, path) else {
        say(NO_MEMORY, err);
        return 2;
    };
    let told = match why {
        ErrorKind::NotFound => format!(in alloc;
            "apd: cannot write {path}: there is no such folder\n"
        ),
        ErrorKind::PermissionDenied => format!(in alloc;
            "apd: cannot write {path}: it is not allowed\n"
        ),
        _ => format!(in alloc; "apd: cannot write {path}: {why}\n"),
    };
    if let Ok(text) = told {
        say(text.as_str(), err);
    }
    2
}

/// Writes as much of a text as the writer takes.
pub(crate) fn say<W: Write>(text: &str, writer: &mut W) {
    let _ = write_whole(writer, text.as_bytes());
}

/// Writes a text if there is one.
pub(crate) fn say_if_any<W: Write>(text: &Result<Option<String>, AllocError>, writer: &mut W) {
    if let Ok(Some(text)) = text {
        say(text.as_str(), writer);
    }
}

/// Reports a fault, and returns its status, even if the write fails: 3 if memory ran out, otherwise 2.
pub fn complain<W: Write>(alloc: Global, fault: &ProgramFault, err: &mut W) -> u8
    ensures is { result ≡ fault_status fault.now }
{
    match fault {
        ProgramFault::NoMemory => {
            say(NO_MEMORY, err);
            3
        }
        _ => {
            if let Ok(text) = format!(in alloc; "{fault}\n") {
                say(text.as_str(), err);
            }
            2
        }
    }
}
