//! Where the lines of a run go, and its capture.

ghost use Rattle.std.specs.Prelude.{◌≡◌, ◌==◌, true, false, IfOk, IfErr};
ghost use Rattle.apd_words.specs.Asked.{text_of};
ghost use Rattle.apd_entry.specs.Captured.{is_in_place};

use apd_driver::{Destination, InFile, Recorder, Unprinted};
use apd_files::Tapes;
use apd_words::CaptureWords;
use std::alloc::Global;
use std::io::Write;

/// Lines, and perhaps a capture in a file.
pub(crate) type Beside<O, T> = Destination<O, Option<InFile<T>>>;

/// A capture in the place of the lines.
pub(crate) type InPlace<O> = Destination<Unprinted, Recorder<O>>;

/// Whether a capture goes to standard output, in the place of the lines.
pub(crate) fn is_in_place(capture: CaptureWords<'_>) -> bool
    ensures is { result ≡ is_in_place (text_of capture.entry.path) }
{
    match capture.path {
        Some(path) => path == "-",
        None => false,
    }
}

/// A capture that goes to `out`.
pub(crate) fn in_place<O: Write + Drop>(alloc: Global, out: O) -> InPlace<O>
    ensures tape { result.capture.tape ≡ out }
    ensures time { result.capture.time ≡ 0 }
{
    Destination {
        lines: Unprinted,
        capture: Recorder::new(alloc, out),
    }
}

/// Lines that go to `out`, and a capture beside them in a file, if one is named. Err: there is no memory for its path.
pub(crate) fn beside<F: Tapes, O: Write + Drop>(
    alloc: Global,
    capture: CaptureWords<'_>,
    files: &F,
    out: O,
) -> Result<Beside<O, F::Tape>, O>
    ensures lines { IfOk result (λ d. d.lines ≡ out) }
    ensures same { IfErr result (λ back. back ≡ out) }
{
    let Some(path) = capture.path else {
        return Ok(Destination {
            lines: out,
            capture: None,
        });
    };
    match files.tape(path, capture.replaces) {
        Ok(tape) => {
            let recorder = Recorder::new(alloc, tape);
            Ok(Destination {
                lines: out,
                capture: Some(InFile { recorder }),
            })
        }
        Err(_) => Err(out),
    }
}
