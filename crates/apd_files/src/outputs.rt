//! Writing a text to a writer.
//!
//! Main call: `write_whole`. It depends only on std. No contract says what a file or a terminal does with the bytes.
ghost use Rattle.std.specs.Prelude.{OnOk};
ghost use Rattle.std.specs.Io.KnownBytes.{Appends};
ghost use Rattle.apd_files.specs.Beginning.{AppendsBeginning};

use std::io::{ErrorKind, Write};

/// A writer stopped taking bytes before the end of the text, for this reason.
#[derive(Clone, Copy, Debug, PartialEq, Eq)]
pub struct Unwritten(pub ErrorKind);

/// Writes the text in as many writes as the writer needs. `Ok` says that the whole text was appended; otherwise a
/// prefix of it was. An interrupted write is repeated; any other failure, or a write that takes no bytes, ends the
/// call.
pub fn write_whole<W: Write>(writer: &mut W, text: &[u8]) -> Result<(), Unwritten>
    ensures whole { OnOk result (Appends (W.contents writer.old) (W.contents writer.new) text.now) }
    ensures beginning { AppendsBeginning (W.contents writer.old) (W.contents writer.new) text.now }
{
    let mut rest = text;
    for _ in 0..u64::MAX {
        if rest.is_empty() {
            return Ok(());
        }
        match writer.write(rest) {
            Ok(0) => return Err(Unwritten(ErrorKind::WriteZero)),
            Ok(count) => rest = &rest[count..],
            Err(error) => {
                if error.kind() != ErrorKind::Interrupted {
                    return Err(Unwritten(error.kind()));
                }
            }
        }
    }
    Err(Unwritten(ErrorKind::Interrupted))
}
