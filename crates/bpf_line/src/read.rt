//! The instruction of a line.

ghost use Rattle.std.specs.Prelude.{◌≡◌, IfOk, IfSome};
ghost use Rattle.bpf_insn.specs.Spelled.{IsInsn};
ghost use Rattle.bpf_line.specs.Lines.{line_said};

use crate::fault::LineFault;
use crate::lines::read_words;
use crate::words::cut_words;
use bpf_insn::Insn;

/// Reads a line of text without its line feed: an instruction, or `None` if it has only spaces and a comment. Fault 20
/// if it isn't in the grammar, else 21 if a number is out of range.
pub fn read_line(line: &str) -> Result<Option<Insn>, LineFault>
    ensures is { result ≡ line_said line.now }
    ensures valid { IfOk result (λ said. IfSome said IsInsn) }
{
    let mut words = [""; 6];
    match cut_words(line, &mut words) {
        Some(0) => Ok(None),
        Some(count) => match read_words(&words[..count]) {
            Ok(insn) => Ok(Some(insn)),
            Err(fault) => Err(fault),
        },
        None => Err(LineFault::Grammar),
    }
}
