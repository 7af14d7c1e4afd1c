//! Laws of the grammar.

ghost use Rattle.std.specs.Prelude.{◌≡◌, ◌++◌, None, OnOk, MatchResult};
ghost use Rattle.mac_frame.specs.Elements.{CutsNone, ReadsElements};
ghost use Rattle.mac_frame.specs.Faults.{first_fault};
ghost use Rattle.mac_frame.specs.Spelling.{Frame, IsFrame, spelling};

use crate::fault::FrameFault;
use crate::frame::{MacFrame, parse, write};

/// Frames of the grammar and their spellings. The spelling of a frame has no fault, and no other frame has it. Bytes are
/// spelled by elements if and only if no element in them is cut; reading what elements spell gives these elements.
pub fn frames_are_spelled()
    ensures without_fault { (f : Frame) → IsFrame f → first_fault (spelling f) ≡ None }
    ensures one_frame { (f g : Frame) → IsFrame f → IsFrame g → spelling f ≡ spelling g → f ≡ g }
    ensures cut { CutsNone }
    ensures elements { ReadsElements }
{}

/// Reading the bytes that `write` appended gives the frame that was written, unless memory runs out.
pub fn written_is_read(frame: &MacFrame, out: &mut Vec<u8>) -> Result<MacFrame, FrameFault>
    ensures appended { OnOk result (out.new.items ≡ out.old.items ++ spelling frame.now) }
    ensures read { MatchResult result (λ read. read ≡ frame.now) (λ e. e ≡ FrameFault.Memory) }
{
    let alloc = *out.allocator();
    let start = out.len();
    write(frame, out)?;
    parse(alloc, &out[start..])
}
