//! Why programs are refused, in words.

ghost use Rattle.std.specs.Prelude.{◌≡◌};
ghost use Rattle.apd_c.specs.Explained.{CopiesText};
ghost use Rattle.apd_c.specs.Given.{IsAskable};

use crate::certificates::copied;
use crate::code::{hook_of, limit_of};
use crate::shapes::{MapShape, shapes_from};
use apd_text::{fault_text, reason_text};
use bpf_decode::{DecodeFault, decode};
use bpf_regions::Shapes;
use bpf_verifier::{Fault, StateLimit, explain_within};
use std::alloc::{AllocError, Global};

/// What the verifier finds of the program that the bytes spell, or why they spell none.
fn found(
    alloc: Global,
    bytes: &[u8],
    shapes: Shapes,
    limit: StateLimit,
) -> Result<String, AllocError> {
    let known = Vec::from_slice(alloc, shapes.as_slice())?;
    match decode(alloc, bytes, shapes) {
        Err(DecodeFault::NoMemory) => Err(AllocError),
        Err(fault) => fault_text(alloc, bytes, known.as_slice(), fault),
        Ok(program) => {
            let explanation = explain_within(alloc, &program, limit)?;
            match explanation.verdict {
                Err(refusal) if refusal.fault == Fault::NoMemory => Err(AllocError),
                _ => reason_text(alloc, &program, &explanation),
            }
        }
    }
}

/// Copies as much as fits of why `apd_c_verify_within` refuses the code, in lines of text, and returns how many bytes
/// the whole text has. It explores the program again, at the same cost. The lines say what the verifier knew at the
/// refused instruction, the way to it, and the fix most likely meant; or, of a program that is admitted, how many states
/// were examined, and where. Only tests show the text.
///
/// The text is empty if there is no such hook, if the shapes are out of their limits, or if an allocation failed.
#[unsafe(no_mangle)]
pub extern "C" fn apd_c_why(
    alloc: Global,
    hook: u32,
    bytes: &[u8],
    shapes: &[MapShape],
    states: u32,
    into: &mut [u8],
) -> usize
    ensures copied { CopiesText result into.old into.new }
    ensures limits { (IsAskable hook shapes.now → ⊥) → result ≡ 0 }
{
    let Some(_) = hook_of(hook) else {
        return 0;
    };
    let Ok(Some(shapes)) = shapes_from(alloc, shapes) else {
        return 0;
    };
    match found(alloc, bytes, shapes, limit_of(states)) {
        Err(_) => 0,
        Ok(text) => {
            let told = text.as_str().as_bytes();
            copied(told, into);
            told.len()
        }
    }
}
