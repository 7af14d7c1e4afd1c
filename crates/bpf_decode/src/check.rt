//! The faults of one instruction at its slot.

ghost use Rattle.std.specs.Prelude.{◌≡◌, ◌<◌, ◌≤◌, ◌+◌, ◌↔◌, ℤ, ℕ, Bool, false, IsTrue, IfNone, IfSome, Some, length, slice_index_or};
ghost use Rattle.bpf_decode.specs.Flow.{HasByte, KnowsHelper, KnowsMap, ends, jump_of, size_of, written};
ghost use Rattle.bpf_decode.specs.Code.{JumpsInside, Leads, RuleFault, count, starts};
ghost use Rattle.bpf_decode.specs.Checks.{lowest_fault};
ghost use Rattle.bpf_decode.specs.Answer.{slot_number};

use crate::fault::SlotFault;
use crate::flow::{is_end, jump_offset, jump_target, slot_count, written_register};
use bpf_insn::{Insn, Wide};
use bpf_regions::Shapes;

/// Whether the helper, if the instruction calls one, is one of 1 to 5.
fn knows_helper(insn: &Insn) -> bool
    ensures is { IsTrue result ↔ KnowsHelper insn.now }
{
    match insn {
        Insn::Call { helper } => *helper >= 1 && *helper <= 5,
        _ => true,
    }
}

/// Whether the map exists, with entries longer than `offset`.
fn has_byte(shapes: &Shapes, map: u32, offset: u32) -> bool
    ensures is { IsTrue result ↔ HasByte shapes.now map offset }
{
    match shapes.get(map) {
        Some(shape) => offset < shape.entry_bytes(),
        None => false,
    }
}

/// Whether the map that the instruction names, if any, exists, and the offset is within its first entry.
fn knows_map(shapes: &Shapes, insn: &Insn) -> bool
    ensures is { IsTrue result ↔ KnowsMap shapes.now insn.now }
{
    match insn {
        Insn::LoadWide { value, .. } => match *value {
            Wide::Number(_) => true,
            Wide::Map(map) => (map as usize) < shapes.len(),
            Wide::MapValue { map, offset } => has_byte(shapes, map, offset),
        },
        _ => true,
    }
}

/// Whether a jump by `by` leads to the start of an instruction.
fn leads(code: &[u8], heads: &[bool], at: usize, by: i32) -> bool
    requires count { length heads.now ≡ count code.now }
    requires small { count code.now ≤ 16384 }
    requires place { at < count code.now }
    requires heads { (k : ℕ) → k < length heads.now →
        slice_index_or heads.now k false ≡ starts code.now k }
    ensures is { IsTrue result ↔ Leads code.now at by }
{
    match jump_target(at, by) {
        Some(target) => target < heads.len() && heads[target],
        None => false,
    }
}

/// Whether the instruction's jump, if any, leads to the start of an instruction.
fn jumps_inside(code: &[u8], heads: &[bool], at: usize, insn: &Insn) -> bool
    requires count { length heads.now ≡ count code.now }
    requires small { count code.now ≤ 16384 }
    requires place { at < count code.now }
    requires heads { (k : ℕ) → k < length heads.now →
        slice_index_or heads.now k false ≡ starts code.now k }
    ensures is { IsTrue result ↔ JumpsInside code.now at (jump_of insn.now) }
{
    match jump_offset(insn) {
        Some(by) => leads(code, heads, at, by),
        None => true,
    }
}

/// Whether the instruction is the last, and execution continues past the end.
fn goes_past_end(heads: &[bool], at: usize, insn: &Insn) -> bool
    requires place { at < length heads.now }
    ensures is { IsTrue result
        ↔ ((at + size_of insn.now ≡ length heads.now) × (ends insn.now ≡ false)) }
{
    at + slot_count(insn) == heads.len() && !is_end(insn)
}

fn writes_frame(insn: &Insn) -> bool
    ensures is { IsTrue result ↔ (written insn.now ≡ Some 10) }
{
    match written_register(insn) {
        Some(register) => register == 10,
        None => false,
    }
}

/// The fault with the lowest number.
fn lowest(astray: bool, past: bool, frame: bool, helper: bool, map: bool) -> Option<SlotFault>
    ensures is { result ≡ lowest_fault astray past frame helper map }
{
    if astray {
        Some(SlotFault::JumpAstray)
    } else if past {
        Some(SlotFault::PastEnd)
    } else if frame {
        Some(SlotFault::FrameWritten)
    } else if helper {
        Some(SlotFault::UnknownHelper)
    } else if map {
        Some(SlotFault::UnknownMap)
    } else {
        None
    }
}

/// The lowest of the faults 15 to 19 of the instruction at a slot, if it has any.
pub(crate) fn rule_fault(
    code: &[u8],
    heads: &[bool],
    shapes: &Shapes,
    at: usize,
    insn: &Insn,
) -> Option<SlotFault>
    requires count { length heads.now ≡ count code.now }
    requires small { count code.now ≤ 16384 }
    requires place { at < count code.now }
    requires heads { (k : ℕ) → k < length heads.now →
        slice_index_or heads.now k false ≡ starts code.now k }
    ensures none { IfNone result ((n : ℕ) → RuleFault code.now shapes.now at insn.now n → ⊥) }
    ensures some { IfSome result (λ e. RuleFault code.now shapes.now at insn.now (slot_number e)) }
    ensures least { IfSome result
        (λ e. (m : ℕ) → RuleFault code.now shapes.now at insn.now m → slot_number e ≤ m) }
{
    let inside = jumps_inside(code, heads, at, insn);
    let past = goes_past_end(heads, at, insn);
    let frame = writes_frame(insn);
    let helper = knows_helper(insn);
    let map = knows_map(shapes, insn);
    lowest(!inside, past, frame, !helper, !map)
}
