//! Where control goes after an instruction.

ghost use Rattle.std.specs.Prelude.{◌≡◌, ◌<◌, ◌≤◌, ◌^◌, ℕ, IfSome, IfNone};
ghost use Rattle.bpf_decode.specs.Flow.{IsJump, ends, fetches, jump_of, size_of, written};

use bpf_insn::{AtomicOp, Insn};

/// The offset of a jump, branch or local call.
pub(crate) fn jump_offset(insn: &Insn) -> Option<i32>
    ensures is { result ≡ jump_of insn.now }
{
    match insn {
        Insn::Jump { offset } => Some(i32::from(*offset)),
        Insn::JumpLong { offset } => Some(*offset),
        Insn::Branch { offset, .. } => Some(i32::from(*offset)),
        Insn::CallLocal { offset } => Some(*offset),
        _ => None,
    }
}

/// The target of a jump: its own slot + 1 + its offset. `None` if that is below 0.
pub fn jump_target(at: usize, by: i32) -> Option<usize>
    requires small { at < 2 ^ 32 }
    ensures some { IfSome result (λ t. IsJump at by t) }
    ensures none { IfNone result ((t : ℕ) → IsJump at by t → ⊥) }
{
    let target = at as i64 + 1 + i64::from(by);
    if target < 0 {
        None
    } else {
        Some(target as usize)
    }
}

/// The number of slots of an instruction: 2 for a wide load, else 1.
pub(crate) fn slot_count(insn: &Insn) -> usize
    ensures is { result ≡ size_of insn.now }
    ensures small { result ≤ 2 }
{
    match insn {
        Insn::LoadWide { .. } => 2,
        _ => 1,
    }
}

/// Whether this is an exit or an unconditional jump, from which the next instruction isn't reached.
pub(crate) fn is_end(insn: &Insn) -> bool
    ensures is { result ≡ ends insn.now }
{
    matches!(insn, Insn::Exit | Insn::Jump { .. } | Insn::JumpLong { .. })
}

fn is_fetch(op: AtomicOp) -> bool
    ensures is { result ≡ fetches op }
{
    matches!(
        op,
        AtomicOp::FetchAdd
            | AtomicOp::FetchOr
            | AtomicOp::FetchAnd
            | AtomicOp::FetchXor
            | AtomicOp::Xchg
    )
}

/// The register that an instruction names and writes. (Calls and CMPXCHG write R0 without naming it.)
pub(crate) fn written_register(insn: &Insn) -> Option<u8>
    ensures is { result ≡ written insn.now }
{
    match insn {
        Insn::Alu { dst, .. } => Some(dst.number()),
        Insn::MovSx { dst, .. } => Some(dst.number()),
        Insn::Neg { dst, .. } => Some(dst.number()),
        Insn::End { dst, .. } => Some(dst.number()),
        Insn::Load { dst, .. } => Some(dst.number()),
        Insn::LoadWide { dst, .. } => Some(dst.number()),
        Insn::Atomic { op, src, .. } => {
            if is_fetch(*op) {
                Some(src.number())
            } else {
                None
            }
        }
        _ => None,
    }
}
