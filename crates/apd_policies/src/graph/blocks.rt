//! Where blocks begin and end.

ghost use Rattle.std.specs.Prelude.{◌≡◌, ◌↔◌, ◌≤◌, ◌+◌, ◌<◌, ◌^◌, IsTrue};
ghost use Rattle.bpf_decode.specs.Flow.{size_of};
ghost use Rattle.apd_policies.specs.Blocks.{turns, turned_before, IsFirst, IsLast};

use bpf_decode::Program;
use bpf_insn::Insn;

/// Whether control may go elsewhere than to the next instruction: a jump, a branch, a local call or an exit.
pub(crate) fn turns(insn: &Insn) -> bool
    ensures is { result ≡ turns insn.now }
{
    matches!(
        insn,
        Insn::Jump { .. }
            | Insn::JumpLong { .. }
            | Insn::Branch { .. }
            | Insn::CallLocal { .. }
            | Insn::Exit
    )
}

/// The slot after an instruction, which has two slots if it is a wide load.
pub(crate) fn slot_after(slot: usize, insn: &Insn) -> usize
    requires small { slot ≤ 16384 }
    ensures is { result ≡ slot + size_of insn.now }
{
    match insn {
        Insn::LoadWide { .. } => slot + 2,
        _ => slot + 1,
    }
}

/// Whether the preceding slot holds an instruction that ends its block.
fn turned_before(program: &Program, slot: usize) -> bool
    ensures is { result ≡ turned_before program.now.slots slot }
{
    if slot == 0 {
        return false;
    }
    match program.insn_at(slot - 1) {
        Some(Some(insn)) => turns(&insn),
        Some(None) => false,
        None => false,
    }
}

/// Whether a slot is the first of a block, if an instruction starts there.
pub(crate) fn is_first(program: &Program, slot: usize) -> bool
    ensures is { IsTrue result ↔ IsFirst program.now.slots slot }
{
    program.is_target(slot) || turned_before(program, slot)
}

/// Whether the instruction at a slot is the last of its block.
pub(crate) fn is_last(program: &Program, slot: usize, insn: &Insn) -> bool
    requires small { slot ≤ 16384 }
    ensures is { IsTrue result ↔ IsLast program.now.slots slot insn.now }
{
    turns(insn) || program.is_target(slot_after(slot, insn))
}
