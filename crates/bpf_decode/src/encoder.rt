//! Bytes from programs.

ghost use Rattle.std.specs.Prelude.{◌≡◌, ◌<◌, ◌*◌, ℕ, List, IfOk, None, Some, length, slice_get};
ghost use Rattle.bpf_insn.specs.Spelled.{IsInsn};
ghost use Rattle.bpf_insn.specs.declared.insn.Insn.{Insn};
ghost use Rattle.bpf_decode.specs.Code.{count, slot};
ghost use Rattle.bpf_decode.specs.Program.{Code, Holds, IsTable, Spells};

use crate::program::Program;
use bpf_insn::{Insn, Source};
use std::alloc::{AllocError, Global};

/// The second half of the wide load that starts just before a slot.
fn half_bytes(slots: &[Option<Insn>], at: usize) -> [u8; 8]
    requires insns { (k : ℕ) (i : Insn) → Holds slots.now k i → IsInsn i }
    requires place { at < length slots.now }
    requires half { slice_get slots.now at ≡ Some None }
    ensures is { (bytes : List ℕ) → IsTable bytes slots.now (count bytes) → result ≡ slot bytes at }
{
    if at == 0 {
        return [0; 8];
    }
    match slots[at - 1] {
        Some(insn) => insn.to_slots().1.unwrap_or([0; 8]),
        None => [0; 8],
    }
}

fn slot_bytes(slots: &[Option<Insn>], at: usize) -> [u8; 8]
    requires insns { (k : ℕ) (i : Insn) → Holds slots.now k i → IsInsn i }
    requires place { at < length slots.now }
    ensures is { (bytes : List ℕ) → IsTable bytes slots.now (count bytes) → result ≡ slot bytes at }
{
    match slots[at] {
        Some(insn) => insn.to_slots().0,
        None => half_bytes(slots, at),
    }
}

fn bytes_of(alloc: Global, slots: &[Option<Insn>]) -> Result<Vec<u8>, AllocError>
    requires insns { (k : ℕ) (i : Insn) → Holds slots.now k i → IsInsn i }
    ensures is { IfOk result (λ v. (bytes : List ℕ) → IsTable bytes slots.now (count bytes) →
        length bytes ≡ 8 * count bytes → v.items ≡ bytes) }
{
    // Names a type inside instructions, which the check needs.
    let _source: Option<Source> = None;
    let mut bytes = Vec::new(alloc);
    for at in 0..slots.len() {
        bytes.extend_from_slice(&slot_bytes(slots, at))?;
    }
    Ok(bytes)
}

/// The bytes that spell the program: those that it was decoded from.
pub fn encode(alloc: Global, program: &Program) -> Result<Vec<u8>, AllocError>
    ensures spelled { IfOk result (λ v. Spells v.items program.now) }
{
    program.whole();
    bytes_of(alloc, program.slots())
}

/// Different bytes spell different programs, and bytes spell at most one program for given shapes. So `encode` returns
/// the bytes that `decode` was given.
pub fn spelling_law()
    ensures one_text { (a b : List ℕ) (c : Code) → Spells a c → Spells b c → a ≡ b }
    ensures one_program { (a : List ℕ) (c d : Code) → Spells a c → Spells a d →
        c.shapes ≡ d.shapes → c ≡ d }
{}
