//! Programs from bytes.

ghost use Rattle.std.specs.Prelude.{◌≡◌, ◌≢◌, ◌<◌, ◌≤◌, ℕ, Bool, false, IfOk, IfErr, length, slice_index_or};
ghost use Rattle.bpf_decode.specs.Code.{FaultAt, IsLowest, WellFormed, count, starts};
ghost use Rattle.bpf_decode.specs.Program.{IsEntry, IsTable, Spells};
ghost use Rattle.bpf_decode.specs.Answer.{FindsFirst, Refuses, slot_number};
ghost use Rattle.bpf_decode.specs.declared.fault.DecodeFault.TheVariants.{NoMemory};

use crate::check::rule_fault;
use crate::fault::{DecodeFault, SlotFault};
use crate::program::Program;
use crate::slots::{slot_after, slot_in, starts_of};
use crate::targets::targets_of;
use bpf_insn::{Insn, Source};
use bpf_regions::Shapes;
use std::alloc::{AllocError, AllocFailed, Global};

/// The instruction that starts at a slot, if any, or the slot's lowest fault.
fn entry_at(
    code: &[u8],
    heads: &[bool],
    shapes: &Shapes,
    at: usize,
) -> Result<Option<Insn>, SlotFault>
    requires count { length heads.now ≡ count code.now }
    requires small { count code.now ≤ 16384 }
    requires place { at < count code.now }
    requires heads { (k : ℕ) → k < length heads.now →
        slice_index_or heads.now k false ≡ starts code.now k }
    ensures clean { IfOk result (λ _. (n : ℕ) → FaultAt code.now shapes.now at n → ⊥) }
    ensures entry { IfOk result (λ o. IsEntry code.now at o) }
    ensures fault { IfErr result (λ e. IsLowest code.now shapes.now at (slot_number e)) }
{
    if !heads[at] {
        return Ok(None);
    }
    match Insn::from_slots(slot_in(code, at), slot_after(code, at)) {
        Err(fault) => Err(SlotFault::Field(fault)),
        Ok(insn) => match rule_fault(code, heads, shapes, at, &insn) {
            Some(fault) => Err(fault),
            None => Ok(Some(insn)),
        },
    }
}

/// The instruction that starts at each slot, if any, or the code's first fault.
fn entries_of(
    alloc: Global,
    code: &[u8],
    heads: &[bool],
    shapes: &Shapes,
) -> Result<Vec<Option<Insn>>, DecodeFault>
    requires count { length heads.now ≡ count code.now }
    requires small { count code.now ≤ 16384 }
    requires heads { (k : ℕ) → k < length heads.now →
        slice_index_or heads.now k false ≡ starts code.now k }
    ensures clean { IfOk result (λ _. (k n : ℕ) → FaultAt code.now shapes.now k n → ⊥) }
    ensures table { IfOk result (λ v. IsTable code.now v.items (count code.now)) }
    ensures fault { IfErr result (λ e. FindsFirst code.now shapes.now e) }
{
    // Names a type inside instructions, which the check needs.
    let _source: Option<Source> = None;
    let mut slots = Vec::with_capacity(alloc, heads.len())?;
    for at in 0..heads.len() {
        match entry_at(code, heads, shapes, at) {
            Ok(entry) => slots.push(entry)?,
            Err(fault) => return Err(DecodeFault::At { slot: at, fault }),
        }
    }
    Ok(slots)
}

/// The program that the bytes spell (RFC 9669 section 3), for maps of these shapes. Well-formed code is refused only
/// for lack of memory. Other code is refused with fault 1 if the length is no multiple of 8, 2 if there are no bytes, 3
/// if there are more than 16384 slots; otherwise with the lowest fault of the lowest slot that has one.
pub fn decode(alloc: Global, code: &[u8], shapes: Shapes) -> Result<Program, DecodeFault>
    ensures ok { IfOk result (λ p. Spells code.now p) }
    ensures shapes { IfOk result (λ p. p.shapes ≡ shapes) }
    ensures err { IfErr result (λ e. Refuses code.now shapes e) }
    ensures only { IfErr result (λ e. e ≢ NoMemory → WellFormed code.now shapes → ⊥) }
{
    if code.len() % 8 != 0 {
        return Err(DecodeFault::Length);
    }
    if code.is_empty() {
        return Err(DecodeFault::Empty);
    }
    if code.len() / 8 > 16384 {
        return Err(DecodeFault::Long);
    }
    let heads = starts_of(alloc, code)?;
    let slots = entries_of(alloc, code, &heads, &shapes)?;
    let targets = targets_of(alloc, &slots)?;
    Ok(Program::new(slots, targets, shapes))
}
