//! The table of slots to which control comes other than from the preceding slot.

ghost use Rattle.std.specs.Prelude.{◌≡◌, ◌<◌, ◌≤◌, ◌↔◌, ◌⊎◌, ℕ, Bool, false, IsTrue, IfOk, Option, Some, length, slice_index_or};
ghost use Rattle.bpf_decode.specs.Flow.{jump_of};
ghost use Rattle.bpf_decode.specs.Program.{IsTarget};
ghost use Rattle.bpf_decode.specs.Targets.{IsMade, JumpsTo, MakesTarget, ReturnsTo};

use crate::flow::{jump_offset, jump_target};
use bpf_insn::Insn;
use std::alloc::{AllocError, Global};

/// The slot to which an instruction jumps, if it does.
fn jump_slot(at: usize, insn: &Insn) -> Option<usize>
    requires small { at ≤ 16384 }
    ensures is { (t : ℕ) → (result ≡ Some t) ↔ JumpsTo at (jump_of insn.now) t }
{
    match jump_offset(insn) {
        Some(by) => jump_target(at, by),
        None => None,
    }
}

/// The slot to which the called function returns, if the instruction is a local call.
fn return_slot(at: usize, insn: &Insn) -> Option<usize>
    requires small { at ≤ 16384 }
    ensures is { (t : ℕ) → (result ≡ Some t) ↔ ReturnsTo at insn.now t }
{
    match insn {
        Insn::CallLocal { .. } => Some(at + 1),
        _ => None,
    }
}

/// Marks the slot, if there is one within the table.
fn mark(targets: &mut [bool], slot: Option<usize>)
    ensures is { (t : ℕ) → IsTrue (slice_index_or targets.new t false) ↔ (IsTrue
        (slice_index_or targets.old t false) ⊎ ((t < length targets.old) × (slot ≡ Some t))) }
{
    if let Some(at) = slot {
        if at < targets.len() {
            targets[at] = true;
        }
    }
}

/// Marks the targets made by the instruction at a slot, if there is one.
fn mark_all(targets: &mut [bool], at: usize, slot: &Option<Insn>)
    requires small { at ≤ 16384 }
    ensures is { (t : ℕ) →
        IsTrue (slice_index_or targets.new t false) ↔ (IsTrue (slice_index_or targets.old t false)
        ⊎ ((t < length targets.old) × MakesTarget at slot.now t)) }
{
    if let Some(insn) = slot {
        mark(targets, jump_slot(at, insn));
        mark(targets, return_slot(at, insn));
    }
}

/// Marks the targets made by the instructions of a program.
fn mark_each(targets: &mut [bool], slots: &[Option<Insn>])
    requires small { length slots.now ≤ 16384 }
    ensures is { (t : ℕ) → IsTrue (slice_index_or targets.new t false) ↔ (IsTrue
        (slice_index_or targets.old t false) ⊎ ((t < length targets.old) × IsMade slots.now t)) }
{
    for at in 0..slots.len() {
        mark_all(targets, at, &slots[at]);
    }
}

/// A table with slot 0 marked.
fn start_table(alloc: Global, count: usize) -> Result<Vec<bool>, AllocError>
    ensures len { IfOk result (λ v. length v.items ≡ count) }
    ensures told { IfOk result
        (λ v. (t : ℕ) → IsTrue (slice_index_or v.items t false) ↔ ((t < count) × (t ≡ 0))) }
{
    let mut targets = Vec::new(alloc);
    for at in 0..count {
        targets.push(at == 0)?;
    }
    Ok(targets)
}

/// Which slots of a program are targets.
pub(crate) fn targets_of(alloc: Global, slots: &[Option<Insn>]) -> Result<Vec<bool>, AllocError>
    requires small { length slots.now ≤ 16384 }
    ensures told { IfOk result (λ v. (t : ℕ) →
        IsTrue (slice_index_or v.items t false) ↔ ((t < length slots.now) × IsTarget slots.now t)) }
{
    let mut targets = start_table(alloc, slots.len())?;
    mark_each(&mut targets, slots);
    Ok(targets)
}
