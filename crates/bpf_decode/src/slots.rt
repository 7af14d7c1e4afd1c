//! The slots of code, and which of them start an instruction.

ghost use Rattle.std.specs.Prelude.{◌≡◌, ◌<◌, ◌+◌, ◌/◌, ℕ, Bool, false, not, ◌&&◌, IfOk, length, slice_index_or};
ghost use Rattle.bpf_decode.specs.Code.{count, is_wide, slot, slot_if, starts};

use std::alloc::{AllocError, Global};

pub(crate) fn slot_in(code: &[u8], at: usize) -> [u8; 8]
    requires place { at < count code.now }
    ensures is { result ≡ slot code.now at }
{
    let mut slot = [0; 8];
    slot.copy_from_slice(&code[8 * at..8 * at + 8]);
    slot
}

pub(crate) fn slot_after(code: &[u8], at: usize) -> Option<[u8; 8]>
    requires place { at < count code.now }
    ensures is { result ≡ slot_if code.now (at + 1) }
{
    if at + 1 < code.len() / 8 {
        Some(slot_in(code, at + 1))
    } else {
        None
    }
}

fn begins_wide(code: &[u8], at: usize) -> bool
    requires place { at < count code.now }
    ensures is { result ≡ is_wide code.now at }
{
    code[8 * at] == 0x18
}

/// Whether the next slot starts an instruction: not if this one starts one and has the opcode of a wide load.
fn next_starts(starts: bool, wide: bool) -> bool
    ensures is { result ≡ not (starts && wide) }
{
    !(starts && wide)
}

/// Which slots start an instruction.
pub(crate) fn starts_of(alloc: Global, code: &[u8]) -> Result<Vec<bool>, AllocError>
    ensures count { IfOk result (λ v. length v.items ≡ count code.now) }
    ensures told { IfOk result
        (λ v. (k : ℕ) → k < length v.items → slice_index_or v.items k false ≡ starts code.now k) }
{
    let mut table = Vec::new(alloc);
    let mut start = true;
    for at in 0..code.len() / 8 {
        table.push(start)?;
        start = next_starts(start, begins_wide(code, at));
    }
    Ok(table)
}
