//! Reads and sets bytes of a stack.

ghost use Rattle.std.specs.Prelude.{◌≡◌, ◌+◌, ◌/◌, ◌%◌, ◌<◌, ◌≤◌, length, IfOk};
ghost use Rattle.bpf_absstate.specs.View.{stack_of, with_slot};
ghost use Rattle.bpf_rules.specs.Memory.{touched, slot_at, bytes_fault, is_unset_fault, worse, read_fault, with_bytes, bytes_stored, is_whole, stored};

use bpf_absstate::AbsState;
use bpf_absval::{AbsSlot, AbsVal};
use bpf_rules::Fault;
use std::alloc::AllocError;

/// The bytes that `n` bytes at an offset touch, as bits: of a slot of eight bytes, and of the next.
#[tactic(auto, using(crate::proofs::Touched::touched_fits))]
fn touched_bytes(at: usize, n: u32) -> u32
    requires few { n ≤ 8 }
    ensures is { result ≡ touched at n }
    ensures fits { result < 65536 }
{
    ((1 << n) - 1) << (at % 8) as u32
}

/// The fault of reading bytes of a slot.
fn fault_of_bytes(slot: AbsSlot, needed: u8) -> Option<Fault>
    ensures is { result ≡ bytes_fault slot needed }
{
    if slot.set_bytes() & needed == needed {
        return None;
    }
    match slot {
        AbsSlot::Stored(_) => Some(Fault::WrongOperand),
        _ => Some(Fault::Unset),
    }
}

/// The fault of the two that is reported: 30 before others, then the first.
fn first_of(a: Option<Fault>, b: Option<Fault>) -> Option<Fault>
    ensures is { result ≡ worse a b }
{
    match a {
        None => b,
        Some(fault) => {
            if b == Some(Fault::Unset) {
                return b;
            }
            Some(fault)
        }
    }
}

/// The fault of reading `n` bytes of a stack.
#[tactic(auto, using(crate::proofs::Touched::touched_one, crate::proofs::Touched::none_read))]
pub fn fault_of_reading(state: &AbsState, k: u8, at: usize, n: u32) -> Option<Fault>
    requires lives { k < length state.now.frames }
    requires few { n ≤ 8 }
    requires inside { at + n ≤ 512 }
    requires some { 1 ≤ n }
    ensures is { result ≡ read_fault (stack_of state.now k) at n }
{
    let touched = touched_bytes(at, n);
    let first = fault_of_bytes(state.slot(k as usize, at / 8), (touched % 256) as u8);
    let second = (touched / 256) as u8;
    if second == 0 {
        return first_of(first, None);
    }
    first_of(
        first,
        fault_of_bytes(state.slot(k as usize, at / 8 + 1), second),
    )
}

/// The slot with these bytes also set.
fn set_in(slot: AbsSlot, mask: u8) -> AbsSlot
    ensures is { result ≡ with_bytes slot mask }
{
    AbsSlot::Bytes(slot.set_bytes() | mask)
}

/// The state with `n` bytes of a stack set.
#[tactic(auto, using(crate::proofs::Touched::touched_one))]
pub fn with_bytes_set(mut state: AbsState, k: u8, at: usize, n: u32) -> Result<AbsState, AllocError>
    requires lives { k < length state.frames }
    requires few { n ≤ 8 }
    requires inside { at + n ≤ 512 }
    requires some { 1 ≤ n }
    ensures is { IfOk result (λ next. next ≡ bytes_stored state k at n) }
{
    let touched = touched_bytes(at, n);
    let first = set_in(state.slot(k as usize, at / 8), (touched % 256) as u8);
    let second = (touched / 256) as u8;
    if second == 0 {
        state.set_slot(k as usize, at / 8, first)?;
        return Ok(state);
    }
    let behind = set_in(state.slot(k as usize, at / 8 + 1), second);
    state.set_slot(k as usize, at / 8, first)?;
    state.set_slot(k as usize, at / 8 + 1, behind)?;
    Ok(state)
}

/// Whether an access is to eight bytes at a multiple of 8.
pub fn is_whole_slot(at: usize, n: u32) -> bool
    ensures is { result ≡ is_whole at n }
{
    n == 8 && at % 8 == 0
}

/// The state with a value stored: whole, if it fills a slot; otherwise its bytes are set.
pub fn with_stored(
    mut state: AbsState,
    k: u8,
    at: usize,
    n: u32,
    value: AbsVal,
) -> Result<AbsState, AllocError>
    requires lives { k < length state.frames }
    requires few { n ≤ 8 }
    requires inside { at + n ≤ 512 }
    requires some { 1 ≤ n }
    ensures is { IfOk result (λ next. next ≡ stored state k at n value) }
{
    if is_whole_slot(at, n) {
        state.set_slot(k as usize, at / 8, AbsSlot::Stored(value))?;
        return Ok(state);
    }
    let next = with_bytes_set(state, k, at, n)?;
    Ok(next)
}
