//! The states that entries describe.

ghost use Rattle.std.specs.Prelude.{◌≡◌, ◌<◌, ◌≤◌, [], length, OnOk, IfOk};
ghost use Rattle.std.specs.List.{All};
ghost use Rattle.bpf_absstate.specs.View.{empty_stack, with_register, stack_of};
ghost use Rattle.bpf_cert_format.specs.Fits.{FitsEntry, IsMainFirst, Rise};
ghost use Rattle.bpf_cert_format.specs.Slots.{no_slots, slots_after};
ghost use Rattle.bpf_cert.specs.Built.{with_values, with_stack, blank_view, filled, built};
ghost use Rattle.bpf_cert.specs.States.{state_of as describes};

use bpf_absstate::AbsState;
use bpf_absval::{AbsVal, Room};
use bpf_cert_format::{Entry, Frame, KnownSlot};
use bpf_insn::Reg;
use std::alloc::{AllocError, Global};

/// Puts a value into a register. A register that is unset and stays so isn't copied.
#[tactic(auto, using(crate::proofs::Filling::put_there))]
fn put_value(state: &mut AbsState, register: Reg, value: AbsVal) -> Result<(), AllocError>
    ensures is { OnOk result (state.new ≡ with_register state.old register value) }
{
    let before = state.register(register);
    if matches!(value, AbsVal::Unset) && matches!(before, AbsVal::Unset) {
        return Ok(());
    }
    state.set_register(register, value)?;
    Ok(())
}

/// Puts ten values into R0 to R9.
fn put_values(state: &mut AbsState, values: &[AbsVal]) -> Result<(), AllocError>
    requires all { length values.now ≡ 10 }
    requires eleven { length state.old.registers ≡ 11 }
    ensures is { OnOk result (state.new ≡ with_values state.old values.now) }
{
    for number in 0..10 {
        put_value(state, Reg::new(number as u8), values[number])?;
    }
    Ok(())
}

/// The state in which nothing is known. States of entries are copies of it, and share what they don't change.
#[tactic(auto, using(crate::proofs::Builds::entry_eleven))]
pub(crate) fn blank(alloc: Global) -> Result<AbsState, AllocError>
    ensures is { IfOk result (λ state. state ≡ blank_view) }
{
    let mut state = AbsState::entry(alloc)?;
    let values = [AbsVal::Unset; 10];
    put_values(&mut state, &values)?;
    Ok(state)
}

/// Fills the stack of call frame `k`, which is still unset, with the known slots.
fn put_stack(state: &mut AbsState, k: usize, known: &[KnownSlot]) -> Result<(), AllocError>
    requires lives { k < length state.old.frames }
    requires inside { All (λ s. s.index < 64) known.now }
    requires unset { stack_of state.old k ≡ empty_stack }
    ensures is { OnOk result (state.new ≡ with_stack state.old k (slots_after no_slots known.now)) }
{
    for one in known {
        state.set_slot(k, one.index as usize, one.slot)?;
    }
    Ok(())
}

/// Fills call frame `k`, of which nothing is known yet.
fn fill(state: &mut AbsState, k: usize, frame: &Frame) -> Result<(), AllocError>
    requires all { length frame.now.registers ≡ 10 }
    requires eleven { length state.old.registers ≡ 11 }
    requires lives { k < length state.old.frames }
    requires unset { stack_of state.old k ≡ empty_stack }
    ensures is { OnOk result (state.new ≡ filled state.old k frame.now) }
{
    put_values(state, frame.registers.as_slice())?;
    put_stack(state, k, frame.stack.known())?;
    Ok(())
}

/// The state with these call frames, of which nothing else is known.
fn with_frames(alloc: Global, blank: &AbsState, frames: &[Frame]) -> Result<AbsState, AllocError>
    requires blank { blank.now ≡ blank_view }
    requires some { 1 ≤ length frames.now }
    requires few { length frames.now ≤ 8 }
    requires main { IsMainFirst frames.now }
    requires all { All (λ f. length f.registers ≡ 10) frames.now }
    ensures is { IfOk result (λ state. state ≡ built frames.now) }
{
    let mut state = blank.clone()?;
    fill(&mut state, 0, &frames[0])?;
    for k in 1..frames.len() {
        state.call(alloc, 0, frames[k].return_slot)?;
        fill(&mut state, k, &frames[k])?;
    }
    Ok(state)
}

/// Puts the bytes known to follow labels, which rise, into a state that knows none.
fn put_rooms(state: &mut AbsState, rooms: &[Room]) -> Result<(), AllocError>
    requires rise { Rise 0 rooms.now }
    requires none { state.old.rooms ≡ [] }
    ensures is { OnOk result (state.new ≡ record state.old { rooms = rooms.now }) }
{
    for room in rooms {
        state.raise_room(room.label, room.size)?;
    }
    Ok(())
}

/// The state that an entry describes.
#[tactic(auto, using(crate::proofs::Builds::registers_ten, crate::proofs::Builds::some_frames))]
pub(crate) fn state_of(
    alloc: Global,
    maps: usize,
    blank: &AbsState,
    entry: &Entry,
) -> Result<AbsState, AllocError>
    requires blank { blank.now ≡ blank_view }
    requires fits { FitsEntry maps entry.now }
    ensures is { IfOk result (λ state. state ≡ describes entry.now) }
{
    let mut state = with_frames(alloc, blank, entry.frames())?;
    put_rooms(&mut state, entry.rooms())?;
    state.raise_least(entry.least());
    state.go_to(entry.pc() as usize);
    Ok(state)
}
