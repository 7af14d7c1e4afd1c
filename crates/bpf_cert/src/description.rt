//! Entries that describe states: the inverse of `states`.

ghost use Rattle.std.specs.Prelude.{◌<◌, ◌≤◌, length};

use bpf_absstate::AbsState;
use bpf_absval::{AbsSlot, AbsVal, Room};
use bpf_cert_format::frame::Registers;
use bpf_cert_format::{Entry, Frame, KnownSlot, Slots};
use bpf_insn::Reg;
use std::alloc::{AllocError, Global};

/// A slot of the code as a field of two bytes; slots are below 16384.
fn field(slot: usize) -> u16 {
    u16::try_from(slot).unwrap_or(0)
}

/// R0 to R9 of the newest function.
fn registers_of(state: &AbsState) -> Registers {
    let mut values = [AbsVal::Unset; 10];
    for number in 0..10u8 {
        values[number as usize] = state.register(Reg::new(number));
    }
    Registers::new(values)
}

/// R6 to R9 of a calling function. Its R0 to R5 are unset until the called function returns.
fn kept_registers_of(state: &AbsState) -> Registers {
    let mut values = [AbsVal::Unset; 10];
    for number in 6..10u8 {
        values[number as usize] = state.register(Reg::new(number));
    }
    Registers::new(values)
}

/// The content of the stack slots of call frame `k`.
fn stack_of(alloc: Global, state: &AbsState, k: usize) -> Result<Slots, AllocError>
    requires lives { k < length state.now.frames }
{
    let mut stack = Slots::unset(alloc);
    for index in 0..64 {
        match state.slot(k, index) {
            AbsSlot::Unset => {}
            slot => stack.set(index, slot)?,
        }
    }
    Ok(stack)
}

/// The call frames, the main function's first.
fn frames_of(alloc: Global, state: &AbsState) -> Result<Vec<Frame>, AllocError> {
    let mut frames = Vec::new(alloc);
    let mut rest = state.clone()?;
    let mut registers = registers_of(state);
    for _called in 1..state.depth() {
        let depth = rest.depth();
        if depth == 1 {
            break;
        }
        let stack = stack_of(alloc, &rest, depth - 1)?;
        rest.return_to_caller()?;
        frames.push(Frame {
            return_slot: field(rest.pc()),
            registers,
            stack,
        })?;
        registers = kept_registers_of(&rest);
    }
    let stack = stack_of(alloc, &rest, 0)?;
    frames.push(Frame {
        return_slot: 0,
        registers,
        stack,
    })?;
    frames.reverse();
    Ok(frames)
}

fn add_label(labels: &mut Vec<u16>, value: AbsVal) -> Result<(), AllocError> {
    if let AbsVal::Frame {
        label: Some(known),
        ..
    } = value
    {
        if !labels.contains(&known.label) {
            labels.push(known.label)?;
        }
    }
    Ok(())
}

/// Adds the labels of the values in stack slots.
fn add_slot_labels(labels: &mut Vec<u16>, slots: &[KnownSlot]) -> Result<(), AllocError> {
    for one in slots {
        if let AbsSlot::Stored(value) = one.slot {
            add_label(labels, value)?;
        }
    }
    Ok(())
}

/// Adds the labels of the values in a call frame.
fn add_labels(labels: &mut Vec<u16>, frame: &Frame) -> Result<(), AllocError> {
    for value in frame.registers.as_slice() {
        add_label(labels, *value)?;
    }
    add_slot_labels(labels, frame.stack.known())
}

/// The labels of the values in these call frames, rising.
fn labels_of(alloc: Global, frames: &[Frame]) -> Result<Vec<u16>, AllocError> {
    let mut labels = Vec::new(alloc);
    for frame in frames {
        add_labels(&mut labels, frame)?;
    }
    labels.sort()?;
    Ok(labels)
}

/// The bytes known to follow the labels of values. Those of other labels mean nothing.
fn rooms_of(alloc: Global, state: &AbsState, frames: &[Frame]) -> Result<Vec<Room>, AllocError> {
    let mut rooms = Vec::new(alloc);
    for label in labels_of(alloc, frames)? {
        if let Some(size) = state.room(label) {
            rooms.push(Room { label, size })?;
        }
    }
    Ok(rooms)
}

/// The entry that describes a state, with that budget.
pub(crate) fn described(alloc: Global, state: &AbsState, budget: u32) -> Result<Entry, AllocError> {
    let frames = frames_of(alloc, state)?;
    let rooms = rooms_of(alloc, state, frames.as_slice())?;
    Ok(Entry::new(field(state.pc()), budget, state.least(), rooms, frames))
}
