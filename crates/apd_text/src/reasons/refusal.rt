//! What the verifier knew where it refused a program, as text.

use crate::reasons::access::{Access, Reach, access_of};
use crate::reasons::values::{SlotText, ValueText};
use crate::reasons::way::written_at;
use bpf_absnum::AbsNum;
use bpf_absstate::AbsState;
use bpf_absval::{AbsRegion, AbsVal, Label};
use bpf_decode::Program;
use bpf_insn::{AluOp, AtomicOp, Insn, Reg, Source};
use bpf_line::InsnText;
use bpf_regions::Shapes;
use std::alloc::AllocError;
use std::fmt::Write;

const STACK: u64 = 512;

/// A line for each register that an instruction reads.
pub(crate) fn append_registers(
    text: &mut String,
    state: &AbsState,
    insn: Insn,
) -> Result<(), AllocError> {
    match insn {
        Insn::Alu {
            op,
            dst,
            source,
            ..
        } => append_alu(text, state, op, dst, source),
        Insn::MovSx { src, .. } => append_register(text, state, src),
        Insn::Neg { dst, .. } => append_register(text, state, dst),
        Insn::End { dst, .. } => append_register(text, state, dst),
        Insn::Branch { dst, source, .. } => append_operands(text, state, dst, source),
        Insn::Call { helper } => append_arguments(text, state, helper),
        Insn::Exit => append_register(text, state, Reg::new(0)),
        Insn::Load { src, .. } => append_register(text, state, src),
        Insn::Store { dst, source, .. } => append_operands(text, state, dst, source),
        Insn::Atomic { op, dst, src, .. } => append_atomic(text, state, op, dst, src),
        _ => Ok(()),
    }
}

fn append_source(text: &mut String, state: &AbsState, source: Source) -> Result<(), AllocError> {
    match source {
        Source::Reg(register) => append_register(text, state, register),
        Source::Imm(_) => Ok(()),
    }
}

/// A move reads only its source.
fn append_alu(
    text: &mut String,
    state: &AbsState,
    op: AluOp,
    dst: Reg,
    source: Source,
) -> Result<(), AllocError> {
    match op {
        AluOp::Mov => append_source(text, state, source),
        _ => append_operands(text, state, dst, source),
    }
}

fn append_operands(
    text: &mut String,
    state: &AbsState,
    dst: Reg,
    source: Source,
) -> Result<(), AllocError> {
    append_register(text, state, dst)?;
    append_source(text, state, source)
}

/// A compare and exchange compares with R0.
fn append_atomic(
    text: &mut String,
    state: &AbsState,
    op: AtomicOp,
    dst: Reg,
    src: Reg,
) -> Result<(), AllocError> {
    append_register(text, state, dst)?;
    append_register(text, state, src)?;
    match op {
        AtomicOp::Cmpxchg => append_register(text, state, Reg::new(0)),
        _ => Ok(()),
    }
}

/// The registers that a helper reads.
fn append_arguments(text: &mut String, state: &AbsState, helper: i32) -> Result<(), AllocError> {
    if helper == 1 {
        append_register(text, state, Reg::new(1))?;
        return append_register(text, state, Reg::new(2));
    }
    if helper == 5 {
        return append_register(text, state, Reg::new(1));
    }
    Ok(())
}

fn append_register(text: &mut String, state: &AbsState, register: Reg) -> Result<(), AllocError> {
    let value = state.register(register);
    writeln!(text, "  r{}: {}", register.number(), ValueText(value))?;
    Ok(())
}

/// The memory at an access: the known size of its region, or what a stack holds there.
pub(crate) fn append_place(
    text: &mut String,
    state: &AbsState,
    shapes: &Shapes,
    insn: Insn,
) -> Result<(), AllocError> {
    let Some(access) = access_of(insn) else {
        return Ok(());
    };
    match state.register(access.base) {
        AbsVal::Frame { offset, label } => append_frame(text, state, access.reach(offset), label),
        AbsVal::Pointer { region, offset } => match region {
            AbsRegion::Context => append_context(text, access.reach(offset)),
            AbsRegion::Stack(number) => append_stack(text, state, number, offset, access),
            AbsRegion::Entry(map) => append_entry(text, shapes, map, access.reach(offset)),
        },
        _ => Ok(()),
    }
}

/// How much of the frame is known to exist.
fn append_frame(
    text: &mut String,
    state: &AbsState,
    reach: Reach,
    label: Option<Label>,
) -> Result<(), AllocError> {
    let least = state.least();
    writeln!(
        text,
        "  {reach} of the frame, which has {least} bytes or more"
    )?;
    if let Some(label) = label {
        let room = state.room(label.label).unwrap_or(0);
        let number = label.label;
        writeln!(text, "  behind label {number} lie {room} bytes or more")?;
    }
    Ok(())
}

fn append_context(text: &mut String, reach: Reach) -> Result<(), AllocError> {
    writeln!(text, "  {reach} of the context, which has 32")?;
    Ok(())
}

/// The sizes of a map's entries and their words.
fn append_entry(
    text: &mut String,
    shapes: &Shapes,
    map: u32,
    reach: Reach,
) -> Result<(), AllocError> {
    let Some(shape) = shapes.get(map) else {
        return Ok(());
    };
    let width = shape.width.bytes();
    let size = shape.entry_bytes();
    writeln!(
        text,
        "  {reach} of an entry of map {map}, which has {size}, in words of {width}"
    )?;
    Ok(())
}

/// What a stack holds where an access reaches.
fn append_stack(
    text: &mut String,
    state: &AbsState,
    number: u8,
    offset: AbsNum,
    access: Access,
) -> Result<(), AllocError> {
    if !offset.is_single() {
        writeln!(text, "  the offset in a stack has to be one number")?;
        return Ok(());
    }
    let size = u64::from(access.size);
    match access.reach(offset) {
        Reach::To(end) if end <= STACK => {
            let begin = end.saturating_sub(size);
            append_slots(text, state, number, begin, end)
        }
        _ => {
            writeln!(
                text,
                "  it reaches outside the {STACK} bytes of a stack frame"
            )?;
            Ok(())
        }
    }
}

/// The lines of the slots of eight bytes that an access to a stack touches: one or two.
fn append_slots(
    text: &mut String,
    state: &AbsState,
    number: u8,
    begin: u64,
    end: u64,
) -> Result<(), AllocError> {
    let first = begin / 8;
    let last = end.saturating_sub(1) / 8;
    append_slot(text, state, number, first)?;
    if last > first {
        append_slot(text, state, number, last)?;
    }
    Ok(())
}

/// The line of a slot of a stack.
fn append_slot(
    text: &mut String,
    state: &AbsState,
    number: u8,
    slot: u64,
) -> Result<(), AllocError> {
    let frame = usize::from(number);
    let index = slot as usize;
    if frame < state.depth() && index < 64 {
        let content = state.slot(frame, index);
        let at = index * 8;
        let before = 512 - at;
        writeln!(
            text,
            "  stack {number} + {at} (r10-{before}): {}",
            SlotText(content)
        )?;
    }
    Ok(())
}

/// The origin of an access's pointer, if its offset may wrap.
pub(crate) fn append_origin(
    text: &mut String,
    program: &Program,
    state: &AbsState,
    way: &[usize],
    insn: Insn,
) -> Result<(), AllocError> {
    match access_of(insn) {
        Some(access) if may_wrap(state, &access) => {
            append_maker(text, program, state, way, access.base)
        }
        _ => Ok(()),
    }
}

/// The line of the slot that made the pointer in a register: that of its label, or the last that wrote the register.
fn append_maker(
    text: &mut String,
    program: &Program,
    state: &AbsState,
    way: &[usize],
    base: Reg,
) -> Result<(), AllocError> {
    let found = match label_of(state.register(base)) {
        Some(label) => Some(usize::from(label.label).saturating_sub(1)),
        None => written_at(program, way, base),
    };
    match found {
        Some(slot) => append_sum(text, program, base, slot),
        None => Ok(()),
    }
}

/// The label of a frame pointer. A label's number is the slot of its sum, plus 1.
fn label_of(value: AbsVal) -> Option<Label> {
    match value {
        AbsVal::Frame { label, .. } => label,
        _ => None,
    }
}

/// Whether nothing bounds the offset of a pointer outside the stack.
fn may_wrap(state: &AbsState, access: &Access) -> bool {
    match state.register(access.base) {
        AbsVal::Frame { offset, .. } => is_anywhere(access, offset),
        AbsVal::Pointer { region, offset } => match region {
            AbsRegion::Stack(_) => false,
            AbsRegion::Context => is_anywhere(access, offset),
            AbsRegion::Entry(_) => is_anywhere(access, offset),
        },
        _ => false,
    }
}

fn is_anywhere(access: &Access, offset: AbsNum) -> bool {
    matches!(access.reach(offset), Reach::Anywhere)
}

/// The line of the slot that made a pointer.
fn append_sum(
    text: &mut String,
    program: &Program,
    register: Reg,
    slot: usize,
) -> Result<(), AllocError> {
    if let Some(Some(insn)) = program.insn_at(slot) {
        let number = register.number();
        writeln!(
            text,
            "  r{number} comes from slot {slot}: {}",
            InsnText(insn)
        )?;
    }
    Ok(())
}
