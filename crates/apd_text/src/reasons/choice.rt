//! Choosing the fix for a refusal, by what the verifier knew there.

use crate::reasons::access::{Access, Reach, access_of};
use crate::reasons::cure::{
    BOUND_NUMBER, COMPARE_WITH_END, Cure, DECLARE_MAPS, DISTANCE, FIXED_END, INLINE_FUNCTION,
    LENGTH, LONGEST_FRAME, NO_ADDRESS, NO_STACK_ARRAY, NOT_BEFORE, NUMBERS_IN_MAPS, READ_ONLY,
    SHORT_CONTEXT, STACK_FRAME,
};
use bpf_absnum::AbsNum;
use bpf_absstate::AbsState;
use bpf_absval::{AbsRegion, AbsVal, Label};
use bpf_decode::Program;
use bpf_insn::{AluOp, Insn, Source, Wide};
use bpf_regions::{Shape, Shapes};
use bpf_verifier::{Fault, Refusal};

const LONGEST: u64 = 2400;

const CONTEXT: u32 = 32;

/// The fix for a verifier's refusal; `None` if the state tells no more than the number.
pub(crate) fn cure_of(program: &Program, state: &AbsState, refusal: Refusal) -> Option<Cure> {
    let Some(Some(insn)) = program.insn_at(refusal.pc) else {
        return None;
    };
    match refusal.fault {
        Fault::WrongOperand => of_kinds(state, insn),
        Fault::OutsideRegion => of_place(program.shapes(), state, insn),
        Fault::Misaligned => of_width(program.shapes(), state, insn),
        Fault::NoResult => of_result(state),
        _ => None,
    }
}

/// The value that a source reads from a register.
fn value_of(state: &AbsState, source: Source) -> Option<AbsVal> {
    match source {
        Source::Reg(register) => Some(state.register(register)),
        Source::Imm(_) => None,
    }
}

/// The fix for operands that don't go together.
fn of_kinds(state: &AbsState, insn: Insn) -> Option<Cure> {
    match insn {
        Insn::Alu {
            op,
            dst,
            source,
            ..
        } => of_arithmetic(op, state.register(dst), value_of(state, source)),
        Insn::Branch { dst, source, .. } => {
            of_comparison(state.register(dst), value_of(state, source))
        }
        Insn::Load { src, .. } => of_address(state.register(src)),
        Insn::Store { dst, .. } => of_target(state.register(dst)),
        Insn::Atomic { dst, .. } => of_target(state.register(dst)),
        _ => None,
    }
}

fn is_end(value: AbsVal) -> bool {
    matches!(value, AbsVal::FrameEnd)
}

fn is_pointer(value: AbsVal) -> bool {
    matches!(value, AbsVal::Frame { .. } | AbsVal::Pointer { .. })
}

/// The fix for arithmetic on a pointer.
fn of_arithmetic(op: AluOp, left: AbsVal, right: Option<AbsVal>) -> Option<Cure> {
    match op {
        AluOp::Add => of_sum(left, right),
        AluOp::Sub => of_difference(left, right),
        _ => of_bits(left),
    }
}

/// The fix for a sum with the frame's end.
fn of_sum(left: AbsVal, right: Option<AbsVal>) -> Option<Cure> {
    match right {
        Some(right) if is_end(right) => Some(FIXED_END),
        _ if is_end(left) => Some(FIXED_END),
        _ => None,
    }
}

/// The fix for subtracting a pointer, or a number from the frame's end.
fn of_difference(left: AbsVal, right: Option<AbsVal>) -> Option<Cure> {
    match right {
        Some(right) if is_end(right) => Some(LENGTH),
        Some(right) if is_pointer(right) => {
            if is_end(left) {
                Some(LENGTH)
            } else {
                Some(DISTANCE)
            }
        }
        _ if is_end(left) => Some(FIXED_END),
        _ => None,
    }
}

/// The fix for bits that are put into a pointer, which is how compilers index an array on the stack.
fn of_bits(left: AbsVal) -> Option<Cure> {
    match left {
        AbsVal::Pointer {
            region: AbsRegion::Stack(_),
            ..
        } => Some(NO_STACK_ARRAY),
        _ => None,
    }
}

/// The fix for comparing two pointers.
fn of_comparison(left: AbsVal, right: Option<AbsVal>) -> Option<Cure> {
    match right {
        Some(right) if is_pointer(right) && is_pointer(left) => Some(COMPARE_WITH_END),
        _ => None,
    }
}

/// The fix for a read through something that isn't a pointer.
fn of_address(address: AbsVal) -> Option<Cure> {
    match address {
        AbsVal::Number(_) => Some(NO_ADDRESS),
        _ => None,
    }
}

/// The fix for a write.
fn of_target(address: AbsVal) -> Option<Cure> {
    match address {
        AbsVal::Frame { .. } => Some(READ_ONLY),
        AbsVal::Pointer { region, .. } => match region {
            AbsRegion::Context => Some(READ_ONLY),
            AbsRegion::Entry(_) => Some(NUMBERS_IN_MAPS),
            AbsRegion::Stack(_) => None,
        },
        _ => of_address(address),
    }
}

/// The fix for an access that may leave its region.
fn of_place(shapes: &Shapes, state: &AbsState, insn: Insn) -> Option<Cure> {
    let access = access_of(insn)?;
    match state.register(access.base) {
        AbsVal::Frame { offset, label } => Some(in_frame(access, offset, label)),
        AbsVal::Pointer { region, offset } => match region {
            AbsRegion::Context => Some(in_context(access, offset)),
            AbsRegion::Stack(_) => Some(in_stack(offset)),
            AbsRegion::Entry(map) => in_entry(shapes, map, access, offset),
        },
        _ => None,
    }
}

/// The fix for a read of the frame: a test of the byte that is read.
fn in_frame(access: Access, offset: AbsNum, label: Option<Label>) -> Cure {
    let tested = test_behind(&access, label);
    match access.reach(offset) {
        Reach::Anywhere => BOUND_NUMBER,
        Reach::Before(_) => NOT_BEFORE,
        Reach::To(end) => tested.unwrap_or(test_of(end)),
    }
}

/// The test that shows this many bytes of the frame.
fn test_of(bytes: u64) -> Cure {
    if bytes <= LONGEST {
        Cure::TestFrame { bytes }
    } else {
        LONGEST_FRAME
    }
}

/// The test that shows the bytes read after a label. A label's number is the slot of its sum, plus 1.
fn test_behind(access: &Access, label: Option<Label>) -> Option<Cure> {
    let Label { label, distance } = label?;
    let size = i64::from(access.size);
    let end = i64::from(distance)
        .saturating_add(i64::from(access.offset))
        .saturating_add(size);
    // A negative number reads as one above any length.
    let bytes = end.cast_unsigned();
    if bytes == 0 || bytes > LONGEST {
        return None;
    }
    let slot = label.saturating_sub(1);
    Some(Cure::TestPointer { slot, bytes })
}

fn in_context(access: Access, offset: AbsNum) -> Cure {
    if offset.is_single() {
        return SHORT_CONTEXT;
    }
    Cure::BoundIndex {
        last: CONTEXT.saturating_sub(u32::from(access.size)),
    }
}

fn in_stack(offset: AbsNum) -> Cure {
    if offset.is_single() {
        STACK_FRAME
    } else {
        NO_STACK_ARRAY
    }
}

fn in_entry(shapes: &Shapes, map: u32, access: Access, offset: AbsNum) -> Option<Cure> {
    let bytes = shapes.get(map)?.entry_bytes();
    if offset.is_single() {
        return Some(Cure::ShortEntry { map, bytes });
    }
    Some(Cure::BoundIndex {
        last: bytes.saturating_sub(u32::from(access.size)),
    })
}

/// The fix for an access to a map in another width than its own.
fn of_width(shapes: &Shapes, state: &AbsState, insn: Insn) -> Option<Cure> {
    let access = access_of(insn)?;
    match state.register(access.base) {
        AbsVal::Pointer {
            region: AbsRegion::Entry(map),
            ..
        } => {
            let bytes = shapes.get(map)?.width.bytes();
            Some(Cure::WordWidth { map, bytes })
        }
        _ => None,
    }
}

/// The fix for a pointer that a function returns to the policy.
fn of_result(state: &AbsState) -> Option<Cure> {
    if state.depth() > 1 {
        Some(INLINE_FUNCTION)
    } else {
        None
    }
}

/// The fix for an instruction that names a map, for maps of these shapes: there is no such map, or it has no such byte.
pub(crate) fn cure_of_map(shapes: &[Shape], insn: Insn) -> Option<Cure> {
    match insn {
        Insn::LoadWide {
            value: Wide::Map(_),
            ..
        } => Some(cure_of_no_map(shapes)),
        Insn::LoadWide {
            value: Wide::MapValue { map, .. },
            ..
        } => match shapes.get(map as usize) {
            Some(shape) => Some(cure_of_offset(map, *shape)),
            None => Some(cure_of_no_map(shapes)),
        },
        _ => None,
    }
}

/// The fix for an offset that a map's first entry doesn't have.
fn cure_of_offset(map: u32, shape: Shape) -> Cure {
    let bytes = shape.words.saturating_mul(shape.width.bytes());
    Cure::FirstEntry { map, bytes }
}

fn cure_of_no_map(shapes: &[Shape]) -> Cure {
    match shapes.len().checked_sub(1) {
        Some(last) => Cure::DeclareMap { last },
        None => DECLARE_MAPS,
    }
}
