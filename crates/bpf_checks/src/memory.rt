//! Loads, stores and atomics.

ghost use Rattle.std.specs.Prelude.{◌≡◌, ℕ, ◌+◌, ◌<◌, ◌≤◌, length, Option, IfOk};
ghost use Rattle.bpf_regions.specs.declared.maps.Shape.{Shape};
ghost use Rattle.bpf_absnum.specs.Number.{Num};
ghost use Rattle.bpf_rules.specs.Faults.{IsOrNoMemory};
ghost use Rattle.bpf_rules.specs.Memory.{offset_of, loaded, loaded_bytes, loaded_stack, loaded_from, load, spilled, stored_in_stack, stored_in_map, stored_into, store, with_old, atomic_on, atomic, strays, is_spill, read_only, entry_fault, operands_fault};
ghost use Rattle.bpf_rules.specs.Examined.{compared};
ghost use Rattle.bpf_absstate.specs.View.{register, stack_of};
ghost use Rattle.bpf_model.specs.Memory.{size_bytes, old_into};
ghost use Rattle.bpf_model.specs.Step.{atomic_bytes};

use crate::bytes::{fault_of_reading, is_whole_slot, with_bytes_set, with_stored};
use crate::flow::expected_by;
use crate::operands::{fault_of, fault_of_two};
use crate::places::{
    aligned_in_stack, fault_in_context, fault_in_entry, fault_in_frame, offset_by, place_in_stack,
};
use bpf_absnum::AbsNum;
use bpf_absstate::AbsState;
use bpf_absval::{AbsRegion, AbsSlot, AbsVal};
use bpf_insn::{AtomicOp, Reg, Size};
use bpf_regions::Shapes;
use bpf_rules::Fault;
use std::alloc::AllocError;

/// The address of an access: `by` bytes from a value that must be a pointer.
#[derive(Clone, Copy)]
pub struct Address {
    pub pointer: AbsVal,
    pub by: i16,
}

/// An atomic operation of 8 bytes (`wide`) or 4, and the register that holds its operand.
#[derive(Clone, Copy)]
pub struct Exchange {
    pub op: AtomicOp,
    pub wide: bool,
    pub src: Reg,
}

/// A region, and the offsets at which an access may begin.
#[derive(Clone, Copy)]
struct Spot {
    region: AbsRegion,
    at: AbsNum,
}

impl Address {
    /// The address `by` bytes from the value of a register.
    pub fn at(state: &AbsState, base: Reg, by: i16) -> Address
        ensures is { result ≡ record { pointer = register state.now base; by = by } }
    {
        Address {
            pointer: state.register(base),
            by,
        }
    }
}

/// How many bytes a load or store moves.
fn bytes_of_size(size: Size) -> u32
    ensures is { result ≡ size_bytes size }
    ensures some { 1 ≤ result }
    ensures few { result ≤ 8 }
{
    match size {
        Size::Byte => 1,
        Size::Half => 2,
        Size::Word => 4,
        Size::Double => 8,
    }
}

/// Any number of `n` bytes, signed or unsigned.
fn number_of_bytes(signed: bool, n: u32) -> AbsVal
    requires some { 1 ≤ n }
    requires few { n ≤ 8 }
    ensures is { result ≡ loaded signed n }
{
    if signed {
        return AbsVal::Number(AbsNum::loaded_signed(8 * n));
    }
    AbsVal::Number(AbsNum::loaded(8 * n))
}

fn load_bytes(state: &AbsState, k: u8, at: usize, n: u32, signed: bool) -> Result<AbsVal, Fault>
    requires lives { k < length state.now.frames }
    requires few { n ≤ 8 }
    requires inside { at + n ≤ 512 }
    requires some { 1 ≤ n }
    ensures is { result ≡ loaded_bytes (stack_of state.now k) at n signed }
{
    match fault_of_reading(state, k, at, n) {
        Some(fault) => Err(fault),
        None => Ok(number_of_bytes(signed, n)),
    }
}

/// Loads from a stack: what was stored whole, or a number if all bytes are set.
fn load_stack(state: &AbsState, k: u8, at: usize, n: u32, signed: bool) -> Result<AbsVal, Fault>
    requires lives { k < length state.now.frames }
    requires few { n ≤ 8 }
    requires inside { at + n ≤ 512 }
    requires some { 1 ≤ n }
    ensures is { result ≡ loaded_stack (stack_of state.now k) at n signed }
{
    if !is_whole_slot(at, n) || signed {
        return load_bytes(state, k, at, n, signed);
    }
    match state.slot(k as usize, at / 8) {
        AbsSlot::Stored(value) => match value {
            AbsVal::Unset => Err(Fault::Unset),
            _ => Ok(value),
        },
        _ => load_bytes(state, k, at, n, signed),
    }
}

/// Loads from a region other than the frame.
fn load_region(
    shapes: &Shapes,
    state: &AbsState,
    place: Spot,
    n: u32,
    signed: bool,
) -> Result<AbsVal, Fault>
    requires few { n ≤ 8 }
    requires some { 1 ≤ n }
    ensures is { result ≡ loaded_from shapes.now state.now place.region place.at n signed }
{
    let at = place.at;
    match place.region {
        AbsRegion::Context => match fault_in_context(at, u64::from(n)) {
            Some(fault) => Err(fault),
            None => Ok(number_of_bytes(signed, n)),
        },
        AbsRegion::Entry(map) => match fault_in_entry(shapes.get(map), at, u64::from(n)) {
            Some(fault) => Err(fault),
            None => Ok(number_of_bytes(signed, n)),
        },
        AbsRegion::Stack(k) => match place_in_stack(state, k, at, n) {
            Err(fault) => Err(fault),
            Ok(place) => load_stack(state, k, place, n, signed),
        },
    }
}

/// The value that a load through a pointer gives.
pub fn load_through(
    shapes: &Shapes,
    state: &AbsState,
    address: Address,
    size: Size,
    signed: bool,
) -> Result<AbsVal, Fault>
    ensures is { result
        ≡ load shapes.now state.now (size_bytes size) signed address.pointer address.by }
{
    let by = address.by;
    let n = bytes_of_size(size);
    let pointer = address.pointer;
    match pointer {
        AbsVal::Frame { offset, label } => {
            match fault_in_frame(state, offset, label, by, u64::from(n)) {
                Some(fault) => Err(fault),
                None => Ok(number_of_bytes(signed, n)),
            }
        }
        AbsVal::Pointer { region, offset } => {
            let at = offset_by(offset, by);
            load_region(shapes, state, Spot { region, at }, n, signed)
        }
        _ => Err(fault_of(pointer)),
    }
}

/// Whether a value points into a stack frame other than number `k`.
fn leads_to_other_stack(k: u8, value: &AbsVal) -> bool
    ensures is { result ≡ strays k value.now }
{
    match value {
        AbsVal::Pointer { region, .. } => match region {
            AbsRegion::Stack(j) => *j != k,
            _ => false,
        },
        _ => false,
    }
}

/// The state with a value other than a number stored. It must fill 8 bytes at a multiple of 8; a pointer to a stack
/// frame may be stored only in that frame.
fn spill(state: AbsState, k: u8, at: AbsNum, n: u32, value: AbsVal) -> Result<AbsState, Fault>
    requires few { n ≤ 8 }
    ensures is { IsOrNoMemory result (spilled state k at n value) }
{
    if n != 8 {
        return Err(Fault::WrongOperand);
    }
    match aligned_in_stack(&state, k, at, 8) {
        Err(fault) => Err(fault),
        Ok(place) => {
            if leads_to_other_stack(k, &value) {
                return Err(Fault::StackPointerStored);
            }
            let next = with_stored(state, k, place, 8, value)?;
            Ok(next)
        }
    }
}

/// Whether an untested lookup result may be stored here.
fn can_spill(at: AbsNum, n: u32) -> bool
    ensures is { result ≡ is_spill at n }
{
    n == 8 && at.is_single() && at.range().low() % 8 == 0
}

/// The state with a value stored in a stack.
fn store_in_stack(
    state: AbsState,
    k: u8,
    at: AbsNum,
    n: u32,
    value: AbsVal,
) -> Result<AbsState, Fault>
    requires few { n ≤ 8 }
    requires some { 1 ≤ n }
    ensures is { IsOrNoMemory result (stored_in_stack state k at n value) }
{
    match value {
        AbsVal::Number(_) => match place_in_stack(&state, k, at, n) {
            Err(fault) => Err(fault),
            Ok(place) => {
                let next = with_stored(state, k, place, n, value)?;
                Ok(next)
            }
        },
        AbsVal::Lookup(_) => {
            if can_spill(at, n) {
                return spill(state, k, at, n, value);
            }
            Err(Fault::NotTested)
        }
        _ => spill(state, k, at, n, value),
    }
}

/// The state after a number is stored in a map, whose contents aren't tracked; other values are refused.
fn store_in_map(state: AbsState, fault: Option<Fault>, value: AbsVal) -> Result<AbsState, Fault>
    ensures is { (shape : Option Shape) (at : Num) (n : ℕ) → fault ≡ entry_fault shape at n →
        result ≡ stored_in_map state shape at n value }
{
    match value {
        AbsVal::Number(_) => match fault {
            Some(fault) => Err(fault),
            None => Ok(state),
        },
        _ => Err(fault_of(value)),
    }
}

/// The fault of storing into read-only memory.
fn fault_of_read_only(value: AbsVal) -> Fault
    ensures is { result ≡ read_only value }
{
    match value {
        AbsVal::Lookup(_) => Fault::NotTested,
        _ => Fault::WrongOperand,
    }
}

/// The state with a value stored into a region other than the frame.
fn store_in_region(
    shapes: &Shapes,
    state: AbsState,
    place: Spot,
    n: u32,
    value: AbsVal,
) -> Result<AbsState, Fault>
    requires few { n ≤ 8 }
    requires some { 1 ≤ n }
    ensures is { IsOrNoMemory result (stored_into shapes.now state place.region place.at n value) }
{
    match place.region {
        AbsRegion::Context => Err(fault_of_read_only(value)),
        AbsRegion::Stack(k) => store_in_stack(state, k, place.at, n, value),
        AbsRegion::Entry(map) => {
            let fault = fault_in_entry(shapes.get(map), place.at, u64::from(n));
            store_in_map(state, fault, value)
        }
    }
}

/// The state after a store through a pointer, at the same slot.
pub fn store_through(
    shapes: &Shapes,
    state: AbsState,
    address: Address,
    size: Size,
    value: AbsVal,
) -> Result<AbsState, Fault>
    ensures is { IsOrNoMemory result
        (store shapes.now state (size_bytes size) value address.pointer address.by) }
{
    let n = bytes_of_size(size);
    let pointer = address.pointer;
    match value {
        AbsVal::Unset => Err(Fault::Unset),
        _ => match pointer {
            AbsVal::Pointer { region, offset } => {
                let at = offset_by(offset, address.by);
                store_in_region(shapes, state, Spot { region, at }, n, value)
            }
            _ => Err(fault_of_two(pointer, value)),
        },
    }
}

fn bytes_of_atomic(wide: bool) -> u32
    ensures is { result ≡ atomic_bytes wide }
    ensures some { 1 ≤ result }
    ensures few { result ≤ 8 }
{
    if wide { 8 } else { 4 }
}

/// The state after an atomic at an offset of a region.
fn atomic_in_region(
    shapes: &Shapes,
    state: AbsState,
    n: u32,
    place: Spot,
) -> Result<AbsState, Fault>
    requires few { n ≤ 8 }
    requires some { 1 ≤ n }
    ensures is { IsOrNoMemory result (atomic_on shapes.now state n place.region place.at) }
{
    let at = place.at;
    match place.region {
        AbsRegion::Context => Err(Fault::WrongOperand),
        AbsRegion::Stack(k) => match aligned_in_stack(&state, k, at, n) {
            Err(fault) => Err(fault),
            Ok(place) => match fault_of_reading(&state, k, place, n) {
                Some(fault) => Err(fault),
                None => {
                    let next = with_bytes_set(state, k, place, n)?;
                    Ok(next)
                }
            },
        },
        AbsRegion::Entry(map) => match fault_in_entry(shapes.get(map), at, u64::from(n)) {
            Some(fault) => Err(fault),
            None => Ok(state),
        },
    }
}

/// Puts the old number of an atomic into its register, if it has one.
fn put_old(mut state: AbsState, into: Option<Reg>, n: u32) -> Result<AbsState, AllocError>
    requires few { n ≤ 8 }
    requires some { 1 ≤ n }
    ensures is { IfOk result (λ next. next ≡ with_old state into n) }
{
    if let Some(register) = into {
        state.set_register(register, number_of_bytes(false, n))?;
    }
    Ok(state)
}

/// The register that receives the old number of an atomic.
fn old_number_into(op: AtomicOp, src: Reg) -> Option<Reg>
    ensures is { result ≡ old_into op src }
{
    match op {
        AtomicOp::Add | AtomicOp::Or | AtomicOp::And | AtomicOp::Xor => None,
        AtomicOp::Cmpxchg => Some(Reg::new(0)),
        _ => Some(src),
    }
}

/// The fault of an atomic's operands.
fn fault_of_operands(pointer: AbsVal, number: AbsVal, expected: AbsVal) -> Fault
    ensures is { result ≡ operands_fault pointer number expected }
{
    if matches!(pointer, AbsVal::Unset)
        || matches!(number, AbsVal::Unset)
        || matches!(expected, AbsVal::Unset)
    {
        return Fault::Unset;
    }
    if matches!(pointer, AbsVal::Lookup(_))
        || matches!(number, AbsVal::Lookup(_))
        || matches!(expected, AbsVal::Lookup(_))
    {
        return Fault::NotTested;
    }
    Fault::WrongOperand
}

/// The state after an atomic through a pointer, at the same slot.
pub fn atomic_through(
    shapes: &Shapes,
    state: AbsState,
    address: Address,
    exchange: Exchange,
) -> Result<AbsState, Fault>
    ensures is { IsOrNoMemory result
        (atomic shapes.now state (atomic_bytes exchange.wide) exchange.op exchange.src
        address.by address.pointer (register state exchange.src) (compared exchange.op state)) }
{
    let pointer = address.pointer;
    let number = state.register(exchange.src);
    let expected = expected_by(&state, exchange.op);
    let AbsVal::Pointer { region, offset } = pointer else {
        return Err(fault_of_operands(pointer, number, expected));
    };
    if !matches!(number, AbsVal::Number(_)) || !matches!(expected, AbsVal::Number(_)) {
        return Err(fault_of_operands(pointer, number, expected));
    }
    let n = bytes_of_atomic(exchange.wide);
    let at = offset_by(offset, address.by);
    match atomic_in_region(shapes, state, n, Spot { region, at }) {
        Err(fault) => Err(fault),
        Ok(next) => {
            let next = put_old(next, old_number_into(exchange.op, exchange.src), n)?;
            Ok(next)
        }
    }
}
