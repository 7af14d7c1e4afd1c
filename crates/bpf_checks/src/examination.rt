//! Examines one instruction in one abstract state.

ghost use Rattle.std.specs.Prelude.{◌≡◌, ◌<◌, ◌+◌, ℕ, ℤ, Ok, Some, true};
ghost use Rattle.bpf_checks.specs.Kinds.{is_access};
ghost use Rattle.bpf_insn.specs.declared.insn.Insn.{Insn};
ghost use Rattle.bpf_decode.specs.Flow.{IsJump, jump_of};
ghost use Rattle.bpf_decode.specs.Program.{Begins, Holds};
ghost use Rattle.bpf_rules.specs.Faults.{IsOrNoMemory, on};
ghost use Rattle.bpf_rules.specs.Examined.{examined, put, put_number as put_numbers, operated, branched, compared, landing};
ghost use Rattle.bpf_rules.specs.Memory.{store as stores, atomic as atomics, next_pc};
ghost use Rattle.bpf_rules.specs.Operands.{alu, source_value};
ghost use Rattle.bpf_rules.specs.Branches.{split};
ghost use Rattle.bpf_rules.specs.Calls.{helped, answered, call as calls};
ghost use Rattle.bpf_rules.specs.declared.ways.Ways.TheVariants.{One};
ghost use Rattle.bpf_absnum.specs.Transfer.{num_extended, num_negated, num_ordered};
ghost use Rattle.bpf_absstate.specs.View.{register, at_slot};
ghost use Rattle.bpf_model.specs.Memory.{size_bytes};
ghost use Rattle.bpf_model.specs.Step.{atomic_bytes};
ghost use Rattle.bpf_words.specs.Word.{word_of};
ghost use Rattle.bpf_absval.specs.declared.value.AbsVal.TheVariants.{Number};

use crate::branches::{Test, split_ways};
use crate::flow::{
    after_helper, call_at, exit, goes_to, helper_answer, put_result, put_value, source_of, target,
    ways_at,
};
use crate::memory::{Address, Exchange, atomic_through, load_through, store_through};
use crate::operands::{gives_label, number_of, operate, wide_load};
use bpf_absnum::AbsNum;
use bpf_absstate::AbsState;
use bpf_absval::AbsVal;
use bpf_decode::Program;
use bpf_insn::{AluOp, ByteOrder, Extension, Insn, OrderWidth, Reg, Size, Source};
use bpf_regions::Shapes;
use bpf_rules::{Fault, Ways};
use bpf_words::word_of_int;
use std::alloc::Global;

/// An arithmetic operation of 64 bits (`wide`) or 32.
#[derive(Clone, Copy)]
struct Operator {
    op: AluOp,
    wide: bool,
}

fn arithmetic(
    alloc: Global,
    state: AbsState,
    operator: Operator,
    dst: Reg,
    source: Source,
) -> Result<Ways, Fault>
    requires inside { state.pc < 16384 }
    ensures is { IsOrNoMemory result
        (on (alu state.pc operator.op operator.wide
        (register state dst) (source_value state source))
        (operated state operator.op dst (register state dst) (source_value state source))) }
{
    let op = operator.op;
    let a = state.register(dst);
    let b = source_of(&state, source);
    let left = &a;
    let right = &b;
    match operate(state.pc() as u16, op, operator.wide, *left, *right) {
        Err(fault) => Err(fault),
        Ok(value) => put_result(alloc, state, gives_label(op, *left, *right), dst, value),
    }
}

/// Puts the number that an operation computed into a register, and goes to the next slot.
fn put_number(state: AbsState, dst: Reg, number: AbsNum) -> Result<Ways, Fault>
    requires inside { state.pc < 16384 }
    ensures is { IsOrNoMemory result (put state 1 dst (Number number)) }
{
    put_value(state, 1, dst, AbsVal::Number(number))
}

fn branch(state: AbsState, test: &Test, by: i16) -> Result<Ways, Fault>
    requires inside { state.pc < 16384 }
    requires leads { (t : ℕ) × IsJump state.pc by t }
    ensures is { IsOrNoMemory result
        (on (split state test.now.wide test.now.compare test.now.dst test.now.source)
        (λ w. Ok (branched state by w))) }
{
    let pc = state.pc();
    match split_ways(state, test) {
        Err(fault) => Err(fault),
        Ok(ways) => Ok(ways_at(ways, pc + 1, target(pc, i32::from(by)))),
    }
}

fn help(state: AbsState, helper: i32) -> Result<Ways, Fault>
    requires inside { state.pc < 16384 }
    ensures is { IsOrNoMemory result
        (on (helped state (word_of helper)) (λ v. Ok (One (answered state v)))) }
{
    match helper_answer(&state, word_of_int(helper)) {
        Err(fault) => Err(fault),
        Ok(value) => after_helper(state, value),
    }
}

/// The state after a load, with the loaded value in a register.
fn put_loaded(state: AbsState, dst: Reg, loaded: Result<AbsVal, Fault>) -> Result<Ways, Fault>
    requires inside { state.pc < 16384 }
    ensures is { IsOrNoMemory result (on loaded (put state 1 dst)) }
{
    match loaded {
        Err(fault) => Err(fault),
        Ok(value) => put_value(state, 1, dst, value),
    }
}

fn store(
    shapes: &Shapes,
    state: AbsState,
    address: Address,
    size: Size,
    value: AbsVal,
) -> Result<Ways, Fault>
    requires inside { state.pc < 16384 }
    ensures is { IsOrNoMemory result
        (on (stores shapes.now state (size_bytes size) value address.pointer address.by)
        (λ b. Ok (One (next_pc b)))) }
{
    let pc = state.pc();
    match store_through(shapes, state, address, size, value) {
        Err(fault) => Err(fault),
        Ok(next) => Ok(goes_to(next, pc + 1)),
    }
}

fn atomic(
    shapes: &Shapes,
    state: AbsState,
    address: Address,
    operator: Exchange,
) -> Result<Ways, Fault>
    requires inside { state.pc < 16384 }
    ensures is { IsOrNoMemory result
        (on (atomics shapes.now state (atomic_bytes operator.wide) operator.op operator.src
        address.by address.pointer (register state operator.src) (compared operator.op state))
        (λ b. Ok (One (next_pc b)))) }
{
    let pc = state.pc();
    match atomic_through(shapes, state, address, operator) {
        Err(fault) => Err(fault),
        Ok(next) => Ok(goes_to(next, pc + 1)),
    }
}

fn extend(state: AbsState, from: Extension, wide: bool, dst: Reg, src: Reg) -> Result<Ways, Fault>
    requires inside { state.pc < 16384 }
    ensures is { IsOrNoMemory result
        (put_numbers state dst (num_extended from wide) (register state src)) }
{
    match number_of(state.register(src)) {
        Err(fault) => Err(fault),
        Ok(number) => put_number(state, dst, number.sign_extended(from, wide)),
    }
}

fn negate(state: AbsState, wide: bool, dst: Reg) -> Result<Ways, Fault>
    requires inside { state.pc < 16384 }
    ensures is { IsOrNoMemory result
        (put_numbers state dst (num_negated wide) (register state dst)) }
{
    match number_of(state.register(dst)) {
        Err(fault) => Err(fault),
        Ok(number) => put_number(state, dst, number.negated(wide)),
    }
}

fn order(state: AbsState, order: ByteOrder, width: OrderWidth, dst: Reg) -> Result<Ways, Fault>
    requires inside { state.pc < 16384 }
    ensures is { IsOrNoMemory result
        (put_numbers state dst (num_ordered order width) (register state dst)) }
{
    match number_of(state.register(dst)) {
        Err(fault) => Err(fault),
        Ok(number) => put_number(state, dst, number.ordered(order, width)),
    }
}

fn jump(state: AbsState, by: i32) -> Ways
    requires inside { state.pc < 16384 }
    requires leads { (t : ℕ) × IsJump state.pc by t }
    ensures is { result ≡ One (at_slot state (landing state.pc by)) }
{
    let to = target(state.pc(), by);
    goes_to(state, to)
}

fn call(alloc: Global, state: AbsState, by: i32) -> Result<Ways, Fault>
    requires inside { state.pc < 16384 }
    requires leads { (t : ℕ) × IsJump state.pc by t }
    ensures is { IsOrNoMemory result (on (calls state (landing state.pc by)) (λ b. Ok (One b))) }
{
    let to = target(state.pc(), by);
    call_at(alloc, state, to)
}

/// A load, a store or an atomic.
fn examine_access(shapes: &Shapes, insn: Insn, state: AbsState) -> Result<Ways, Fault>
    requires access { is_access insn ≡ true }
    requires inside { state.pc < 16384 }
    ensures is { IsOrNoMemory result (examined shapes.now insn state) }
{
    match insn {
        Insn::Load {
            size,
            signed,
            dst,
            src,
            offset,
        } => {
            let address = Address::at(&state, src, offset);
            let loaded = load_through(shapes, &state, address, size, signed);
            put_loaded(state, dst, loaded)
        }
        Insn::Store {
            size,
            dst,
            offset,
            source,
        } => {
            let address = Address::at(&state, dst, offset);
            let value = source_of(&state, source);
            store(shapes, state, address, size, value)
        }
        Insn::Atomic {
            op,
            wide,
            dst,
            src,
            offset,
        } => {
            let address = Address::at(&state, dst, offset);
            atomic(shapes, state, address, Exchange { op, wide, src })
        }
        _ => unreachable!(),
    }
}

/// What an instruction makes of an abstract state: its successors, or the first fault.
fn examine_insn(alloc: Global, shapes: &Shapes, insn: Insn, state: AbsState) -> Result<Ways, Fault>
    requires inside { state.pc < 16384 }
    requires leads { (x : ℤ) → jump_of insn ≡ Some x → (t : ℕ) × IsJump state.pc x t }
    ensures is { IsOrNoMemory result (examined shapes.now insn state) }
{
    match insn {
        Insn::Alu {
            op,
            wide,
            dst,
            source,
        } => arithmetic(alloc, state, Operator { op, wide }, dst, source),
        Insn::MovSx {
            from,
            wide,
            dst,
            src,
        } => extend(state, from, wide, dst, src),
        Insn::Neg { wide, dst } => negate(state, wide, dst),
        Insn::End {
            order: bytes,
            width,
            dst,
        } => order(state, bytes, width, dst),
        Insn::LoadWide { dst, value } => put_value(state, 2, dst, wide_load(value)),
        Insn::Jump { offset } => Ok(jump(state, i32::from(offset))),
        Insn::JumpLong { offset } => Ok(jump(state, offset)),
        Insn::Branch {
            compare,
            wide,
            dst,
            source,
            offset,
        } => branch(state, &Test::new(compare, wide, dst, source), offset),
        Insn::Call { helper } => help(state, helper),
        Insn::CallLocal { offset } => call(alloc, state, offset),
        Insn::Exit => exit(state),
        Insn::Load { .. } => examine_access(shapes, insn, state),
        Insn::Store { .. } => examine_access(shapes, insn, state),
        Insn::Atomic { .. } => examine_access(shapes, insn, state),
    }
}

/// Returns the successors of an abstract state, or the first fault of its instruction, or lack of memory. The
/// instruction must begin at the state's slot.
pub fn examine(alloc: Global, program: &Program, state: &AbsState) -> Result<Ways, Fault>
    requires begins { Begins program.now.slots state.now.pc }
    ensures is { (i : Insn) → Holds program.now.slots state.now.pc i →
        IsOrNoMemory result (examined program.now.shapes i state.now) }
{
    let copy = state.clone()?;
    examine_moved(alloc, program, copy)
}

/// Like `examine`, but consumes the state: what no other state shares is changed in place, not copied.
pub fn examine_moved(alloc: Global, program: &Program, state: AbsState) -> Result<Ways, Fault>
    requires begins { Begins program.now.slots state.pc }
    ensures is { (i : Insn) → Holds program.now.slots state.pc i →
        IsOrNoMemory result (examined program.now.shapes i state) }
{
    program.whole();
    match program.insn_at(state.pc()) {
        Some(Some(insn)) => examine_insn(alloc, program.shapes(), insn, state),
        _ => unreachable!(),
    }
}
