//! Arithmetic, jumps, calls and EXIT: the successors.

ghost use Rattle.std.specs.Prelude.{◌≡◌, ◌<◌, ◌≤◌, ◌+◌, ℕ, if◌then◌else◌, Ok, true};
ghost use Rattle.bpf_absnum.specs.Number.{Num};
ghost use Rattle.bpf_absstate.specs.View.{register, at_slot, without_arguments, without_label, returned};
ghost use Rattle.bpf_decode.specs.Flow.{IsJump};
ghost use Rattle.bpf_rules.specs.Faults.{IsOrNoMemory, on};
ghost use Rattle.bpf_rules.specs.Operands.{source_value, makes_label};
ghost use Rattle.bpf_rules.specs.Calls.{looked_up, helped, answered, call, exit_number};
ghost use Rattle.bpf_rules.specs.Examined.{landing, put, before_put, operated, ways, moved_to, branched, exited, compared};
ghost use Rattle.bpf_rules.specs.declared.ways.Ways.TheVariants.{One};

use crate::branches::Split;
use crate::operands::{fault_of_two, gives_label, number_of};
use bpf_absnum::AbsNum;
use bpf_absstate::AbsState;
use bpf_absval::AbsVal;
use bpf_decode::jump_target;
use bpf_insn::{AluOp, AtomicOp, Reg, Source};
use bpf_interval::Interval;
use bpf_rules::{Fault, Ways};
use bpf_words::word_of_int;
use std::alloc::{AllocError, Global};

/// The value of a source: a register's, or an immediate.
pub fn source_of(state: &AbsState, source: Source) -> AbsVal
    ensures is { result ≡ source_value state.now source }
{
    match source {
        Source::Imm(number) => AbsVal::Number(AbsNum::single(word_of_int(number))),
        Source::Reg(register) => state.register(register),
    }
}

/// Puts a value into a register, and goes `slots` slots further.
pub fn put_value(mut state: AbsState, slots: usize, dst: Reg, value: AbsVal) -> Result<Ways, Fault>
    requires inside { state.pc < 16384 }
    requires few { slots ≤ 2 }
    ensures is { IsOrNoMemory result (put state slots dst value) }
{
    let next = state.pc() + slots;
    state.set_register(dst, value)?;
    state.go_to(next);
    Ok(Ways::One(state))
}

/// Puts an operation's result into a register, and goes to the next slot. If the result has a new label (`labels`), all
/// other values forget this label first.
pub fn put_result(
    alloc: Global,
    mut state: AbsState,
    labels: bool,
    dst: Reg,
    value: AbsVal,
) -> Result<Ways, Fault>
    requires inside { state.pc < 16384 }
    ensures is { IsOrNoMemory result (put
        (if labels then without_label state (state.pc + 1) else state) 1 dst value) }
{
    if !labels {
        return put_value(state, 1, dst, value);
    }
    let pc = state.pc();
    state.forget_label(alloc, pc as u16 + 1)?;
    state.set_register(dst, value)?;
    state.go_to(pc + 1);
    Ok(Ways::One(state))
}

/// The target of a jump, which lies in the program.
pub fn target(pc: usize, by: i32) -> usize
    requires small { pc < 16384 }
    requires inside { (t : ℕ) × IsJump pc by t }
    ensures is { result ≡ landing pc by }
{
    match jump_target(pc, by) {
        Some(to) => to,
        None => unreachable!(),
    }
}

/// The same state at another slot.
pub fn goes_to(mut state: AbsState, pc: usize) -> Ways
    ensures is { result ≡ One (at_slot state pc) }
{
    state.go_to(pc);
    Ways::One(state)
}

/// The branches that are followed, each at its slot.
pub fn ways_at(split: Split, fall: usize, jump: usize) -> Ways
    ensures is { result ≡ ways (moved_to fall split.0) (moved_to jump split.1) }
{
    let (first, second) = split;
    match first {
        None => match second {
            None => Ways::Nowhere,
            Some(mut second) => {
                second.go_to(jump);
                Ways::One(second)
            }
        },
        Some(mut first) => {
            first.go_to(fall);
            match second {
                None => Ways::One(first),
                Some(mut second) => {
                    second.go_to(jump);
                    Ways::Two(first, second)
                }
            }
        }
    }
}

/// The result of helper 1: an untested lookup in a map, at an index that is a number.
fn look_up(map: AbsVal, index: AbsVal) -> Result<AbsVal, Fault>
    ensures is { result ≡ looked_up map index }
{
    match map {
        AbsVal::MapReference(number) => match index {
            AbsVal::Number(_) => Ok(AbsVal::Lookup(number)),
            _ => Err(fault_of_two(map, index)),
        },
        _ => Err(fault_of_two(map, index)),
    }
}

/// The value that a helper returns.
pub fn helper_answer(state: &AbsState, helper: u64) -> Result<AbsVal, Fault>
    ensures is { result ≡ helped state.now helper }
{
    match helper {
        1 => look_up(state.register(Reg::new(1)), state.register(Reg::new(2))),
        3 => Ok(AbsVal::Number(AbsNum::within(Interval::new(0, 2007)))),
        5 => match number_of(state.register(Reg::new(1))) {
            Err(fault) => Err(fault),
            Ok(_) => Ok(AbsVal::Number(AbsNum::single(0))),
        },
        _ => Ok(AbsVal::Number(AbsNum::full())),
    }
}

/// True only if R1 to R5 are unset.
#[tactic(auto, using(crate::proofs::Answering::cleared_again))]
fn has_no_arguments(state: &AbsState) -> bool
    ensures is { result ≡ true → without_arguments state.now.registers ≡ state.now.registers }
{
    matches!(state.register(Reg::new(1)), AbsVal::Unset)
        && matches!(state.register(Reg::new(2)), AbsVal::Unset)
        && matches!(state.register(Reg::new(3)), AbsVal::Unset)
        && matches!(state.register(Reg::new(4)), AbsVal::Unset)
        && matches!(state.register(Reg::new(5)), AbsVal::Unset)
}

/// The state after a helper call. Registers that are already unset aren't written.
#[tactic(auto, using(crate::proofs::Answering::answered_last))]
pub fn after_helper(mut state: AbsState, value: AbsVal) -> Result<Ways, Fault>
    requires inside { state.pc < 16384 }
    ensures is { IsOrNoMemory result (Ok (One (answered state value))) }
{
    let next = state.pc() + 1;
    if !has_no_arguments(&state) {
        state.clear_arguments()?;
    }
    state.set_register(Reg::new(0), value)?;
    state.go_to(next);
    Ok(Ways::One(state))
}

/// The state in which a local function starts.
pub fn call_at(alloc: Global, mut state: AbsState, to: usize) -> Result<Ways, Fault>
    requires inside { state.pc < 16384 }
    ensures is { IsOrNoMemory result (on (call state to) (λ b. Ok (One b))) }
{
    if state.depth() >= 8 {
        return Err(Fault::TooManyFrames);
    }
    let back = state.pc() as u16 + 1;
    state.call(alloc, to, back)?;
    Ok(Ways::One(state))
}

/// EXIT requires a number in R0. It ends the run, or returns to the caller.
pub fn exit(mut state: AbsState) -> Result<Ways, Fault>
    ensures is { IsOrNoMemory result
        (on (exit_number (register state 0)) (λ x. Ok (exited state))) }
{
    match state.register(Reg::new(0)) {
        AbsVal::Number(_) => {
            if state.depth() == 1 {
                return Ok(Ways::Nowhere);
            }
            state.return_to_caller()?;
            Ok(Ways::One(state))
        }
        AbsVal::Unset => Err(Fault::Unset),
        _ => Err(Fault::NoResult),
    }
}

/// What CMPXCHG compares with; for other operations 0.
pub fn expected_by(state: &AbsState, op: AtomicOp) -> AbsVal
    ensures is { result ≡ compared op state.now }
{
    match op {
        AtomicOp::Cmpxchg => state.register(Reg::new(0)),
        _ => AbsVal::Number(AbsNum::single(0)),
    }
}
