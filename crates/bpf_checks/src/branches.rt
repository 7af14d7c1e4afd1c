//! Conditional jumps: which branches are followed, and what each shows.

ghost use Rattle.std.specs.Prelude.{◌≡◌, ◌≤◌, IfOk, IfSome, OnOk, true, false};
ghost use Rattle.bpf_absval.specs.declared.value.AbsVal.TheVariants.{Number};
ghost use Rattle.bpf_checks.specs.Lessons.{lesson_of};
ghost use Rattle.bpf_absstate.specs.View.{with_register};
ghost use Rattle.bpf_model.specs.Alu.{is_zero};
ghost use Rattle.bpf_rules.specs.Faults.{IsOrNoMemory};
ghost use Rattle.bpf_rules.specs.Branches.{compared_value, is_itself, narrowed, narrowed_state, number_way, number_ways, null_test, lookup_ways, pointer_ways, turned, is_order, learnt, taught, lesson, end_test, wide_ways, narrow_ways, split};

use crate::operands::fault_of_two;
use bpf_absnum::AbsNum;
use bpf_absstate::AbsState;
use bpf_absval::{AbsRegion, AbsVal, Label};
use bpf_insn::{Compare, Reg, Source};
use bpf_rules::Fault;
use bpf_words::word_of_int;
use std::alloc::AllocError;

/// The states on the branch not taken and on the branch taken, both at the jump itself; None if a branch isn't
/// followed.
pub type Split = (Option<AbsState>, Option<AbsState>);

/// What a conditional jump tests.
#[derive(Clone, Copy)]
pub struct Test {
    pub compare: Compare,
    pub wide: bool,
    pub dst: Reg,
    pub source: Source,
}

impl Test {
    /// Compares a register with a source: 64 bits (`wide`) or 32.
    pub fn new(compare: Compare, wide: bool, dst: Reg, source: Source) -> Test
        ensures is { result
            ≡ record { compare = compare; wide = wide; dst = dst; source = source } }
    {
        Test {
            compare,
            wide,
            dst,
            source,
        }
    }
}

/// The right operand. JMP32 compares the low 32 bits of an immediate.
fn compared_with(state: &AbsState, test: &Test) -> AbsVal
    ensures is { result ≡ compared_value test.now.wide state.now test.now.source }
{
    match test.source {
        Source::Imm(number) => {
            let word = word_of_int(number);
            let word = if test.wide { word } else { word % 4294967296 };
            AbsVal::Number(AbsNum::single(word))
        }
        Source::Reg(register) => state.register(register),
    }
}

fn same_register(dst: Reg, source: Source) -> bool
    ensures is { result ≡ is_itself dst source }
{
    match source {
        Source::Imm(_) => false,
        Source::Reg(register) => register == dst,
    }
}

/// What remains of both operands on a branch.
fn narrow(test: &Test, taken: bool, x: AbsNum, y: AbsNum) -> Option<(AbsNum, AbsNum)>
    ensures is { result ≡ narrowed test.now.wide test.now.compare
        (is_itself test.now.dst test.now.source) taken x y }
{
    if same_register(test.dst, test.source) && !x.is_single() {
        return Some((x, y));
    }
    x.branch(test.compare, test.wide, taken, y)
}

/// Puts a number into a register, unless it holds that number already.
#[tactic(auto, using(crate::proofs::Written::written_again))]
fn put_number(state: &mut AbsState, register: Reg, number: AbsNum) -> Result<(), AllocError>
    ensures is { OnOk result (state.new ≡ with_register state.old register (Number number)) }
{
    let value = AbsVal::Number(number);
    if state.register(register) == value {
        return Ok(());
    }
    state.set_register(register, value)?;
    Ok(())
}

/// The state with the narrowed operands.
fn with_narrowed(
    mut state: AbsState,
    test: &Test,
    x: AbsNum,
    y: AbsNum,
) -> Result<AbsState, AllocError>
    ensures is { IfOk result
        (λ next. next ≡ narrowed_state state test.now.dst test.now.source x y) }
{
    put_number(&mut state, test.dst, x)?;
    if let Source::Reg(register) = test.source {
        put_number(&mut state, register, y)?;
    }
    Ok(state)
}

/// One branch of a comparison of numbers.
fn way_of_numbers(
    state: AbsState,
    test: &Test,
    taken: bool,
    x: &AbsNum,
    y: &AbsNum,
) -> Result<Option<AbsState>, AllocError>
    ensures is { IfOk result (λ way. way ≡ number_way state
        test.now.wide test.now.compare taken test.now.dst test.now.source x.now y.now) }
{
    match narrow(test, taken, *x, *y) {
        None => Ok(None),
        Some((u, v)) => {
            let next = with_narrowed(state, test, u, v)?;
            Ok(Some(next))
        }
    }
}

/// Both branches of a comparison of numbers.
fn ways_of_numbers(
    state: AbsState,
    test: &Test,
    x: &AbsNum,
    y: &AbsNum,
) -> Result<Split, AllocError>
    ensures is { IfOk result (λ ways. ways ≡ number_ways state
        test.now.wide test.now.compare test.now.dst test.now.source x.now y.now) }
{
    let copy = state.clone()?;
    let fall = way_of_numbers(copy, test, false, x, y)?;
    let jump = way_of_numbers(state, test, true, x, y)?;
    Ok((fall, jump))
}

/// If JEQ or JNE tests for the immediate 0: whether the jump is taken if the register isn't 0. Otherwise None.
fn taken_unless_null(compare: Compare, zero: bool) -> Option<bool>
    ensures is { result ≡ null_test compare zero }
{
    match compare {
        Compare::Eq => {
            if zero {
                return Some(false);
            }
            None
        }
        Compare::Ne => {
            if zero {
                return Some(true);
            }
            None
        }
        _ => None,
    }
}

fn is_zero_source(source: Source) -> bool
    ensures is { result ≡ is_zero source }
{
    match source {
        Source::Imm(number) => word_of_int(number) == 0,
        Source::Reg(_) => false,
    }
}

fn with_value(mut state: AbsState, dst: Reg, value: AbsVal) -> Result<AbsState, AllocError>
    ensures is { IfOk result (λ next. next ≡ with_register state dst value) }
{
    state.set_register(dst, value)?;
    Ok(state)
}

/// The branches of testing a lookup's result for null: it is 0, or points to the start of an entry.
fn ways_of_lookup(state: AbsState, dst: Reg, map: u32, test: Option<bool>) -> Result<Split, Fault>
    ensures is { IsOrNoMemory result (lookup_ways state dst map test) }
{
    let Some(taken) = test else {
        return Err(Fault::NotTested);
    };
    let pointer = AbsVal::Pointer {
        region: AbsRegion::Entry(map),
        offset: AbsNum::single(0),
    };
    let copy = state.clone()?;
    let set = with_value(copy, dst, pointer)?;
    let null = with_value(state, dst, AbsVal::Number(AbsNum::single(0)))?;
    if taken {
        return Ok((Some(null), Some(set)));
    }
    Ok((Some(set), Some(null)))
}

/// The only branch of testing a pointer for null.
fn ways_of_pointer(state: AbsState, test: Option<bool>) -> Result<Split, Fault>
    ensures is { result ≡ pointer_ways state test }
{
    let Some(taken) = test else {
        return Err(Fault::WrongOperand);
    };
    if taken {
        return Ok((None, Some(state)));
    }
    Ok((Some(state), None))
}

/// The branch on which the offset plus `more` is at most the frame's length; None if no frame is that long.
fn with_learnt(
    mut state: AbsState,
    offset: AbsNum,
    label: &Option<Label>,
    more: u16,
) -> Result<Option<AbsState>, AllocError>
    requires small { more ≤ 1 }
    ensures is { IfOk result (λ way. way ≡ learnt state offset label.now more) }
{
    let low = offset.range().low();
    if low > 2400 - u64::from(more) {
        return Ok(None);
    }
    state.raise_least(low as u16 + more);
    if let Some(label) = label {
        if u64::from(label.distance) <= low {
            state.raise_room(label.label, label.distance + more)?;
        }
    }
    Ok(Some(state))
}

/// By how many bytes more than the offset the frame's length is bounded on a branch of a comparison with the frame end:
/// 0 if the offset is at most the length, 1 if it is below it, None if the branch shows nothing.
fn taught_by(compare: Compare, taken: bool) -> Option<u16>
    ensures is { lesson_of result ≡ lesson compare taken }
    ensures small { IfSome result (λ more. more ≤ 1) }
{
    match compare {
        Compare::Gt => {
            if taken {
                return None;
            }
            Some(0)
        }
        Compare::Ge => {
            if taken {
                return None;
            }
            Some(1)
        }
        Compare::Lt => {
            if taken {
                return Some(1);
            }
            None
        }
        Compare::Le => {
            if taken {
                return Some(0);
            }
            None
        }
        _ => None,
    }
}

/// One branch of comparing a pointer with the frame end.
fn way_of_end(
    state: AbsState,
    offset: AbsNum,
    label: &Option<Label>,
    compare: Compare,
    taken: bool,
) -> Result<Option<AbsState>, AllocError>
    ensures is { IfOk result
        (λ way. way ≡ taught state offset label.now (lesson compare taken)) }
{
    match taught_by(compare, taken) {
        None => Ok(Some(state)),
        Some(more) => {
            let next = with_learnt(state, offset, label, more)?;
            Ok(next)
        }
    }
}

/// Both branches of comparing a pointer with the frame end.
fn ways_of_end(
    state: AbsState,
    offset: AbsNum,
    label: Option<Label>,
    compare: Option<Compare>,
) -> Result<Split, Fault>
    ensures is { IsOrNoMemory result (end_test state offset label compare) }
{
    let Some(compare) = compare else {
        return Err(Fault::WrongOperand);
    };
    let place = &offset;
    let copy = state.clone()?;
    let fall = way_of_end(copy, *place, &label, compare, false)?;
    let jump = way_of_end(state, *place, &label, compare, true)?;
    Ok((fall, jump))
}

/// The unsigned comparison with its operands swapped; None if it isn't an order.
fn turn(compare: Compare) -> Option<Compare>
    ensures is { result ≡ turned compare }
{
    match compare {
        Compare::Gt => Some(Compare::Lt),
        Compare::Ge => Some(Compare::Le),
        Compare::Lt => Some(Compare::Gt),
        Compare::Le => Some(Compare::Ge),
        _ => None,
    }
}

/// The comparison, if it is an unsigned order.
fn as_order(compare: Compare) -> Option<Compare>
    ensures is { result ≡ is_order compare }
{
    match compare {
        Compare::Gt => Some(Compare::Gt),
        Compare::Ge => Some(Compare::Ge),
        Compare::Lt => Some(Compare::Lt),
        Compare::Le => Some(Compare::Le),
        _ => None,
    }
}

/// The branches of comparing 64 bits with a number.
fn ways_against_number(
    state: AbsState,
    test: &Test,
    left: AbsVal,
    y: AbsNum,
) -> Result<Split, Fault>
    requires wide { test.now.wide ≡ true }
    ensures is { IsOrNoMemory result
        (wide_ways state test.now.compare test.now.dst test.now.source left (Number y)) }
{
    let null = taken_unless_null(test.compare, is_zero_source(test.source));
    match left {
        AbsVal::Number(x) => {
            let ways = ways_of_numbers(state, test, &x, &y)?;
            Ok(ways)
        }
        AbsVal::Lookup(map) => ways_of_lookup(state, test.dst, map, null),
        AbsVal::Frame { .. } => ways_of_pointer(state, null),
        AbsVal::Pointer { .. } => ways_of_pointer(state, null),
        AbsVal::Unset => Err(Fault::Unset),
        _ => Err(Fault::WrongOperand),
    }
}

/// The branches of a 64-bit comparison.
fn ways_of_wide(state: AbsState, test: &Test, left: AbsVal, right: AbsVal) -> Result<Split, Fault>
    requires wide { test.now.wide ≡ true }
    ensures is { IsOrNoMemory result
        (wide_ways state test.now.compare test.now.dst test.now.source left right) }
{
    match right {
        AbsVal::Number(y) => ways_against_number(state, test, left, y),
        AbsVal::FrameEnd => match left {
            AbsVal::Frame { offset, label } => {
                ways_of_end(state, offset, label, as_order(test.compare))
            }
            _ => Err(fault_of_two(left, right)),
        },
        AbsVal::Frame { offset, label } => match left {
            AbsVal::FrameEnd => ways_of_end(state, offset, label, turn(test.compare)),
            _ => Err(fault_of_two(left, right)),
        },
        _ => Err(fault_of_two(left, right)),
    }
}

/// The branches of a 32-bit comparison.
fn ways_of_narrow(state: AbsState, test: &Test, left: AbsVal, right: AbsVal) -> Result<Split, Fault>
    requires narrow { test.now.wide ≡ false }
    ensures is { IsOrNoMemory result
        (narrow_ways state test.now.compare test.now.dst test.now.source left right) }
{
    match left {
        AbsVal::Number(x) => match right {
            AbsVal::Number(y) => {
                let ways = ways_of_numbers(state, test, &x, &y)?;
                Ok(ways)
            }
            _ => Err(fault_of_two(left, right)),
        },
        _ => Err(fault_of_two(left, right)),
    }
}

/// The branches of a conditional jump, at the jump itself.
pub fn split_ways(state: AbsState, test: &Test) -> Result<Split, Fault>
    ensures is { IsOrNoMemory result
        (split state test.now.wide test.now.compare test.now.dst test.now.source) }
{
    let left = state.register(test.dst);
    let right = compared_with(&state, test);
    if test.wide {
        return ways_of_wide(state, test, left, right);
    }
    ways_of_narrow(state, test, left, right)
}
