//! Arithmetic on abstract values. Operands are checked in this order: all are set (30), none is an untested lookup
//! result (34), their kinds fit (31).

ghost use Rattle.std.specs.Prelude.{◌≡◌, ◌<◌, ◌+◌, Some};
ghost use Rattle.bpf_words.specs.Word.{word_add, word_sub};
ghost use Rattle.bpf_rules.specs.Operands.{wrong, wrong_two, number, numbers, within_reach, label_moved, label_after, sum, difference, moved, alu, is_variable, makes_label, wide_value};

use bpf_absnum::AbsNum;
use bpf_absval::{AbsRegion, AbsVal, Label};
use bpf_insn::{AluOp, Wide};
use bpf_rules::Fault;

/// No frame is longer, so no distance is larger.
const LONGEST: u64 = 2400;

/// The fault of a value of the wrong kind.
pub fn fault_of(value: AbsVal) -> Fault
    ensures is { result ≡ wrong value }
{
    match value {
        AbsVal::Unset => Fault::Unset,
        AbsVal::Lookup(_) => Fault::NotTested,
        _ => Fault::WrongOperand,
    }
}

/// The fault of two values of which at least one is of the wrong kind.
pub fn fault_of_two(a: AbsVal, b: AbsVal) -> Fault
    ensures is { result ≡ wrong_two a b }
{
    if matches!(a, AbsVal::Unset) || matches!(b, AbsVal::Unset) {
        return Fault::Unset;
    }
    if matches!(a, AbsVal::Lookup(_)) || matches!(b, AbsVal::Lookup(_)) {
        return Fault::NotTested;
    }
    Fault::WrongOperand
}

/// The number, if the value is one.
pub fn number_of(value: AbsVal) -> Result<AbsNum, Fault>
    ensures is { result ≡ number value }
{
    match value {
        AbsVal::Number(number) => Ok(number),
        _ => Err(fault_of(value)),
    }
}

/// An operation whose operands must both be numbers.
fn on_numbers(op: AluOp, wide: bool, a: AbsVal, b: AbsVal) -> Result<AbsVal, Fault>
    ensures is { result ≡ numbers wide op a b }
{
    match a {
        AbsVal::Number(x) => match b {
            AbsVal::Number(y) => Ok(AbsVal::Number(x.alu(op, wide, y))),
            _ => Err(fault_of_two(a, b)),
        },
        _ => Err(fault_of_two(a, b)),
    }
}

/// A label at a distance, if that is at most 2400.
fn reach(label: u16, distance: u64) -> Option<Label>
    ensures is { result ≡ within_reach label distance }
{
    if distance <= LONGEST {
        let distance = distance as u16;
        return Some(Label { label, distance });
    }
    None
}

/// What a pointer keeps of its label if a single number is added.
fn label_ahead(label: Option<Label>, by: u64) -> Option<Label>
    ensures is { result ≡ label_moved word_add by label }
{
    match label {
        None => None,
        Some(label) => reach(label.label, u64::from(label.distance).wrapping_add(by)),
    }
}

/// What a pointer keeps of its label if a single number is subtracted.
fn label_back(label: Option<Label>, by: u64) -> Option<Label>
    ensures is { result ≡ label_moved word_sub by label }
{
    match label {
        None => None,
        Some(label) => reach(label.label, u64::from(label.distance).wrapping_sub(by)),
    }
}

/// The label that an addition or subtraction of a number that isn't single makes at this slot.
fn own_label(pc: u16) -> Option<Label>
    requires { pc < 16384 }
    ensures is { result ≡ Some (record { label = pc + 1; distance = 0 }) }
{
    Some(Label {
        label: pc + 1,
        distance: 0,
    })
}

fn label_after_sum(pc: u16, by: AbsNum, label: Option<Label>) -> Option<Label>
    requires { pc < 16384 }
    ensures is { result ≡ label_after pc word_add by label }
{
    if by.is_single() {
        return label_ahead(label, by.range().low());
    }
    own_label(pc)
}

fn label_after_difference(pc: u16, by: AbsNum, label: Option<Label>) -> Option<Label>
    requires { pc < 16384 }
    ensures is { result ≡ label_after pc word_sub by label }
{
    if by.is_single() {
        return label_back(label, by.range().low());
    }
    own_label(pc)
}

/// ADD in ALU64: of two numbers, or of a number and a pointer in either order.
fn add(pc: u16, a: AbsVal, b: AbsVal) -> Result<AbsVal, Fault>
    requires { pc < 16384 }
    ensures is { result ≡ sum pc a b }
{
    match a {
        AbsVal::Number(x) => match b {
            AbsVal::Number(y) => Ok(AbsVal::Number(x.alu(AluOp::Add, true, y))),
            AbsVal::Frame { offset, label } => Ok(AbsVal::Frame {
                offset: offset.alu(AluOp::Add, true, x),
                label: label_after_sum(pc, x, label),
            }),
            AbsVal::Pointer { region, offset } => Ok(AbsVal::Pointer {
                region,
                offset: offset.alu(AluOp::Add, true, x),
            }),
            _ => Err(fault_of_two(a, b)),
        },
        AbsVal::Frame { offset, label } => match b {
            AbsVal::Number(y) => Ok(AbsVal::Frame {
                offset: offset.alu(AluOp::Add, true, y),
                label: label_after_sum(pc, y, label),
            }),
            _ => Err(fault_of_two(a, b)),
        },
        AbsVal::Pointer { region, offset } => match b {
            AbsVal::Number(y) => Ok(AbsVal::Pointer {
                region,
                offset: offset.alu(AluOp::Add, true, y),
            }),
            _ => Err(fault_of_two(a, b)),
        },
        _ => Err(fault_of_two(a, b)),
    }
}

/// SUB in ALU64: a number from a number or from a pointer.
fn subtract(pc: u16, a: AbsVal, b: AbsVal) -> Result<AbsVal, Fault>
    requires { pc < 16384 }
    ensures is { result ≡ difference pc a b }
{
    let AbsVal::Number(y) = b else {
        return Err(fault_of_two(a, b));
    };
    match a {
        AbsVal::Number(x) => Ok(AbsVal::Number(x.alu(AluOp::Sub, true, y))),
        AbsVal::Frame { offset, label } => Ok(AbsVal::Frame {
            offset: offset.alu(AluOp::Sub, true, y),
            label: label_after_difference(pc, y, label),
        }),
        AbsVal::Pointer { region, offset } => Ok(AbsVal::Pointer {
            region,
            offset: offset.alu(AluOp::Sub, true, y),
        }),
        _ => Err(fault_of_two(a, b)),
    }
}

/// MOV: in ALU64 any value that is set, in ALU the low half of a number.
fn copy(wide: bool, value: AbsVal) -> Result<AbsVal, Fault>
    ensures is { result ≡ moved wide value }
{
    match value {
        AbsVal::Unset => Err(Fault::Unset),
        AbsVal::Number(n) => Ok(AbsVal::Number(n.alu(AluOp::Mov, wide, n))),
        _ => {
            if wide {
                return Ok(value);
            }
            Err(fault_of(value))
        }
    }
}

/// The result of an arithmetic operation at a slot.
pub fn operate(pc: u16, op: AluOp, wide: bool, a: AbsVal, b: AbsVal) -> Result<AbsVal, Fault>
    requires { pc < 16384 }
    ensures is { result ≡ alu pc op wide a b }
{
    match op {
        AluOp::Mov => copy(wide, b),
        AluOp::Add => {
            if wide {
                return add(pc, a, b);
            }
            on_numbers(op, wide, a, b)
        }
        AluOp::Sub => {
            if wide {
                return subtract(pc, a, b);
            }
            on_numbers(op, wide, a, b)
        }
        _ => on_numbers(op, wide, a, b),
    }
}

/// Whether one operand is a frame pointer and the other a number that isn't single.
fn meets_variable(a: AbsVal, b: AbsVal) -> bool
    ensures is { result ≡ is_variable a b }
{
    match a {
        AbsVal::Frame { .. } => match b {
            AbsVal::Number(n) => !n.is_single(),
            _ => false,
        },
        AbsVal::Number(n) => match b {
            AbsVal::Frame { .. } => !n.is_single(),
            _ => false,
        },
        _ => false,
    }
}

/// Whether an operation gives a frame pointer a new label.
pub fn gives_label(op: AluOp, a: AbsVal, b: AbsVal) -> bool
    ensures is { result ≡ makes_label op a b }
{
    match op {
        AluOp::Add => meets_variable(a, b),
        AluOp::Sub => meets_variable(a, b),
        _ => false,
    }
}

/// The value that a wide load loads.
pub fn wide_load(value: Wide) -> AbsVal
    ensures is { result ≡ wide_value value }
{
    match value {
        Wide::Number(number) => AbsVal::Number(AbsNum::single(number)),
        Wide::Map(map) => AbsVal::MapReference(map),
        Wide::MapValue { map, offset } => AbsVal::Pointer {
            region: AbsRegion::Entry(map),
            offset: AbsNum::single(u64::from(offset)),
        },
    }
}
