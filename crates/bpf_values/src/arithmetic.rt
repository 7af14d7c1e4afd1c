//! Arithmetic on values.

ghost use Rattle.std.specs.Prelude.{◌≡◌, ◌<◌, ◌≤◌, ℕ};
ghost use Rattle.bpf_insn.specs.Widths.{order_bits};
ghost use Rattle.bpf_model.specs.Alu.{operation, computed, is_unset, wrong, wrong_two, number, numbers, sum, difference, moved, alu, extended, negation, ordered, wide_value};

use crate::causes;
use bpf_insn::{AluOp, ByteOrder, Extension, OrderWidth, Wide};
use bpf_regions::{Region, Value};
use bpf_words::{
    arithmetic_shift_right_32, arithmetic_shift_right_64, bytes_swapped, low_half, negated_32,
    negated_64, quotient_32, quotient_64, remainder_32, remainder_64, sign_extended_32,
    sign_extended_64, signed_quotient_32, signed_quotient_64, signed_remainder_32,
    signed_remainder_64,
};

/// Whether the value is unset.
pub fn unset(a: Value) -> bool
    ensures { result ≡ is_unset a }
{
    match a {
        Value::Unset => true,
        Value::Number(_) => false,
        Value::Pointer { .. } => false,
        Value::FrameEnd => false,
        Value::MapReference(_) => false,
    }
}

/// The fault of a value of the wrong kind: 30 if it is unset, else 31.
pub fn wrong_kind(a: Value) -> u8
    ensures { result ≡ wrong a }
{
    if unset(a) {
        causes::UNSET
    } else {
        causes::WRONG_OPERAND
    }
}

/// The fault of two values, one or both of the wrong kind: 30 if either is unset, else 31.
pub fn wrong_kinds(a: Value, b: Value) -> u8
    ensures { result ≡ wrong_two a b }
{
    if unset(a) || unset(b) {
        causes::UNSET
    } else {
        causes::WRONG_OPERAND
    }
}

fn operate_64(op: AluOp, x: u64, y: u64) -> u64
    ensures { result ≡ operation 64 op x y }
{
    match op {
        AluOp::Add => x.wrapping_add(y),
        AluOp::Sub => x.wrapping_sub(y),
        AluOp::Mul => x.wrapping_mul(y),
        AluOp::Div => quotient_64(x, y),
        AluOp::Or => x | y,
        AluOp::And => x & y,
        AluOp::Lsh => x << (y % 64),
        AluOp::Rsh => x >> (y % 64),
        AluOp::Mod => remainder_64(x, y),
        AluOp::Xor => x ^ y,
        AluOp::Mov => y,
        AluOp::Arsh => arithmetic_shift_right_64(x, y),
        AluOp::Sdiv => signed_quotient_64(x, y),
        AluOp::Smod => signed_remainder_64(x, y),
    }
}

fn operate_32(op: AluOp, x: u32, y: u32) -> u32
    ensures { result ≡ operation 32 op x y }
{
    match op {
        AluOp::Add => x.wrapping_add(y),
        AluOp::Sub => x.wrapping_sub(y),
        AluOp::Mul => x.wrapping_mul(y),
        AluOp::Div => quotient_32(x, y),
        AluOp::Or => x | y,
        AluOp::And => x & y,
        AluOp::Lsh => x << (y % 32),
        AluOp::Rsh => x >> (y % 32),
        AluOp::Mod => remainder_32(x, y),
        AluOp::Xor => x ^ y,
        AluOp::Mov => y,
        AluOp::Arsh => arithmetic_shift_right_32(x, y),
        AluOp::Sdiv => signed_quotient_32(x, y),
        AluOp::Smod => signed_remainder_32(x, y),
    }
}

/// An operation of ALU64 if `wide`, else of ALU on the low 32 bits, with the upper 32 zero (RFC 9669, section 4.1).
pub fn compute(wide: bool, op: AluOp, x: u64, y: u64) -> u64
    ensures { result ≡ computed wide op x y }
{
    if wide {
        operate_64(op, x, y)
    } else {
        u64::from(operate_32(op, low_half(x), low_half(y)))
    }
}

/// The number, or fault 30 if the value is unset, 31 if it is anything else.
pub fn number_in(a: Value) -> Result<u64, u8>
    ensures { result ≡ number a }
{
    match a {
        Value::Unset => Err(causes::UNSET),
        Value::Number(x) => Ok(x),
        Value::Pointer { .. } => Err(causes::WRONG_OPERAND),
        Value::FrameEnd => Err(causes::WRONG_OPERAND),
        Value::MapReference(_) => Err(causes::WRONG_OPERAND),
    }
}

fn of_numbers(wide: bool, op: AluOp, a: Value, b: Value) -> Result<Value, u8>
    ensures { result ≡ numbers wide op a b }
{
    if let Value::Number(x) = a {
        if let Value::Number(y) = b {
            return Ok(Value::Number(compute(wide, op, x, y)));
        }
    }
    Err(wrong_kinds(a, b))
}

fn add(a: Value, b: Value) -> Result<Value, u8>
    ensures { result ≡ sum a b }
{
    match a {
        Value::Number(x) => match b {
            Value::Number(y) => Ok(Value::Number(x.wrapping_add(y))),
            Value::Pointer { region, offset } => Ok(Value::Pointer {
                region,
                offset: offset.wrapping_add(x),
            }),
            _ => Err(wrong_kinds(a, b)),
        },
        Value::Pointer { region, offset } => match b {
            Value::Number(y) => Ok(Value::Pointer {
                region,
                offset: offset.wrapping_add(y),
            }),
            _ => Err(wrong_kinds(a, b)),
        },
        _ => Err(wrong_kinds(a, b)),
    }
}

fn subtract(a: Value, b: Value) -> Result<Value, u8>
    ensures { result ≡ difference a b }
{
    match b {
        Value::Number(y) => match a {
            Value::Number(x) => Ok(Value::Number(x.wrapping_sub(y))),
            Value::Pointer { region, offset } => Ok(Value::Pointer {
                region,
                offset: offset.wrapping_sub(y),
            }),
            _ => Err(wrong_kinds(a, b)),
        },
        _ => Err(wrong_kinds(a, b)),
    }
}

fn move_value(wide: bool, b: Value) -> Result<Value, u8>
    ensures { result ≡ moved wide b }
{
    match b {
        Value::Unset => Err(causes::UNSET),
        Value::Number(x) => Ok(Value::Number(if wide { x } else { u64::from(low_half(x)) })),
        Value::Pointer { region, offset } => {
            if wide {
                Ok(Value::Pointer { region, offset })
            } else {
                Err(causes::WRONG_OPERAND)
            }
        }
        Value::FrameEnd => {
            if wide {
                Ok(Value::FrameEnd)
            } else {
                Err(causes::WRONG_OPERAND)
            }
        }
        Value::MapReference(map) => {
            if wide {
                Ok(Value::MapReference(map))
            } else {
                Err(causes::WRONG_OPERAND)
            }
        }
    }
}

/// The result of an arithmetic operation, or its fault.
pub fn arithmetic(op: AluOp, wide: bool, a: Value, b: Value) -> Result<Value, u8>
    ensures { result ≡ alu op wide a b }
{
    match op {
        AluOp::Mov => move_value(wide, b),
        AluOp::Add => {
            if wide {
                add(a, b)
            } else {
                of_numbers(wide, op, a, b)
            }
        }
        AluOp::Sub => {
            if wide {
                subtract(a, b)
            } else {
                of_numbers(wide, op, a, b)
            }
        }
        _ => of_numbers(wide, op, a, b),
    }
}

/// MOVSX: the low bits, sign-extended to 64 bits if `wide`, else to 32.
pub fn extend(from: Extension, wide: bool, x: u64) -> u64
    ensures is { result ≡ extended from wide x }
{
    match from {
        Extension::Byte => {
            if wide {
                sign_extended_64(8, x)
            } else {
                u64::from(sign_extended_32(8, low_half(x)))
            }
        }
        Extension::Half => {
            if wide {
                sign_extended_64(16, x)
            } else {
                u64::from(sign_extended_32(16, low_half(x)))
            }
        }
        Extension::Word => {
            if wide {
                sign_extended_64(32, x)
            } else {
                u64::from(low_half(x))
            }
        }
    }
}

/// NEG on 64 bits if `wide`, else on 32.
pub fn negate(wide: bool, x: u64) -> u64
    ensures is { result ≡ negation wide x }
{
    if wide {
        negated_64(x)
    } else {
        u64::from(negated_32(low_half(x)))
    }
}

/// The number of low bits that END converts: 16, 32 or 64 (RFC 9669, section 4.2).
pub fn bits_ordered(width: OrderWidth) -> u8
    ensures is { result ≡ order_bits width }
{
    match width {
        OrderWidth::Half => 16,
        OrderWidth::Word => 32,
        OrderWidth::Double => 64,
    }
}

/// END: the low bits with their bytes in this order.
pub fn in_order(order: ByteOrder, width: OrderWidth, x: u64) -> u64
    ensures is { result ≡ ordered order width x }
{
    match order {
        ByteOrder::Little => match width {
            OrderWidth::Half => x % 0x1_0000,
            OrderWidth::Word => u64::from(low_half(x)),
            OrderWidth::Double => x,
        },
        ByteOrder::Big => bytes_swapped(bits_ordered(width), x),
        ByteOrder::Swap => bytes_swapped(bits_ordered(width), x),
    }
}

/// The value that a wide load loads.
pub fn wide_load(value: Wide) -> Value
    ensures { result ≡ wide_value value }
{
    match value {
        Wide::Number(x) => Value::Number(x),
        Wide::Map(map) => Value::MapReference(map),
        Wide::MapValue { map, offset } => Value::Pointer {
            region: Region::Entry { map, index: 0 },
            offset: u64::from(offset),
        },
    }
}
