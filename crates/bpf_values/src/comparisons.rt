//! Comparisons.

ghost use Rattle.std.specs.Prelude.{◌≡◌, ◌<◌, ◌≤◌, ℕ};
ghost use Rattle.bpf_model.specs.Alu.{holds, end_test, null_test, wide_test, narrow_test, taken};

use crate::arithmetic::wrong_kinds;
use crate::causes;
use bpf_insn::Compare;
use bpf_regions::{Region, Value};
use bpf_words::{low_half, signed_order_32, signed_order_64};

/// A comparison of JMP, of 64 bits (RFC 9669, section 4.3).
pub fn compares_64(compare: Compare, x: u64, y: u64) -> bool
    ensures { result ≡ holds 64 compare x y }
{
    match compare {
        Compare::Eq => x == y,
        Compare::Ne => x != y,
        Compare::Gt => x > y,
        Compare::Ge => x >= y,
        Compare::Lt => x < y,
        Compare::Le => x <= y,
        Compare::Set => x & y != 0,
        Compare::Sgt => signed_order_64(x) > signed_order_64(y),
        Compare::Sge => signed_order_64(x) >= signed_order_64(y),
        Compare::Slt => signed_order_64(x) < signed_order_64(y),
        Compare::Sle => signed_order_64(x) <= signed_order_64(y),
    }
}

/// A comparison of JMP32, of 32 bits (RFC 9669, section 4.3).
pub fn compares_32(compare: Compare, x: u32, y: u32) -> bool
    ensures { result ≡ holds 32 compare x y }
{
    match compare {
        Compare::Eq => x == y,
        Compare::Ne => x != y,
        Compare::Gt => x > y,
        Compare::Ge => x >= y,
        Compare::Lt => x < y,
        Compare::Le => x <= y,
        Compare::Set => x & y != 0,
        Compare::Sgt => signed_order_32(x) > signed_order_32(y),
        Compare::Sge => signed_order_32(x) >= signed_order_32(y),
        Compare::Slt => signed_order_32(x) < signed_order_32(y),
        Compare::Sle => signed_order_32(x) <= signed_order_32(y),
    }
}

fn against_end(compare: Compare, x: u64, y: u64) -> Result<bool, u8>
    ensures { result ≡ end_test compare x y }
{
    match compare {
        Compare::Gt => Ok(x > y),
        Compare::Ge => Ok(x >= y),
        Compare::Lt => Ok(x < y),
        Compare::Le => Ok(x <= y),
        _ => Err(causes::WRONG_OPERAND),
    }
}

fn against_null(compare: Compare, zero: bool) -> Result<bool, u8>
    ensures { result ≡ null_test compare zero }
{
    match compare {
        Compare::Eq => {
            if zero {
                Ok(false)
            } else {
                Err(causes::WRONG_OPERAND)
            }
        }
        Compare::Ne => {
            if zero {
                Ok(true)
            } else {
                Err(causes::WRONG_OPERAND)
            }
        }
        _ => Err(causes::WRONG_OPERAND),
    }
}

fn test_wide(compare: Compare, length: usize, zero: bool, a: Value, b: Value) -> Result<bool, u8>
    ensures { result ≡ wide_test compare length zero a b }
{
    match a {
        Value::Number(x) => match b {
            Value::Number(y) => Ok(compares_64(compare, x, y)),
            _ => Err(wrong_kinds(a, b)),
        },
        Value::Pointer { region, offset } => match b {
            Value::Number(_) => against_null(compare, zero),
            Value::FrameEnd => match region {
                Region::Frame => against_end(compare, offset, length as u64),
                _ => Err(wrong_kinds(a, b)),
            },
            _ => Err(wrong_kinds(a, b)),
        },
        Value::FrameEnd => match b {
            Value::Pointer { region, offset } => match region {
                Region::Frame => against_end(compare, length as u64, offset),
                _ => Err(wrong_kinds(a, b)),
            },
            _ => Err(wrong_kinds(a, b)),
        },
        _ => Err(wrong_kinds(a, b)),
    }
}

fn test_narrow(compare: Compare, a: Value, b: Value) -> Result<bool, u8>
    ensures { result ≡ narrow_test compare a b }
{
    match a {
        Value::Number(x) => match b {
            Value::Number(y) => Ok(compares_32(compare, low_half(x), low_half(y))),
            _ => Err(wrong_kinds(a, b)),
        },
        _ => Err(wrong_kinds(a, b)),
    }
}

/// A source's value, and whether it is the immediate 0.
#[derive(Clone, Copy)]
pub struct Operand {
    pub value: Value,
    pub zero: bool,
}

/// Whether a conditional jump is taken, or its fault. `length` is the frame's.
pub fn is_taken(
    compare: Compare,
    wide: bool,
    length: usize,
    a: Value,
    b: Operand,
) -> Result<bool, u8>
    ensures { result ≡ taken compare wide length b.zero a b.value }
{
    if wide {
        test_wide(compare, length, b.zero, a, b.value)
    } else {
        test_narrow(compare, a, b.value)
    }
}
