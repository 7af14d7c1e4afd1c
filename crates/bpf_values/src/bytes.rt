//! Bytes of the frame, the context and the stack.

ghost use Rattle.std.specs.Prelude.{◌≡◌, ◌<◌, ◌≤◌, ◌+◌, ◌*◌, ◌/◌, ◌%◌, ◌^◌, ◌-◌, ℕ, None, length, slice_index_or, slice_set, IfOk};
ghost use Rattle.bpf_model.specs.State.{empty_frame};
ghost use Rattle.bpf_values.specs.Inside.{IsWhole, IsSize};
ghost use Rattle.bpf_model.specs.Memory.{size_bytes, number_at, set_bytes, set_byte, spill_at, joined, with_number, without, number_stored, spilled, stored, from_stack, as_loaded, loaded_number};

use crate::arithmetic::unset;
use crate::causes;
use bpf_insn::Size;
use bpf_model::StackFrame;
use bpf_regions::Value;
use bpf_words::sign_extended_64;

/// The number of bytes of a load or store: 1, 2, 4 or 8.
pub fn size_in_bytes(size: Size) -> usize
    ensures is { result ≡ size_bytes size }
    ensures size { IsSize result }
{
    match size {
        Size::Byte => 1,
        Size::Half => 2,
        Size::Word => 4,
        Size::Double => 8,
    }
}

/// The number that `count` bytes spell, least significant first.
pub fn read_number(bytes: &[u8], at: usize, count: usize) -> u64
    requires inside { at + count ≤ length bytes.now }
    requires few { count ≤ 8 }
    ensures is { result ≡ number_at bytes.now at count }
    ensures bound { result < 2 ^ (8 * count) }
{
    if count == 0 {
        0
    } else {
        let low = u64::from(bytes[at]);
        let high = read_number(bytes, at + 1, count - 1);
        low + 256 * high
    }
}

fn one_byte(frame: &StackFrame, at: usize) -> Result<u64, u8>
    requires { at < 512 }
    ensures is { result ≡ set_byte frame.now at (slice_index_or frame.now.bytes at None) }
    ensures bound { IfOk result (λ x. x < 256) }
{
    match frame.bytes[at] {
        Some(byte) => Ok(u64::from(byte)),
        None => Err(if unset(frame.spills[at / 8]) {
            causes::UNSET
        } else {
            causes::WRONG_OPERAND
        }),
    }
}

/// The number that `count` bytes of a stack frame spell. Fault 30 if one is unset, else 31 if one is part of a spilled
/// value.
pub fn read_set_bytes(frame: &StackFrame, at: usize, count: usize) -> Result<u64, u8>
    requires inside { at + count ≤ 512 }
    requires few { count ≤ 8 }
    ensures is { result ≡ set_bytes frame.now at count }
    ensures bound { IfOk result (λ x. x < 2 ^ (8 * count)) }
{
    if count == 0 {
        return Ok(0);
    }
    let low = one_byte(frame, at);
    let high = read_set_bytes(frame, at + 1, count - 1);
    match low {
        Ok(byte) => match high {
            Ok(rest) => Ok(byte + 256 * rest),
            Err(cause) => Err(cause),
        },
        Err(cause) => match high {
            Ok(_) => Err(cause),
            Err(other) => Err(cause.min(other)),
        },
    }
}

fn write_number(bytes: &mut [Option<u8>; 512], at: usize, count: usize, number: u64)
    requires { at + count ≤ 512 }
    ensures { bytes.new ≡ with_number bytes.old at count number }
{
    let mut place = at;
    let mut left = count;
    let mut rest = number;
    'bytes: while left > 0 {
        bytes[place] = Some((rest % 256) as u8);
        place += 1;
        left -= 1;
        rest /= 256;
    }
}

fn clear_bytes(bytes: &mut [Option<u8>; 512], at: usize, count: usize)
    requires { at + count ≤ 512 }
    ensures { bytes.new ≡ without bytes.old at count }
{
    let mut place = at;
    let mut left = count;
    'bytes: while left > 0 {
        bytes[place] = None;
        place += 1;
        left -= 1;
    }
}

/// Stores a number; spilled values in the slots that it touches are lost.
pub fn store_number(frame: &mut StackFrame, at: usize, count: usize, number: u64)
    requires inside { at + count ≤ 512 }
    requires size { IsSize count }
    ensures { frame.new ≡ number_stored frame.old at count number }
{
    frame.spills[at / 8] = Value::Unset;
    frame.spills[(at + count - 1) / 8] = Value::Unset;
    write_number(&mut frame.bytes, at, count, number);
}

fn spill(frame: &mut StackFrame, at: usize, value: Value)
    requires { at + 8 ≤ 512 }
    ensures { frame.new ≡ spilled frame.old at value }
{
    frame.spills[at / 8] = value;
    clear_bytes(&mut frame.bytes, at, 8);
}

/// Stores a number, or spills another value into a whole slot.
pub fn store_value(frame: &mut StackFrame, at: usize, count: usize, value: Value)
    requires inside { at + count ≤ 512 }
    requires whole { IsWhole value at }
    requires size { IsSize count }
    ensures { frame.new ≡ stored frame.old at count value }
{
    match value {
        Value::Number(number) => store_number(frame, at, count, number),
        _ => spill(frame, at, value),
    }
}

/// The number that a load returns: sign-extended to 64 bits if `signed`, else unchanged.
pub fn loaded(signed: bool, count: usize, number: u64) -> u64
    requires { IsSize count }
    ensures { result ≡ as_loaded signed count number }
{
    if !signed {
        return number;
    }
    if count == 1 {
        return sign_extended_64(8, number);
    }
    if count == 2 {
        return sign_extended_64(16, number);
    }
    if count == 4 {
        return sign_extended_64(32, number);
    }
    number
}

/// The value of a load from a stack frame, or its fault.
pub fn load_from_stack(
    frame: &StackFrame,
    at: usize,
    count: usize,
    signed: bool,
) -> Result<Value, u8>
    requires inside { at + count ≤ 512 }
    requires size { IsSize count }
    ensures { result ≡ from_stack frame.now at count signed }
{
    let spilled = frame.spills[at / 8];
    if count == 8 && at % 8 == 0 && !unset(spilled) && !signed {
        return Ok(spilled);
    }
    match read_set_bytes(frame, at, count) {
        Ok(number) => Ok(Value::Number(loaded(signed, count, number))),
        Err(cause) => Err(cause),
    }
}

/// The value of a load from stack frame `k`, or its fault.
#[tactic(auto, using(std::proofs::lemmas::List::get_or_default))]
pub fn load_in(
    stack: &[StackFrame],
    k: usize,
    at: usize,
    count: usize,
    signed: bool,
) -> Result<Value, u8>
    requires live { k < length stack.now }
    requires inside { at + count ≤ 512 }
    requires size { IsSize count }
    ensures { result ≡ from_stack (slice_index_or stack.now k empty_frame) at count signed }
{
    load_from_stack(&stack[k], at, count, signed)
}

/// The number in `count` bytes of stack frame `k`, or its fault.
#[tactic(auto, using(std::proofs::lemmas::List::get_or_default))]
pub fn read_in(stack: &[StackFrame], k: usize, at: usize, count: usize) -> Result<u64, u8>
    requires live { k < length stack.now }
    requires inside { at + count ≤ 512 }
    requires few { count ≤ 8 }
    ensures is { result ≡ set_bytes (slice_index_or stack.now k empty_frame) at count }
    ensures bound { IfOk result (λ x. x < 2 ^ (8 * count)) }
{
    read_set_bytes(&stack[k], at, count)
}

/// Stores a value into stack frame `k`.
#[tactic(auto, using(std::proofs::lemmas::List::get_or_default))]
pub fn store_in(stack: &mut [StackFrame], k: usize, at: usize, count: usize, value: Value)
    requires live { k < length stack.old }
    requires inside { at + count ≤ 512 }
    requires size { IsSize count }
    requires whole { IsWhole value at }
    ensures { stack.new
        ≡ slice_set stack.old k (stored (slice_index_or stack.old k empty_frame) at count value) }
{
    store_value(&mut stack[k], at, count, value);
}

/// Stores a number into stack frame `k`.
#[tactic(auto, using(std::proofs::lemmas::List::get_or_default))]
pub fn store_number_in(stack: &mut [StackFrame], k: usize, at: usize, count: usize, number: u64)
    requires live { k < length stack.old }
    requires inside { at + count ≤ 512 }
    requires size { IsSize count }
    ensures { stack.new ≡ slice_set stack.old k
        (number_stored (slice_index_or stack.old k empty_frame) at count number) }
{
    store_number(&mut stack[k], at, count, number);
}
