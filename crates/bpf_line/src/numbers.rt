//! The numbers of a line.

ghost use Rattle.std.specs.Prelude.{◌≡◌, ◌≤◌, ◌<◌, ◌^◌, ◌⊎◌, ℕ, List};
ghost use Rattle.bpf_line.specs.Numbers.{is_numeral, numeral, unsigned, word, below_zero, above_zero, imm, offset, long_offset, wide_number};

use crate::fault::LineFault;
use std::str;

fn is_numeral(text: &[u8], radix: u32) -> bool
    requires { (radix ≡ 10) ⊎ (radix ≡ 16) }
    ensures is { result ≡ is_numeral radix text.now }
{
    !text.is_empty() && text.iter().all(|byte| char::from(*byte).is_digit(radix))
}

fn numeral(text: &[u8], radix: u32) -> Result<u64, LineFault>
    requires { (radix ≡ 10) ⊎ (radix ≡ 16) }
    ensures is { result ≡ numeral radix text.now }
{
    if !is_numeral(text, radix) {
        return Err(LineFault::Grammar);
    }
    let Ok(digits) = str::from_utf8(text) else {
        return Err(LineFault::Grammar);
    };
    match u64::from_str_radix(digits, radix) {
        Ok(number) => Ok(number),
        Err(_) => Err(LineFault::Range),
    }
}

fn unsigned(text: &[u8]) -> Result<u64, LineFault>
    ensures is { result ≡ unsigned text.now }
{
    match text {
        [b'0', b'x', digits @ ..] => numeral(digits, 16),
        _ => numeral(text, 10),
    }
}

fn word(number: u64) -> Result<i32, LineFault>
    ensures is { result ≡ word number }
{
    if number < 0x1_0000_0000 {
        Ok((number as u32).cast_signed())
    } else {
        Err(LineFault::Range)
    }
}

fn below_zero(number: u64) -> Result<i32, LineFault>
    ensures is { result ≡ below_zero (2 ^ 31) number }
{
    if number <= 0x8000_0000 {
        Ok((-(number as i64)) as i32)
    } else {
        Err(LineFault::Range)
    }
}

/// An immediate from -2147483648 to 4294967295, taken mod 2^32.
pub fn imm(text: &[u8]) -> Result<i32, LineFault>
    ensures is { result ≡ imm text.now }
{
    match text {
        [b'-', digits @ ..] => below_zero(numeral(digits, 10)?),
        _ => word(unsigned(text)?),
    }
}

/// The offset of a jump or an access, with its sign: from -32768 to 32767.
pub fn offset(text: &[u8]) -> Result<i16, LineFault>
    ensures is { result ≡ offset text.now }
{
    match text {
        [b'+', digits @ ..] => match numeral(digits, 10)? {
            number if number <= 0x7fff => Ok(number as i16),
            _ => Err(LineFault::Range),
        },
        [b'-', digits @ ..] => match numeral(digits, 10)? {
            number if number <= 0x8000 => Ok((-(number as i32)) as i16),
            _ => Err(LineFault::Range),
        },
        _ => Err(LineFault::Grammar),
    }
}

/// The target of a long jump or local call, with its sign: from -2147483648 to 4294967295, taken mod 2^32.
pub fn long_offset(text: &[u8]) -> Result<i32, LineFault>
    ensures is { result ≡ long_offset text.now }
{
    match text {
        [b'+', digits @ ..] => word(numeral(digits, 10)?),
        [b'-', digits @ ..] => below_zero(numeral(digits, 10)?),
        _ => Err(LineFault::Grammar),
    }
}

/// The number of a wide load: from 0 to 2^64 - 1.
pub fn wide_number(text: &[u8]) -> Result<u64, LineFault>
    ensures is { result ≡ wide_number text.now }
{
    match text {
        [b'-', digits @ ..] => match numeral(digits, 10)? {
            0 => Ok(0),
            _ => Err(LineFault::Range),
        },
        _ => unsigned(text),
    }
}
