//! The operands of a line.

ghost use Rattle.std.specs.Prelude.{◌≡◌};
ghost use Rattle.bpf_line.specs.Operands.{both, register, source_of, place, memory};

use crate::fault::LineFault;
use crate::numbers::{imm, offset};
use bpf_insn::{Reg, Source};

/// Two parts of a line. A part that isn't in the grammar takes precedence over a number out of range.
pub(crate) fn both<A, B>(
    first: Result<A, LineFault>,
    second: Result<B, LineFault>,
) -> Result<(A, B), LineFault>
where
    A: Copy,
    B: Copy,
    ensures is { result ≡ both first second }
{
    match (first, second) {
        (Ok(first), Ok(second)) => Ok((first, second)),
        (Err(LineFault::Range), Err(fault)) => Err(fault),
        (Err(fault), _) => Err(fault),
        (_, Err(fault)) => Err(fault),
    }
}

/// `r0` to `r10`.
pub(crate) fn register(text: &str) -> Result<Reg, LineFault>
    ensures is { result ≡ register text.now }
{
    match text {
        "r0" => Ok(Reg::new(0)),
        "r1" => Ok(Reg::new(1)),
        "r2" => Ok(Reg::new(2)),
        "r3" => Ok(Reg::new(3)),
        "r4" => Ok(Reg::new(4)),
        "r5" => Ok(Reg::new(5)),
        "r6" => Ok(Reg::new(6)),
        "r7" => Ok(Reg::new(7)),
        "r8" => Ok(Reg::new(8)),
        "r9" => Ok(Reg::new(9)),
        "r10" => Ok(Reg::new(10)),
        _ => Err(LineFault::Grammar),
    }
}

/// A register or an immediate.
pub(crate) fn source(text: &str) -> Result<Source, LineFault>
    ensures is { result ≡ source_of text.now }
{
    match text.as_bytes() {
        [b'r', ..] => Ok(Source::Reg(register(text)?)),
        _ => Ok(Source::Imm(imm(text.as_bytes())?)),
    }
}

fn place(text: &[u8]) -> Result<(Reg, i16), LineFault>
    ensures is { result ≡ place text.now }
{
    match text {
        [b'r', b'1', b'0', rest @ ..] => both(Ok(Reg::new(10)), offset(rest)),
        [b'r', digit, rest @ ..] if digit.is_ascii_digit() => {
            both(Ok(Reg::new(*digit - b'0')), offset(rest))
        }
        _ => Err(LineFault::Grammar),
    }
}

/// Memory: a register and a signed offset in brackets.
pub(crate) fn memory(text: &str) -> Result<(Reg, i16), LineFault>
    ensures is { result ≡ memory text.now }
{
    let bytes = text.as_bytes();
    let length = bytes.len();
    if 2 <= length && bytes[0] == b'[' && bytes[length - 1] == b']' {
        place(&bytes[1..length - 1])
    } else {
        Err(LineFault::Grammar)
    }
}
