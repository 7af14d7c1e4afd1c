//! Code for the verifier: samples with changed slots, grown programs, and random slots.

ghost use Rattle.std.specs.Prelude.{◌<◌, ◌≤◌, ◌*◌, ◌+◌, length};

use crate::changes::{Span, mutated, random_bytes, some_of, spliced};
use crate::grown::grown;
use crate::numbers::Numbers;
use crate::slots::{OPCODES, offset, random_slot, value};
use std::alloc::{AllocError, Global};

/// Some slots of code, as a range of bytes.
fn slots(numbers: &mut Numbers, code: &[u8]) -> Span
    requires { 8 ≤ length code.now }
    ensures order { result.from < result.to }
    ensures within { result.to ≤ length code.now }
{
    let slots = some_of(numbers, code.len() / 8);
    Span {
        from: 8 * slots.from,
        to: 8 * slots.to,
    }
}

/// The position of a slot's first byte.
fn slot(numbers: &mut Numbers, code: &[u8]) -> usize
    requires { 8 ≤ length code.now }
    ensures { result + 8 ≤ length code.now }
{
    8 * numbers.place_in(code.len() / 8)
}

/// Other registers in a byte.
fn registers(numbers: &mut Numbers, before: u8) -> u8 {
    let source = (numbers.byte() & 15) % 11;
    let destination = (numbers.byte() & 15) % 11;
    match numbers.below(4) {
        0 => numbers.byte(),
        1 => (source << 4) | (before & 15),
        _ => (before & 0xf0) | destination,
    }
}

/// A field of a slot changed: the opcode, the registers, the offset, the immediate value, or 1 added to one of these two
/// or subtracted.
fn set_field(numbers: &mut Numbers, code: &mut [u8], field: u64)
    requires { 8 ≤ length code.old }
{
    let at = slot(numbers, code);
    match field {
        0 => code[at] = numbers.one_of(&OPCODES),
        1 => code[at + 1] = registers(numbers, code[at + 1]),
        2 => code[at + 2..at + 4].copy_from_slice(&offset(numbers).to_le_bytes()),
        3 => code[at + 4..at + 8].copy_from_slice(&value(numbers).to_le_bytes()),
        _ => {
            let at = if numbers.is_one_in(2) { at + 2 } else { at + 4 };
            let step = if numbers.is_one_in(2) { 1u8 } else { 0xff };
            code[at] = code[at].wrapping_add(step);
        }
    }
}

/// The code with slots removed or repeated, or a random slot inserted.
fn reshaped(alloc: Global, numbers: &mut Numbers, code: &[u8]) -> Result<Vec<u8>, AllocError>
    requires { 8 ≤ length code.now }
{
    let at = slot(numbers, code);
    let here = Span { from: at, to: at };
    let some = slots(numbers, code);
    match numbers.below(4) {
        0 => spliced(alloc, code, some, &[]),
        1 => spliced(alloc, code, here, &code[some.from..some.to]),
        2 => spliced(alloc, code, some, &code[at..at + 8]),
        _ => spliced(alloc, code, here, &random_slot(numbers).bytes()),
    }
}

fn changed(alloc: Global, numbers: &mut Numbers, mut code: Vec<u8>) -> Result<Vec<u8>, AllocError> {
    if code.len() < 8 {
        return Ok(code);
    }
    let field = numbers.below(8);
    if field > 5 {
        return reshaped(alloc, numbers, &code);
    }
    set_field(numbers, &mut code, field);
    Ok(code)
}

/// The code with at most three changes.
fn with_changes(alloc: Global, numbers: &mut Numbers, code: &[u8]) -> Result<Vec<u8>, AllocError> {
    let mut out = Vec::from_slice(alloc, code)?;
    for _ in 0..numbers.below(4) {
        out = changed(alloc, numbers, out)?;
    }
    Ok(out)
}

/// A few slots with random fields.
fn random_slots(alloc: Global, numbers: &mut Numbers) -> Result<Vec<u8>, AllocError> {
    let mut code = Vec::new(alloc);
    for _ in 0..numbers.below(12) {
        random_slot(numbers).push_to(&mut code)?;
    }
    Ok(code)
}

/// Code: mostly a sample with changes, or a grown program with or without changes.
pub fn code(alloc: Global, numbers: &mut Numbers, sample: &[u8]) -> Result<Vec<u8>, AllocError> {
    match numbers.below(32) {
        0 => random_bytes(alloc, numbers, 129),
        1 => random_slots(alloc, numbers),
        2 => mutated(alloc, numbers, sample, &[]),
        3..=14 => with_changes(alloc, numbers, sample),
        15..=26 => grown(alloc, numbers),
        _ => {
            let grown = grown(alloc, numbers)?;
            with_changes(alloc, numbers, &grown)
        }
    }
}
