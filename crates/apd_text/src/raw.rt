//! Code slot by slot, even if it isn't a program.
//!
//! Main calls: `raw_text`, the lines, and `raw_faults`, why slots aren't instructions. It depends on `bpf_insn`,
//! `bpf_line` and `hex`. Each byte of the code is in one line: that of an instruction, or as digits after `.slot`.

ghost use Rattle.std.specs.Prelude.{◌≡◌, ◌<◌, ◌++◌, IfOk, length};
ghost use Rattle.std.specs.String.{string_bytes};
ghost use Rattle.apd_text.specs.Raw.{front, insn_line, slot_line, second_of, after_insn, IsRaw, Lists};

use crate::refusals::explain;
use bpf_insn::{FieldFault, Insn};
use bpf_line::InsnText;
use std::alloc::{AllocError, Global};
use std::fmt::Write;

const WIDE: u8 = 0x18;

fn append_front(text: &mut String, slots: bool, slot: usize) -> Result<(), AllocError>
    ensures ok { IfOk result (λ _. string_bytes text.new ≡ string_bytes text.old ++ front slots slot) }
{
    if slots {
        write!(text, "  {slot} ")?;
    }
    Ok(())
}

fn append_insn(text: &mut String, slots: bool, slot: usize, insn: Insn) -> Result<(), AllocError>
    ensures ok { IfOk result
        (λ _. string_bytes text.new ≡ string_bytes text.old ++ insn_line slots slot insn) }
{
    append_front(text, slots, slot)?;
    writeln!(text, "{}", InsnText(insn))?;
    Ok(())
}

fn append_bytes(
    alloc: Global,
    text: &mut String,
    slots: bool,
    slot: usize,
    bytes: &[u8],
) -> Result<(), AllocError>
    ensures ok { IfOk result
        (λ _. string_bytes text.new ≡ string_bytes text.old ++ slot_line slots slot bytes.now) }
{
    let digits = hex::encode(alloc, bytes)?;
    append_front(text, slots, slot)?;
    writeln!(text, ".slot {digits}")?;
    Ok(())
}

/// The slot after a slot, if it is whole.
fn second_slot(others: &[u8]) -> Option<[u8; 8]>
    ensures is { result ≡ second_of others.now }
{
    match others.split_first_chunk::<8>() {
        Some((second, _)) => Some(*second),
        None => None,
    }
}

/// The code after the instruction that begins with a slot: a wide one has the next slot, too.
fn after_insn<'c>(first: &[u8; 8], others: &'c [u8]) -> &'c [u8]
    ensures is { result.now ≡ after_insn first.now others.entry.now }
{
    if first[0] != WIDE {
        return others;
    }
    match others.split_first_chunk::<8>() {
        Some((_, rest)) => rest,
        None => others,
    }
}

/// Appends the line of the first slot, and returns the code after it.
fn append_first<'c>(
    alloc: Global,
    text: &mut String,
    slots: bool,
    slot: usize,
    code: &'c [u8],
) -> Result<&'c [u8], AllocError>
    requires some { 0 < length code.now }
    ensures lists { IfOk result (λ rest. Lists slots slot code.entry.now rest.now
        (string_bytes text.old) (string_bytes text.new)) }
{
    let Some((first, others)) = code.split_first_chunk::<8>() else {
        append_bytes(alloc, text, slots, slot, code)?;
        return Ok(&code[code.len()..]);
    };
    match Insn::from_slots(*first, second_slot(others)) {
        Ok(insn) => {
            append_insn(text, slots, slot, insn)?;
            Ok(after_insn(first, others))
        }
        Err(_) => {
            append_bytes(alloc, text, slots, slot, first)?;
            Ok(others)
        }
    }
}

/// A line for each slot of code: its instruction, or `.slot` and its digits if it spells none. The line begins with the
/// slot's number if `slots` is set. An instruction of two slots has one line.
pub fn raw_text(alloc: Global, code: &[u8], slots: bool) -> Result<String, AllocError>
    ensures is { IfOk result (λ text. IsRaw slots code.now (string_bytes text)) }
{
    let mut text = String::new(alloc);
    let mut rest = code;
    while !rest.is_empty() {
        let slot = (code.len() - rest.len()) / 8;
        rest = append_first(alloc, &mut text, slots, slot, rest)?;
    }
    Ok(text)
}

/// Why slots of code aren't instructions, a line for each.
pub fn raw_faults(alloc: Global, code: &[u8]) -> Result<String, AllocError> {
    let mut text = String::new(alloc);
    let mut is_second = false;
    for slot in 0..code.len() / 8 {
        let rest = code.get(slot.saturating_mul(8)..).unwrap_or(&[]);
        if is_second {
            is_second = false;
        } else if let Some((first, others)) = rest.split_first_chunk::<8>() {
            is_second = after_insn(first, others).len() < others.len();
            if let Err(fault) = Insn::from_slots(*first, second_slot(others)) {
                is_second = false;
                append_fault(&mut text, slot, fault)?;
            }
        }
    }
    Ok(text)
}

/// The line of a slot that isn't an instruction.
fn append_fault(text: &mut String, slot: usize, fault: FieldFault) -> Result<(), AllocError> {
    let number = fault as u8;
    write!(text, "apd: slot {slot}: fault {number}")?;
    if let Some(page) = explain(number) {
        write!(text, ", {}", page.title)?;
    }
    writeln!(text)?;
    Ok(())
}
