//! Rows: what is asked of worked programs and of single instructions, with the results, in files.
//!
//! A file is in blocks, which empty lines separate. A row of a block has what is asked, ` = `, and the result. Other
//! lines say what is given to each row of the block:
//!
//! - a program: `slots DIGITS` in hex, `file PATH` of such digits, or lines of assembler text: `text LINES`, and `times N
//!   LINES`, which stand N times, each with a `;` for an end of line. `repeat N` repeats slots, `cut N` leaves N bytes;
//! - `shared ENTRIES WORDS WIDTH` or `own ENTRIES WORDS WIDTH`: the next map, of all workers or of each;
//! - `hook NAME`, if not `data`; `limit STEPS` of a probe, if not 1000; `draw N`, the first number drawn; and
//!   `certificate DIGITS`.
//!
//! What may be asked: `line LINE`, how a line is written again; `insn DIGITS`, the
//! instruction of one or two slots; `opcodes`, how many are known. `examples` and `certificates` have the rest.

use crate::examples::{Asked, told_of_code};
use crate::files::{bytes_of, sample};
use crate::maps::shapes_of;
use bpf_decode::decode;
use bpf_insn::{FieldFault, Insn};
use bpf_line::{InsnText, read_line};
use bpf_text::assemble;
use std::alloc::{AllocError, Global};
use std::rt::Files;
use std::{fs, io};

/// The files of rows.
pub static FILES: [&str; 5] = ["lines", "probes", "programs", "policies", "certificates"];

/// What a line of the block that begins with this word says, if there is one.
pub fn field<'a>(block: &'a str, word: &str) -> Option<&'a str> {
    for line in block.lines() {
        if let Some((first, rest)) = line.split_once(' ') {
            if first == word {
                return Some(rest);
            }
        }
    }
    None
}

/// The number that a line of the block says, or `otherwise`.
pub fn number(block: &str, word: &str, otherwise: u64) -> u64 {
    match field(block, word) {
        Some(digits) => digits.parse::<u64>().unwrap_or(otherwise),
        None => otherwise,
    }
}

/// Adds lines to a text, so often.
fn push_lines(text: &mut String, lines: &str, times: u64) -> Result<(), AllocError> {
    for _time in 0..times {
        push_once(text, lines)?;
    }
    Ok(())
}

/// Adds lines to a text.
fn push_once(text: &mut String, lines: &str) -> Result<(), AllocError> {
    for line in lines.split(';') {
        if !text.is_empty() {
            text.push('\n')?;
        }
        text.push_str(line)?;
    }
    Ok(())
}

/// The text that is given.
fn text_in(alloc: Global, block: &str) -> Result<String, AllocError> {
    let mut text = String::new(alloc);
    for line in block.lines() {
        if let Some(lines) = line.strip_prefix("text ") {
            push_once(&mut text, lines)?;
        } else if let Some(lines) = line.strip_prefix("times ") {
            let (times, lines) = lines.split_once(' ').unwrap_or(("0", lines));
            push_lines(&mut text, lines, times.parse::<u64>().unwrap_or(0))?;
        }
    }
    Ok(text)
}

/// The bytes, so often, and then cut.
fn shaped(alloc: Global, block: &str, once: &[u8]) -> Result<Vec<u8>, AllocError> {
    let mut code = Vec::new(alloc);
    for _time in 0..number(block, "repeat", 1) {
        code.extend_from_slice(once)?;
    }
    let end = number(block, "cut", u64::MAX);
    if end < code.len() as u64 {
        code.truncate(end as usize);
    }
    Ok(code)
}

/// What is said of a text.
fn told_of_text(asked: &Asked<'_>) -> Result<String, AllocError> {
    let text = text_in(asked.alloc, asked.block)?;
    match assemble(asked.alloc, text.as_str()) {
        Ok(code) => told_of_code(asked, &code),
        Err(fault) => fault.to_string(asked.alloc),
    }
}

/// What is said of a program.
fn told_of_block<R: Files + AllocGlobal>(rt: &R, asked: &Asked<'_>) -> io::Result<String> {
    let once = if let Some(digits) = field(asked.block, "slots") {
        bytes_of(rt, digits)?
    } else if let Some(path) = field(asked.block, "file") {
        sample(rt, path)?
    } else {
        return Ok(told_of_text(asked)?);
    };
    let code = shaped(asked.alloc, asked.block, &once)?;
    Ok(told_of_code(asked, &code)?)
}

/// The text of an instruction.
fn spelled(alloc: Global, insn: Insn) -> Result<String, AllocError> {
    InsnText(insn).to_string(alloc)
}

/// A line as it is written again, `nothing` if it has no instruction, or its fault.
fn told_of_line(alloc: Global, line: &str) -> Result<String, AllocError> {
    match read_line(line) {
        Ok(Some(insn)) => spelled(alloc, insn),
        Ok(None) => String::from_str(alloc, "nothing"),
        Err(fault) => format!(in alloc; "fault {}", fault.number()),
    }
}

/// Whether the instruction of slots, if they are one, is written as the same slots.
fn are_written(slot: [u8; 8], half: Option<[u8; 8]>) -> bool {
    match Insn::from_slots(slot, half) {
        Ok(insn) => insn.to_slots() == (slot, half),
        Err(_) => true,
    }
}

/// The instruction of a slot, and of the next one if there is one, or the fault.
fn told_of_slots(alloc: Global, bytes: &[u8]) -> Result<String, AllocError> {
    let (slots, _rest) = bytes.as_chunks::<8>();
    let slot = slots.first().copied().unwrap_or([0; 8]);
    let half = slots.get(1).copied();
    if !are_written(slot, half) {
        return String::from_str(alloc, "written as other slots");
    }
    match Insn::from_slots(slot, half) {
        Ok(insn) => spelled(alloc, insn),
        Err(fault) => format!(in alloc; "{fault:?}"),
    }
}

/// Whether an opcode is known: with zero fields it is an instruction, or lacks only a width. No other fault but of the
/// opcode comes before.
fn is_known(opcode: u8) -> bool {
    match Insn::from_slots([opcode, 0, 0, 0, 0, 0, 0, 0], Some([0; 8])) {
        Ok(_) => true,
        Err(FieldFault::Undefined) => matches!(opcode, 0xd4 | 0xd7 | 0xdc),
        Err(_) => false,
    }
}

/// Whether code for no maps has this fault at this slot.
fn is_refused(alloc: Global, code: &[u8], fault: (u8, usize)) -> Result<bool, AllocError> {
    match decode(alloc, code, shapes_of(Vec::new(alloc))?).err() {
        Some(found) => Ok((found.number(), found.slot()) == fault),
        None => Ok(false),
    }
}

/// Whether an opcode is unknown in a program, alone and after another instruction.
fn is_unknown(alloc: Global, opcode: u8) -> Result<bool, AllocError> {
    let mut code = [0u8; 32];
    code[8] = opcode;
    code[0] = 0x95;
    code[24] = 0x95;
    Ok(is_refused(alloc, &code[8..16], (10, 0))? && is_refused(alloc, &code, (10, 1))?)
}

/// How many opcodes are known alone, and how many in a program.
fn told_of_opcodes(alloc: Global) -> Result<String, AllocError> {
    let (mut alone, mut there) = (0u32, 0u32);
    for opcode in 0..=255u8 {
        if is_known(opcode) {
            alone = alone.saturating_add(1);
        }
        if !is_unknown(alloc, opcode)? {
            there = there.saturating_add(1);
        }
    }
    format!(in alloc; "{alone}, {there}")
}

/// The result of a row.
fn told<R: Files + AllocGlobal>(rt: &R, block: &str, row: &str) -> io::Result<String> {
    let alloc = rt.alloc();
    let (word, rest) = row.split_once(' ').unwrap_or((row, ""));
    match word {
        "line" => Ok(told_of_line(alloc, rest)?),
        "insn" => Ok(told_of_slots(alloc, &bytes_of(rt, rest)?)?),
        "opcodes" => Ok(told_of_opcodes(alloc)?),
        _ => told_of_block(
            rt,
            &Asked {
                alloc,
                block,
                word,
                rest,
            },
        ),
    }
}

/// Asks each row of a block, and counts them. Prints those that come to another result.
fn ask<R: Print + Files + AllocGlobal>(rt: &R, block: &str, counts: &mut Counts) -> io::Result<()> {
    for line in block.lines() {
        if let Some((row, wanted)) = line.split_once(" = ") {
            let found = told(rt, block, row)?;
            counts.rows = counts.rows.saturating_add(1);
            if found.as_str() != wanted {
                counts.wrong = counts.wrong.saturating_add(1);
                println!(rt; "wrong: {line}: {found}")?;
            }
        }
    }
    Ok(())
}

/// How many rows there are, and how many are wrong.
#[derive(Clone, Copy)]
struct Counts {
    rows: u64,
    wrong: u64,
}

/// Asks the rows of a file, and prints how many there are. False if a result is another one.
pub fn print_rows<R: Print + Files + AllocGlobal>(rt: &R, name: &str) -> io::Result<bool> {
    let path = format!(in rt.alloc(); "rows/{name}")?;
    let text = fs::read_to_string(rt, path.as_str())?;
    let mut counts = Counts { rows: 0, wrong: 0 };
    for block in text.split("\n\n") {
        ask(rt, block, &mut counts)?;
    }
    println!(rt; "rows of {name}: {}, {} wrong", counts.rows, counts.wrong)?;
    Ok(counts.wrong == 0)
}
