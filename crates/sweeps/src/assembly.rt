//! Assembler texts.

use crate::maps::shapes;
use crate::tally::Judged;
use bpf_decode::{Program, decode};
use bpf_text::{AsmFault, assemble, disassemble};
use std::alloc::{AllocError, Global};
use std::str;

/// How many lines a text has.
pub fn count_lines(text: &[u8]) -> u64 {
    let feeds = text.iter().filter(|byte| **byte == b'\n').count();
    (feeds as u64).saturating_add(1)
}

/// The result for a text that doesn't assemble.
fn unassembled(fault: AsmFault, lines: u64) -> Judged {
    match fault {
        AsmFault::NoMemory => Judged::Wrong("out of memory"),
        AsmFault::Line { line, number } => {
            if line < 1 || lines < line || number < 20 || 22 < number {
                return Judged::Wrong("an unknown fault of a text");
            }
            Judged::Refused
        }
    }
}

/// The text of code, or nothing if it is no program.
pub fn text_of(alloc: Global, code: &[u8]) -> Result<Vec<u8>, AllocError> {
    match decode(alloc, code, shapes(alloc)?) {
        Ok(program) => Ok(disassemble(alloc, &program)?.into_bytes()),
        Err(_) => Ok(Vec::new(alloc)),
    }
}

/// Whether the text of a program gives the same code.
fn is_again(alloc: Global, program: &Program, code: &[u8]) -> Result<bool, AllocError> {
    let text = disassemble(alloc, program)?;
    match assemble(alloc, text.as_str()) {
        Ok(again) => Ok(again.as_slice() == code),
        Err(_) => Ok(false),
    }
}

/// The result for assembled code: if it is a program, its text must give the same code.
fn judged_code(alloc: Global, code: &[u8]) -> Result<Judged, AllocError> {
    match decode(alloc, code, shapes(alloc)?) {
        Err(_) => Ok(Judged::Admitted { runs: 0 }),
        Ok(program) if is_again(alloc, &program, code)? => Ok(Judged::Admitted { runs: 1 }),
        Ok(_) => Ok(Judged::Wrong("its text is another program's")),
    }
}

/// Assembles a text. The text of each program must give the same code; such texts count as runs.
pub fn judged(alloc: Global, bytes: &[u8]) -> Result<Judged, AllocError> {
    let Ok(text) = str::from_utf8(bytes) else {
        return Ok(Judged::Refused);
    };
    match assemble(alloc, text) {
        Ok(code) => judged_code(alloc, &code),
        Err(fault) => Ok(unassembled(fault, count_lines(bytes))),
    }
}
