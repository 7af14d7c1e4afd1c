//! Code from text.

ghost use Rattle.std.specs.Prelude.{◌≡◌, ◌<◌, ◌≤◌, ◌+◌, ◌*◌, ◌++◌, [], ◌∷◌, ℕ, List, length, IfOk, IfErr, IfSome, Ok, Err, MatchOption};
ghost use Rattle.bpf_insn.specs.Spelled.{IsInsn};
ghost use Rattle.bpf_text.specs.Texts.{lines_of, bytes_of, after_line, assembled, both_slots};
ghost use Rattle.bpf_text.specs.Refusals.{Refuses, RefusesLine};

use crate::fault::AsmFault;
use bpf_insn::Insn;
use bpf_line::read_line;
use std::alloc::{AllocError, Global};

/// 16384 slots of 8 bytes.
const LIMIT: usize = 131072;

fn append(code: &mut Vec<u8>, first: [u8; 8], second: Option<[u8; 8]>) -> Result<(), AllocError>
    ensures ok { IfOk result (λ _. code.new.items ≡ code.old.items ++ both_slots first second) }
{
    code.extend_from_slice(&first)?;
    if let Some(second) = second {
        code.extend_from_slice(&second)?;
    }
    Ok(())
}

/// Appends the line's instruction, if any, to the code.
fn add_line(code: &mut Vec<u8>, line: &str, number: u64) -> Result<(), AsmFault>
    ensures ok { IfOk result (λ _. after_line code.old.items line.now ≡ Ok code.new.items) }
    ensures err { IfErr result (λ e. RefusesLine number code.old.items line.now e) }
{
    let said = match read_line(line) {
        Ok(said) => said,
        Err(fault) => {
            return Err(AsmFault::Line {
                line: number,
                number: fault.number(),
            });
        }
    };
    let Some(insn) = said else {
        return Ok(());
    };
    let (first, second) = insn.to_slots();
    let size = if second.is_some() { 16 } else { 8 };
    if code.len() + size > LIMIT {
        return Err(AsmFault::Line {
            line: number,
            number: 22,
        });
    }
    append(code, first, second)?;
    Ok(())
}

/// The first line of a text, and the text after its line feed, if it has one.
fn first_line(text: &str) -> (&str, Option<&str>)
    ensures cut { MatchOption result.1 (lines_of text.now ≡ result.0.now ∷ [])
        (λ rest. (lines_of text.now ≡ result.0.now ∷ lines_of rest.now)
        × (length rest.now < length text.now)) }
{
    match text.split_once('\n') {
        Some((line, rest)) => (line, Some(rest)),
        None => (text, None),
    }
}

/// The code of assembler text, with at most one instruction a line; blank lines and comments add nothing. Refuses with
/// the first faulty line and its fault, or for lack of memory.
pub fn assemble(alloc: Global, text: &str) -> Result<Vec<u8>, AsmFault>
    ensures ok { IfOk result (λ code. assembled 1 [] (lines_of text.now) ≡ Ok code.items) }
    ensures err { IfErr result (Refuses text.now) }
{
    let mut code = Vec::new(alloc);
    let mut number: u64 = 1;
    let mut rest = text;
    loop {
        let (line, next) = first_line(rest);
        add_line(&mut code, line, number)?;
        match next {
            None => return Ok(code),
            Some(next) => {
                rest = next;
                number += 1;
            }
        }
    }
}
