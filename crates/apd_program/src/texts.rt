//! Assembling text and disassembling code: the commands `asm` and `disasm`.

ghost use Rattle.std.specs.Prelude.{◌≡◌, ◌==◌, ◌<◌, ◌^◌, IfOk, IfErr, count_by};
ghost use Rattle.apd_program.specs.Programs.{IsOfProgram};
ghost use Rattle.apd_program.specs.Texts.{BreaksOff, IsAssembly, IsListing, IsListingWith, IsRawListing, IsSlotListing};

use crate::answer::{Answer, undecoded};
use crate::fault::ProgramFault;
use apd_text::{listing_text, raw_text};
use bpf_decode::{Program, decode};
use bpf_regions::Shapes;
use bpf_text::AsmFault;
use std::alloc::Global;
use std::str;

/// Assembles a file's bytes, or returns the first faulty line. The line with the first byte that isn't UTF-8 has
/// fault 20.
pub(crate) fn assemble(alloc: Global, text: &[u8]) -> Result<Answer, ProgramFault>
    ensures assembly { IfOk result (IsAssembly text.now) }
    ensures memory { IfErr result (λ e. e ≡ ProgramFault.NoMemory) }
{
    match str::from_utf8(text) {
        Ok(text) => assembled(alloc, text),
        Err(error) => match str::from_utf8(&text[..error.valid_up_to()]) {
            Ok(front) => broken(alloc, front),
            Err(_) => unreachable!(),
        },
    }
}

/// The first faulty line of a text that breaks off within a line.
fn broken(alloc: Global, front: &str) -> Result<Answer, ProgramFault>
    ensures fault { IfOk result (BreaksOff front.now) }
    ensures memory { IfErr result (λ e. e ≡ ProgramFault.NoMemory) }
{
    let last = line_feeds(front.as_bytes()) + 1;
    match bpf_text::assemble(alloc, front) {
        Err(AsmFault::NoMemory) => Err(ProgramFault::NoMemory),
        Err(AsmFault::Line { line, number }) if line < last => {
            Ok(Answer::LineFault(AsmFault::Line { line, number }))
        }
        _ => Ok(Answer::LineFault(AsmFault::Line {
            line: last,
            number: 20,
        })),
    }
}

fn line_feeds(text: &[u8]) -> u64
    ensures is { result ≡ count_by (λ b. b == 10) text.now }
    ensures few { result < 2 ^ 63 }
{
    text.iter().filter(|byte| **byte == b'\n').count() as u64
}

fn assembled(alloc: Global, text: &str) -> Result<Answer, ProgramFault>
    ensures assembly { IfOk result (IsAssembly text.now) }
    ensures memory { IfErr result (λ e. e ≡ ProgramFault.NoMemory) }
{
    match bpf_text::assemble(alloc, text) {
        Ok(code) => Ok(Answer::Code(code)),
        Err(fault) => match fault {
            AsmFault::NoMemory => Err(ProgramFault::NoMemory),
            _ => Ok(Answer::LineFault(fault)),
        },
    }
}

/// Disassembles the program that the code spells for maps of these shapes, with slots or without.
pub(crate) fn disassemble(
    alloc: Global,
    code: &[u8],
    shapes: Shapes,
    slots: bool,
) -> Result<Answer, ProgramFault>
    ensures listing { IfOk result (IsOfProgram (IsListingWith slots) code.now shapes) }
    ensures memory { IfErr result (λ e. e ≡ ProgramFault.NoMemory) }
{
    match decode(alloc, code, shapes) {
        Ok(program) => written_with(alloc, &program, slots),
        Err(fault) => undecoded(fault),
    }
}

fn written_with(alloc: Global, program: &Program, slots: bool) -> Result<Answer, ProgramFault>
    ensures listing { IfOk result (IsListingWith slots program.now) }
    ensures memory { IfErr result (λ e. e ≡ ProgramFault.NoMemory) }
{
    if slots {
        return listed(alloc, program);
    }
    written(alloc, program)
}

fn listed(alloc: Global, program: &Program) -> Result<Answer, ProgramFault>
    ensures listing { IfOk result (IsSlotListing program.now) }
    ensures memory { IfErr result (λ e. e ≡ ProgramFault.NoMemory) }
{
    match listing_text(alloc, program) {
        Ok(text) => Ok(Answer::Instructions(text)),
        Err(_) => Err(ProgramFault::NoMemory),
    }
}

fn written(alloc: Global, program: &Program) -> Result<Answer, ProgramFault>
    ensures listing { IfOk result (IsListing program.now) }
    ensures memory { IfErr result (λ e. e ≡ ProgramFault.NoMemory) }
{
    match bpf_text::disassemble(alloc, program) {
        Ok(text) => Ok(Answer::Instructions(text)),
        Err(_) => Err(ProgramFault::NoMemory),
    }
}

/// Lists all slots of code, with numbers or without.
pub(crate) fn list_raw(alloc: Global, code: &[u8], slots: bool) -> Result<Answer, ProgramFault>
    ensures listing { IfOk result (IsRawListing slots code.now) }
    ensures memory { IfErr result (λ e. e ≡ ProgramFault.NoMemory) }
{
    match raw_text(alloc, code, slots) {
        Ok(text) => Ok(Answer::Instructions(text)),
        Err(_) => Err(ProgramFault::NoMemory),
    }
}
