//! The lines of a run.

ghost use Rattle.std.specs.Prelude.{◌≡◌, ◌++◌, IfOk};
ghost use Rattle.std.specs.String.{string_bytes};
ghost use Rattle.apd_text.specs.TraceLines.{insn_line, note_line, end_line, step_lines, run_text};

use bpf_decode::Program;
use bpf_insn::Insn;
use bpf_line::InsnText;
use bpf_machine::Step;
use std::alloc::{AllocError, Global};
use std::fmt::Write;

fn append_insn(text: &mut String, pc: usize, insn: Insn) -> Result<(), AllocError>
    ensures ok { IfOk result
        (λ _. string_bytes text.new ≡ string_bytes text.old ++ insn_line pc insn) }
{
    writeln!(text, "{pc} {}", InsnText(insn))?;
    Ok(())
}

fn append_note(text: &mut String, note: u64) -> Result<(), AllocError>
    ensures ok { IfOk result
        (λ _. string_bytes text.new ≡ string_bytes text.old ++ note_line note) }
{
    writeln!(text, "note {note}")?;
    Ok(())
}

fn append_end(text: &mut String, r0: u64, steps: u32) -> Result<(), AllocError>
    ensures ok { IfOk result
        (λ _. string_bytes text.new ≡ string_bytes text.old ++ end_line r0 steps) }
{
    writeln!(text, "r0 {r0} steps {steps}")?;
    Ok(())
}

fn append_step(text: &mut String, program: &Program, step: Step) -> Result<(), AllocError>
    ensures ok { IfOk result
        (λ _. string_bytes text.new ≡ string_bytes text.old ++ step_lines program.now.slots step) }
{
    if let Some(Some(insn)) = program.insn_at(step.pc) {
        append_insn(text, step.pc, insn)?;
    }
    if let Some(note) = step.note {
        append_note(text, note)?;
    }
    Ok(())
}

/// The lines of the steps and of the end.
pub(crate) fn run_text(
    alloc: Global,
    program: &Program,
    log: &[Step],
    r0: u64,
    steps: u32,
) -> Result<String, AllocError>
    ensures is { IfOk result
        (λ text. string_bytes text ≡ run_text program.now.slots log.now r0 steps) }
{
    let mut text = String::new(alloc);
    for step in log {
        append_step(&mut text, program, *step)?;
    }
    append_end(&mut text, r0, steps)?;
    Ok(text)
}
