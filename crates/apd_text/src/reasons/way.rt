//! The path to an instruction, as text.

use bpf_decode::Program;
use bpf_insn::{Insn, Reg};
use bpf_line::InsnText;
use std::alloc::AllocError;
use std::fmt::Write;

/// How many branches are shown: the last ones.
const SHOWN: usize = 8;

fn branch_at(program: &Program, slot: usize) -> Option<Insn> {
    match program.insn_at(slot) {
        Some(Some(insn)) => branch(insn),
        _ => None,
    }
}

fn branch(insn: Insn) -> Option<Insn> {
    match insn {
        Insn::Branch { .. } => Some(insn),
        _ => None,
    }
}

/// The number of branches on a path, without its end.
fn count_branches(program: &Program, way: &[usize]) -> usize {
    let steps = way.len().saturating_sub(1);
    way.iter()
        .take(steps)
        .filter(|slot| branch_at(program, **slot).is_some())
        .count()
}

/// The path's length, and its last branches, each with its outcome.
pub(crate) fn append_way(
    text: &mut String,
    program: &Program,
    way: &[usize],
) -> Result<(), AllocError> {
    let steps = way.len().saturating_sub(1);
    if steps == 0 {
        return Ok(());
    }
    let branches = count_branches(program, way);
    writeln!(text, "  steps before it: {steps}, branches: {branches}")?;
    let hidden = branches.saturating_sub(SHOWN);
    if hidden > 0 {
        writeln!(text, "    earlier branches: {hidden}")?;
    }
    append_branches(text, program, way, hidden)
}

/// The branches after the first `hidden`.
fn append_branches(
    text: &mut String,
    program: &Program,
    way: &[usize],
    hidden: usize,
) -> Result<(), AllocError> {
    let mut before = None;
    let mut hidden = hidden;
    for slot in way.iter() {
        let from = before;
        before = Some(*slot);
        let Some(from) = from else {
            continue;
        };
        let Some(insn) = branch_at(program, from) else {
            continue;
        };
        if hidden > 0 {
            hidden -= 1;
            continue;
        }
        append_branch(text, from, insn, *slot)?;
    }
    Ok(())
}

/// The line of a branch and its outcome.
fn append_branch(
    text: &mut String,
    slot: usize,
    insn: Insn,
    next: usize,
) -> Result<(), AllocError> {
    if next == slot.wrapping_add(1) {
        writeln!(text, "    slot {slot}: {}: not taken", InsnText(insn))?;
        return Ok(());
    }
    writeln!(
        text,
        "    slot {slot}: {}: taken, to slot {next}",
        InsnText(insn)
    )?;
    Ok(())
}

/// What an instruction does to a register.
#[derive(Clone, Copy)]
enum Effect {
    Writes,
    Keeps,
    /// It is a call, or leaves a function: the register's old value doesn't matter after it.
    Ends,
}

fn effect_on(program: &Program, slot: usize, register: Reg) -> Effect {
    match program.insn_at(slot) {
        Some(Some(insn)) => effect_of(insn, register),
        _ => Effect::Keeps,
    }
}

fn effect_of(insn: Insn, register: Reg) -> Effect {
    match insn {
        Insn::Alu { dst, .. }
        | Insn::MovSx { dst, .. }
        | Insn::Neg { dst, .. }
        | Insn::End { dst, .. }
        | Insn::Load { dst, .. }
        | Insn::LoadWide { dst, .. } => {
            if dst == register {
                Effect::Writes
            } else {
                Effect::Keeps
            }
        }
        Insn::Call { .. } | Insn::CallLocal { .. } | Insn::Exit => Effect::Ends,
        _ => Effect::Keeps,
    }
}

/// The slot on a path, without its end, that wrote a register last; `None` if a call follows it.
pub(crate) fn written_at(program: &Program, way: &[usize], register: Reg) -> Option<usize> {
    let steps = way.len().saturating_sub(1);
    let mut written = None;
    for slot in way.iter().take(steps) {
        match effect_on(program, *slot, register) {
            Effect::Writes => written = Some(*slot),
            Effect::Keeps => {}
            Effect::Ends => written = None,
        }
    }
    written
}
