//! Why a program is refused, or how much work admitting it took.

use crate::reasons::choice::{cure_of, cure_of_map};
use crate::reasons::costs::costs_text;
use crate::reasons::cure::Cure;
use crate::reasons::refusal::{append_origin, append_place, append_registers};
use crate::reasons::way::append_way;
use crate::refusals::explain as page_of;
use bpf_absstate::AbsState;
use bpf_decode::{DecodeFault, Program, SlotFault};
use bpf_insn::Insn;
use bpf_line::InsnText;
use bpf_regions::Shape;
use bpf_verifier::{Explanation, Refusal};
use std::alloc::{AllocError, Global};
use std::fmt::Write;

/// The lines on a program: if the verifier refuses it, what it knew there, the path to there, and the fix; otherwise
/// the budget, and where its states are.
pub fn reason_text(
    alloc: Global,
    program: &Program,
    explanation: &Explanation,
) -> Result<String, AllocError> {
    match explanation.verdict {
        Ok(budget) => costs_text(alloc, program, budget, explanation.visits.as_slice()),
        Err(refusal) => refusal_text(alloc, program, refusal, explanation),
    }
}

fn refusal_text(
    alloc: Global,
    program: &Program,
    refusal: Refusal,
    explanation: &Explanation,
) -> Result<String, AllocError> {
    let mut text = String::new(alloc);
    let way = explanation.path.as_slice();
    let mut cure = None;
    if let Some(state) = &explanation.state {
        append_knowledge(&mut text, program, state, way, refusal.pc)?;
        cure = cure_of(program, state, refusal);
    }
    append_way(&mut text, program, way)?;
    append_cure(&mut text, cure, refusal.number())?;
    Ok(text)
}

/// What the verifier knew where it stopped: the registers that the instruction reads, the memory that it accesses, and
/// the origin of a pointer into it that may point anywhere.
fn append_knowledge(
    text: &mut String,
    program: &Program,
    state: &AbsState,
    way: &[usize],
    slot: usize,
) -> Result<(), AllocError> {
    if let Some(Some(insn)) = program.insn_at(slot) {
        let read = insn;
        let placed = insn;
        append_registers(text, state, read)?;
        append_place(text, state, program.shapes(), placed)?;
        append_origin(text, program, state, way, insn)?;
    }
    Ok(())
}

/// The fix that was found, or else the one on the number's page.
fn append_cure(text: &mut String, cure: Option<Cure>, number: u8) -> Result<(), AllocError> {
    if let Some(cure) = cure {
        writeln!(text, "  cure: {cure}")?;
        return Ok(());
    }
    if let Some(page) = page_of(number) {
        writeln!(text, "  cure: {}", page.cure)?;
    }
    Ok(())
}

/// The lines on a fault of code that was decoded for maps of these shapes: the bytes of its slot, and the fix.
pub fn fault_text(
    alloc: Global,
    code: &[u8],
    shapes: &[Shape],
    fault: DecodeFault,
) -> Result<String, AllocError> {
    let mut text = String::new(alloc);
    append_bytes(&mut text, code, fault.slot())?;
    append_cure(&mut text, cure_in(code, shapes, fault), fault.number())?;
    Ok(text)
}

/// The fix for a fault of code, if its instruction tells more than its number.
fn cure_in(code: &[u8], shapes: &[Shape], fault: DecodeFault) -> Option<Cure> {
    match fault {
        DecodeFault::At {
            slot,
            fault: SlotFault::UnknownMap,
        } => match insn_at(code, slot) {
            Some(insn) => cure_of_map(shapes, insn),
            None => None,
        },
        _ => None,
    }
}

/// The bytes of a slot, if the code has it.
fn append_bytes(text: &mut String, code: &[u8], slot: usize) -> Result<(), AllocError> {
    let mut rest = code;
    rest = rest.get(slot.saturating_mul(8)..).unwrap_or(&[]);
    if rest.is_empty() {
        return Ok(());
    }
    write!(text, "  slot {slot}: ")?;
    for byte in rest.iter().take(8) {
        write!(text, "{byte:02x}")?;
    }
    writeln!(text)?;
    Ok(())
}

/// The eight bytes of a slot of code, if it has them.
fn slot_in(code: &[u8], slot: usize) -> Option<[u8; 8]> {
    let mut bytes = [0; 8];
    let rest = code.get(slot.saturating_mul(8)..)?;
    let found = rest.get(..8)?;
    bytes.copy_from_slice(found);
    Some(bytes)
}

/// The instruction at a slot of code, if there is one.
fn insn_at(code: &[u8], slot: usize) -> Option<Insn> {
    let first = slot_in(code, slot)?;
    let second = slot_in(code, slot.saturating_add(1));
    match Insn::from_slots(first, second) {
        Ok(insn) => Some(insn),
        Err(_) => None,
    }
}

/// The text of the instruction at a slot of code; `None` if there is none.
pub fn insn_text(alloc: Global, code: &[u8], slot: usize) -> Result<Option<String>, AllocError> {
    match insn_at(code, slot) {
        Some(insn) => Ok(Some(format!(in alloc; "{}", InsnText(insn))?)),
        None => Ok(None),
    }
}
