//! The work of admitting a program, as text.

use bpf_decode::Program;
use bpf_line::InsnText;
use std::alloc::{AllocError, Global};
use std::fmt::Write;

/// How many states were examined, at how many slots, and the first slot with the most of them.
#[derive(Clone, Copy)]
struct Examined {
    states: u32,
    slots: usize,
    slot: usize,
    most: u32,
}

fn examined_of(visits: &[u32]) -> Examined {
    let mut examined = Examined {
        states: 0,
        slots: 0,
        slot: 0,
        most: 0,
    };
    for (slot, count) in visits.iter().enumerate() {
        if *count > examined.most {
            examined.slot = slot;
            examined.most = *count;
        }
        if *count > 0 {
            examined.slots = examined.slots.saturating_add(1);
        }
        examined.states = examined.states.saturating_add(*count);
    }
    examined
}

/// The budget, how many states were examined, and where most of them are.
pub(crate) fn costs_text(
    alloc: Global,
    program: &Program,
    budget: u32,
    visits: &[u32],
) -> Result<String, AllocError> {
    let examined = examined_of(visits);
    let mut text = String::new(alloc);
    append_costs(&mut text, budget, examined)?;
    append_slot(&mut text, program, examined)?;
    Ok(text)
}

fn append_costs(text: &mut String, budget: u32, examined: Examined) -> Result<(), AllocError> {
    let Examined { states, slots, .. } = examined;
    writeln!(
        text,
        "apd: each run ends within {budget} steps of 4194304 at most"
    )?;
    writeln!(text, "  {states} states were examined at {slots} slots")?;
    Ok(())
}

/// The slot with the most states.
fn append_slot(text: &mut String, program: &Program, examined: Examined) -> Result<(), AllocError> {
    if let Some(Some(insn)) = program.insn_at(examined.slot) {
        let Examined { slot, most, .. } = examined;
        writeln!(
            text,
            "  most of them ({most}) at slot {slot}: {}",
            InsnText(insn)
        )?;
    }
    Ok(())
}
