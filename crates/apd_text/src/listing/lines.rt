//! The lines of a listing.

ghost use Rattle.std.specs.Prelude.{◌≡◌, ◌++◌, IfOk};
ghost use Rattle.std.specs.String.{string_bytes};
ghost use Rattle.apd_text.specs.Listing.{mark_of, listing_line, Grows, IsListing};

use bpf_decode::Program;
use bpf_insn::Insn;
use bpf_line::InsnText;
use std::alloc::{AllocError, Global};
use std::fmt::Write;

/// The mark of a slot: `> ` at a target, otherwise two spaces.
fn mark(target: bool) -> &'static str
    ensures is { result.now ≡ mark_of target }
{
    if target { "> " } else { "  " }
}

fn append_line(text: &mut String, target: bool, slot: usize, insn: Insn) -> Result<(), AllocError>
    ensures ok { IfOk result
        (λ _. string_bytes text.new ≡ string_bytes text.old ++ listing_line target slot insn) }
{
    writeln!(text, "{}{slot} {}", mark(target), InsnText(insn))?;
    Ok(())
}

/// The line of a slot, if an instruction starts there.
fn append_slot(text: &mut String, program: &Program, slot: usize) -> Result<(), AllocError>
    ensures ok { IfOk result
        (λ _. Grows program.now.slots slot (string_bytes text.old) (string_bytes text.new)) }
{
    match program.insn_at(slot) {
        Some(Some(insn)) => append_line(text, program.is_target(slot), slot, insn),
        Some(None) => Ok(()),
        None => Ok(()),
    }
}

/// A program's instructions, one a line, each with its slot before it, and a mark at targets.
pub fn listing_text(alloc: Global, program: &Program) -> Result<String, AllocError>
    ensures is { IfOk result (λ text. IsListing program.now.slots (string_bytes text)) }
{
    let mut text = String::new(alloc);
    for slot in 0..program.len() {
        append_slot(&mut text, program, slot)?;
    }
    Ok(text)
}
