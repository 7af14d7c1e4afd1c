//! Text from programs.

ghost use Rattle.std.specs.Prelude.{◌≡◌, ◌++◌, ◌∷◌, [], ℕ, List, IfOk, Ok};
ghost use Rattle.std.specs.String.{string_bytes};
ghost use Rattle.bpf_decode.specs.Program.{Spells};
ghost use Rattle.bpf_line.specs.Spellings.{text_of};
ghost use Rattle.bpf_text.specs.Texts.{assembled, disassembled, lines_of};

use bpf_decode::Program;
use bpf_insn::Insn;
use bpf_line::InsnText;
use std::alloc::{AllocError, Global};
use std::fmt::Write;

fn append_line(text: &mut String, insn: Insn) -> Result<(), AllocError>
    ensures ok { IfOk result
        (λ _. string_bytes text.new ≡ string_bytes text.old ++ (text_of insn ++ 10 ∷ [])) }
{
    writeln!(text, "{}", InsnText(insn))?;
    Ok(())
}

fn text_of_slots(alloc: Global, slots: &[Option<Insn>]) -> Result<String, AllocError>
    ensures ok { IfOk result (λ text. string_bytes text ≡ disassembled slots.now) }
{
    let mut text = String::new(alloc);
    for slot in slots {
        if let Some(insn) = slot {
            append_line(&mut text, *insn)?;
        }
    }
    Ok(text)
}

/// The text of a program: one instruction a line, each with a line feed. It assembles to the bytes that the program was
/// decoded from.
pub fn disassemble(alloc: Global, program: &Program) -> Result<String, AllocError>
    ensures ok { IfOk result (λ text. string_bytes text ≡ disassembled program.now.slots) }
    ensures again { IfOk result (λ text. (bytes : List ℕ) → Spells bytes program.now →
        assembled 1 [] (lines_of (string_bytes text)) ≡ Ok bytes) }
{
    let text = text_of_slots(alloc, program.slots())?;
    Ok(text)
}
