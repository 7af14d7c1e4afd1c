//! A law about the text of instructions.

ghost use Rattle.std.specs.Prelude.{◌≡◌, ◌≢◌, ◌<◌, ℕ, Ok, Some, length, slice_index};
ghost use Rattle.bpf_insn.specs.declared.insn.Insn.{Insn};
ghost use Rattle.bpf_insn.specs.Spelled.{IsInsn};
ghost use Rattle.bpf_line.specs.Lines.{line_said};
ghost use Rattle.bpf_line.specs.Spellings.{text_of};

/// The text of an instruction is read as that instruction, and is one line.
pub fn text_law()
    ensures again { (insn : Insn) → IsInsn insn → line_said (text_of insn) ≡ Ok (Some insn) }
    ensures one_line { (insn : Insn) (k : ℕ) → IsInsn insn → k < length (text_of insn) →
        slice_index (text_of insn) k ≢ 10 }
{}
