//! Decoded programs.

ghost use Rattle.std.specs.Prelude.{◌≡◌, ◌≤◌, ◌↔◌, ℕ, IsTrue, false, length, slice_get, slice_index_or};
ghost use Rattle.bpf_decode.specs.Program.{Begins, IsSpelled, IsTarget, IsWhole};

use bpf_insn::Insn;
use bpf_regions::Shapes;
use std::marker::Model;

/// Well-formed code for maps of given shapes, with tables of its instructions and jump targets.
#[derive(Debug, Drop)]
pub struct Program {
    slots: Vec<Option<Insn>>,
    targets: Vec<bool>,
    shapes: Shapes,
}

impl Model for Program {
    ghost use Rattle.bpf_decode.specs.Program.{Code, IsProgram};

    ghost Value = { Code };

    ghost view = { λ s. record { slots = s.slots.items; shapes = s.shapes } };

    ghost invariant = { λ s. IsProgram
        (record { slots = s.slots.items; shapes = s.shapes }) s.targets.items };
}

/// The table's entry for a slot; false outside the table.
fn marked(table: &[bool], slot: usize) -> bool
    ensures is { result ≡ slice_index_or table.now slot false }
{
    slot < table.len() && table[slot]
}

impl Program {
    ghost use Rattle.bpf_decode.specs.Program.{IsProgram};

    /// A program from slots that some well-formed bytes spell, the table of their targets, and its shapes.
    pub(crate) fn new(slots: Vec<Option<Insn>>, targets: Vec<bool>, shapes: Shapes) -> Program
        requires decoded { IsProgram
            (record { slots = slots.items; shapes = shapes }) targets.items }
        ensures slots { result.slots ≡ slots.items }
        ensures shapes { result.shapes ≡ shapes }
    {
        Program {
            slots,
            targets,
            shapes,
        }
    }

    /// The number of slots, 1 to 16384.
    pub fn len(&self) -> usize
        ensures is { result ≡ length self.now.slots }
        ensures some { 1 ≤ result }
        ensures short { result ≤ 16384 }
    {
        self.slots.len()
    }

    /// The instruction that starts at a slot; `Some(None)` in the second half of a wide load, `None` outside the code.
    pub fn insn_at(&self, pc: usize) -> Option<Option<Insn>>
        ensures is { result ≡ slice_get self.now.slots pc }
    {
        self.slots.get(pc).copied()
    }

    /// The instructions by slot; `None` in the second half of a wide load.
    pub fn slots(&self) -> &[Option<Insn>]
        ensures is { result.now ≡ self.now.slots }
    {
        self.slots.as_slice()
    }

    /// The shapes of the maps for which it was decoded.
    pub fn shapes(&self) -> &Shapes
        ensures is { result.now ≡ self.now.shapes }
    {
        &self.shapes
    }

    /// Whether a slot is slot 0, the target of a jump, branch or local call, or the slot after a local call.
    /// Unreachable instructions count too. No slot outside the code is a target.
    pub fn is_target(&self, pc: usize) -> bool
        ensures is { IsTrue result ↔ IsTarget self.now.slots pc }
    {
        marked(&self.targets, pc)
    }

    /// Does nothing; its contract holds for every program: control that starts at slot 0 stays at slots that start an
    /// instruction, some well-formed bytes spell the program, and each target starts an instruction.
    pub fn whole(&self)
        ensures is { IsWhole self.now }
        ensures spelled { IsSpelled self.now }
        ensures targets { (t : ℕ) → IsTarget self.now.slots t → Begins self.now.slots t }
    {
        let _ = &self.shapes;
    }
}
