//! The hooks' programs.

ghost use Rattle.std.specs.Prelude.{◌≡◌, None, IfSome};
ghost use Rattle.std.specs.Option.{option_copied};
ghost use Rattle.program_judge.specs.Programs.{IsFor, no_programs, program_at, replaced};

use bpf_machine::Accepted;
use bpf_regions::{Hook, Shapes};
use std::marker::Model;

/// For each hook a program, or none. Each was accepted for that hook, and for maps of these shapes.
#[derive(Drop)]
pub struct Programs {
    shapes: Shapes,
    association: Option<Accepted>,
    addba: Option<Accepted>,
    frames: Option<Accepted>,
}

impl Model for Programs {
    ghost use Rattle.program_judge.specs.Programs.{Programs, AreFor};

    ghost Value = { Programs };

    ghost view = { λ p. record { shapes = p.shapes; association = p.association; addba = p.addba; frames = p.frames } };

    ghost invariant = { λ p. AreFor (record { shapes = p.shapes; association = p.association; addba = p.addba; frames = p.frames }) };
}

impl Programs {
    /// No programs, for maps of these shapes.
    pub fn none(shapes: Shapes) -> Programs
        ensures { result ≡ no_programs shapes }
    {
        Programs {
            shapes,
            association: None,
            addba: None,
            frames: None,
        }
    }

    /// The shapes of the maps that the programs are for.
    pub fn shapes(&self) -> &Shapes
        ensures { result.now ≡ self.now.shapes }
    {
        &self.shapes
    }

    /// Puts this program, or none, in place of a hook's program.
    pub fn put(&mut self, hook: Hook, program: Option<Accepted>)
        requires fits { IfSome program (IsFor self.old.shapes hook) }
        ensures { self.new ≡ replaced hook self.old program }
    {
        match hook {
            Hook::Association => self.association = program,
            Hook::Addba => self.addba = program,
            Hook::Data => self.frames = program,
        }
    }

    /// A hook's program, which was accepted for that hook and for maps of these shapes. None if the hook has none.
    pub fn program(&self, hook: Hook) -> Option<&Accepted>
        ensures is { option_copied result ≡ program_at hook self.now }
        ensures own { IfSome result (λ p. IsFor self.now.shapes hook p.now) }
    {
        let program = match hook {
            Hook::Association => &self.association,
            Hook::Addba => &self.addba,
            Hook::Data => &self.frames,
        };
        program.as_ref()
    }
}
