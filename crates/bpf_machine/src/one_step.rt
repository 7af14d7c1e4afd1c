//! One step of a whole run.

ghost use Rattle.std.specs.Prelude.{◌≡◌, ℕ, List, take};
ghost use Rattle.bpf_model.specs.Step.{next};
ghost use Rattle.bpf_model.specs.Run.{AreBytes, SafeIn};
ghost use Rattle.bpf_tagged.specs.Took.{Performs, IsPaired, with_note};
ghost use Rattle.bpf_machine.specs.Runs.{setting_of};

use crate::Accepted;
use arrayvec::ArrayVec;
use bpf_decode::Program;
use bpf_regions::{Context, Frame};
use bpf_tagged::perform::perform_slot;
use bpf_tagged::{Input, Machine, Port, Stepped};

/// Fetches and performs the machine's next instruction.
pub fn step<P: Port>(
    program: &Program,
    frame: &[u8],
    context: &[u8],
    machine: &mut Machine,
    port: &mut P,
) -> Stepped
    requires shapes { P.shapes port.old ≡ program.now.shapes }
    requires paired { IsPaired machine.old }
    ensures performs { Performs P.gives program.now.shapes
        (next (setting_of program.now frame.now context.now))
        result port.old port.new machine.old machine.new }
    ensures shapes { P.shapes port.new ≡ P.shapes port.old }
    ensures paired { IsPaired machine.new }
{
    let _short = program.len();
    let slot = program.insn_at(machine.pc);
    let input = Input {
        shapes: program.shapes(),
        frame,
        context,
    };
    perform_slot(input, slot, machine, port)
}

/// Keeps the note, if any, if it is among the first 16.
pub fn keep_note(notes: &mut ArrayVec<u64, 16>, noted: Option<u64>)
    ensures is { (all : List ℕ) →
        notes.old.items ≡ take 16 all → notes.new.items ≡ take 16 (with_note all noted) }
{
    if let Some(note) = noted {
        if !notes.is_full() {
            notes.push(note);
        }
    }
}

/// Does nothing; its contract says that bytes are below 256.
fn are_bytes(bytes: &[u8])
    ensures is { AreBytes bytes.now }
{
    let _length = bytes.len();
}

/// Does nothing; its contract says that an accepted program is safe on each frame and context.
pub fn safe_on(accepted: &Accepted, frame: &Frame, context: &Context)
    ensures is { SafeIn (setting_of accepted.now.code frame.now context.now) accepted.now.budget }
{
    let _program = accepted.program();
    are_bytes(frame.bytes());
    are_bytes(context.bytes());
}
