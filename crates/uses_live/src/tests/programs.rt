//! Programs for the tests, and runs of a set's programs.

ghost use Rattle.std.specs.Prelude.{◌≡◌};
ghost use Rattle.std.specs.Arc.{arc_value};

use bpf_decode::{Program, decode};
use bpf_machine::{Accepted, ListPort, Outcome, run};
use bpf_regions::{Context, Frame, Hook, Shape, Shapes};
use bpf_text::assemble;
use bpf_verifier::verify;
use std::alloc::Global;
use std::process::Abort;
use std::sync::Arc;
use versions::ProgramSet;

/// Maps of these shapes.
pub fn shapes_of(rt: &impl Abort, alloc: Global, maps: &[Shape]) -> Shapes {
    let shapes = Vec::from_slice(alloc, maps).expect(rt, "memory");
    Shapes::new(shapes).expect(rt, "maps within the limits")
}

/// The program of a text, over these maps.
pub fn program_of(rt: &impl Abort, alloc: Global, text: &str, maps: &[Shape]) -> Program {
    let code = assemble(alloc, text).expect(rt, text);
    let shapes = shapes_of(rt, alloc, maps);
    decode(alloc, &code, shapes).expect(rt, text)
}

/// That program, accepted for a hook.
pub fn accepted(
    rt: &impl Abort,
    alloc: Global,
    text: &str,
    hook: Hook,
    maps: &[Shape],
) -> Arc<Accepted>
    ensures { (arc_value result).hook ≡ hook }
{
    let program = program_of(rt, alloc, text, maps);
    let accepted = verify(alloc, program, hook).expect(rt, text);
    Arc::new(alloc, accepted).expect(rt, "memory")
}

/// The outcome of a run of a hook's program on an empty frame; None if the hook has no program.
pub fn outcome_of(set: &ProgramSet, hook: Hook) -> Option<Outcome> {
    let accepted = set.program(hook)?;
    let frame = Frame::new(&[])?;
    let mut port = ListPort::new(accepted.program().shapes(), &[]);
    Some(run(accepted, &frame, &Context::new([0; 32]), &mut port))
}

/// The R0 of a run of a hook's program; None if the hook has no program.
pub fn answer_of(set: &ProgramSet, hook: Hook) -> Option<u64> {
    Some(outcome_of(set, hook)?.r0)
}

/// The R0 of a run of each hook's program.
pub fn answers_of(set: &ProgramSet) -> [Option<u64>; 3] {
    [
        answer_of(set, Hook::Association),
        answer_of(set, Hook::Addba),
        answer_of(set, Hook::Data),
    ]
}

/// The first note of a run of each hook's program.
pub fn notes_of(set: &ProgramSet) -> [Option<u64>; 3] {
    [
        first_note(set, Hook::Association),
        first_note(set, Hook::Addba),
        first_note(set, Hook::Data),
    ]
}

fn first_note(set: &ProgramSet, hook: Hook) -> Option<u64> {
    outcome_of(set, hook)?.notes.as_slice().first().copied()
}
