//! Runs of programs, on the machine of bare words and on the tagged one.

ghost use Rattle.std.specs.Prelude.{◌≡◌, ◌<◌};

use crate::numbers::Numbers;
use crate::tally::Judged;
use bpf_decode::Program;
use bpf_machine::limited_run::probe;
use bpf_machine::{Accepted, ListPort, Outcome, Probe, run};
use bpf_regions::{Context, Frame};
use std::alloc::{AllocError, Global};

/// The inputs of runs: the frames, the context, and what maps and helpers return.
#[derive(Drop)]
pub struct Inputs {
    frames: Vec<Vec<u8>>,
    context: [u8; 32],
    answers: Vec<u64>,
}

/// The first 56 bytes of a data frame: a header of 24, then LLC/SNAP, IPv4 and UDP to port 53.
const DATAGRAM: [u8; 56] = [
    7, 7, 7, 7, 7, 7, 7, 7, 7, 7, 7, 7, 7, 7, 7, 7, 7, 7, 7, 7, 7, 7, 7, 7, 0xaa, 0xaa, 3, 0, 0, 0,
    8, 0, 0x45, 7, 7, 7, 7, 7, 0, 0, 7, 17, 7, 7, 7, 7, 7, 7, 7, 7, 7, 7, 7, 7, 0, 53,
];

/// A frame of random bytes after `start`.
fn frame(
    alloc: Global,
    numbers: &mut Numbers,
    start: &[u8],
    size: usize,
) -> Result<Vec<u8>, AllocError> {
    let mut bytes = Vec::from_slice(alloc, start)?;
    for _ in 0..size / 8 + 1 {
        bytes.extend_from_slice(&numbers.next().to_le_bytes())?;
    }
    bytes.truncate(size);
    Ok(bytes)
}

/// Random frames of 0, 24, 26, 64 and 100 bytes; and datagrams of 100, 2400 and a random number of bytes.
fn frames(alloc: Global, numbers: &mut Numbers) -> Result<Vec<Vec<u8>>, AllocError> {
    let mut frames = Vec::new(alloc);
    for size in [0usize, 24, 26, 64, 100] {
        frames.push(frame(alloc, numbers, &[], size)?)?;
    }
    let random = numbers.place_in(2401);
    for size in [100usize, 2400, random] {
        frames.push(frame(alloc, numbers, &DATAGRAM, size)?)?;
    }
    Ok(frames)
}

/// Random numbers, about half of them small.
fn answers(alloc: Global, numbers: &mut Numbers) -> Result<Vec<u64>, AllocError> {
    let mut answers = Vec::new(alloc);
    for _ in 0..32 {
        let number = numbers.next();
        answers.push(if numbers.is_one_in(2) {
            number & 15
        } else {
            number
        })?;
    }
    Ok(answers)
}

fn context(numbers: &mut Numbers) -> [u8; 32] {
    let mut bytes = [0u8; 32];
    for byte in bytes.iter_mut() {
        *byte = numbers.byte();
    }
    bytes
}

/// A frame of this size: `start`, then the byte.
fn filled(alloc: Global, start: &[u8], byte: u8, size: usize) -> Result<Vec<u8>, AllocError> {
    let mut bytes = Vec::from_slice(alloc, start)?;
    bytes.resize(size, byte)?;
    Ok(bytes)
}

/// Frames of 0, 24, 26 and 2400 bytes, all ones or a datagram.
fn worked_frames(alloc: Global) -> Result<Vec<Vec<u8>>, AllocError> {
    let mut frames = Vec::new(alloc);
    for size in [0usize, 24, 26, 2400] {
        frames.push(filled(alloc, &[], 1, size)?)?;
        frames.push(filled(alloc, &DATAGRAM, 7, size)?)?;
    }
    Ok(frames)
}

impl Inputs {
    /// The inputs of worked programs.
    pub fn worked(alloc: Global) -> Result<Inputs, AllocError> {
        Ok(Inputs {
            frames: worked_frames(alloc)?,
            context: [0x5a; 32],
            answers: Vec::from_slice(alloc, &[61, 5, 7, 70, 3])?,
        })
    }

    /// The inputs of a seed.
    pub fn new(alloc: Global, seed: u64) -> Result<Inputs, AllocError> {
        let mut numbers = Numbers::new(seed);
        Ok(Inputs {
            frames: frames(alloc, &mut numbers)?,
            context: context(&mut numbers),
            answers: answers(alloc, &mut numbers)?,
        })
    }
}

/// What a program does on all frames within a limit of steps.
#[derive(Clone, Copy, PartialEq, Eq)]
pub enum Seen {
    /// Each run ended.
    Ended,
    /// A run met a fault.
    Faulted,
    /// No run met a fault, but one didn't end.
    Long,
}

fn seen_on(program: &Program, inputs: &Inputs, bytes: &[u8], limit: u32) -> Seen {
    let Some(frame) = Frame::new(bytes) else {
        return Seen::Ended;
    };
    let mut port = ListPort::new(program.shapes(), &inputs.answers);
    let context = Context::new(inputs.context);
    match probe(program, &frame, &context, &mut port, limit) {
        Probe::Ended(_) => Seen::Ended,
        Probe::Faulted { .. } => Seen::Faulted,
        Probe::Cut => Seen::Long,
    }
}

/// What a program does on all frames.
pub fn look(program: &Program, inputs: &Inputs, limit: u32) -> Seen {
    let mut seen = Seen::Ended;
    for bytes in &inputs.frames {
        match seen_on(program, inputs, bytes, limit) {
            Seen::Ended => {}
            Seen::Faulted => return Seen::Faulted,
            Seen::Long => seen = Seen::Long,
        }
    }
    seen
}

/// Whether two runs had the same result, within a budget.
fn are_alike(ran: &Outcome, probed: &Outcome, budget: u32) -> bool {
    ran.r0 == probed.r0
        && ran.steps == probed.steps
        && ran.steps <= budget
        && ran.notes.as_slice() == probed.notes.as_slice()
}

/// Whether both machines have the same result on a frame, within the budget.
fn agree_on(accepted: &Accepted, inputs: &Inputs, bytes: &[u8]) -> bool {
    let Some(frame) = Frame::new(bytes) else {
        return false;
    };
    let context = Context::new(inputs.context);
    let budget = accepted.budget();
    let mut port = ListPort::new(accepted.program().shapes(), &inputs.answers);
    let ran = run(accepted, &frame, &context, &mut port);
    let mut port = ListPort::new(accepted.program().shapes(), &inputs.answers);
    match probe(accepted.program(), &frame, &context, &mut port, budget) {
        Probe::Ended(probed) => are_alike(&ran, &probed, budget),
        _ => false,
    }
}

/// Runs an accepted program on each frame, on both machines.
pub fn judged_runs(accepted: &Accepted, inputs: &Inputs) -> Judged {
    let mut runs = 0u64;
    for bytes in &inputs.frames {
        if !agree_on(accepted, inputs, bytes) {
            return Judged::Wrong("the machines differ, or the budget is passed");
        }
        runs = runs.wrapping_add(1);
    }
    Judged::Admitted { runs }
}
