//! What can be asked of a program, and the results in words.
//!
//! - `decode`: a sign for each slot, `>` if it is a target, else `i` if it has an instruction, `-` if it is the second
//!   half of one, and `.` after the end; `length`: its slots; `write`: its text, with a `;` for each end of line;
//!   `assemble`: the size of its code; `code`: its digits; `prefixes`: the faults of its proper prefixes, by length;
//! - `probe FRAME ANSWERS`: the end of a probe on a frame of these bytes, or none for `-`, with a list of answers to
//!   queries; `plain`: with plain maps, at clock 11, with 2007 stations. If it is accepted, both machines agree on it;
//! - `verify`: its budget or its refusal; `run FRAME ANSWERS`: the end of a run; `trace FRAME`: that, and its steps, in a
//!   log that had one; `step FRAME`: the results of three single steps; `agree`: how many runs agree on both machines.

use crate::certificates::{told_of_check, told_of_own_certificate};
use crate::maps::shapes_of;
use crate::rows::{field, number};
use crate::runs::{Inputs, judged_runs};
use crate::tally::Judged;
use bpf_decode::{DecodeFault, Program, decode, encode};
use bpf_helpers::PlainPort;
use bpf_machine::limited_run::probe;
use bpf_machine::{Accepted, Bare, ListPort, Outcome, Probe, Step, run, trace};
use bpf_regions::{Context, Frame, Hook, Scope, Shape, Shapes, WordWidth};
use bpf_text::disassemble;
use bpf_verifier::verify;
use std::alloc::{AllocError, Global};

/// What a row asks.
#[derive(Clone, Copy)]
pub struct Asked<'a> {
    pub alloc: Global,
    /// What is given.
    pub block: &'a str,
    pub word: &'a str,
    pub rest: &'a str,
}

/// The shape that a line says, if it says one.
fn shape_in(line: &str) -> Option<Shape> {
    let (word, rest) = line.split_once(' ')?;
    let scope = match word {
        "shared" => Scope::Shared,
        "own" => Scope::Worker,
        _ => return None,
    };
    let (entries, rest) = rest.split_once(' ')?;
    let (words, width) = rest.split_once(' ')?;
    Some(Shape {
        entries: entries.parse::<u32>().ok()?,
        words: words.parse::<u32>().ok()?,
        width: if width == "4" {
            WordWidth::Four
        } else {
            WordWidth::Eight
        },
        scope,
    })
}

/// The shapes of the maps that are given.
fn shapes_in(alloc: Global, block: &str) -> Result<Shapes, AllocError> {
    let mut maps = Vec::new(alloc);
    for line in block.lines() {
        if let Some(shape) = shape_in(line) {
            maps.push(shape)?;
        }
    }
    shapes_of(maps)
}

/// The hook that is given.
pub fn hook_in(block: &str) -> Hook {
    match field(block, "hook") {
        Some("assoc") => Hook::Association,
        Some("addba") => Hook::Addba,
        _ => Hook::Data,
    }
}

/// The program of code with the maps that are given.
pub fn program_of(
    asked: &Asked<'_>,
    code: &[u8],
) -> Result<Result<Program, DecodeFault>, AllocError> {
    let shapes = shapes_in(asked.alloc, asked.block)?;
    Ok(decode(asked.alloc, code, shapes))
}

/// The sign of a slot.
fn sign(program: &Program, slot: usize) -> char {
    if program.is_target(slot) {
        return '>';
    }
    match program.insn_at(slot) {
        Some(Some(_)) => 'i',
        Some(None) => '-',
        None => '.',
    }
}

/// The signs of a program's slots, if it is encoded as this code.
fn told_of_slots(alloc: Global, program: &Program, code: &[u8]) -> Result<String, AllocError> {
    let mut signs = String::new(alloc);
    let again = encode(alloc, program)?;
    if again.as_slice() != code {
        return Ok(signs);
    }
    for slot in 0..=program.len() {
        signs.push(sign(program, slot))?;
    }
    Ok(signs)
}

/// The text of a program, with a `;` for each end of line.
fn told_of_text(alloc: Global, program: &Program) -> Result<String, AllocError> {
    let mut told = String::new(alloc);
    let text = disassemble(alloc, program)?;
    for line in text.as_str().lines() {
        told.push_str(line)?;
        told.push(';')?;
    }
    Ok(told)
}

/// The faults of the proper prefixes of code.
fn told_of_prefixes(asked: &Asked<'_>, code: &[u8]) -> Result<String, AllocError> {
    let mut told = String::new(asked.alloc);
    for length in 0..code.len() {
        let (number, slot) = match program_of(asked, &code[..length])?.err() {
            Some(fault) => (fault.number(), fault.slot()),
            None => (0, 0),
        };
        let space = if told.is_empty() { "" } else { " " };
        let fault = format!(in asked.alloc; "{space}{number}@{slot}")?;
        told.push_str(fault.as_str())?;
    }
    Ok(told)
}

/// The end of a run.
fn told_of_end(alloc: Global, outcome: &Outcome) -> Result<String, AllocError> {
    let mut told = format!(in alloc; "{} in {}", outcome.r0, outcome.steps)?;
    for note in outcome.notes.as_slice() {
        let note = format!(in alloc; " {note}")?;
        told.push_str(note.as_str())?;
    }
    Ok(told)
}

/// The end of a probe.
fn told_of_answer(alloc: Global, answer: &Probe) -> Result<String, AllocError> {
    match answer {
        Probe::Ended(outcome) => told_of_end(alloc, outcome),
        Probe::Faulted { pc, number } => format!(in alloc; "fault {number} at {pc}"),
        Probe::Cut => String::from_str(alloc, "cut"),
    }
}

/// The frame that a row names, and the text of its answers.
fn frame_of<'a>(asked: &Asked<'a>) -> (Vec<u8>, &'a str) {
    let (digits, answers) = asked.rest.split_once(' ').unwrap_or((asked.rest, ""));
    let bytes = hex::decode(asked.alloc, digits.as_bytes()).unwrap_or(Vec::new(asked.alloc));
    (bytes, answers)
}

/// The numbers in a text.
fn numbers_of(alloc: Global, text: &str) -> Result<Vec<u64>, AllocError> {
    let mut numbers = Vec::new(alloc);
    for word in text.split_whitespace() {
        if let Ok(number) = word.parse::<u64>() {
            numbers.push(number)?;
        }
    }
    Ok(numbers)
}

/// The end of a probe over a list of answers.
fn told_of_probe(asked: &Asked<'_>, program: &Program) -> Result<String, AllocError> {
    let (bytes, answers) = frame_of(asked);
    let answers = numbers_of(asked.alloc, answers)?;
    let Some(frame) = Frame::new(&bytes) else {
        return Err(AllocError);
    };
    let limit = number(asked.block, "limit", 1000) & 0xffff_ffff;
    let mut port = ListPort::new(program.shapes(), &answers);
    let answer = probe(
        program,
        &frame,
        &Context::new([0; 32]),
        &mut port,
        limit as u32,
    );
    told_of_answer(asked.alloc, &answer)
}

/// The end of a probe over plain maps, on an empty frame.
fn told_of_plain(asked: &Asked<'_>, program: &Program) -> Result<String, AllocError> {
    let Some(frame) = Frame::new(&[]) else {
        return Err(AllocError);
    };
    let draw = number(asked.block, "draw", 0);
    let mut port = PlainPort::new(asked.alloc, program.shapes(), 11, 2007, draw)?;
    let answer = probe(program, &frame, &Context::new([0; 32]), &mut port, 1000);
    told_of_answer(asked.alloc, &answer)
}

/// The end of a run over a list of answers.
fn told_of_run(asked: &Asked<'_>, accepted: &Accepted) -> Result<String, AllocError> {
    let (bytes, answers) = frame_of(asked);
    let answers = numbers_of(asked.alloc, answers)?;
    let Some(frame) = Frame::new(&bytes) else {
        return Err(AllocError);
    };
    let mut port = ListPort::new(accepted.program().shapes(), &answers);
    let outcome = run(accepted, &frame, &Context::new([0; 32]), &mut port);
    told_of_end(asked.alloc, &outcome)
}

/// A step that a log has before a run.
const BEFORE: Step = Step {
    pc: 9,
    note: Some(5),
};

/// The end of a traced run over plain maps, and the steps of a log that had one.
fn told_of_trace(asked: &Asked<'_>, accepted: &Accepted) -> Result<String, AllocError> {
    let (bytes, _) = frame_of(asked);
    let Some(frame) = Frame::new(&bytes) else {
        return Err(AllocError);
    };
    let mut log = Vec::from_slice(asked.alloc, &[BEFORE])?;
    let mut port = PlainPort::new(asked.alloc, accepted.program().shapes(), 0, 0, 0)?;
    let outcome = trace(
        accepted,
        &frame,
        &Context::new([0; 32]),
        &mut port,
        &mut log,
    )?;
    let mut told = told_of_end(asked.alloc, &outcome)?;
    push_steps(&mut told, &log, asked.alloc)?;
    Ok(told)
}

/// Adds the slots of steps, each with its note.
fn push_steps(told: &mut String, log: &[Step], alloc: Global) -> Result<(), AllocError> {
    for step in log {
        let word = match step.note {
            Some(note) => format!(in alloc; " {}:{note}", step.pc)?,
            None => format!(in alloc; " {}", step.pc)?,
        };
        told.push_str(word.as_str())?;
    }
    Ok(())
}

/// The result of a single step.
fn told_of_step(alloc: Global, outcome: Option<Outcome>) -> Result<String, AllocError> {
    match outcome {
        Some(outcome) => told_of_end(alloc, &outcome),
        None => String::from_str(alloc, "on"),
    }
}

/// The results of three single steps, and after two of them what R3 is.
fn told_of_steps(asked: &Asked<'_>, accepted: &Accepted) -> Result<String, AllocError> {
    let (bytes, _) = frame_of(asked);
    let Some(frame) = Frame::new(&bytes) else {
        return Err(AllocError);
    };
    let context = Context::new([0; 32]);
    let mut port = ListPort::new(accepted.program().shapes(), &[]);
    let mut bare = Bare::enter(accepted, &frame, &context);
    let first = told_of_step(asked.alloc, bare.step(&mut port))?;
    let second = told_of_step(asked.alloc, bare.step(&mut port))?;
    let (start, moved) = (bare.register(1), bare.register(3));
    let third = told_of_step(asked.alloc, bare.step(&mut port))?;
    let moves = start.place == moved.place && start.place != 0;
    let number = if moves { moved.number } else { 0 };
    format!(in asked.alloc; "{first}, {second}, {third}; {number}")
}

/// How many runs of an accepted program agree on both machines: none if one differs.
fn agreed(alloc: Global, accepted: &Accepted) -> Result<u64, AllocError> {
    match judged_runs(accepted, &Inputs::worked(alloc)?) {
        Judged::Admitted { runs } => Ok(runs),
        _ => Ok(0),
    }
}

/// Whether both machines agree on the runs of code, if it is accepted.
fn agrees(asked: &Asked<'_>, code: &[u8]) -> Result<bool, AllocError> {
    let Ok(program) = program_of(asked, code)? else {
        return Ok(true);
    };
    match verify(asked.alloc, program, hook_in(asked.block)) {
        Ok(accepted) => Ok(agreed(asked.alloc, &accepted)? > 0),
        Err(_) => Ok(true),
    }
}

/// What is said of an accepted program.
fn told_of_accepted(
    asked: &Asked<'_>,
    code: &[u8],
    accepted: &Accepted,
) -> Result<String, AllocError> {
    match asked.word {
        "verify" => format!(in asked.alloc; "budget {}", accepted.budget()),
        "run" => told_of_run(asked, accepted),
        "trace" => told_of_trace(asked, accepted),
        "step" => told_of_steps(asked, accepted),
        "agree" => format!(in asked.alloc; "{} runs", agreed(asked.alloc, accepted)?),
        _ => told_of_own_certificate(asked, code, accepted),
    }
}

/// What is said of a program.
fn told_of_program(asked: &Asked<'_>, code: &[u8], program: Program) -> Result<String, AllocError> {
    match asked.word {
        "decode" => told_of_slots(asked.alloc, &program, code),
        "length" => format!(in asked.alloc; "{}", program.len()),
        "write" => told_of_text(asked.alloc, &program),
        "probe" => told_of_probe(asked, &program),
        "plain" => told_of_plain(asked, &program),
        "check" | "work" => told_of_check(asked, program),
        _ => match verify(asked.alloc, program, hook_in(asked.block)) {
            Ok(accepted) => told_of_accepted(asked, code, &accepted),
            Err(refusal) => refusal.to_string(asked.alloc),
        },
    }
}

/// What is said of code.
pub fn told_of_code(asked: &Asked<'_>, code: &[u8]) -> Result<String, AllocError> {
    if matches!(asked.word, "probe" | "plain" | "run") && !agrees(asked, code)? {
        return String::from_str(asked.alloc, "the machines differ");
    }
    match asked.word {
        "assemble" => format!(in asked.alloc; "{} bytes", code.len()),
        "code" => hex::encode(asked.alloc, code),
        "prefixes" => told_of_prefixes(asked, code),
        _ => match program_of(asked, code)? {
            Ok(program) => told_of_program(asked, code, program),
            Err(fault) => fault.to_string(asked.alloc),
        },
    }
}
