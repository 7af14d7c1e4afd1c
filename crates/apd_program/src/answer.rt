//! The answers of commands.

ghost use Rattle.std.specs.Prelude.{◌≡◌, ◌/◌, ◌++◌, IfOk, IfErr, OnOk, string_bytes, length};
ghost use Rattle.apd_program.specs.Refusing.{IsUndecoded, IsRefused};
ghost use Rattle.apd_program.specs.Slots.{digits_line, slot_lines};

use crate::fault::ProgramFault;
use crate::script_text::ScriptText;
use bpf_cert::WithinFault;
use bpf_decode::DecodeFault;
use bpf_text::AsmFault;
use bpf_verifier::{Fault, Refusal};
use capture::CaptureFault;
use std::alloc::{AllocError, Global};

/// The answer of a command, for standard output or a file.
#[derive(Drop)]
pub enum Answer {
    /// The program is safe, and executes at most `budget` instructions.
    Accepted {
        budget: u32,
    },
    /// The code of assembler text.
    Code(Vec<u8>),
    /// The text of code: a line for each instruction, or for each slot.
    Instructions(String),
    /// The graph of a program that the verifier refuses, up to where it stopped.
    RefusedGraph {
        text: String,
        refusal: Refusal,
    },
    /// The text of a run: a line for each step and each note, and the result.
    Run(String),
    /// The verdicts on a capture's packets: a table, or lines of JSON.
    Verdicts(String),
    /// The verdicts that differ between two programs; `differs` if there are any.
    Differences {
        text: String,
        differs: bool,
    },
    /// The verdicts, or those that differ, on the packets before the fault of a cut capture.
    CutVerdicts {
        text: String,
        fault: CaptureFault,
    },
    /// The page on a refusal's number, or the list of all numbers.
    Page(String),
    /// The frames of a capture as a script.
    Script(ScriptText),
    /// The frames before the fault of a cut capture, as a script.
    CutScript {
        text: ScriptText,
        fault: CaptureFault,
    },
    /// The lines of a file of cases; `is_good` if it has an expectation, and all are met.
    Tested {
        text: String,
        is_good: bool,
    },
    /// A help text.
    Help(String),
    /// The code isn't well formed (1 to 3, 10 to 19).
    Fault(DecodeFault),
    /// The verifier refuses the program (30 to 38).
    Refused(Refusal),
    /// A line of the text isn't an instruction (20 to 22).
    LineFault(AsmFault),
    /// The bytes of a certificate.
    Certificate(Vec<u8>),
    /// The certificate isn't accepted (36, or 70 to 72).
    Unaccepted(WithinFault),
}

impl Answer {
    ghost use Rattle.apd_program.specs.Lines.{status_of, is_output, printed};

    /// The exit status for the answer: 0 for a success; 1 for a refusal, a failed case, verdicts that differ or the
    /// script of a cut capture; 2 for verdicts on a cut capture.
    pub fn status(&self) -> u8
        ensures is { result ≡ status_of self.now }
    {
        match self {
            Answer::Accepted { .. }
            | Answer::Code(_)
            | Answer::Instructions(_)
            | Answer::Run(_)
            | Answer::Certificate(_) => 0,
            Answer::Verdicts(_) | Answer::Page(_) | Answer::Script(_) | Answer::Help(_) => 0,
            Answer::Fault(_) | Answer::Refused(_) | Answer::LineFault(_) | Answer::Unaccepted(_) =>
                1,
            Answer::CutScript { .. } => 1,
            Answer::CutVerdicts { .. } => 2,
            Answer::RefusedGraph { .. } => 1,
            Answer::Tested { is_good, .. } => { if *is_good { 0 } else { 1 } }
            Answer::Differences { differs, .. } => { if *differs { 1 } else { 0 } }
        }
    }

    /// Whether the answer is what was asked for, whatever its status, and not a refusal.
    pub fn is_output(&self) -> bool
        ensures is { result ≡ is_output self.now }
    {
        !matches!(
            self,
            Answer::Fault(_) | Answer::Refused(_) | Answer::LineFault(_) | Answer::Unaccepted(_)
        )
    }

    /// The text that is printed for the answer, with its line feeds.
    pub fn printed(self, alloc: Global) -> Result<String, AllocError>
        ensures is { IfOk result (λ text. string_bytes text ≡ printed self) }
    {
        match self {
            Answer::Accepted { budget } => format!(in alloc; "accepted budget {budget}\n"),
            Answer::Code(code) => slot_lines(alloc, code.as_slice()),
            Answer::Instructions(text) | Answer::Run(text) => Ok(text),
            Answer::Page(text) | Answer::Help(text) => Ok(text),
            Answer::Script(text) | Answer::CutScript { text, .. } => text.whole(alloc),
            Answer::Verdicts(text) => Ok(text),
            Answer::RefusedGraph { text, .. } => Ok(text),
            Answer::CutVerdicts { text, .. } => Ok(text),
            Answer::Tested { text, .. } | Answer::Differences { text, .. } => Ok(text),
            Answer::Fault(fault) => format!(in alloc; "{fault}\n"),
            Answer::Refused(refusal) => format!(in alloc; "{refusal}\n"),
            Answer::LineFault(fault) => format!(in alloc; "{fault}\n"),
            Answer::Certificate(bytes) => certificate_line(alloc, bytes.as_slice()),
            Answer::Unaccepted(fault) => format!(in alloc; "certificate {}\n", fault.number()),
        }
    }
}

/// The answer for code that isn't well formed.
pub(crate) fn undecoded(fault: DecodeFault) -> Result<Answer, ProgramFault>
    ensures fault { IfOk result (IsUndecoded fault) }
    ensures memory { IfErr result (λ e. e ≡ ProgramFault.NoMemory) }
{
    match fault {
        DecodeFault::NoMemory => Err(ProgramFault::NoMemory),
        _ => Ok(Answer::Fault(fault)),
    }
}

/// The answer for a program that isn't admitted.
pub(crate) fn refused(refusal: Refusal) -> Result<Answer, ProgramFault>
    ensures refusal { IfOk result (IsRefused refusal) }
    ensures memory { IfErr result (λ e. e ≡ ProgramFault.NoMemory) }
{
    match refusal.fault {
        Fault::NoMemory => Err(ProgramFault::NoMemory),
        _ => Ok(Answer::Refused(refusal)),
    }
}

/// A certificate as one line of hex digits.
fn certificate_line(alloc: Global, bytes: &[u8]) -> Result<String, AllocError>
    ensures is { IfOk result (λ text. string_bytes text ≡ digits_line bytes.now) }
{
    let mut line = hex::encode(alloc, bytes)?;
    line.push('\n')?;
    Ok(line)
}

/// Appends the line of a slot.
fn append_slot(alloc: Global, text: &mut String, slot: &[u8]) -> Result<(), AllocError>
    ensures ok { OnOk result
        (string_bytes text.new ≡ string_bytes text.old ++ digits_line slot.now) }
{
    let digits = hex::encode(alloc, slot)?;
    text.push_str(digits.as_str())?;
    text.push('\n')?;
    Ok(())
}

/// Code as lines of hex digits, one for each slot.
fn slot_lines(alloc: Global, code: &[u8]) -> Result<String, AllocError>
    ensures is { IfOk result
        (λ text. string_bytes text ≡ slot_lines (length code.now / 8) code.now) }
{
    let mut text = String::new(alloc);
    let mut rest = code;
    while rest.len() >= 8 {
        let (slot, left) = rest.split_at(8);
        append_slot(alloc, &mut text, slot)?;
        rest = left;
    }
    Ok(text)
}
