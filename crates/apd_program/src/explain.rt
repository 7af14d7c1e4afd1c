//! The page on a refusal's number or the list of all, for the command `explain`; and what `--explain` and others add
//! to an answer.

ghost use Rattle.std.specs.Prelude.{IfOk, IfErr};
ghost use Rattle.apd_words.specs.Asked.{text_of};
ghost use Rattle.apd_program.specs.Faults.{IsMemoryOr};
ghost use Rattle.apd_program.specs.Pages.{IsPage, IsPageFor, HasNoPage};

use crate::answer::Answer;
use crate::fault::ProgramFault;
use apd_files::shown;
use apd_text::{
    explain, fault_text, insn_text, list_text, page_text, ranges_text, raw_faults, reason_text,
};
use apd_words::Question;
use bpf_decode::{DecodeFault, Program, decode};
use bpf_regions::{Shape, Shapes};
use bpf_text::AsmFault;
use bpf_verifier::{Explanation, Refusal};
use std::alloc::{AllocError, Global};

/// The page on the number that a word spells, or, without a word, the list of all numbers.
pub(crate) fn page(alloc: Global, number: Option<&str>) -> Result<Answer, ProgramFault>
    ensures page { IfOk result (IsPageFor (text_of number.entry)) }
    ensures fault { IfErr result (IsMemoryOr (HasNoPage (text_of number.entry))) }
{
    match number {
        Some(word) => page_on(alloc, word),
        None => {
            let text = list_text(alloc)?;
            Ok(Answer::Page(text))
        }
    }
}

/// The page on the number that a word spells.
fn page_on(alloc: Global, word: &str) -> Result<Answer, ProgramFault>
    ensures page { IfOk result (IsPage word.now) }
{
    match page_text(alloc, word) {
        Ok(Some(text)) => Ok(Answer::Page(text)),
        Ok(None) => Err(unknown(alloc, word)),
        Err(AllocError) => Err(ProgramFault::NoMemory),
    }
}

fn unknown(alloc: Global, word: &str) -> ProgramFault {
    match (shown(alloc, word), ranges_text(alloc)) {
        (Ok(word), Ok(ranges)) => ProgramFault::NoPage { word, ranges },
        _ => ProgramFault::NoMemory,
    }
}

/// The meaning of a refusal in one sentence, with the refused instruction; `None` if nothing is refused.
pub(crate) fn sentence(
    alloc: Global,
    answer: &Answer,
    insn: &Option<String>,
) -> Result<Option<String>, AllocError> {
    match answer {
        Answer::Fault(fault) => at(alloc, "slot", fault.slot() as u64, fault.number()),
        Answer::Refused(refusal) | Answer::RefusedGraph { refusal, .. } => {
            at_insn(alloc, *refusal, insn)
        }
        Answer::LineFault(AsmFault::Line { line, number }) => at(alloc, "line", *line, *number),
        Answer::Unaccepted(fault) => told(alloc, "", fault.number()),
        _ => Ok(None),
    }
}

/// The meaning of a number at a slot or a line.
fn at(alloc: Global, place: &str, at: u64, number: u8) -> Result<Option<String>, AllocError> {
    let place = format!(in alloc; "{place} {at}: ")?;
    told(alloc, place.as_str(), number)
}

/// The meaning of a refusal at its slot, with the instruction there.
fn at_insn(
    alloc: Global,
    refusal: Refusal,
    insn: &Option<String>,
) -> Result<Option<String>, AllocError> {
    let Some(insn) = insn else {
        return at(alloc, "slot", refusal.pc as u64, refusal.number());
    };
    let slot = refusal.pc;
    let place = format!(in alloc; "slot {slot} ({insn}): ")?;
    told(alloc, place.as_str(), refusal.number())
}

/// The meaning of a number, after the name of a place; `None` if it has no page.
fn told(alloc: Global, place: &str, number: u8) -> Result<Option<String>, AllocError> {
    let Some(page) = explain(number) else {
        return Ok(None);
    };
    let text = format!(in alloc;
        "apd: {place}{}; `apd explain {number}` tells more\n",
        page.title
    )?;
    Ok(Some(text))
}

/// The first bytes of a certificate.
const CERTIFICATE: &[u8] = b"APC2";

/// The message if code begins so.
const EXCHANGED: &str = "apd: the code file begins like a certificate: are the two exchanged?\n";

/// The message if the program in force isn't admitted.
const OF_CODE_IN_FORCE: &str = "apd: this is said of the program after --against\n";

/// Why code isn't a program with maps of these shapes: each slot that isn't an instruction, or else its first fault.
fn faults_of(alloc: Global, code: &[u8], shapes: Shapes) -> Result<String, AllocError> {
    let mut text = raw_faults(alloc, code)?;
    if let Err(fault) = decode(alloc, code, shapes) {
        if text.is_empty() {
            if let Some(told) = at(alloc, "slot", fault.slot() as u64, fault.number())? {
                text.push_str(told.as_str())?;
            }
        }
    }
    Ok(text)
}

/// The reason for a verdict in words, if it is wanted.
#[derive(Drop)]
pub(crate) struct Reason {
    wanted: bool,
    text: Result<Option<String>, AllocError>,
    /// The refused instruction, as text.
    insn: Option<String>,
}

impl Reason {
    /// No reason yet; it is wanted if the question says so.
    pub(crate) fn wanted_by(question: &Question<'_>) -> Reason {
        let wanted = match question {
            Question::Verify { explain, .. } => *explain,
            Question::Trace(trial) => trial.explain,
            _ => false,
        };
        Reason {
            wanted,
            text: Ok(None),
            insn: None,
        }
    }

    /// Whether the reason for a verdict is wanted.
    pub(crate) fn is_wanted(&self) -> bool {
        self.wanted
    }

    /// Explains what the verifier found of a program.
    pub(crate) fn explain(&mut self, alloc: Global, program: &Program, explanation: &Explanation) {
        self.text = reason_text(alloc, program, explanation).map(Some);
    }

    /// Explains the fault of code with maps of these shapes, if that is wanted.
    pub(crate) fn explain_fault(
        &mut self,
        alloc: Global,
        code: &[u8],
        shapes: &[Shape],
        fault: DecodeFault,
    ) {
        if self.wanted {
            self.text = fault_text(alloc, code, shapes, fault).map(Some);
        }
    }

    /// Explains why code isn't a program with maps of these shapes.
    pub(crate) fn tells_faults(&mut self, alloc: Global, code: &[u8], shapes: Shapes) {
        self.text = faults_of(alloc, code, shapes).map(Some);
    }

    /// Asks whether code is a certificate, if it begins like one.
    pub(crate) fn suspects_exchange(&mut self, alloc: Global, code: &[u8]) {
        if code.starts_with(CERTIFICATE) {
            self.text = String::from_str(alloc, EXCHANGED).map(Some);
        }
    }

    /// Says that the answer is about the program in force.
    pub(crate) fn blames_code_in_force(&mut self, alloc: Global) {
        self.text = String::from_str(alloc, OF_CODE_IN_FORCE).map(Some);
    }

    /// Keeps the refused instruction of the code, as text.
    pub(crate) fn points_at(
        &mut self,
        alloc: Global,
        code: &[u8],
        answer: &Result<Answer, ProgramFault>,
    ) {
        if let Ok(Answer::Refused(refusal) | Answer::RefusedGraph { refusal, .. }) = answer {
            self.insn = insn_text(alloc, code, refusal.pc).unwrap_or(None);
        }
    }

    /// The refused instruction, if it is known.
    pub(crate) fn insn(&self) -> &Option<String> {
        &self.insn
    }

    /// Its text, if there is one.
    pub(crate) fn text(&self) -> &Result<Option<String>, AllocError> {
        &self.text
    }
}
