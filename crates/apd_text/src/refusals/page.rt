//! A page on one number.

ghost use Rattle.std.specs.Prelude.{◌≡◌, IfOk, IfSome};
ghost use Rattle.std.specs.String.{string_bytes};
ghost use Rattle.apd_text.specs.Pages.{Begins, IsPageOf};

use crate::refusals::{certificates, code, frames, live, text, verifier};
use std::alloc::{AllocError, Global};
use std::fmt;

/// A program that is small enough to read at a glance.
#[derive(Clone, Copy)]
pub enum Example {
    /// Assembler text, one instruction a line.
    Text(&'static str),
    /// Hex digits, 16 a slot.
    Code(&'static str),
}

/// What a number means.
#[derive(Clone, Copy)]
pub struct Explanation {
    /// The number that a refusal names.
    pub number: u8,
    /// The meaning in a few words.
    pub title: &'static str,
    /// The meaning in a few sentences.
    pub meaning: &'static str,
    /// What leads to it.
    pub habit: &'static str,
    /// A program that is refused with the number, and the same program after the fix. Map 0, if they use it, has 4
    /// entries of one word of 8 bytes.
    pub programs: Option<(Example, Example)>,
    /// What to do.
    pub cure: &'static str,
}

/// The page on a number among these.
fn page_in(pages: &[Explanation], number: u8) -> Option<Explanation>
    ensures number { IfSome result (λ page. page.number ≡ number) }
{
    for page in pages {
        if page.number == number {
            return Some(*page);
        }
    }
    None
}

/// The page on a number; `None` if no refusal has it. Each part of `apd` that refuses has numbers of its own.
pub fn explain(number: u8) -> Option<Explanation>
    ensures number { IfSome result (λ page. page.number ≡ number) }
{
    match number {
        0..=19 => page_in(&code::EXPLANATIONS, number),
        20..=29 => page_in(&text::EXPLANATIONS, number),
        30..=49 => page_in(&verifier::EXPLANATIONS, number),
        50..=59 => page_in(&frames::EXPLANATIONS, number),
        60..=69 => page_in(&live::EXPLANATIONS, number),
        _ => page_in(&certificates::EXPLANATIONS, number),
    }
}

/// The text of the page on a number, which begins with the number.
fn text_on(alloc: Global, number: u8) -> Result<Option<String>, AllocError>
    ensures begins { IfOk result
        (λ found. IfSome found (λ text. Begins number (string_bytes text))) }
{
    let Some(page) = explain(number) else {
        return Ok(None);
    };
    let body = format!(in alloc; "{page}")?;
    let text = format!(in alloc; "{}: {body}", page.number)?;
    Ok(Some(text))
}

/// The text of the page on the number that a word spells in decimal digits without leading zeros; `None` if no refusal
/// has it.
pub fn page_text(alloc: Global, word: &str) -> Result<Option<String>, AllocError>
    ensures page { IfOk result
        (λ found. IfSome found (λ text. IsPageOf word.now (string_bytes text))) }
{
    let Ok(number) = word.parse::<u8>() else {
        return Ok(None);
    };
    let digits = format!(in alloc; "{number}")?;
    if digits.as_str() != word {
        return Ok(None);
    }
    text_on(alloc, number)
}

impl fmt::Display for Example {
    fn fmt<W: fmt::Write>(&self, f: &mut fmt::Formatter<W>) -> fmt::Result {
        match self {
            Example::Text(lines) => {
                for line in lines.lines() {
                    writeln!(f, "    {line}")?;
                }
                Ok(())
            }
            Example::Code(digits) => writeln!(f, "    {digits}"),
        }
    }
}

impl fmt::Display for Explanation {
    fn fmt<W: fmt::Write>(&self, f: &mut fmt::Formatter<W>) -> fmt::Result {
        writeln!(f, "{}\n\n{}\n\n{}\n", self.title, self.meaning, self.habit)?;
        if let Some((refused, cured)) = &self.programs {
            writeln!(f, "Refused:\n\n{refused}\nAdmitted:\n\n{cured}")?;
        }
        writeln!(f, "{}", self.cure)
    }
}
