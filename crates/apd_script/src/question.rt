//! What lines of `apd live` ask to be told.

ghost use Rattle.std.specs.Prelude.{◌≡◌, IfSome, IfNone};
ghost use Rattle.apd_script.specs.Questions.{Asks, asked_alone, dump_asked, question_asked, question_said};
ghost use Rattle.apd_script.specs.Words.{texts};

use crate::line::{cut_words, has_forbidden, next_word};
use crate::words::number_below;
use bpf_regions::{Shape, Shapes};
use std::str;

/// What a line of `apd live` asks to be told. A script has no such lines.
#[derive(Clone, Copy, Debug, PartialEq, Eq)]
pub enum Question {
    /// How each line is written.
    Help,
    /// The known stations.
    Stations,
    /// The agreements in force.
    Agreements,
    /// The programs in force.
    Programs,
    /// What was counted so far.
    Counters,
    /// The entries of the map with this number, which has this shape, that aren't all 0.
    Dump { map: u32, shape: Shape },
}

/// A question and its line number, counted from 1.
#[derive(Clone, Copy, Debug, PartialEq, Eq)]
pub struct NumberedQuestion {
    pub line: u64,
    pub question: Question,
}

/// A question that has no operands.
fn alone(question: Question, operands: &[&str]) -> Option<Question>
    ensures is { result ≡ asked_alone question (texts operands.now) }
{
    if operands.is_empty() {
        Some(question)
    } else {
        None
    }
}

fn dump(shapes: &Shapes, operands: &[&str]) -> Option<Question>
    ensures is { result ≡ dump_asked shapes.now (texts operands.now) }
{
    let [map] = operands else {
        return None;
    };
    shapes.whole();
    let map = number_below(shapes.len() as u64, map)?;
    let shape = shapes.get(map as u32)?;
    Some(Question::Dump {
        map: map as u32,
        shape,
    })
}

/// What a keyword and its operands ask to be told.
fn keyword_question(shapes: &Shapes, keyword: &str, operands: &[&str]) -> Option<Question>
    ensures is { result ≡ question_asked shapes.now keyword.now (texts operands.now) }
{
    match keyword {
        "help" => alone(Question::Help, operands),
        "stations" => alone(Question::Stations, operands),
        "agreements" => alone(Question::Agreements, operands),
        "programs" => alone(Question::Programs, operands),
        "counters" => alone(Question::Counters, operands),
        "dump" => dump(shapes, operands),
        _ => None,
    }
}

/// What a line of words asks to be told.
fn words_question(shapes: &Shapes, line: &str) -> Option<Question>
    ensures is { result ≡ question_said shapes.now line.now }
{
    let (keyword, rest) = next_word(line)?;
    let mut operands = [""; 4];
    let count = cut_words(rest, &mut operands)?;
    keyword_question(shapes, keyword, &operands[..count])
}

/// What a line asks to be told, if it is a question.
pub(crate) fn read_question(shapes: &Shapes, line: &[u8]) -> Option<Question>
    ensures asks { IfSome result (Asks shapes.now line.now) }
    ensures none { IfNone result ((q : _) → Asks shapes.now line.now q → ⊥) }
{
    let Ok(text) = str::from_utf8(line) else {
        return None;
    };
    if has_forbidden(line) {
        return None;
    }
    words_question(shapes, text)
}
