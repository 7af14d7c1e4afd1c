//! What a line says.

ghost use Rattle.std.specs.Prelude.{◌≡◌, ◌↔◌, Some, None, IsOk, IfOk, OnErr};
ghost use Rattle.apd_script.specs.Words.{words, texts};
ghost use Rattle.apd_cases.specs.Said.{said_by};
ghost use Rattle.apd_cases.specs.Grammar.{policy_said, config_said, clock_said, stations_said, word_said, frame_said, plain_said, expect_said, keyword_said, says, line_says, IsWellFormed};

use crate::expect_line::{expectation, place_named};
use crate::line::{Line, StationCount};
use apd_script::{
    HexText, begins_comment, cut_words, has_forbidden, hook_named, next_word, number, number_below,
};
use std::str;

/// The line is malformed.
#[derive(Clone, Copy, Debug)]
pub(crate) struct Malformed;

fn policy<'a>(operands: &[&'a str]) -> Option<Line<'a>>
    ensures is { said_by result ≡ policy_said (texts operands.now) }
{
    let [name, path] = operands else {
        return None;
    };
    let hook = hook_named(name)?;
    Some(Line::Policy { hook, path })
}

fn config<'a>(operands: &[&'a str]) -> Option<Line<'a>>
    ensures is { said_by result ≡ config_said (texts operands.now) }
{
    let [path] = operands else {
        return None;
    };
    Some(Line::Config(path))
}

fn clock<'a>(operands: &[&'a str]) -> Option<Line<'a>>
    ensures is { said_by result ≡ clock_said (texts operands.now) }
{
    let [clock] = operands else {
        return None;
    };
    let clock = number(clock)?;
    Some(Line::Clock(clock))
}

fn stations<'a>(operands: &[&'a str]) -> Option<Line<'a>>
    ensures is { said_by result ≡ stations_said (texts operands.now) }
{
    let [count] = operands else {
        return None;
    };
    let count = number_below(2008, count)?;
    let stations = StationCount::new(count as u16)?;
    Some(Line::Stations(stations))
}

fn word<'a>(operands: &[&'a str]) -> Option<Line<'a>>
    ensures is { said_by result ≡ word_said (texts operands.now) }
{
    let [map, entry, word, value] = operands else {
        return None;
    };
    let place = place_named(map, entry, word)?;
    let value = number(value)?;
    Some(Line::Word { place, value })
}

fn frame<'a>(operands: &[&'a str]) -> Option<Line<'a>>
    ensures is { said_by result ≡ frame_said (texts operands.now) }
{
    let [digits] = operands else {
        return None;
    };
    let text = HexText::new(digits.as_bytes())?;
    Some(Line::Frame(text))
}

/// What a keyword and its operands say, except for `given` and `expect`.
fn plain<'a>(keyword: &str, operands: &[&'a str]) -> Option<Line<'a>>
    ensures is { said_by result ≡ plain_said keyword.now (texts operands.now) }
{
    match keyword {
        "policy" => policy(operands),
        "config" => config(operands),
        "clock" => clock(operands),
        "stations" => stations(operands),
        "word" => word(operands),
        "frame" => frame(operands),
        _ => None,
    }
}

/// The same for the text after the keyword.
fn plain_line<'a>(keyword: &str, rest: &'a str) -> Option<Line<'a>>
    ensures is { said_by result ≡ plain_said keyword.now (words rest.entry.now) }
{
    let mut operands = [""; 4];
    let count = cut_words(rest, &mut operands)?;
    plain(keyword, &operands[..count])
}

fn expect<'a>(rest: &str) -> Option<Line<'a>>
    ensures is { said_by result ≡ expect_said (words rest.now) }
{
    let expectation = expectation(rest)?;
    Some(Line::Expect(expectation))
}

/// What a keyword and the text after it say.
fn keyword_line<'a>(keyword: &str, rest: &'a str) -> Option<Line<'a>>
    ensures is { said_by result ≡ keyword_said keyword.now (words rest.entry.now) }
{
    match keyword {
        "given" => Some(Line::Given(rest)),
        "expect" => expect(rest),
        _ => plain_line(keyword, rest),
    }
}

/// What a line of words says; nothing if it has none or is a comment.
fn read_words<'a>(line: &'a str) -> Result<Option<Line<'a>>, Malformed>
    ensures said { IfOk result (λ said. says line.entry.now ≡ Some (said_by said)) }
    ensures malformed { OnErr result (says line.entry.now ≡ None) }
{
    let Some((keyword, rest)) = next_word(line) else {
        return Ok(None);
    };
    if begins_comment(keyword) {
        return Ok(None);
    }
    match keyword_line(keyword, rest) {
        Some(line) => Ok(Some(line)),
        None => Err(Malformed),
    }
}

/// What a line says, if anything.
pub(crate) fn read_line<'a>(line: &'a [u8]) -> Result<Option<Line<'a>>, Malformed>
    ensures well_formed { IsOk result ↔ IsWellFormed line.entry.now }
    ensures says { IfOk result (λ said. said_by said ≡ line_says line.entry.now) }
{
    let Ok(text) = str::from_utf8(line) else {
        return Err(Malformed);
    };
    if has_forbidden(line) {
        return Err(Malformed);
    }
    read_words(text)
}
