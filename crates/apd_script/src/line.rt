//! Reading a line of a script.

ghost use Rattle.std.specs.Prelude.{◌≡◌, ◌<◌, ◌≤◌, ◌++◌, ◌↔◌, take, length, Some, None, IsOk, IsSome, IsUtf8, IfSome, IfNone, IfOk, OnErr};
ghost use Rattle.std.specs.List.{list_any};
ghost use Rattle.apd_script.specs.Asked.{asked_by, NamesWord};
ghost use Rattle.apd_script.specs.Words.{words, if_some, BeginsWith, texts, is_forbidden, begins_comment};
ghost use Rattle.apd_script.specs.Lines.{says, line_asks, IsWellFormed, Reads};

use crate::command::Command;
use crate::hex_text::HexText;
use crate::operands::command;
use bpf_regions::Shapes;
use std::str;

/// The line is malformed.
#[derive(Clone, Copy, Debug)]
pub(crate) struct Malformed;

/// The parts of a text before and after its first space.
fn cut_at_space(text: &str) -> (&str, &str)
    ensures parts { words text.now ≡ if_some result.0.now ++ words result.1.now }
    ensures shorter { 0 < length text.now → length result.1.now < length text.now }
{
    match text.split_once(' ') {
        Some((word, rest)) => (word, rest),
        None => (text, ""),
    }
}

/// The first word of a text, and the rest.
#[tactic(auto, using(crate::proofs::Parts::empty, crate::proofs::Parts::some_word, crate::proofs::Parts::no_word))]
pub fn next_word(text: &str) -> Option<(&str, &str)>
    ensures first { BeginsWith text.now result }
    ensures shorter { IfSome result (λ x. length x.1.now < length text.now) }
{
    let mut rest = text;
    while !rest.is_empty() {
        let (word, after) = cut_at_space(rest);
        if !word.is_empty() {
            return Some((word, after));
        }
        rest = after;
    }
    None
}

/// Writes the words of a text into `cut`, in order, and returns how many there are; `None` if there are more than four.
pub fn cut_words<'a>(text: &'a str, cut: &mut [&'a str; 4]) -> Option<usize>
    ensures cut { IfSome result (λ count. words text.now ≡ texts (take count cut.new)) }
    ensures few { IfSome result (λ count. count ≤ 4) }
    ensures four { length cut.new ≡ 4 }
    ensures many { IfNone result (5 ≤ length (words text.now)) }
{
    let mut count = 0;
    let mut rest = text;
    while let Some((word, after)) = next_word(rest) {
        if count == 4 {
            return None;
        }
        cut[count] = word;
        count += 1;
        rest = after;
    }
    Some(count)
}

/// Whether a line that begins with this word is a comment.
pub fn begins_comment(word: &str) -> bool
    ensures is { result ≡ begins_comment word.now }
{
    matches!(word.as_bytes(), [b'#', ..])
}

/// What a line of words asks for; nothing if it has none or is a comment.
fn read_words<'a>(shapes: &Shapes, line: &'a str) -> Result<Option<Command<'a>>, Malformed>
    ensures said { IfOk result (λ said. says shapes.now line.now ≡ Some (asked_by said)) }
    ensures malformed { OnErr result (says shapes.now line.now ≡ None) }
    ensures within { IfOk result (λ said. IfSome said (NamesWord shapes.now)) }
{
    let Some((keyword, rest)) = next_word(line) else {
        return Ok(None);
    };
    if begins_comment(keyword) {
        return Ok(None);
    }
    let mut operands = [""; 4];
    let Some(count) = cut_words(rest, &mut operands) else {
        return Err(Malformed);
    };
    match command(shapes, keyword, &operands[..count]) {
        Some(command) => Ok(Some(command)),
        None => Err(Malformed),
    }
}

/// Whether a line has a tab or a carriage return. It tests every byte, since a loop without a branch is fastest.
pub fn has_forbidden(line: &[u8]) -> bool
    ensures is { result ≡ list_any is_forbidden line.now }
{
    let mut found = false;
    for byte in line {
        found |= matches!(*byte, b'\t' | b'\r');
    }
    found
}

/// The command of a line that is `frame`, one space and hex digits, as most lines are. Of another line nothing is known.
fn plain_frame<'a>(line: &'a [u8]) -> Option<Command<'a>>
    ensures reads { IfSome result (λ command. (maps : _) → Reads maps line.entry.now command) }
    ensures utf8 { IsSome result → IsUtf8 line.entry.now }
{
    let digits = line.strip_prefix(b"frame ")?;
    if digits.is_empty() {
        return None;
    }
    let spelt = HexText::new(digits)?;
    Some(Command::Frame(spelt))
}

/// What a line asks for, if anything.
pub(crate) fn read_line<'a>(
    shapes: &Shapes,
    line: &'a [u8],
) -> Result<Option<Command<'a>>, Malformed>
    ensures well_formed { IsOk result ↔ IsWellFormed shapes.now line.now }
    ensures asks { IfOk result (λ said. asked_by said ≡ line_asks shapes.now line.now) }
    ensures within { IfOk result (λ said. IfSome said (NamesWord shapes.now)) }
{
    if let Some(command) = plain_frame(line) {
        return Ok(Some(command));
    }
    let Ok(text) = str::from_utf8(line) else {
        return Err(Malformed);
    };
    if has_forbidden(line) {
        return Err(Malformed);
    }
    read_words(shapes, text)
}
