//! What the words after `expect` expect.

ghost use Rattle.std.specs.Prelude.{◌≡◌, ◌<◌, ◌^◌, IfSome};
ghost use Rattle.apd_script.specs.Words.{words, texts};
ghost use Rattle.apd_cases.specs.Expected.{place_named, alone, marked, pass_expected, is_refusal, refuse_expected, size_expected, refused_expected, limit_named, budget_expected, steps_expected, note_expected, word_expected, kind_expected, expected};

use crate::line::{Expectation, Place, Verdict};
use apd_script::{cut_words, next_word, number, number_below};

/// The place with this map's number, entry's index, and index in the entry.
pub(crate) fn place_named(map: &str, entry: &str, word: &str) -> Option<Place>
    ensures is { result ≡ place_named map.now entry.now word.now }
{
    let map = number_below(16, map)?;
    let entry = number_below(4096, entry)?;
    let word = number_below(8, word)?;
    Some(Place {
        map: map as u32,
        entry: entry as u32,
        word: word as u32,
    })
}

/// A verdict without operands.
fn alone(verdict: Verdict, operands: &[&str]) -> Option<Expectation>
    ensures is { result ≡ alone verdict (texts operands.now) }
{
    if operands.is_empty() {
        Some(Expectation::Verdict(verdict))
    } else {
        None
    }
}

fn pass(operands: &[&str]) -> Option<Expectation>
    ensures is { result ≡ pass_expected (texts operands.now) }
{
    match operands {
        [] => Some(Expectation::Verdict(Verdict::Pass(0))),
        [word, mark] => marked(word, mark),
        _ => None,
    }
}

/// `mark N`
fn marked(word: &str, mark: &str) -> Option<Expectation>
    ensures is { result ≡ marked word.now mark.now }
{
    if word == "mark" {
        let mark = number_below(256, mark)?;
        Some(Expectation::Verdict(Verdict::Pass(mark as u8)))
    } else {
        None
    }
}

/// Whether a policy may refuse with this status.
fn is_refusal(status: u64) -> bool
    ensures is { result ≡ is_refusal status }
{
    matches!(status, 1 | 10 | 12 | 17 | 37)
}

fn refuse(operands: &[&str]) -> Option<Expectation>
    ensures is { result ≡ refuse_expected (texts operands.now) }
{
    let [status] = operands else {
        return None;
    };
    let status = number_below(65536, status)?;
    if is_refusal(status) {
        Some(Expectation::Verdict(Verdict::Refuse(status as u16)))
    } else {
        None
    }
}

fn size(operands: &[&str]) -> Option<Expectation>
    ensures is { result ≡ size_expected (texts operands.now) }
{
    let [size] = operands else {
        return None;
    };
    let size = number_below(65, size)?;
    if 1 <= size {
        Some(Expectation::Verdict(Verdict::Size(size as u8)))
    } else {
        None
    }
}

fn refused(operands: &[&str]) -> Option<Expectation>
    ensures is { result ≡ refused_expected (texts operands.now) }
{
    let [number] = operands else {
        return None;
    };
    let number = number_below(256, number)?;
    Some(Expectation::Refused(number as u8))
}

/// `<= N`
fn limit(operands: &[&str]) -> Option<u32>
    ensures is { result ≡ limit_named (texts operands.now) }
{
    let [sign, limit] = operands else {
        return None;
    };
    if *sign == "<=" {
        let limit = number_below(0x1_0000_0000, limit)?;
        Some(limit as u32)
    } else {
        None
    }
}

fn budget(operands: &[&str]) -> Option<Expectation>
    ensures is { result ≡ budget_expected (texts operands.now) }
{
    let limit = limit(operands)?;
    Some(Expectation::Budget(limit))
}

fn steps(operands: &[&str]) -> Option<Expectation>
    ensures is { result ≡ steps_expected (texts operands.now) }
{
    let limit = limit(operands)?;
    Some(Expectation::Steps(limit))
}

fn note(operands: &[&str]) -> Option<Expectation>
    ensures is { result ≡ note_expected (texts operands.now) }
{
    let [note] = operands else {
        return None;
    };
    let note = number(note)?;
    Some(Expectation::Note(note))
}

fn word(operands: &[&str]) -> Option<Expectation>
    ensures is { result ≡ word_expected (texts operands.now) }
{
    let [map, entry, word, value] = operands else {
        return None;
    };
    let place = place_named(map, entry, word)?;
    let value = number(value)?;
    Some(Expectation::Word { place, value })
}

/// What a kind of expectation and its operands expect.
fn kind_expected(kind: &str, operands: &[&str]) -> Option<Expectation>
    ensures is { result ≡ kind_expected kind.now (texts operands.now) }
{
    match kind {
        "admit" => alone(Verdict::Admit, operands),
        "refuse" => refuse(operands),
        "size" => size(operands),
        "decline" => alone(Verdict::Decline, operands),
        "pass" => pass(operands),
        "drop" => alone(Verdict::Discard, operands),
        "refused" => refused(operands),
        "budget" => budget(operands),
        "steps" => steps(operands),
        "note" => note(operands),
        "word" => word(operands),
        _ => None,
    }
}

/// What the words after `expect` expect.
pub(crate) fn expectation(text: &str) -> Option<Expectation>
    ensures is { result ≡ expected (words text.now) }
{
    let (kind, rest) = next_word(text)?;
    let mut operands = [""; 4];
    let count = cut_words(rest, &mut operands)?;
    kind_expected(kind, &operands[..count])
}
