//! Why a line is malformed, in words for people.

use crate::expect_line::expectation;
use apd_script::{Shown, is_near, line_at, next_word, text_fault};
use std::{fmt, str};

/// Why a line is malformed. It is displayed in words; no contract promises anything of them.
#[derive(Clone, Copy, Debug)]
pub enum LineFault<'a> {
    /// It isn't words separated by spaces.
    Text(apd_script::LineFault<'a>),
    /// No line begins with this word; `near` is a similar one, if there is one.
    UnknownWord {
        word: &'a str,
        near: Option<&'static str>,
    },
    /// Nothing follows `expect`.
    NoExpectation,
    /// `expect` doesn't take this word; `near` is a similar one, if there is one.
    UnknownExpectation {
        word: &'a str,
        near: Option<&'static str>,
    },
    /// The line is written like this.
    Takes(&'static str),
    /// None of the other variants says why.
    Other,
}

/// A kind of line: its first word, and how it is written.
#[derive(Clone, Copy)]
struct Form {
    keyword: &'static str,
    usage: &'static str,
}

const LINES: [Form; 8] = [
    Form {
        keyword: "policy",
        usage: "`policy HOOK FILE`: HOOK is assoc, addba or data, and FILE has code in hex digits",
    },
    Form {
        keyword: "config",
        usage: "`config FILE`",
    },
    Form {
        keyword: "given",
        usage: "`given KEY=VALUE ..`",
    },
    Form {
        keyword: "clock",
        usage: "`clock N`: N is 0 to 18446744073709551615",
    },
    Form {
        keyword: "stations",
        usage: "`stations N`: N is 0 to 2007",
    },
    Form {
        keyword: "word",
        usage: "`word MAP INDEX WORD VALUE`: MAP is 0 to 15, INDEX 0 to 4095, WORD 0 to 7, and \
                VALUE below 2^64",
    },
    Form {
        keyword: "frame",
        usage: "`frame HEX`: HEX is pairs of hex digits",
    },
    Form {
        keyword: "expect",
        usage: "`expect VERDICT`",
    },
];

const EXPECTATIONS: [Form; 11] = [
    Form {
        keyword: "admit",
        usage: "`expect admit`",
    },
    Form {
        keyword: "refuse",
        usage: "`expect refuse STATUS`: STATUS is 1, 10, 12, 17 or 37",
    },
    Form {
        keyword: "size",
        usage: "`expect size N`: N is 1 to 64",
    },
    Form {
        keyword: "decline",
        usage: "`expect decline`",
    },
    Form {
        keyword: "pass",
        usage: "`expect pass` or `expect pass mark N`: N is 0 to 255",
    },
    Form {
        keyword: "drop",
        usage: "`expect drop`",
    },
    Form {
        keyword: "refused",
        usage: "`expect refused N`: N is the number that `apd verify` prints",
    },
    Form {
        keyword: "budget",
        usage: "`expect budget <= N`: N is 0 to 4294967295",
    },
    Form {
        keyword: "steps",
        usage: "`expect steps <= N`: N is 0 to 4294967295",
    },
    Form {
        keyword: "note",
        usage: "`expect note N`: N is 0 to 18446744073709551615",
    },
    Form {
        keyword: "word",
        usage: "`expect word MAP INDEX WORD VALUE`: MAP is 0 to 15, INDEX 0 to 4095, WORD 0 to 7, \
                and VALUE below 2^64",
    },
];

/// Why the line of a text with this number, counted from 1, is malformed. It is meant for malformed lines.
pub fn line_fault<'a>(text: &'a [u8], number: u64) -> LineFault<'a> {
    if let Some(fault) = text_fault(text, number) {
        return LineFault::Text(fault);
    }
    match str::from_utf8(line_at(text, number)) {
        Ok(line) => words_fault(line),
        Err(_) => LineFault::Other,
    }
}

/// Why the words of a line are malformed.
fn words_fault<'a>(line: &'a str) -> LineFault<'a> {
    let Some((word, rest)) = next_word(line) else {
        return LineFault::Other;
    };
    match form_of(&LINES, word) {
        Some(_) if word == "expect" => expect_fault(rest),
        Some(form) => LineFault::Takes(form.usage),
        None => LineFault::UnknownWord {
            word,
            near: near(&LINES, word),
        },
    }
}

/// Why the words after `expect` are malformed.
fn expect_fault<'a>(rest: &'a str) -> LineFault<'a> {
    let Some((word, _)) = next_word(rest) else {
        return LineFault::NoExpectation;
    };
    if expectation(rest).is_some() {
        return LineFault::Other;
    }
    match form_of(&EXPECTATIONS, word) {
        Some(form) => LineFault::Takes(form.usage),
        None => LineFault::UnknownExpectation {
            word,
            near: near(&EXPECTATIONS, word),
        },
    }
}

/// The form with this first word.
fn form_of(forms: &[Form], word: &str) -> Option<Form> {
    for form in forms {
        if form.keyword == word {
            return Some(*form);
        }
    }
    None
}

/// The first word of a form that differs from a word by one typing error.
fn near(forms: &[Form], word: &str) -> Option<&'static str> {
    for form in forms {
        if is_near(word.as_bytes(), form.keyword.as_bytes()) {
            return Some(form.keyword);
        }
    }
    None
}

/// Writes that a word isn't known, and the one that is likely meant.
fn write_unknown<W: fmt::Write>(
    f: &mut fmt::Formatter<W>,
    what: &str,
    word: &str,
    near: Option<&str>,
) -> fmt::Result {
    write!(f, "{what} `{}`", Shown(word))?;
    match near {
        Some(near) => write!(f, " (did you mean `{near}`?)"),
        None => Ok(()),
    }
}

impl fmt::Display for LineFault<'_> {
    fn fmt<W: fmt::Write>(&self, f: &mut fmt::Formatter<W>) -> fmt::Result {
        match *self {
            LineFault::Text(fault) => write!(f, "{fault}"),
            LineFault::UnknownWord { word, near } => write_unknown(f, "unknown word", word, near),
            LineFault::NoExpectation => f.write_str(
                "`expect` takes a verdict (pass, drop, admit, refuse, size or decline), refused, \
                 budget, steps, note or word",
            ),
            LineFault::UnknownExpectation { word, near } => {
                write_unknown(f, "`expect` doesn't take", word, near)
            }
            LineFault::Takes(usage) => write!(f, "it is written {usage}"),
            LineFault::Other => f.write_str("malformed"),
        }
    }
}
