//! Verdicts and expectations as a case spells them.

ghost use Rattle.std.specs.Prelude.{Some};
ghost use Rattle.apd_cases.specs.Spelling.{verdict_text, expectation_text};

use crate::line::{Expectation, Verdict};
use std::fmt;

impl fmt::Display for Verdict {
    ghost output = { λ verdict. Some (verdict_text verdict) };

    fn fmt<W: fmt::Write>(&self, f: &mut fmt::Formatter<W>) -> fmt::Result {
        match *self {
            Verdict::Admit => f.write_str("admit"),
            Verdict::Refuse(status) => write!(f, "refuse {status}"),
            Verdict::Size(size) => write!(f, "size {size}"),
            Verdict::Decline => f.write_str("decline"),
            Verdict::Pass(0) => f.write_str("pass"),
            Verdict::Pass(mark) => write!(f, "pass mark {mark}"),
            Verdict::Discard => f.write_str("drop"),
        }
    }
}

impl fmt::Display for Expectation {
    ghost output = { λ expectation. Some (expectation_text expectation) };

    fn fmt<W: fmt::Write>(&self, f: &mut fmt::Formatter<W>) -> fmt::Result {
        match *self {
            Expectation::Verdict(verdict) => write!(f, "{verdict}"),
            Expectation::Refused(number) => write!(f, "refused {number}"),
            Expectation::Budget(most) => write!(f, "budget <= {most}"),
            Expectation::Steps(most) => write!(f, "steps <= {most}"),
            Expectation::Note(note) => write!(f, "note {note}"),
            Expectation::Word { place, value } => write!(
                f,
                "word {} {} {} {value}",
                place.map, place.entry, place.word
            ),
        }
    }
}
