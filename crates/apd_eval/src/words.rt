//! Verdicts in words.

ghost use Rattle.std.specs.Prelude.{◌≡◌, Some};
ghost use Rattle.apd_eval.specs.Words.{verdict_of, data_words, status_words, size_words, asked_size};
ghost use Rattle.hooks.specs.Verdicts.{agreement_size};

use crate::ruling::Ruling;
use bpf_regions::{Context, Hook};
use hooks::{DataVerdict, assoc_verdict, data_verdict};
use mac_types::Status;
use std::fmt;

/// What a verdict means to the link.
#[derive(Clone, Copy, PartialEq, Eq)]
pub(crate) enum Verdict {
    /// The station is associated.
    Admit,
    /// The association is refused with this status.
    Refuse(u16),
    /// The agreement is made, with a window of this size.
    Size(u64),
    /// The agreement is declined.
    Decline,
    /// The data passes without a mark.
    Pass,
    /// The data passes with this mark, 1 to 255.
    Mark(u8),
    /// The data is dropped.
    Discard,
}

impl fmt::Display for Verdict {
    ghost use Rattle.std.specs.Prelude.{Some};
    ghost use Rattle.apd_eval.specs.Words.{words_of};

    ghost output = { λ v. Some (words_of v) };

    fn fmt<W: fmt::Write>(&self, f: &mut fmt::Formatter<W>) -> fmt::Result {
        match self {
            Verdict::Admit => f.write_str("admit"),
            Verdict::Refuse(status) => write!(f, "refuse {status}"),
            Verdict::Size(size) => write!(f, "size {size}"),
            Verdict::Decline => f.write_str("decline"),
            Verdict::Pass => f.write_str("pass"),
            Verdict::Mark(mark) => write!(f, "pass mark {mark}"),
            Verdict::Discard => f.write_str("drop"),
        }
    }
}

fn of_status(status: Status) -> Verdict
    ensures is { result ≡ status_words status }
{
    match status.code() {
        0 => Verdict::Admit,
        code => Verdict::Refuse(code),
    }
}

fn of_data(verdict: DataVerdict) -> Verdict
    ensures is { result ≡ data_words verdict }
{
    match verdict {
        DataVerdict::Pass(0) => Verdict::Pass,
        DataVerdict::Pass(mark) => Verdict::Mark(mark),
        DataVerdict::Discard => Verdict::Discard,
    }
}

/// The size that an ADDBA request asks for, as its context says.
fn asked_size(context: &Context) -> u64
    ensures is { result ≡ asked_size context.now }
{
    let bytes = context.bytes();
    u64::from(bytes[12]) + 256 * u64::from(bytes[13])
}

/// What R0 grants to a request for this size: the least of R0, the size (0 counts as 64) and 64.
fn of_size(r0: u64, asked: u64) -> Verdict
    ensures is { result ≡ size_words (agreement_size r0 asked) }
{
    if r0 == 0 {
        return Verdict::Decline;
    }
    let wanted = if asked == 0 { 64 } else { asked };
    Verdict::Size(r0.min(wanted).min(64))
}

impl Ruling {
    /// What its verdict means to the link.
    pub(crate) fn meaning(&self) -> Verdict
        ensures is { result ≡ verdict_of self.now }
    {
        match self.hook {
            Hook::Association => of_status(assoc_verdict(self.verdict)),
            Hook::Addba => of_size(self.verdict, asked_size(&self.context)),
            Hook::Data => of_data(data_verdict(self.verdict)),
        }
    }
}
