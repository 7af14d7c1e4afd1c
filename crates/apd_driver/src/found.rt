//! What printed lines say, as far as the run's status or end depends on it.

ghost use Rattle.std.specs.Prelude.{◌≡◌, false, ◌||◌};
ghost use Rattle.apd_driver.specs.Shows.{is_refusal, any_refusal, is_malformed, any_malformed, any_fault, is_over};

use crate::{Report, Told};

/// What printed lines say.
#[derive(Clone, Copy)]
pub struct Found {
    /// One of them says `memory`.
    pub memory: bool,
    /// One of them says that a line is malformed or, in a strict run, that a program or a file of one was refused.
    pub refused: bool,
}

impl Found {
    /// No line was printed.
    pub(crate) fn nothing() -> Found
        ensures memory { result.memory ≡ false }
        ensures refused { result.refused ≡ false }
    {
        Found {
            memory: false,
            refused: false,
        }
    }

    /// These lines and others.
    pub(crate) fn and(self, more: Found) -> Found
        ensures memory { result.memory ≡ (self.memory || more.memory) }
        ensures refused { result.refused ≡ (self.refused || more.refused) }
    {
        Found {
            memory: self.memory || more.memory,
            refused: self.refused || more.refused,
        }
    }
}

/// Whether a run ends after lines of which one was at fault.
pub(crate) fn is_over(strict: bool, refused: bool) -> bool
    ensures is { result ≡ is_over strict refused }
{
    strict && refused
}

/// Whether a report says that a program, or a file of one, was refused.
fn is_refusal(told: &Told) -> bool
    ensures is { result ≡ is_refusal told.now }
{
    matches!(
        told,
        Told::Fault(_) | Told::Refused { .. } | Told::Certificate { .. } | Told::Unreadable(_)
    )
}

fn any_refusal(reports: &[Report]) -> bool
    ensures is { result ≡ any_refusal reports.now }
{
    reports.iter().any(|report| is_refusal(&report.told))
}

fn is_malformed(told: &Told) -> bool
    ensures is { result ≡ is_malformed told.now }
{
    matches!(told, Told::Malformed { .. })
}

fn any_malformed(reports: &[Report]) -> bool
    ensures is { result ≡ any_malformed reports.now }
{
    reports.iter().any(|report| is_malformed(&report.told))
}

/// Whether one of the reports says that a line is malformed or, in a strict run, that a program or a file of one was
/// refused.
pub(crate) fn any_fault(strict: bool, reports: &[Report]) -> bool
    ensures is { result ≡ any_fault strict reports.now }
{
    if any_malformed(reports) {
        return true;
    }
    strict && any_refusal(reports)
}
