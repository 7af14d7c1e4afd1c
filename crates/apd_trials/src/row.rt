//! What becomes of an expectation.

ghost use Rattle.std.specs.Prelude.{◌≡◌, IfSome};
ghost use Rattle.apd_trials.specs.Rows.{is_ok, passed, failed, is_good_tally, sum_of};

use crate::found::{Found, is_met};
use apd_cases::Expectation;

/// What becomes of the expectation in a line.
#[derive(Drop)]
pub struct Row {
    /// The line's number, counted from 1.
    pub line: u64,
    pub expectation: Expectation,
    /// What was found for it.
    pub found: Found,
}

impl Row {
    /// Whether the expectation is met.
    pub fn is_ok(&self) -> bool
        ensures is { result ≡ is_ok self.now }
    {
        is_met(self.expectation, &self.found)
    }
}

/// How many expectations are met, and how many aren't.
#[derive(Clone, Copy, Debug, PartialEq, Eq)]
pub struct Tally {
    pub passed: usize,
    pub failed: usize,
}

impl Tally {
    /// Whether there is an expectation, and all are met.
    pub fn is_good(self) -> bool
        ensures is { result ≡ is_good_tally self }
    {
        self.passed > 0 && self.failed == 0
    }

    /// The sums with other counts; `None` if one is too large.
    pub(crate) fn plus(self, other: Tally) -> Option<Tally>
        ensures is { IfSome result (λ sum. sum ≡ sum_of self other) }
    {
        let passed = self.passed.checked_add(other.passed)?;
        let failed = self.failed.checked_add(other.failed)?;
        Some(Tally { passed, failed })
    }
}

/// Counts the expectations that are met, and those that aren't.
pub fn count_rows(rows: &[Row]) -> Tally
    ensures passed { result.passed ≡ passed rows.now }
    ensures failed { result.failed ≡ failed rows.now }
{
    let mut tally = Tally {
        passed: 0,
        failed: 0,
    };
    for row in rows {
        if row.is_ok() {
            tally.passed += 1;
        } else {
            tally.failed += 1;
        }
    }
    tally
}
