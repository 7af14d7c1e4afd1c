//! How many rows there are, and how they were judged.

ghost use Rattle.std.specs.Prelude.{◌≤◌};

use crate::row::{Row, TakesRows};
use crate::words::Verdict;
use bpf_regions::Frame;
use std::alloc::AllocError;

impl Row {
    ghost use Rattle.std.specs.Prelude.{◌≡◌};
    ghost use Rattle.apd_eval.specs.Sums.{grants, marks};

    /// Whether the verdict grants what is asked for.
    fn grants(&self) -> bool
        ensures is { result ≡ grants self.now }
    {
        !matches!(
            self.ruling.meaning(),
            Verdict::Refuse(_) | Verdict::Decline | Verdict::Discard
        )
    }

    /// Whether the verdict has a mark.
    fn marks(&self) -> bool
        ensures is { result ≡ marks self.now }
    {
        matches!(self.ruling.meaning(), Verdict::Mark(_))
    }
}

/// How many rows there are, how many of them grant, refuse and have a mark, and the most steps of one.
#[derive(Clone, Copy)]
pub(crate) struct Tally {
    pub rows: usize,
    pub granted: usize,
    pub refused: usize,
    pub marked: usize,
    pub most: u32,
    pub ghost granted_few: { granted ≤ rows },
    pub ghost refused_few: { refused ≤ rows },
    pub ghost marked_few: { marked ≤ rows },
}

impl Tally {
    ghost use Rattle.std.specs.Prelude.{◌≡◌, ◌≤◌, ◌+◌, ◌<◌, ◌^◌, if◌then◌else◌};
    ghost use Rattle.apd_eval.specs.Sums.{no_rows, totals_in, with_row};

    /// Of no rows.
    pub(crate) fn none() -> Tally
        ensures is { totals_in result ≡ no_rows }
    {
        Tally {
            rows: 0,
            granted: 0,
            refused: 0,
            marked: 0,
            most: 0,
        }
    }

    /// 1 if a test holds, otherwise 0.
    fn one_if(test: bool) -> usize
        ensures is { result ≡ (if test then 1 else 0) }
        ensures few { result ≤ 1 }
    {
        if test { 1 } else { 0 }
    }

    /// The same with one more row.
    pub(crate) fn with(self, row: &Row) -> Tally
        requires room { self.rows + 1 < 2 ^ 64 }
        ensures is { totals_in result ≡ with_row (totals_in self) row.now }
    {
        let grants = row.grants();
        let marks = row.marks();
        Tally {
            rows: self.rows + 1,
            granted: self.granted + Tally::one_if(grants),
            refused: self.refused + Tally::one_if(!grants),
            marked: self.marked + Tally::one_if(marks),
            most: row.ruling.steps.max(self.most),
        }
    }
}

impl<'a> TakesRows<'a> for Tally {
    ghost use Rattle.std.specs.Prelude.{◌≡◌};
    ghost use Rattle.apd_eval.specs.Sums.{totals_in, with_row};

    ghost taken = { λ t. t.rows };

    ghost takes = { λ s row frame t. totals_in t ≡ with_row (totals_in s) row };

    fn take(&mut self, row: &Row, _frame: &Frame<'a>) -> Result<(), AllocError> {
        *self = self.with(row);
        Ok(())
    }
}
