//! What is printed for files of cases, one after another.

ghost use Rattle.std.specs.Prelude.{◌≡◌, ◌∷◌, ◌++◌, [], List, IfOk, OnOk, string_bytes};
ghost use Rattle.apd_trials.specs.Reports.{Trial, IsReport, report_text, are_good};

use crate::row::{Row, Tally, count_rows};
use crate::texts::append_rows;
use std::alloc::{AllocError, Global};
use std::fmt::Write;

/// The lines of the rows of some files, how many of these are `ok` and how many aren't, and whether each file is good.
#[derive(Drop)]
pub struct Report {
    text: String,
    tally: Tally,
    is_good: bool,
}

impl Report {
    /// The report on no file.
    pub fn new(alloc: Global) -> Self
        ensures empty { IsReport result [] }
    {
        Report {
            text: String::new(alloc),
            tally: Tally {
                passed: 0,
                failed: 0,
            },
            is_good: true,
        }
    }

    /// Adds the rows of the file with this name.
    pub fn add(&mut self, name: &str, rows: &[Row]) -> Result<(), AllocError>
        ensures added { (trials : List Trial) → IsReport self.old trials
            → OnOk result (IsReport self.new
            (trials ++ (record { name = name.now; rows = rows.now }) ∷ [])) }
    {
        append_rows(&mut self.text, name, rows)?;
        let tally = count_rows(rows);
        let Some(sum) = self.tally.plus(tally) else {
            return Err(AllocError);
        };
        self.tally = sum;
        self.is_good = self.is_good && tally.is_good();
        Ok(())
    }

    /// Whether each file has an expectation, and all are met.
    pub fn is_good(&self) -> bool
        ensures is { (trials : List Trial) → IsReport self.now trials → result ≡ are_good trials }
    {
        self.is_good
    }

    /// All that is printed: a line for each row, and one that says how many are `ok` and how many aren't.
    pub fn into_text(self) -> Result<String, AllocError>
        ensures is { (trials : List Trial) → IsReport self trials
            → IfOk result (λ text. string_bytes text ≡ report_text trials) }
    {
        let Report {
            mut text,
            tally,
            ..
        } = self;
        let passed = tally.passed;
        let failed = tally.failed;
        writeln!(text, "{passed} passed, {failed} failed")?;
        Ok(text)
    }
}
