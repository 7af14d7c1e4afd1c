//! Following a file of cases, line by line.

ghost use Rattle.std.specs.Prelude.{◌≡◌, ◌∷◌, ◌++◌, [], ℕ, List, None, IsSome, IfSome, IfOk, IfErr, OnOk};
ghost use Rattle.apd_files.specs.Held.{Held};
ghost use Rattle.apd_trials.specs.Blamed.{IsBlamedIn};
ghost use Rattle.apd_trials.specs.Rows.{IsRow, Leads, AreRows};
ghost use Rattle.apd_trials.specs.Running.{stands, IsBench};
ghost use Rattle.apd_cases.specs.Said.{Said, said_of, numbered_of, lines_said};
ghost use Rattle.apd_cases.specs.Situations.{start, after};
ghost use Rattle.apd_trials.specs.Trials.{Finds};

use crate::admission::{Admission, judge_policy};
use crate::blame::blamed_line;
use crate::fault::{CaseFault, Trouble};
use crate::found::Found;
use crate::row::Row;
use crate::trial::find;
use apd_cases::{Expectation, Line, Numbered, Situation};
use apd_files::Files;
use std::alloc::{AllocError, Global};

/// A situation, and what the verifier says of its policy once that was asked.
#[derive(Drop)]
pub struct Bench<'a> {
    situation: Situation<'a>,
    admission: Option<Admission>,
}

impl<'a> Bench<'a> {
    /// Before the first line.
    fn start(alloc: Global) -> Self
        ensures start { stands result ≡ start }
        ensures unasked { result.admission ≡ None }
    {
        Bench {
            situation: Situation::start(alloc),
            admission: None,
        }
    }

    /// Follows a line. What the verifier said is forgotten if the line names another policy or configuration.
    fn follow(&mut self, line: Line<'a>) -> Result<(), AllocError>
        ensures after { OnOk result (stands self.new ≡ after (stands self.old) (said_of line.entry)) }
        ensures fits { (files : Held) → IsBench files self.old → OnOk result (IsBench files self.new) }
    {
        if matches!(line, Line::Policy { .. } | Line::Config(_)) {
            self.admission = None;
        }
        self.situation.follow(line)
    }

    /// Asks the verifier for the policy, unless it was asked before.
    fn judge<F: Files>(&mut self, alloc: Global, files: &mut F) -> Result<(), Trouble>
        ensures same { OnOk result (stands self.new ≡ stands self.old) }
        ensures asked { OnOk result (IsSome self.new.admission) }
        ensures fits { IsBench (F.held files.old) self.old
            → OnOk result (IsBench (F.held files.old) self.new) }
        ensures files { F.held files.new ≡ F.held files.old }
    {
        if self.admission.is_some() {
            return Ok(());
        }
        let Some(policy) = self.situation.policy else {
            return Err(Trouble::NoPolicy);
        };
        let admission = judge_policy(alloc, policy, self.situation.config, files)?;
        self.admission = Some(admission);
        Ok(())
    }

    /// What is found for an expectation, of the policy that was judged.
    fn found(&self, alloc: Global, expectation: Expectation) -> Result<Found, Trouble>
        ensures found { IfOk result (λ found. IfSome self.now.admission
            (λ admission. Finds (stands self.now) admission expectation found)) }
    {
        match &self.admission {
            Some(admission) => find(alloc, admission, &self.situation, expectation),
            None => Err(Trouble::NoPolicy),
        }
    }

    /// What becomes of the expectation in the line with this number.
    fn row<F: Files>(
        &mut self,
        alloc: Global,
        number: u64,
        expectation: Expectation,
        files: &mut F,
    ) -> Result<Row, Trouble>
        ensures row { IsBench (F.held files.old) self.old
            → IfOk result (IsRow (F.held files.old) (stands self.old) number expectation) }
        ensures same { OnOk result (stands self.new ≡ stands self.old) }
        ensures fits { IsBench (F.held files.old) self.old
            → OnOk result (IsBench (F.held files.old) self.new) }
        ensures files { F.held files.new ≡ F.held files.old }
    {
        self.judge(alloc, files)?;
        let found = self.found(alloc, expectation)?;
        Ok(Row {
            line: number,
            expectation,
            found,
        })
    }

    /// Follows a line, or judges its expectation.
    fn step<F: Files>(
        &mut self,
        alloc: Global,
        numbered: Numbered<'a>,
        rows: &mut Vec<Row>,
        files: &mut F,
    ) -> Result<(), Trouble>
        ensures leads { (lines : List (ℕ × Said)) → IsBench (F.held files.old) self.old
            → Leads (F.held files.old) lines (stands self.old) rows.old.items
            → OnOk result (Leads (F.held files.old) (lines ++ numbered_of numbered.entry ∷ [])
            (stands self.new) rows.new.items) }
        ensures fits { IsBench (F.held files.old) self.old
            → OnOk result (IsBench (F.held files.old) self.new) }
        ensures files { F.held files.new ≡ F.held files.old }
    {
        match numbered.line {
            Line::Expect(expectation) => {
                let row = self.row(alloc, numbered.number, expectation, files)?;
                rows.push(row)?;
                return Ok(());
            }
            line => {
                self.follow(line)?;
                return Ok(());
            }
        }
    }
}

/// Follows the lines, and judges each expectation: a row for each, in order. The files of policies and configurations
/// are read when an expectation needs them. A fault is at the line that is to blame.
pub fn run_cases<F: Files>(
    alloc: Global,
    lines: &[Numbered<'_>],
    files: &mut F,
) -> Result<Vec<Row>, CaseFault>
    ensures rows { IfOk result
        (λ rows. AreRows (F.held files.old) (lines_said lines.entry.now) rows.items) }
    ensures blamed { IfErr result (IsBlamedIn (lines_said lines.entry.now)) }
    ensures files { F.held files.new ≡ F.held files.old }
{
    let mut bench = Bench::start(alloc);
    let mut rows = Vec::new(alloc);
    for numbered in lines {
        if let Err(trouble) = bench.step(alloc, *numbered, &mut rows, files) {
            let line = blamed_line(lines, numbered.number, &trouble);
            return Err(CaseFault { line, trouble });
        }
    }
    Ok(rows)
}
