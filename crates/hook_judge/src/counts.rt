//! What is counted of the runs of one program.

ghost use Rattle.std.specs.Prelude.{◌≡◌, ◌≤◌, ◌++◌, length};
ghost use Rattle.hook_judge.specs.Counts.{denies, for_load, newest, no_runs, sum_of, with_all, with_run};
ghost use Rattle.hook_judge.specs.Made.{AreFigures, made_of};

use crate::run::{Figures, ProgramRun};
use arrayvec::ArrayVec;
use bpf_regions::Hook;
use hooks::{DataVerdict, data_verdict};
use std::marker::Model;

/// What was counted of the runs of one program, since the load that put it in force; and the newest 16 of the notes that
/// these runs reported. Runs of another load begin it anew.
#[derive(Drop)]
pub struct RunCounts {
    load: u64,
    budget: u32,
    runs: u64,
    most: u32,
    steps: u64,
    granted: u64,
    denied: u64,
    notes: ArrayVec<u64, 16>,
}

impl Model for RunCounts {
    ghost use Rattle.std.specs.Prelude.{◌≤◌};
    ghost use Rattle.hook_judge.specs.Counts.{Counts};

    ghost Value = { Counts };

    ghost view = { λ c. record {
      load = c.load;
      budget = c.budget;
      runs = c.runs;
      most = c.most;
      steps = c.steps;
      granted = c.granted;
      denied = c.denied;
      notes = c.notes.items;
    } };

    ghost invariant = { λ c. c.most ≤ c.budget };
}

/// Whether a verdict refuses an association, declines an agreement, or drops data.
fn denies(hook: Hook, verdict: u64) -> bool
    ensures is { result ≡ denies hook verdict }
{
    match hook {
        Hook::Association => verdict != 0,
        Hook::Addba => verdict == 0,
        Hook::Data => matches!(data_verdict(verdict), DataVerdict::Discard),
    }
}

/// The last 16 of both lists.
fn newest(notes: &[u64], later: &[u64]) -> ArrayVec<u64, 16>
    requires some { length notes.now ≤ 16 }
    requires few { length later.now ≤ 16 }
    ensures are { result.items ≡ newest (notes.now ++ later.now) }
{
    let surplus = (notes.len() + later.len()).saturating_sub(16);
    let mut newest = ArrayVec::new();
    let _all_fit = newest.try_extend_from_slice(&notes[surplus..]);
    let _all_fit = newest.try_extend_from_slice(later);
    newest
}

/// Appends notes, and gives up the oldest of more than 16.
fn add_notes(notes: &mut ArrayVec<u64, 16>, later: &ArrayVec<u64, 16>)
    ensures are { notes.new.items ≡ newest (notes.old.items ++ later.now.items) }
{
    // Proofs have from it that at most 16 are there.
    let _before = notes.as_slice();
    if later.is_empty() {
        return;
    }
    *notes = newest(notes.as_slice(), later.as_slice());
}

impl RunCounts {
    /// Nothing was counted of the program with this budget that a load with this number put in force.
    pub fn none(load: u64, budget: u32) -> RunCounts
        ensures none { result ≡ no_runs load budget }
    {
        RunCounts {
            load,
            budget,
            runs: 0,
            most: 0,
            steps: 0,
            granted: 0,
            denied: 0,
            notes: ArrayVec::new(),
        }
    }

    /// Counts a run of a program of this hook. If its load is another one, it begins anew.
    pub fn count(&mut self, hook: Hook, run: ProgramRun<'_>)
        ensures is { self.new ≡ with_run hook (made_of run.entry)
            (for_load run.entry.load run.entry.budget self.old) }
    {
        self.count_for(run.load, run.budget);
        self.add_run(hook, run);
    }

    /// Counts the runs of that load from here on, anew if they are others.
    fn count_for(&mut self, load: u64, budget: u32)
        ensures is { self.new ≡ for_load load budget self.old }
        ensures budget { self.new.budget ≡ budget }
    {
        if self.load == load && self.budget == budget {
            return;
        }
        *self = RunCounts::none(load, budget);
    }

    /// Counts a run of the same load.
    fn add_run(&mut self, hook: Hook, run: ProgramRun<'_>)
        requires budget { run.budget ≡ self.old.budget }
        ensures is { self.new ≡ with_run hook (made_of run.entry) self.old }
    {
        let denied = denies(hook, run.verdict);
        self.runs = self.runs.wrapping_add(1);
        self.most = self.most.max(run.steps);
        self.steps = self.steps.wrapping_add(u64::from(run.steps));
        self.granted = self.granted.wrapping_add(u64::from(!denied));
        self.denied = self.denied.wrapping_add(u64::from(denied));
        add_notes(&mut self.notes, run.notes);
    }

    /// Adds what another counted, if it counted runs of the same load.
    pub fn add(&mut self, other: &RunCounts)
        ensures sum { self.new ≡ sum_of self.old other.now }
    {
        if other.load == self.load && other.budget == self.budget {
            self.add_all(other);
        }
    }

    /// Adds what another counted of the same load's runs.
    fn add_all(&mut self, other: &RunCounts)
        requires budget { other.now.budget ≡ self.old.budget }
        ensures all { self.new ≡ with_all self.old other.now }
    {
        self.runs = self.runs.wrapping_add(other.runs);
        self.most = self.most.max(other.most);
        self.steps = self.steps.wrapping_add(other.steps);
        self.granted = self.granted.wrapping_add(other.granted);
        self.denied = self.denied.wrapping_add(other.denied);
        add_notes(&mut self.notes, &other.notes);
    }

    /// The numbers.
    pub fn figures(&self) -> Figures
        ensures are { AreFigures self.now result }
    {
        Figures {
            budget: self.budget,
            runs: self.runs,
            most: self.most,
            steps: self.steps,
            granted: self.granted,
            denied: self.denied,
        }
    }

    /// The newest 16 notes, the oldest first.
    pub fn notes(&self) -> &[u64]
        ensures are { result.now ≡ self.now.notes }
    {
        self.notes.as_slice()
    }
}
