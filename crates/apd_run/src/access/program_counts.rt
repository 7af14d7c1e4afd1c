//! What was counted of the runs of the programs in force.

ghost use Rattle.std.specs.Prelude.{◌≡◌, ◌++◌, map, IfOk, OnOk};
ghost use Rattle.apd_run.specs.InForce.{none_since, noted, nothing, put_program, row_if, row_of, row_shown, rows_of, with_counts, with_more};

use apd_driver::{ProgramRow, Told};
use bpf_regions::Hook;
use hook_judge::{HookCounts, RunCounts};
use std::alloc::{AllocError, Global};
use versions::LoadNumbers;

/// What the workers that came back have counted of the runs of each hook's program since its load, if the hook has a
/// program; and the number of each hook's last load.
#[derive(Drop)]
pub struct ProgramCounts {
    pub association: Option<RunCounts>,
    pub addba: Option<RunCounts>,
    pub frames: Option<RunCounts>,
    pub numbers: LoadNumbers,
}

/// No run of a new program, which the load with this number put in force, if it is there.
fn none_since(load: u64, budget: Option<u32>) -> Option<RunCounts>
    ensures is { result ≡ none_since load budget }
{
    match budget {
        Some(budget) => Some(RunCounts::none(load, budget)),
        None => None,
    }
}

/// Adds what a worker counted, if it counted runs of the same load.
fn add_to(counts: &mut Option<RunCounts>, more: &RunCounts)
    ensures sum { counts.new ≡ with_more counts.old more.now }
{
    if let Some(counts) = counts {
        counts.add(more);
    }
}

/// The row of a hook's program.
fn row_of(alloc: Global, hook: Hook, counts: &RunCounts) -> Result<ProgramRow, AllocError>
    ensures shows { IfOk result (λ row. row_shown row ≡ row_of hook counts.now) }
{
    let figures = counts.figures();
    let says = Vec::from_slice(alloc, counts.notes())?;
    Ok(ProgramRow {
        hook,
        budget: figures.budget,
        runs: figures.runs,
        most: figures.most,
        steps: figures.steps,
        granted: figures.granted,
        denied: figures.denied,
        says,
    })
}

/// Appends the row of a hook's program, if the hook has one.
fn add_row(
    rows: &mut Vec<ProgramRow>,
    alloc: Global,
    hook: Hook,
    counts: &Option<RunCounts>,
) -> Result<(), AllocError>
    ensures added { OnOk result
        (map row_shown rows.new.items ≡ map row_shown rows.old.items ++ row_if hook counts.now) }
{
    if let Some(counts) = counts {
        rows.push(row_of(alloc, hook, counts)?)?;
    }
    Ok(())
}

impl ProgramCounts {
    /// No hook has a program, or had a load.
    pub fn none() -> ProgramCounts
        ensures none { result ≡ nothing }
    {
        ProgramCounts {
            association: None,
            addba: None,
            frames: None,
            numbers: LoadNumbers::none(),
        }
    }

    /// One more load for the hook put a program with this budget in force, or removed the hook's program. No run of it was
    /// counted.
    pub fn put(&mut self, hook: Hook, budget: Option<u32>)
        ensures is { self.new ≡ put_program hook budget self.old }
    {
        self.numbers = self.numbers.next(hook);
        let load = self.numbers.at(hook);
        let counts = none_since(load, budget);
        match hook {
            Hook::Association => self.association = counts,
            Hook::Addba => self.addba = counts,
            Hook::Data => self.frames = counts,
        }
    }

    /// A load for the hook, or an adoption, was reported so.
    pub fn note(&mut self, hook: Hook, told: &Told)
        ensures is { self.new ≡ noted hook told.now self.old }
    {
        if let Told::Loaded { budget, .. } = told {
            self.put(hook, Some(*budget));
        }
    }

    /// Adds what a worker counted of runs of the programs in force.
    pub fn add(&mut self, more: &HookCounts)
        ensures sums { self.new ≡ with_counts self.old more.now }
    {
        add_to(&mut self.association, &more.association);
        add_to(&mut self.addba, &more.addba);
        add_to(&mut self.frames, &more.frames);
    }

    /// A row for each hook that has a program, in the order of the hooks' numbers.
    pub fn rows(&self, alloc: Global) -> Result<Vec<ProgramRow>, AllocError>
        ensures show { IfOk result (λ rows. map row_shown rows.items ≡ rows_of self.now) }
    {
        let mut rows = Vec::new(alloc);
        add_row(&mut rows, alloc, Hook::Association, &self.association)?;
        add_row(&mut rows, alloc, Hook::Addba, &self.addba)?;
        add_row(&mut rows, alloc, Hook::Data, &self.frames)?;
        Ok(rows)
    }
}
