//! What the operator of a run can do.

ghost use Rattle.std.specs.Prelude.{◌≡◌, vec_len, IfOk, IfErr, IfSome, OnOk};
ghost use Rattle.ap_books.specs.Counts.{none};
ghost use Rattle.ap_books.specs.Reading.{Reads};
ghost use Rattle.apd_driver.specs.Asking.{AreAgreementsInOrder, AreStationsInOrder, AreWithinBudget};
ghost use Rattle.apd_driver.specs.Tallies.{told_counts};
ghost use Rattle.apd_driver.specs.Crews.{Collects, Crew, LooksOn, Works};
ghost use Rattle.apd_driver.specs.Following.{Concerns, PutsAll, PutsFrom, WaitsAt, first_shard, for_publication, for_use, shard_end};
ghost use Rattle.apd_driver.specs.Semantics.{Semantics};

use crate::actions::{Publication, WordUse};
use crate::{AgreementRow, ProgramRow, Report, StationRow, Told};
use ap_books::Totals;
use ap_model::Event;
use std::alloc::{AllocError, Global};
use std::sync::Wait;

/// The queue of a shard was full: the event, and the first shard whose worker didn't get it.
#[derive(Drop)]
pub struct Waiting {
    pub event: Event,
    pub shard: u16,
}

/// The operator's interface to an access point whose events such workers handle.
pub trait Operating<W> {
    // What is said of its work.
    ghost semantics: { Semantics };

    // How many workers have its rights, what those that came back have counted, and what it has done.
    ghost crew: { Self → Crew semantics };

    /// Submits an event of the line to its shard's worker; a tick, to each shard's.
    fn submit<R: Wait>(&mut self, rt: &R, line: u64, event: Event) -> Result<(), Waiting>
        ensures works { Works (crew self.old) (crew self.new) }
        ensures puts { OnOk result (PutsAll semantics line event
            (crew self.old).work (crew self.new).work) }
        ensures waits { IfErr result (WaitsAt semantics line event (first_shard event)
            (crew self.old).work (crew self.new).work) };

    /// Continues after a queue was full, at the shard at which the event waits.
    fn go_on<R: Wait>(&mut self, rt: &R, line: u64, waiting: Waiting) -> Result<(), Waiting>
        ensures works { Works (crew self.old) (crew self.new) }
        ensures puts { Concerns waiting.event waiting.shard → OnOk result
            (PutsFrom semantics line waiting.event waiting.shard (crew self.old).work
            (shard_end waiting.event) (crew self.new).work) }
        ensures waits { Concerns waiting.event waiting.shard → IfErr result
            (WaitsAt semantics line waiting.event waiting.shard
            (crew self.old).work (crew self.new).work) };

    /// Changes the program of a hook, and returns what is printed of it.
    fn publish<R: Wait>(&mut self, rt: &R, publication: Publication<'_>) -> Option<Told>
        ensures works { Works (crew self.old) (crew self.new) }
        ensures does { semantics.Does (crew self.old).work (crew self.new).work
            (for_publication publication.entry) result }
        ensures nothing { IfSome result (λ told. told_counts told ≡ none) };

    /// Uses a word of a map, and returns what is printed of it.
    fn use_word(&mut self, wanted: WordUse) -> Option<Told>
        ensures works { Works (crew self.old) (crew self.new) }
        ensures does { semantics.Does (crew self.old).work (crew self.new).work
            (for_use wanted) result }
        ensures nothing { IfSome result (λ told. told_counts told ≡ none) };

    /// The known stations, by address.
    fn stations<R: Wait>(&mut self, rt: &R, alloc: Global) -> Result<Vec<StationRow>, AllocError>
        ensures looks { LooksOn (crew self.old) (crew self.new) }
        ensures ordered { IfOk result (λ rows. AreStationsInOrder rows.items) };

    /// The agreements in force, by address and TID.
    fn agreements<R: Wait>(
        &mut self,
        rt: &R,
        alloc: Global,
    ) -> Result<Vec<AgreementRow>, AllocError>
        ensures looks { LooksOn (crew self.old) (crew self.new) }
        ensures ordered { IfOk result (λ rows. AreAgreementsInOrder rows.items) };

    /// The programs in force, in the order of their hooks' numbers, with what the workers that came back have counted of
    /// their runs.
    fn programs(&self, alloc: Global) -> Result<Vec<ProgramRow>, AllocError>
        ensures within { IfOk result (λ rows. AreWithinBudget rows.items) };

    /// What the workers that came back have counted.
    fn counted(&self) -> Totals
        ensures reads { Reads result (crew self.now).counted };

    /// Takes over what a worker has counted, and appends the reports on its events, in their order. It tells the worker of
    /// the loads so far. Err: an allocation failed for the reports, or the worker left something in its queue, which can't
    /// happen if it served until it found nothing.
    fn settle(&mut self, worker: &mut W, reports: &mut Vec<Report>) -> Result<(), AllocError>
        ensures collects { OnOk result (Collects (crew self.old) (crew self.new)
            reports.old.items reports.new.items) };

    /// Finds that nothing is left for a worker to report, or to be told. Err: something is, which can't happen if each
    /// worker was settled after the last line was followed.
    fn find_none_left(&self) -> Result<(), AllocError>
        ensures none_left { OnOk result (semantics.NoneLeft (crew self.now).work) };

    /// Takes the rights of all workers back, and returns what has been counted. What was taken over is then all that was
    /// decided. Err: a shard has decided about 2^61 events, which no run reaches, or they aren't all workers, each settled after
    /// it served, which can't happen.
    fn gather<R: Wait>(self, rt: &R, workers: Vec<W>) -> Result<Totals, AllocError>
        requires all { vec_len workers ≡ (crew self).workers }
        ensures reads { IfOk result (λ totals. Reads totals (crew self).counted) }
        ensures all_told { OnOk result (semantics.AllTold (crew self).counted (crew self).work) };
}
