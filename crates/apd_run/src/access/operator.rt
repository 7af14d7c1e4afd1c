//! The operator of a run.

ghost use Rattle.std.specs.Prelude.{◌≡◌, ◌<◌, [], vec_len, false, true, length, map, slice_index_or, slice_set, IfOk, IfSome, IsTrue, None, OnErr, OnOk, Some};
ghost use Rattle.ap_books.specs.Counts.{none};
ghost use Rattle.ap_books.specs.Reading.{Reads};
ghost use Rattle.ap_live.specs.Counting.{tally};
ghost use Rattle.versions.specs.Sets.{set_of};
ghost use Rattle.hook_judge.specs.Sums.{no_counts};
ghost use Rattle.apd_run.specs.InForce.{budget_shown, budgets_of, row_shown, rows_of, with_counts};
ghost use Rattle.versions.specs.Lists.{Begins};
ghost use Rattle.apd_run.specs.Hands.{claims, crew_of, tells, work_of};
ghost use Rattle.apd_run.specs.Batches.{batches_of, events_of};
ghost use Rattle.apd_run.specs.Deciding.{Accounts, TookAllOf, items_in};
ghost use Rattle.apd_run.specs.Work.{AllTold, Does, Meets};
ghost use Rattle.apd_script.specs.Asked.{Adopt, Load, Read, Store, Sum, Unload};
ghost use Rattle.apd_driver.specs.Tallies.{told_counts};
ghost use Rattle.apd_driver.specs.Crews.{Works, gains};

use crate::access::counts::counted_in;
use crate::access::names::Names;
use crate::access::program_counts::ProgramCounts;
use crate::access::register::Register;
use crate::access::reports::report_all;
use crate::access::worker::LiveWorker;
use crate::loads::{Adoption, Limits, Loads};
use ap_books::{Ledgers, Portions, Totals};
use ap_live::{Gate, LiveAp, OperatorToken, Tagged};
use ap_locked::Journals;
use ap_model::Event;
use ap_queues::{LinePasses, Unserved};
use ap_shards::AllPages;
use apd_driver::{
    AgreementRow, Operating, ProgramRow, Publication, Report, StationRow, Told, Waiting, WordUse,
};
use apd_files::{Files, path_of_word};
use apd_script::MapWord;
use bpf_regions::{Hook, Scope};
use std::alloc::{AllocError, Global};
use std::marker::{Model, PhantomData};
use std::mem;
use std::sync::Wait;

/// The sources of programs: files, and what the verifier or a check may do for each program.
#[derive(Drop)]
pub(crate) struct Sources<'a, F> {
    pub(crate) files: &'a mut F,
    pub(crate) limits: Limits,
}

/// The operator of a run: its token, the parts of the ledgers, the pages and the handles of queues that no worker has, the
/// batches that it took over, of how many loads it told each worker, with which workers nothing was left to take over or to
/// tell since then, what these parts have counted, what was counted of the programs in force, and their sources. Contracts
/// see all of it.
#[derive(Drop)]
pub struct LiveOperator<'a, B: Ledgers + Journals, L: Names, F: Files> {
    pub(crate) ap: &'a LiveAp<B>,
    pub(crate) token: Box<OperatorToken<B>>,
    pub(crate) hoard: Box<Portions<B>>,
    pub(crate) pages: Box<AllPages<B>>,
    pub(crate) parts: u64,
    pub(crate) passes: LinePasses,
    pub(crate) register: Register<L>,
    pub(crate) told: [u64; 8],
    pub(crate) settled: [bool; 8],
    pub(crate) totals: Totals,
    pub(crate) workers: u64,
    pub(crate) loads: &'a mut Loads,
    pub(crate) programs: ProgramCounts,
    pub(crate) sources: Sources<'a, F>,
    pub(crate) list: PhantomData<L>,
}

impl<'a, B: Ledgers + Journals, L: Names, F: Files> Model for LiveOperator<'a, B, L, F> {
    ghost use Rattle.apd_run.specs.Hands.{RunOperator, IsRunOperator};

    ghost Value = { RunOperator F };

    ghost use Rattle.apd_run.specs.Operators.{operator_of};

    ghost view = { λ o. operator_of B.config o };

    ghost invariant = { λ o. IsRunOperator B.shares L.ap (operator_of B.config o) };
}

impl<'a, B: Ledgers + Journals, L: Names, F: Files> LiveOperator<'a, B, L, F> {
    fn load<R: Wait>(&mut self, rt: &R, hook: Hook, path: &str) -> Told
        ensures works { Works (crew_of F.held self.old) (crew_of F.held self.new) }
        ensures does { Does (work_of F.held self.old) (work_of F.held self.new)
            (Load hook path.now) (Some result) }
        ensures nothing { told_counts result ≡ none }
    {
        self.settled = [false; 8];
        let limits = self.sources.limits;
        let files = &mut *self.sources.files;
        let told = self.loads.load(rt, files, hook, path_of_word(path), limits);
        self.programs.note(hook, &told);
        told
    }

    fn adopt<R: Wait>(&mut self, rt: &R, hook: Hook, path: &str, certificate: &str) -> Told
        ensures works { Works (crew_of F.held self.old) (crew_of F.held self.new) }
        ensures does { Does (work_of F.held self.old) (work_of F.held self.new)
            (Adopt hook path.now certificate.now) (Some result) }
        ensures nothing { told_counts result ≡ none }
    {
        self.settled = [false; 8];
        let work = self.sources.limits.work;
        let files = &mut *self.sources.files;
        let adoption = Adoption {
            code: path_of_word(path),
            certificate: path_of_word(certificate),
        };
        let told = self.loads.adopt(rt, files, hook, adoption, work);
        self.programs.note(hook, &told);
        told
    }

    fn unload<R: Wait>(&mut self, rt: &R, hook: Hook) -> Option<Told>
        ensures works { Works (crew_of F.held self.old) (crew_of F.held self.new) }
        ensures does { Does (work_of F.held self.old) (work_of F.held self.new) (Unload hook) result }
        ensures nothing { IfSome result (λ told. told_counts told ≡ none) }
    {
        self.settled = [false; 8];
        match self.loads.unload(rt, hook) {
            Ok(()) => {
                self.programs.put(hook, None);
                return None;
            }
            Err(_) => return Some(Told::Memory),
        }
    }

    /// The programs in force, each with its budget and what was counted of its runs since its load.
    fn in_force(&self, alloc: Global) -> Result<Vec<ProgramRow>, AllocError>
        ensures are { IfOk result (λ rows.
            map budget_shown rows.items ≡ budgets_of (set_of self.now.loads.loads)) }
        ensures show { IfOk result
            (λ rows. map row_shown rows.items ≡ rows_of self.now.programs) }
    {
        self.programs.rows(alloc)
    }

    /// Stores a number in a word of a shared map, if there is such a word.
    fn store(&mut self, at: MapWord, value: u64)
        ensures works { Works (crew_of F.held self.old) (crew_of F.held self.new) }
        ensures does { Does (work_of F.held self.old) (work_of F.held self.new)
            (Store at value) None }
    {
        let map = at.map as usize;
        if !self.ap.has_word(Scope::Shared, map, at.word) {
            return;
        }
        self.ap.store(&mut *self.token, map, at.word, value);
    }

    /// The number in a word of a shared map, if there is such a word.
    fn read(&mut self, at: MapWord) -> Option<Told>
        ensures works { Works (crew_of F.held self.old) (crew_of F.held self.new) }
        ensures does { Does (work_of F.held self.old) (work_of F.held self.new) (Read at) result }
        ensures nothing { IfSome result (λ told. told_counts told ≡ none) }
    {
        let map = at.map as usize;
        if !self.ap.has_word(Scope::Shared, map, at.word) {
            return None;
        }
        let value = self.ap.read(&mut *self.token, map, at.word);
        Some(Told::Word { value })
    }

    /// The sum of a word of a worker map over all workers, if there is such a word.
    fn sum(&mut self, at: MapWord) -> Option<Told>
        ensures works { Works (crew_of F.held self.old) (crew_of F.held self.new) }
        ensures does { Does (work_of F.held self.old) (work_of F.held self.new) (Sum at) result }
        ensures nothing { IfSome result (λ told. told_counts told ≡ none) }
    {
        let map = at.map as usize;
        if !self.ap.has_word(Scope::Worker, map, at.word) {
            return None;
        }
        let value = self.ap.sum(&mut *self.token, map, at.word);
        Some(Told::Word { value })
    }
}

impl<'a, B: Ledgers + Journals, L: Names, F: Files> LiveOperator<'a, B, L, F> {
    /// Meets a worker at its queue: the worker took all that the operator put there. Err: something is left, which can't
    /// happen if the worker served until it found nothing.
    fn meet_at_queue<G: Drop>(
        &mut self,
        worker: &mut LiveWorker<'a, B, L, G>,
    ) -> Result<(), AllocError>
        ensures same { crew_of F.held self.new ≡ crew_of F.held self.old }
        ensures took { OnOk result (TookAllOf (work_of F.held self.new).puts worker.new.token) }
    {
        let token = &mut *self.token;
        let is_empty = self
            .ap
            .meet_alone(&mut worker.token, token, &mut self.passes);
        if !is_empty {
            return Err(AllocError);
        }
        Ok(())
    }

    /// Meets a worker at the published loads: what it has seen of them is a prefix. Does nothing at run time.
    fn meet_at_loads<G: Drop>(&mut self, worker: &LiveWorker<'a, B, L, G>)
        ensures same { crew_of F.held self.new ≡ crew_of F.held self.old }
        ensures seen { Begins worker.now.token.seen (work_of F.held self.old).loads }
    {
        self.loads.meet(worker.ap, &worker.token);
    }

    /// Meets a worker: the operator then knows all that the worker decided, in the one history of each shard. Does nothing
    /// at run time.
    fn meet<G: Drop>(&mut self, worker: &mut LiveWorker<'a, B, L, G>)
        ensures works { Works (crew_of F.held self.old) (crew_of F.held self.new) }
        ensures meets { Meets (work_of F.held self.old) (work_of F.held self.new) worker.new.token }
        ensures same { worker.new.token
            ≡ record worker.old.token { shards = worker.new.token.shards } }
    {
        worker.token.meet_operator(&mut *self.token);
    }

    /// Takes over a worker's counts, also those of the runs of its programs, gives it fresh parts of the ledgers, and
    /// returns what became of its events, which is one more batch: of all items of its queue that are left. Err: it doesn't
    /// know all batches of its own, which can't happen.
    fn exchange<G: Drop>(
        &mut self,
        worker: &mut LiveWorker<'a, B, L, G>,
    ) -> Result<Vec<Tagged>, AllocError>
        requires took { TookAllOf (work_of F.held self.old).puts worker.old.token }
        ensures crew { IfOk result (λ handled. crew_of F.held self.new
            ≡ gains (claims (crew_of F.held self.old) (record { worker = worker.old.number; told = worker.old.told; events = handled.items }))
            (tally handled.items)) }
        ensures number { OnOk result (worker.old.number ≡ worker.old.token.number) }
        ensures accounts { IfOk result
            (λ handled. Accounts (batches_of worker.old.number (work_of F.held self.old).batches)
            worker.old.told worker.old.token handled.items) }
        ensures programs { OnOk result (self.new.programs
            ≡ with_counts self.old.programs worker.old.token.held.counts) }
        ensures anew { OnOk result (worker.new.token.held.counts ≡ no_counts) }
        ensures rest { OnOk result (worker.new.handled ≡ []) }
        ensures told { OnOk result (worker.new.told ≡ worker.old.told) }
        ensures same { OnOk result (worker.new.number ≡ worker.old.number) }
    {
        let told = worker.told;
        self.register
            .add(&mut worker.receipt, told, worker.handled.as_slice())?;
        let runs = worker.token.take_counts();
        self.programs.add(&runs);
        let handled = mem::replace(&mut worker.handled, Vec::new(worker.alloc));
        let numbers = counted_in(handled.as_slice());
        let fresh = self.hoard.split_off(1);
        let counted = worker.token.renew(fresh);
        self.hoard.merge(counted);
        self.totals = self.totals.and(numbers);
        Ok(handled)
    }

    /// Tells a worker of the loads so far. Err: it was told of another number of them than was noted, which can't happen.
    fn tell<G: Drop>(&mut self, worker: &mut LiveWorker<'a, B, L, G>) -> Result<(), AllocError>
        requires nothing { worker.old.handled ≡ [] }
        requires whole { slice_index_or (work_of F.held self.old).puts worker.old.number []
            ≡ items_in (events_of worker.old.number (work_of F.held self.old).batches) }
        ensures crew { OnOk result (crew_of F.held self.new
            ≡ tells (crew_of F.held self.old) worker.old.number) }
        ensures below { OnOk result (worker.old.number < length (work_of F.held self.old).told) }
        ensures agrees { OnOk result (slice_index_or (work_of F.held self.old).told
            worker.old.number 0 ≡ worker.old.told) }
    {
        let count = self.loads.count();
        let number = worker.receipt.number();
        note(&mut self.told, number, worker.told, count)?;
        self.settled[number] = true;
        worker.told = count;
        let news = self.loads.tell();
        worker.ap.learn(&mut worker.token, news);
        Ok(())
    }
}

/// Notes a new number for a worker. Err: another one than `old` was noted, which can't happen.
fn note(noted: &mut [u64; 8], worker: usize, old: u64, new: u64) -> Result<(), AllocError>
    ensures below { OnOk result (worker < length noted.old) }
    ensures agrees { OnOk result (slice_index_or noted.old worker 0 ≡ old) }
    ensures noted { OnOk result (noted.new ≡ slice_set noted.old worker new) }
    ensures refused { OnErr result (noted.new ≡ noted.old) }
{
    if worker >= noted.len() || noted[worker] != old {
        return Err(AllocError);
    }
    noted[worker] = new;
    Ok(())
}

/// Whether so many flags, from the first on, are set.
fn are_set(flags: &[bool; 8], count: usize) -> bool
    ensures each { IsTrue result →
        (at : _) → at < count → slice_index_or flags.now at false ≡ true }
{
    for at in 0..count {
        if at >= flags.len() || !flags[at] {
            return false;
        }
    }
    true
}

/// The part of an event that is still to be submitted.
fn waiting_for(unserved: Unserved) -> Waiting
    ensures is { result ≡ record { event = unserved.event; shard = unserved.shard } }
{
    let Unserved { event, shard } = unserved;
    Waiting { event, shard }
}

impl<'a, B: Ledgers + Journals, L: Names, F: Files, G: Gate + Drop> Operating<
    LiveWorker<'a, B, L, G>,
> for LiveOperator<'a, B, L, F> {
    ghost use Rattle.apd_run.specs.Hands.{crew_of};
    ghost use Rattle.apd_run.specs.Work.{live};

    ghost semantics = { live };

    ghost crew = { λ o. crew_of F.held o };

    fn submit<R: Wait>(&mut self, rt: &R, line: u64, event: Event) -> Result<(), Waiting> {
        self.settled = [false; 8];
        match self.ap.submit(rt, &mut *self.token, line, event) {
            Ok(()) => return Ok(()),
            Err(unserved) => return Err(waiting_for(unserved)),
        }
    }

    fn go_on<R: Wait>(&mut self, rt: &R, line: u64, waiting: Waiting) -> Result<(), Waiting> {
        let Waiting { event, shard } = waiting;
        match event {
            Event::Tick(units) => {
                if shard >= 8 {
                    // There is no such shard.
                    return Ok(());
                }
                self.settled = [false; 8];
                let event = Event::Tick(units);
                match self.ap.submit_at(rt, &mut *self.token, line, event, shard) {
                    Ok(()) => return Ok(()),
                    Err(unserved) => return Err(waiting_for(unserved)),
                }
            }
            event => {
                self.settled = [false; 8];
                match self.ap.submit(rt, &mut *self.token, line, event) {
                    Ok(()) => return Ok(()),
                    Err(unserved) => return Err(waiting_for(unserved)),
                }
            }
        }
    }

    fn publish<R: Wait>(&mut self, rt: &R, publication: Publication<'_>) -> Option<Told> {
        match publication {
            Publication::Load { hook, path } => return Some(self.load(rt, hook, path)),
            Publication::Adopt {
                hook,
                path,
                certificate,
            } => return Some(self.adopt(rt, hook, path, certificate)),
            Publication::Unload(hook) => return self.unload(rt, hook),
        }
    }

    fn use_word(&mut self, wanted: WordUse) -> Option<Told> {
        match wanted {
            WordUse::Store { word, value } => {
                self.store(word, value);
                return None;
            }
            WordUse::Read(word) => return self.read(word),
            WordUse::Sum(word) => return self.sum(word),
        }
    }

    fn stations<R: Wait>(&mut self, rt: &R, alloc: Global) -> Result<Vec<StationRow>, AllocError> {
        self.known_stations(rt, alloc)
    }

    fn agreements<R: Wait>(
        &mut self,
        rt: &R,
        alloc: Global,
    ) -> Result<Vec<AgreementRow>, AllocError> {
        self.agreements_in_force(rt, alloc)
    }

    fn programs(&self, alloc: Global) -> Result<Vec<ProgramRow>, AllocError> {
        self.in_force(alloc)
    }

    fn counted(&self) -> Totals {
        self.totals
    }

    fn settle(
        &mut self,
        worker: &mut LiveWorker<'a, B, L, G>,
        reports: &mut Vec<Report>,
    ) -> Result<(), AllocError> {
        self.meet_at_queue(worker)?;
        self.meet(worker);
        self.meet_at_loads(worker);
        let handled = self.exchange(worker)?;
        self.tell(worker)?;
        report_all(reports, handled)?;
        Ok(())
    }

    fn find_none_left(&self) -> Result<(), AllocError> {
        if are_set(&self.settled, self.ap.workers()) {
            Ok(())
        } else {
            Err(AllocError)
        }
    }

    fn gather<R: Wait>(
        self,
        rt: &R,
        workers: Vec<LiveWorker<'a, B, L, G>>,
    ) -> Result<Totals, AllocError>
        requires all { vec_len workers ≡ (crew_of F.held self).workers }
        ensures reads { IfOk result
            (λ totals. Reads totals (crew_of F.held self.entry).counted) }
        ensures all_told { OnOk result (AllTold (crew_of F.held self.entry).counted
            (crew_of F.held self.entry).work) }
    {
        self.close(rt, workers)
    }
}
