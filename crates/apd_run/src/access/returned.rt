//! The end of a run: all workers come back.

ghost use Rattle.std.specs.Prelude.{◌≡◌, ◌+◌, ◌<◌, [], length, slice_index_or, vec_len, IfOk, OnOk};
ghost use Rattle.ap_books.specs.Holdings.{HasMerged, HasParts, sum_of};
ghost use Rattle.ap_books.specs.Reading.{Reads};
ghost use Rattle.ap_shards.specs.Pages.{HasPages, both_pages};
ghost use Rattle.apd_run.specs.Batches.{batches_of};
ghost use Rattle.apd_run.specs.Hands.{RunWorker, crew_of, work_of};
ghost use Rattle.apd_run.specs.Returning.{AreWritten, TookBack};
ghost use Rattle.apd_run.specs.Work.{AllTold, Work};

use crate::access::names::Names;
use crate::access::operator::LiveOperator;
use crate::access::register::Register;
use crate::access::worker::LiveWorker;
use crate::loads::Loads;
use ap_books::{Ledgers, Portions, Totals};
use ap_live::{Gate, LiveAp};
use ap_locked::Journals;
use ap_shards::AllPages;
use apd_files::Files;
use std::alloc::AllocError;
use std::sync::Wait;

/// The parts of the ledgers and the pages of the journals that came back, and the batches that were taken over.
#[derive(Drop)]
struct Returned<B: Ledgers + Journals, L: Names> {
    hoard: Box<Portions<B>>,
    pages: Box<AllPages<B>>,
    register: Register<L>,
}

/// The place of the worker with this number. Err: it isn't there, which can't happen.
fn place_of<'a, B, L, G>(
    workers: &[LiveWorker<'a, B, L, G>],
    number: usize,
) -> Result<usize, AllocError>
where
    B: Ledgers + Journals,
    L: Names,
    G: Gate + Drop,
    ensures within { IfOk result (λ at. at < length workers.now) }
    ensures there { IfOk result (λ at. (w : RunWorker)
        → (slice_index_or workers.now at w).number ≡ number) }
{
    for at in 0..workers.len() {
        let worker = &workers[at];
        if worker.receipt.number() == number {
            return Ok(at);
        }
    }
    Err(AllocError)
}

impl<B: Ledgers + Journals, L: Names> Returned<B, L> {
    /// Adds the parts and the pages of one more token.
    fn add(&mut self, hoard: Portions<B>, pages: AllPages<B>)
        ensures hoard { HasMerged self.old.hoard.value hoard self.new.hoard.value }
        ensures pages { self.new.pages.value ≡ both_pages self.old.pages.value pages }
        ensures register { self.new.register ≡ self.old.register }
    {
        self.hoard.merge(hoard);
        self.pages.merge(pages);
    }

    /// Finds that a worker knows all batches of its own, and has handled no event since the last one. Err: it doesn't, or
    /// has, neither of which can happen.
    fn compare<'a, G: Gate + Drop>(
        &mut self,
        worker: &LiveWorker<'a, B, L, G>,
    ) -> Result<(), AllocError>
        ensures same { self.new ≡ self.old }
        ensures agree { OnOk result (batches_of worker.now.number worker.now.batches
            ≡ batches_of worker.now.number self.old.register) }
        ensures empty { OnOk result (worker.now.handled ≡ []) }
    {
        self.register.compare(&worker.receipt)?;
        if !worker.handled.is_empty() {
            return Err(AllocError);
        }
        Ok(())
    }

    /// Takes back the parts and the pages of a worker, on which are the entries of its batches.
    fn keep<'a, G: Gate + Drop>(&mut self, loads: &mut Loads, worker: LiveWorker<'a, B, L, G>)
        requires list { loads.old.list ≡ L.ap.list.list }
        requires agree { batches_of worker.number worker.batches
            ≡ batches_of worker.number self.old.register }
        requires empty { worker.handled ≡ [] }
        ensures took { TookBack loads.old.loads worker.entry.number self.old.register
            self.old.hoard.value self.new.hoard.value self.old.pages.value self.new.pages.value }
        ensures register { self.new.register ≡ self.old.register }
        ensures loads { loads.new ≡ loads.old }
    {
        loads.meet(worker.ap, &worker.token);
        let LiveWorker { token, .. } = worker;
        let (shares, written) = token.into_parts();
        self.add(shares, written);
    }

    /// Takes back those of the worker with this number. Err: it isn't there, which can't happen, or as `compare`.
    fn take_back<'a, G: Gate + Drop>(
        &mut self,
        loads: &mut Loads,
        workers: &mut Vec<LiveWorker<'a, B, L, G>>,
        number: usize,
    ) -> Result<(), AllocError>
        requires list { loads.old.list ≡ L.ap.list.list }
        ensures took { OnOk result (TookBack loads.old.loads number self.old.register
            self.old.hoard.value self.new.hoard.value self.old.pages.value self.new.pages.value) }
        ensures one_less { OnOk result (vec_len workers.new + 1 ≡ vec_len workers.old) }
        ensures register { OnOk result (self.new.register ≡ self.old.register) }
        ensures loads { OnOk result (loads.new ≡ loads.old) }
    {
        let at = place_of(workers.as_slice(), number)?;
        self.compare(&workers[at])?;
        let worker = workers.swap_remove(at);
        self.keep(loads, worker);
        Ok(())
    }

    /// Takes back those of all workers. Err: as `take_back`, or there are others.
    fn take_all_back<'a, G: Gate + Drop>(
        &mut self,
        ap: &LiveAp<B>,
        loads: &mut Loads,
        workers: &mut Vec<LiveWorker<'a, B, L, G>>,
    ) -> Result<(), AllocError>
        requires list { loads.old.list ≡ L.ap.list.list }
        ensures many { OnOk result (vec_len workers.old ≡ length ap.now.queues) }
        ensures parts { OnOk result ((n : _) → HasParts n self.old.hoard.value
            → HasParts (n + length ap.now.queues) self.new.hoard.value) }
        ensures pages { OnOk result ((n : _) → HasPages n self.old.pages.value
            → HasPages (n + length ap.now.queues) self.new.pages.value) }
        ensures counted { OnOk result (sum_of self.new.hoard.value ≡ sum_of self.old.hoard.value) }
        ensures written { OnOk result ((w : Work) (all : _) → w.batches ≡ self.old.register
            → w.loads.loads ≡ loads.old.loads → AreWritten all w 0 self.old.pages.value
            → AreWritten all w (length ap.now.queues) self.new.pages.value) }
    {
        for number in 0..ap.workers() {
            self.take_back(loads, workers, number)?;
        }
        if !workers.is_empty() {
            return Err(AllocError);
        }
        Ok(())
    }
}

impl<'a, B: Ledgers + Journals, L: Names, F: Files> LiveOperator<'a, B, L, F> {
    /// Takes the rights of all workers back, and returns what has been counted. The entries of all batches together are the
    /// journals of the shards, which the totals count. Err: a journal is full, at about 2^61 entries, which no run reaches,
    /// or as `take_all_back`.
    pub(crate) fn close<R: Wait, G: Gate + Drop>(
        self,
        rt: &R,
        workers: Vec<LiveWorker<'a, B, L, G>>,
    ) -> Result<Totals, AllocError>
        requires all { vec_len workers ≡ self.workers }
        ensures reads { IfOk result
            (λ totals. Reads totals (crew_of F.held self.entry).counted) }
        ensures all_told { OnOk result (AllTold (crew_of F.held self.entry).counted
            (work_of F.held self.entry)) }
    {
        let LiveOperator {
            ap,
            token,
            hoard,
            pages,
            register,
            loads,
            ..
        } = self;
        let mut returned = Returned {
            hoard,
            pages,
            register,
        };
        let (shares, mine) = Box::into_inner(token).into_parts();
        returned.add(shares, mine);
        let mut workers = workers;
        returned.take_all_back(ap, loads, &mut workers)?;
        let Returned {
            mut hoard,
            mut pages,
            ..
        } = returned;
        ap.close(rt, &mut *hoard, &mut *pages)
    }
}
