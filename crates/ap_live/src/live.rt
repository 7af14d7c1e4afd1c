//! What the threads of an access point share.

ghost use Rattle.std.specs.Prelude.{◌≡◌, length, IfOk, OnOk};
ghost use Rattle.ap_books.specs.Holdings.{HasParts, sum_of};
ghost use Rattle.ap_books.specs.Reading.{Reads};
ghost use Rattle.ap_shards.specs.Pages.{AreTheJournals, HasPages};
ghost use Rattle.ap_shards.specs.Tokens.{CountJournals};
ghost use Rattle.versions.specs.Lists.{Begins};
ghost use Rattle.ap_live.specs.Tokens.{IsWorker};

use crate::tokens::WorkerToken;
use ap_books::{Ledgers, Portions, Totals};
use ap_locked::Journals;
use ap_model::LinkConfig;
use ap_queues::EventLines;
use ap_shards::{AllPages, Shards};
use ap_tables::ApTables;
use bpf_regions::Shapes;
use core::mem::replace_with;
use std::alloc::AllocError;
use std::marker::Model;
use std::sync::Wait;
use versions::{Entrance, News, Publisher};

/// What an access point is made from: its link, the shapes of its maps, the first word that each
/// worker draws, and the number of workers, from 1 to 8.
#[derive(Drop)]
pub struct Settings {
    pub link: LinkConfig,
    pub shapes: Shapes,
    pub draw: u64,
    pub workers: u32,
}

/// An access point. Threads share it by reference.
#[derive(Drop)]
pub struct LiveAp<B: Ledgers + Journals> {
    pub(crate) shards: Box<Shards<B>>,
    pub(crate) lines: EventLines,
    pub(crate) tables: ApTables,
    pub(crate) entrance: Entrance,
    pub(crate) draw: u64,
}

impl<B: Ledgers + Journals> Model for LiveAp<B> {
    ghost use Rattle.ap_live.specs.Lives.{Live, IsLive};

    ghost Value = { Live };

    ghost view = { λ a. record { queues = a.lines; stock = a.tables; list = a.entrance; draw = a.draw } };

    ghost invariant = { λ a. IsLive (record { queues = a.lines; stock = a.tables; list = a.entrance; draw = a.draw }) };
}

impl<B: Ledgers + Journals> LiveAp<B> {
    /// How many workers there are, each with a queue of its own.
    pub fn workers(&self) -> usize
        ensures is { result ≡ length self.now.queues }
    {
        self.lines.workers()
    }

    /// Given all parts of all ledgers: the sum of the books, which is what all shares have counted, mod
    /// 2^64, and what the entries of the shards' journals count.
    pub fn gather<R: Wait>(&self, rt: &R, all: &mut Portions<B>) -> Totals
        requires { HasParts B.shares all.old }
        ensures same { all.new ≡ all.old }
        ensures sum { Reads result (sum_of all.old) }
        ensures journals { CountJournals B.config all.old }
    {
        self.shards.gather(rt, all)
    }

    /// Given all parts of all ledgers, and the pages of all tokens: the sum of the books, as `gather`. The
    /// entries of all tokens together are the shards' journals, each at its own place, and the totals
    /// are the counts of those entries. Fails only if a journal is full, at about 2^61 entries, which no
    /// run reaches.
    pub fn close<R: Wait>(
        &self,
        rt: &R,
        all: &mut Portions<B>,
        pages: &mut AllPages<B>,
    ) -> Result<Totals, AllocError>
        requires parts { HasParts B.shares all.old }
        requires pages { HasPages B.shares pages.old }
        ensures same { all.new ≡ all.old }
        ensures same_pages { pages.new ≡ pages.old }
        ensures sum { IfOk result (λ totals. Reads totals (sum_of all.old)) }
        ensures entries { OnOk result (AreTheJournals B.config all.old pages.old) }
    {
        self.shards.close(rt, all, pages)
    }

    /// From this call on, the worker enters only sets that include the loads in `news`.
    pub fn learn(&self, worker: &mut WorkerToken<B>, news: News)
        requires own { IsWorker self.now worker.old }
        requires news { news.list ≡ self.now.list.list }
        ensures own { IsWorker self.now worker.new }
        ensures seen { Begins worker.old.seen worker.new.seen }
        ensures told { Begins news worker.new.seen }
        ensures same { worker.new ≡ record worker.old { seen = worker.new.seen } }
    {
        replace_with(worker, (self, news), |worker, (ap, news)| {
            (ap.learned(worker, news), ())
        })
    }

    /// Brings a worker and the publisher together: what the worker has seen of the published loads, or was
    /// told of, is a prefix of them. Does nothing at run time.
    pub fn meet_publisher(&self, worker: &WorkerToken<B>, publisher: &mut Publisher)
        requires own { IsWorker self.now worker.now }
        requires publisher { publisher.old.list ≡ self.now.list.list }
        ensures same { publisher.new ≡ publisher.old }
        ensures seen { Begins worker.now.seen publisher.old }
    {
        let _own = &self.entrance;
        publisher.beginning_law(&worker.reader);
    }

    /// The worker, whose reader has learned `news`.
    fn learned(&self, worker: WorkerToken<B>, news: News) -> WorkerToken<B>
        requires own { IsWorker self.now worker }
        requires news { news.list ≡ self.now.list.list }
        ensures own { IsWorker self.now result }
        ensures seen { Begins worker.seen result.seen }
        ensures told { Begins news result.seen }
        ensures same { result ≡ record worker { seen = result.seen } }
    {
        let WorkerToken {
            number,
            pass,
            reader,
            state,
            shards,
        } = worker;
        let reader = self.entrance.learn(reader, news);
        WorkerToken {
            number,
            pass,
            reader,
            state,
            shards,
        }
    }
}
