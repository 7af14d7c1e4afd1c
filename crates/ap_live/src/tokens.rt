//! The tokens of an access point's users.

use ap_books::{Ledgers, Portions};
use ap_locked::Journals;
use ap_queues::{LinePasses, OperatorLines, WorkerPass};
use ap_shards::{AllPages, ShardTokens};
use ap_tables::OperatorSeats;
use hook_judge::{CountedState, HookCounts};
use std::marker::Model;
use versions::{Published, Reader};

/// The right of an operator: a handle on each queue, a seat at each table, a part of each ledger.
#[derive(Drop)]
pub struct OperatorToken<B: Ledgers + Journals> {
    pub(crate) lines: OperatorLines,
    pub(crate) seats: OperatorSeats,
    pub(crate) shards: ShardTokens<B>,
}

impl<B: Ledgers + Journals> Model for OperatorToken<B> {
    ghost use Rattle.ap_live.specs.Tokens.{Operator};

    ghost Value = { Operator };

    ghost view = { λ o. record { lines = o.lines; seats = o.seats; shards = o.shards } };
}

/// The right of a worker: the handle on its queue, a reader of the published sets, the state of its
/// programs with what was counted of their runs, a part of each ledger. It may move to another thread.
#[derive(Drop)]
pub struct WorkerToken<B: Ledgers + Journals> {
    pub(crate) number: usize,
    pub(crate) pass: WorkerPass,
    pub(crate) reader: Reader,
    pub(crate) state: CountedState,
    pub(crate) shards: ShardTokens<B>,
}

impl<B: Ledgers + Journals> Model for WorkerToken<B> {
    ghost use Rattle.ap_live.specs.Tokens.{Worker};

    ghost Value = { Worker };

    ghost view = { λ w. record { number = w.number; pass = w.pass; seen = w.reader; held = w.state; shards = w.shards } };
}

/// What was not given yet. It stays in one thread.
#[derive(Drop)]
pub struct LeftTokens<B: Ledgers + Journals> {
    pub(crate) readers: Published,
    pub(crate) passes: LinePasses,
    pub(crate) parts: u64,
    pub(crate) shards: Box<ShardTokens<B>>,
    pub(crate) pages: Box<AllPages<B>>,
}

impl<B: Ledgers + Journals> Model for LeftTokens<B> {
    ghost use Rattle.std.specs.Prelude.{◌-◌, ◌<◌, ◌≤◌};
    ghost use Rattle.ap_books.specs.Holdings.{HasParts};
    ghost use Rattle.ap_shards.specs.Pages.{AreNewPages};
    ghost use Rattle.ap_shards.specs.Tokens.{holding_of};
    ghost use Rattle.ap_live.specs.Tokens.{Left};

    ghost Value = { Left };

    ghost view = { λ l. record { readers = l.readers; passes = l.passes; parts = l.parts; shards = l.shards.value; pages = l.pages.value } };

    ghost invariant = { λ l. HasParts l.parts (holding_of l.shards.value) × AreNewPages (l.parts - 1) l.pages.value × (0 < l.parts) × (l.parts ≤ 17) };
}

impl<B: Ledgers + Journals> OperatorToken<B> {
    ghost use Rattle.std.specs.Prelude.{◌≡◌};
    ghost use Rattle.ap_shards.specs.Pages.{HasPages, pages_of};
    ghost use Rattle.ap_shards.specs.Tokens.{holding_of};

    /// The parts of the ledgers, with what they have counted, and the pages with all entries of its own.
    pub fn into_parts(self) -> (Portions<B>, AllPages<B>)
        ensures shares { result.0 ≡ holding_of self.shards }
        ensures pages { result.1 ≡ pages_of self.shards }
        ensures count { HasPages 1 result.1 }
    {
        let OperatorToken { shards, .. } = self;
        shards.into_parts()
    }
}

impl<B: Ledgers + Journals> WorkerToken<B> {
    ghost use Rattle.std.specs.Prelude.{◌≡◌};
    ghost use Rattle.ap_shards.specs.Pages.{HasPages, pages_of};
    ghost use Rattle.ap_shards.specs.Tokens.{holding_of};
    ghost use Rattle.ap_shards.specs.Renewal.{AreFresh, AreRenewed};
    ghost use Rattle.ap_live.specs.Lives.{Live};
    ghost use Rattle.ap_live.specs.Tokens.{IsWorker};
    ghost use Rattle.hook_judge.specs.Sums.{no_counts};

    /// What was counted of the runs of its programs since the last call. From here on it counts anew.
    pub fn take_counts(&mut self) -> HookCounts
        ensures taken { result ≡ self.old.held.counts }
        ensures anew { self.new
            ≡ record self.old { held = record self.old.held { counts = no_counts } } }
    {
        self.state.take_counts()
    }

    /// Exchanges its parts of the ledgers, with what they have counted, for others that have counted
    /// nothing. Then no entry of its own has come since; its pages are unchanged.
    pub fn renew(&mut self, fresh: Portions<B>) -> Portions<B>
        requires { AreFresh fresh }
        ensures given { result ≡ holding_of self.old.shards }
        ensures taken { holding_of self.new.shards ≡ fresh }
        ensures renewed { AreRenewed self.old.shards self.new.shards }
        ensures same { self.new ≡ record self.old { shards = self.new.shards } }
    {
        self.shards.renew(fresh)
    }

    /// The parts of the ledgers, with what they have counted, and the pages with all entries of its own.
    pub fn into_parts(self) -> (Portions<B>, AllPages<B>)
        ensures shares { result.0 ≡ holding_of self.shards }
        ensures pages { result.1 ≡ pages_of self.shards }
        ensures count { HasPages 1 result.1 }
    {
        let WorkerToken { shards, .. } = self;
        shards.into_parts()
    }
}

impl<B: Ledgers + Journals> LeftTokens<B> {
    ghost use Rattle.std.specs.Prelude.{◌≡◌, ◌-◌};
    ghost use Rattle.ap_shards.specs.Pages.{AreNewPages, HasPages, both_pages, pages_of};
    ghost use Rattle.ap_books.specs.Holdings.{HasParts};
    ghost use Rattle.ap_shards.specs.Tokens.{holding_of};

    /// The parts of the ledgers that were not given, as many pages, of which one may have entries and the
    /// others are new, and the handles of the queues that were not given.
    pub fn into_all(self) -> (Portions<B>, AllPages<B>, LinePasses)
        ensures is { result.0 ≡ holding_of self.shards }
        ensures parts { HasParts self.parts result.0 }
        ensures pages { result.1 ≡ both_pages (pages_of self.shards) self.pages }
        ensures new { AreNewPages (self.parts - 1) self.pages }
        ensures count { HasPages self.parts result.1 }
        ensures passes { result.2 ≡ self.passes }
    {
        let LeftTokens {
            shards,
            pages,
            passes,
            ..
        } = self;
        let (shares, mut all) = Box::into_inner(shards).into_parts();
        all.merge(Box::into_inner(pages));
        (shares, all, passes)
    }
}
