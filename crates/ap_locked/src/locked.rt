//! A shard with its journal and its books.

ghost use Rattle.std.specs.Prelude.{◌≡◌, ◌-◌, ◌<◌, ◌≤◌, [], length, IfOk, OnOk};
ghost use Rattle.ap_model.specs.Stations.{AreAssociated};
ghost use Rattle.ap_core.specs.Handles.{rules};
ghost use Rattle.ap_core.specs.Listing.{ListsAgreements, ListsStations};
ghost use Rattle.ap_books.specs.Reading.{Reads};
ghost use Rattle.ap_laws.specs.Headline.{LinkHolds};
ghost use Rattle.ap_locked.specs.Kept.{Holds, rules_of, readings_of};
ghost use Rattle.ap_locked.specs.Naming.{IsNamed};
ghost use Rattle.ap_locked.specs.Pages.{new_page, new_pages};
ghost use Rattle.ap_locked.specs.Tokens.{AreTheJournal, CountJournal, KeepsOwn, newcomer};

use crate::entry::SignedEntry;
use crate::names::{Journals, NewShard};
use crate::pages::{PageBooks, Pages};
use crate::token::ShardToken;
use ap_books::{Ledgers, ShardBooks, Shares, Totals};
use ap_core::{AgreementInForce, KnownStation, Shard};
use ap_journal::{Author, Known, Past};
use ap_model::LinkConfig;
use std::alloc::{AllocError, Global};
use std::marker::Model;

/// A shard as its lock guards it: with its books, and its journal, whose entries take no memory.
#[derive(Drop)]
pub struct Locked<B: Ledgers + Journals, const SHARD: usize> {
    pub(crate) shard: Shard,
    pub(crate) author: Author<SignedEntry>,
    pub(crate) journal: Known<SignedEntry>,
    pub(crate) books: ShardBooks<B, SHARD>,
    pub(crate) page_books: PageBooks<B, SHARD>,
}

impl<B: Ledgers + Journals, const SHARD: usize> Model for Locked<B, SHARD> {
    ghost use Rattle.std.specs.Prelude.{◌≡◌, length};
    ghost use Rattle.ap_core.specs.Handles.{rules};
    ghost use Rattle.ap_journal.specs.Beginnings.{MayAdd};
    ghost use Rattle.ap_locked.specs.Kept.{Kept, Holds};
    ghost use Rattle.ap_locked.specs.Pages.{entries_of};

    ghost Value = { Kept };

    ghost view = { λ s. record { shard = s.shard; journal = entries_of s.journal.entries; counts = s.books } };

    ghost invariant = { λ s. (s.journal.journal ≡ B.journal_of SHARD) × MayAdd s.author s.journal × Holds (rules SHARD B.config) (record { shard = s.shard; journal = entries_of s.journal.entries; counts = s.books }) × (s.page_books ≡ length s.journal.entries) };
}

impl<B: Ledgers + Journals, const SHARD: usize> Locked<B, SHARD> {
    /// A shard that has handled nothing, with a copy of the access point's configuration; a token with
    /// all parts of its ledgers, and the first page; and the other pages.
    pub fn new(
        alloc: Global,
        config: &LinkConfig,
        new: NewShard,
    ) -> Result<(Locked<B, SHARD>, ShardToken<B, SHARD>, Pages<B, SHARD>), AllocError>
        requires shard { SHARD < 8 }
        requires named { IsNamed (B.name_of SHARD) B.shares (B.journal_of SHARD) new }
        requires config { config.now ≡ B.config }
        requires some { 0 < B.shares }
        requires few { B.shares ≤ 63 }
        ensures rules { IfOk result (λ r. rules_of r.0 ≡ rules SHARD config.now) }
        ensures empty { IfOk result (λ r. r.0.journal ≡ []) }
        ensures token { IfOk result (λ r. r.1 ≡ newcomer B.shares [] (new_page (B.shares - 1))) }
        ensures others { IfOk result (λ r. r.2.pages ≡ new_pages (B.shares - 1)) }
    {
        let shard = Shard::new(alloc, SHARD as u16, config)?;
        let NewShard {
            blanks,
            pages,
            journal,
        } = new;
        let (books, shares) = ShardBooks::open(blanks);
        let (author, journal) = journal.into_parts();
        let count = pages.count;
        let (page_books, mut others) = Pages::open(pages, &journal);
        let token = ShardToken {
            shares,
            pages: others.split_page(count),
            own: Past::new(),
        };
        let locked = Locked {
            shard,
            author,
            journal,
            books,
            page_books,
        };
        Ok((locked, token, others))
    }

    /// Proves the main theorem of the shard at this moment; does nothing at run time.
    #[tactic(auto, using(ap_laws::proofs::HeadlineLaws::link_holds))]
    pub fn headline(&self)
        ensures { LinkHolds (rules SHARD B.config) self.now.journal (readings_of self.now) }
    {
        let _books = &self.books;
    }

    /// The sum of the ticks so far, at most 2^64 - 1.
    pub fn clock(&self) -> u64
        ensures { result ≡ (readings_of self.now).clock }
    {
        self.shard.clock()
    }

    /// How many stations are associated, at most 2007.
    pub fn stations(&self) -> u16
        ensures are { AreAssociated (readings_of self.now).standing result }
        ensures few { result ≤ 2007 }
    {
        self.shard.stations()
    }

    /// The known stations, each once with its standing, by increasing addresses.
    pub fn known_stations(&self, alloc: Global) -> Result<Vec<KnownStation>, AllocError>
        ensures { IfOk result (λ rows. ListsStations (readings_of self.now) rows.items) }
    {
        self.shard.known_stations(alloc)
    }

    /// The agreements in force, each once, by increasing addresses and TIDs.
    pub fn agreements(&self, alloc: Global) -> Result<Vec<AgreementInForce>, AllocError>
        ensures { IfOk result (λ rows. ListsAgreements (readings_of self.now) rows.items) }
    {
        self.shard.agreements(alloc)
    }

    /// The token then has seen the whole journal, of which it had seen a prefix. Fails only if the
    /// journal is full, at about 2^61 entries, which no run reaches.
    pub fn show(&mut self, mine: &mut ShardToken<B, SHARD>) -> Result<(), AllocError>
        ensures same { self.new ≡ self.old }
        ensures seen { OnOk result (mine.new.seen ≡ self.old.journal) }
        ensures keeps { KeepsOwn mine.old mine.new }
        ensures holds { OnOk result (Holds (rules SHARD B.config) self.old) }
    {
        if !self.author.prepare(&self.journal) {
            return Err(AllocError);
        }
        mine.pages.look(&mut self.author, &self.journal);
        mine.pages.follow(&self.journal);
        Ok(())
    }

    /// What the books have counted, mod 2^64.
    pub fn totals(&self) -> Totals
        ensures { Reads result self.now.counts }
    {
        self.books.totals()
    }

    /// Given all parts of the ledgers: what the books have counted, mod 2^64, which is what the shares
    /// have counted, and what the journal's entries count.
    pub fn read(&mut self, all: &mut Shares<B, SHARD>) -> Totals
        requires { all.old.parts ≡ B.shares }
        ensures same { self.new ≡ self.old }
        ensures shares { all.new ≡ all.old }
        ensures whole { all.old.counts ≡ self.old.counts }
        ensures journal { CountJournal (rules SHARD B.config) all.old }
        ensures totals { Reads result self.old.counts }
    {
        self.books.read(all)
    }

    /// Given all parts of the ledgers and all pages, proves that the pages together are the journal, each
    /// entry at its own place; changes nothing. Fails only if the journal is full, at about 2^61 entries,
    /// which no run reaches.
    pub fn reconcile(
        &mut self,
        all: &mut Shares<B, SHARD>,
        pages: &mut Pages<B, SHARD>,
    ) -> Result<(), AllocError>
        requires parts { all.old.parts ≡ B.shares }
        requires pages { length pages.old.pages ≡ B.shares }
        ensures same { self.new ≡ self.old }
        ensures shares { all.new ≡ all.old }
        ensures same_pages { pages.new ≡ pages.old }
        ensures journal { OnOk result (AreTheJournal (rules SHARD B.config) all.old pages.old.pages) }
    {
        if !self.author.prepare(&self.journal) {
            return Err(AllocError);
        }
        pages.look(&mut self.author, &self.journal);
        pages.audit(&mut self.page_books);
        self.books.read(all);
        Ok(())
    }
}
