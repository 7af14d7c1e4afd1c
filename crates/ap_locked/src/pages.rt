//! Pages of a shard's journal: who decided which entries.

ghost use Rattle.std.specs.Prelude.{◌≡◌, ◌⊎◌, ◌+◌, ◌-◌, ◌<◌, ◌^◌, [], ◌∷◌, ◌++◌, length, sum_by};
ghost use Rattle.std.specs.List.{All};
ghost use mathlib.Core.List.{IsPrefix};
ghost use Rattle.ap_journal.specs.Beginnings.{IsPrepared};
ghost use Rattle.ap_locked.specs.Accounts.{AreMade, ArePowers, Gains, mark_of, size_of};
ghost use Rattle.ap_locked.specs.Pages.{first_page, new_page, new_pages, on_page};

use crate::entry::{JournalEntry, SignedEntry};
use crate::names::Journals;
use ap_books::{CountLedger, Ledgers};
use ap_journal::{Author, Describes, Known, Lists, Past};
use std::marker::Model;
use std::sync::ledger::{Blank, Book, Share};

/// The mark of a token, and the entries that it decided. Only proofs have such values.
#[derive(Drop)]
pub struct JournalPage {
    mark: u64,
    made: Past<JournalEntry>,
}

impl Model for JournalPage {
    ghost use Rattle.ap_locked.specs.Pages.{Page};

    ghost Value = { Page };

    ghost view = { λ p. record { mark = p.mark; made = p.made } };
}

/// Pages of a shard's journal, and a prefix of it in which their entries are. Each mark is on one page
/// alone. At run time it is the number of entries seen.
#[derive(Drop)]
pub struct Pages<B: Ledgers + Journals, const SHARD: usize> {
    made: Share<CountLedger<B, SHARD, 5>>,
    marks: Share<CountLedger<B, SHARD, 6>>,
    seen: Known<SignedEntry>,
    pages: Past<JournalPage>,
}

impl<B: Ledgers + Journals, const SHARD: usize> Model for Pages<B, SHARD> {
    ghost use Rattle.std.specs.Prelude.{◌≡◌};
    ghost use Rattle.ap_locked.specs.Accounts.{Account, AreMade, ArePowers, Weighs, mark_of, size_of};

    ghost Value = { Account };

    ghost view = { λ a. record { seen = a.seen.entries; pages = a.pages } };

    ghost invariant = { λ a. (a.seen.journal ≡ B.journal_of SHARD) × AreMade a.seen.entries a.pages × ArePowers a.pages
        × Weighs size_of a.made.parts a.made.amount a.pages × Weighs mark_of a.marks.parts a.marks.amount a.pages };
}

/// What counts pages: how many entries are on them, and the sum of their marks.
#[derive(Drop)]
pub(crate) struct PageBooks<B: Ledgers, const SHARD: usize> {
    made: Book<CountLedger<B, SHARD, 5>>,
    marks: Book<CountLedger<B, SHARD, 6>>,
}

impl<B: Ledgers, const SHARD: usize> Model for PageBooks<B, SHARD> {
    ghost use Rattle.std.specs.Prelude.{◌≡◌, ◌+◌, ◌^◌, ℕ};

    ghost Value = { ℕ };

    ghost view = { λ b. b.made.total };

    ghost invariant = { λ b. b.marks.total + 1 ≡ 2 ^ B.shares };
}

/// This many new pages.
#[derive(Clone, Copy)]
struct NewPages {
    count: u64,
}

impl Lists<JournalPage> for NewPages {
    ghost use Rattle.ap_locked.specs.Pages.{new_pages};

    ghost entries = { λ n. new_pages n.count };
}

/// A page with one more entry.
#[derive(Drop)]
struct Turned<'a, D> {
    pages: &'a Past<JournalPage>,
    deed: &'a D,
}

impl<'a, D: Describes<JournalEntry>> Describes<JournalPage> for Turned<'a, D> {
    ghost use Rattle.ap_locked.specs.Pages.{first_page, on_page};

    ghost entry = { λ t. on_page (first_page t.pages.now) (D.entry t.deed.now) };
}

/// Ledgers of pages, not yet named.
#[derive(Drop)]
pub struct NewLedgers {
    pub made: Blank,
    pub marks: Blank,
    pub count: u64,
}

impl NewLedgers {
    ghost use Rattle.ap_locked.specs.Naming.{AreForPages};

    /// New ledgers of this many pages.
    pub fn new(count: u64) -> NewLedgers
        ensures { AreForPages count result }
    {
        NewLedgers {
            made: Blank::new(count),
            marks: Blank::new(count),
            count,
        }
    }
}

impl<B: Ledgers + Journals, const SHARD: usize> Pages<B, SHARD> {
    ghost use Rattle.std.specs.Prelude.{◌≤◌};
    ghost use Rattle.ap_locked.specs.Naming.{AreForPages, AreNamedPages};

    /// All pages of an empty journal, which are new, and what counts them.
    pub(crate) fn open(
        new: NewLedgers,
        journal: &Known<SignedEntry>,
    ) -> (PageBooks<B, SHARD>, Pages<B, SHARD>)
        requires named { AreNamedPages (B.name_of SHARD) new }
        requires pages { AreForPages B.shares new }
        requires some { 0 < B.shares }
        requires few { B.shares ≤ 63 }
        requires journal { journal.now.journal ≡ B.journal_of SHARD }
        ensures none { result.0 ≡ 0 }
        ensures seen { result.1.seen ≡ journal.now.entries }
        ensures pages { result.1.pages ≡ new_pages B.shares }
    {
        let NewLedgers { made, marks, count } = new;
        let (made, made_share) = made.open::<CountLedger<B, SHARD, 5>>();
        let (mut marks, mut marks_share) = marks.open::<CountLedger<B, SHARD, 6>>();
        marks.add(&mut marks_share, (1 << count) - 1);
        let pages = Past::of(&NewPages { count });
        let pages = Pages {
            made: made_share,
            marks: marks_share,
            seen: journal.again(),
            pages,
        };
        (PageBooks { made, marks }, pages)
    }

    /// Splits off the first of this many new pages.
    pub fn split_page(&mut self, count: u64) -> Pages<B, SHARD>
        requires new { self.old.pages ≡ new_pages count }
        requires some { 0 < count }
        requires few { count ≤ 63 }
        ensures given { result.pages ≡ new_page (count - 1) ∷ [] }
        ensures left { self.new.pages ≡ new_pages (count - 1) }
        ensures seen { result.seen ≡ self.old.seen }
    {
        Pages {
            made: self.made.split_off(1, 0),
            marks: self.marks.split_off(1, 1 << (count - 1)),
            seen: self.seen.again(),
            pages: self.pages.split_first(),
        }
    }

    /// Adds other pages.
    pub fn merge(&mut self, other: Pages<B, SHARD>)
        ensures { self.new.pages ≡ self.old.pages ++ other.pages }
    {
        let Pages {
            made,
            marks,
            seen,
            pages,
        } = other;
        self.made.merge(made);
        self.marks.merge(marks);
        self.seen = self.seen.longer(&seen);
        self.pages.append(pages);
    }

    /// Empty pages then have seen what others have.
    pub(crate) fn begin(&mut self, other: &Pages<B, SHARD>)
        requires { All (λ p. p.made ≡ []) self.old.pages }
        ensures seen { self.new.seen ≡ other.now.seen }
        ensures pages { self.new.pages ≡ self.old.pages }
    {
        self.seen = other.seen.again();
    }

    /// Both then have seen the same, which extends what each had seen.
    pub(crate) fn meet(&mut self, other: &mut Pages<B, SHARD>)
        ensures this { IsPrefix self.old.seen self.new.seen }
        ensures that { IsPrefix other.old.seen self.new.seen }
        ensures one { (self.new.seen ≡ self.old.seen) ⊎ (self.new.seen ≡ other.old.seen) }
        ensures alike { other.new.seen ≡ self.new.seen }
        ensures pages { (self.new.pages ≡ self.old.pages) × (other.new.pages ≡ other.old.pages) }
    {
        let seen = self.seen.longer(&other.seen);
        self.seen = seen.again();
        other.seen = seen;
    }

    /// Proves that what was seen is a prefix of the journal that its author has prepared to extend, and what is on the
    /// pages; changes nothing.
    pub(crate) fn look(&self, author: &mut Author<SignedEntry>, journal: &Known<SignedEntry>)
        requires prepared { IsPrepared author.old journal.now }
        requires named { journal.now.journal ≡ B.journal_of SHARD }
        ensures same { author.new ≡ author.old }
        ensures seen { IsPrefix self.now.seen journal.now.entries }
        ensures made { AreMade self.now.seen self.now.pages }
        ensures powers { ArePowers self.now.pages }
    {
        author.look(journal, &self.seen);
    }

    /// The whole journal was then seen.
    pub(crate) fn follow(&mut self, journal: &Known<SignedEntry>)
        requires named { journal.now.journal ≡ B.journal_of SHARD }
        requires begins { IsPrefix self.old.seen journal.now.entries }
        ensures seen { self.new.seen ≡ journal.now.entries }
        ensures pages { self.new.pages ≡ self.old.pages }
    {
        self.seen = journal.again();
    }

    /// Writes the last entry of the journal, which is of the one page's mark, on that page.
    pub(crate) fn write<D: Describes<JournalEntry>>(
        &mut self,
        books: &mut PageBooks<B, SHARD>,
        journal: &Known<SignedEntry>,
        deed: &D,
    )
        requires named { journal.now.journal ≡ B.journal_of SHARD }
        requires last { Gains self.old (D.entry deed.now) journal.now.entries }
        ensures seen { self.new.seen ≡ journal.now.entries }
        ensures page { self.new.pages ≡ on_page (first_page self.old.pages) (D.entry deed.now) ∷ [] }
        ensures counted { books.new ≡ books.old + 1 }
    {
        books.made.add(&mut self.made, 1);
        let turned = Turned {
            pages: &self.pages,
            deed,
        };
        let mut pages = Past::new();
        pages.add(&turned);
        self.pages = pages;
        self.seen = journal.again();
    }

    /// Given all pages: how many entries are on them, and that each mark is on one alone.
    pub(crate) fn audit(&mut self, books: &mut PageBooks<B, SHARD>)
        requires all { length self.old.pages ≡ B.shares }
        ensures same { self.new ≡ self.old }
        ensures same_books { books.new ≡ books.old }
        ensures sizes { sum_by size_of self.old.pages ≡ books.old }
        ensures marks { sum_by mark_of self.old.pages + 1 ≡ 2 ^ B.shares }
    {
        books.made.audit(&mut self.made);
        books.marks.audit(&mut self.marks);
    }
}
