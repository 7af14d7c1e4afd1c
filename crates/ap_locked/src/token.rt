//! A right to decide events at a shard.

ghost use Rattle.std.specs.Prelude.{◌≡◌, ◌+◌, ◌<◌, [], ◌∷◌};
ghost use Rattle.ap_books.specs.Counts.{none};
ghost use Rattle.ap_core.specs.Handles.{rules};
ghost use Rattle.ap_locked.specs.Pages.{first_page};
ghost use Rattle.ap_locked.specs.Tokens.{IsToken, KeepsOwn, newcomer};

use crate::entry::JournalEntry;
use crate::names::Journals;
use crate::pages::Pages;
use ap_books::{Ledgers, Shares};
use ap_journal::Past;
use std::marker::Model;
use std::mem;

/// A right to decide events at a shard: parts of its ledgers, the prefix of its journal that was
/// seen, one's own entries there since the parts were exchanged, and the page with all of them. At run
/// time it is the number of entries seen.
#[derive(Drop)]
pub struct ShardToken<B: Ledgers + Journals, const SHARD: usize> {
    pub(crate) shares: Shares<B, SHARD>,
    pub(crate) pages: Pages<B, SHARD>,
    pub(crate) own: Past<JournalEntry>,
}

impl<B: Ledgers + Journals, const SHARD: usize> Model for ShardToken<B, SHARD> {
    ghost use Rattle.std.specs.Prelude.{◌≡◌, [], ◌∷◌};
    ghost use Rattle.ap_core.specs.Handles.{rules};
    ghost use Rattle.ap_locked.specs.Pages.{entries_of, first_page};
    ghost use Rattle.ap_locked.specs.Tokens.{Token, IsToken};

    ghost Value = { Token };

    ghost view = { λ t. record { portion = t.shares; seen = entries_of t.pages.seen; own = t.own; page = first_page t.pages.pages } };

    ghost invariant = { λ t. (t.pages.pages ≡ first_page t.pages.pages ∷ []) × IsToken (rules SHARD B.config) (record { portion = t.shares; seen = entries_of t.pages.seen; own = t.own; page = first_page t.pages.pages }) };
}

impl<B: Ledgers + Journals, const SHARD: usize> ShardToken<B, SHARD> {
    /// Splits off a token with this many parts, which writes on this empty page. It has seen what this
    /// one has, and has no entries of its own.
    pub fn split_off(&mut self, parts: u64, page: Pages<B, SHARD>) -> ShardToken<B, SHARD>
        requires some { 0 < parts }
        requires more { parts < self.old.portion.parts }
        requires one { page.pages ≡ first_page page.pages ∷ [] }
        requires empty { (first_page page.pages).made ≡ [] }
        ensures new { result ≡ newcomer parts self.old.seen (first_page page.pages) }
        ensures left { self.new.portion.parts + parts ≡ self.old.portion.parts }
        ensures counts { self.new.portion.counts ≡ self.old.portion.counts }
        ensures seen { self.new.seen ≡ self.old.seen }
        ensures own { self.new.own ≡ self.old.own }
        ensures page { self.new.page ≡ self.old.page }
    {
        let mut page = page;
        page.begin(&self.pages);
        ShardToken {
            shares: self.shares.split_off(parts),
            pages: page,
            own: Past::new(),
        }
    }

    /// Both then have seen the same, which extends what each had seen. Each keeps its own entries.
    pub fn meet(&mut self, other: &mut ShardToken<B, SHARD>)
        ensures this { KeepsOwn self.old self.new }
        ensures that { KeepsOwn other.old other.new }
        ensures seen { self.new.seen ≡ other.new.seen }
        ensures token { IsToken (rules SHARD B.config) self.new }
        ensures other_token { IsToken (rules SHARD B.config) other.new }
    {
        self.pages.meet(&mut other.pages);
    }

    /// Exchanges its parts, with what they have counted, for others that have counted nothing. Then no
    /// entry of its own has come since; its page and what it has seen are unchanged.
    pub fn renew(&mut self, fresh: Shares<B, SHARD>) -> Shares<B, SHARD>
        requires some { 0 < fresh.parts }
        requires nothing { fresh.counts ≡ none }
        ensures given { result ≡ self.old.portion }
        ensures portion { self.new.portion ≡ fresh }
        ensures seen { self.new.seen ≡ self.old.seen }
        ensures own { self.new.own ≡ [] }
        ensures page { self.new.page ≡ self.old.page }
    {
        self.own = Past::new();
        mem::replace(&mut self.shares, fresh)
    }

    /// Its parts of the ledgers, and its page.
    pub fn into_parts(self) -> (Shares<B, SHARD>, Pages<B, SHARD>)
        ensures shares { result.0 ≡ self.portion }
        ensures page { result.1.pages ≡ self.page ∷ [] }
    {
        let ShardToken {
            shares,
            pages,
            own: _,
        } = self;
        (shares, pages)
    }
}
