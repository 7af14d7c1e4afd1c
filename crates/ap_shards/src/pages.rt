//! Pages of all shards' journals.

use ap_books::Ledgers;
use ap_locked::{Journals, Pages};
use std::marker::Model;

/// Pages of each shard's journal: who decided which entries.
#[derive(Drop)]
pub struct AllPages<B: Ledgers + Journals> {
    pub(crate) of0: Pages<B, 0>,
    pub(crate) of1: Pages<B, 1>,
    pub(crate) of2: Pages<B, 2>,
    pub(crate) of3: Pages<B, 3>,
    pub(crate) of4: Pages<B, 4>,
    pub(crate) of5: Pages<B, 5>,
    pub(crate) of6: Pages<B, 6>,
    pub(crate) of7: Pages<B, 7>,
}

impl<B: Ledgers + Journals> Model for AllPages<B> {
    ghost use Rattle.ap_shards.specs.Pages.{EightPages};

    ghost Value = { EightPages };

    ghost view = { λ s. record { of0 = s.of0.pages; of1 = s.of1.pages; of2 = s.of2.pages; of3 = s.of3.pages; of4 = s.of4.pages; of5 = s.of5.pages; of6 = s.of6.pages; of7 = s.of7.pages } };
}

impl<B: Ledgers + Journals> AllPages<B> {
    ghost use Rattle.std.specs.Prelude.{◌≡◌, ◌+◌, ℕ};
    ghost use Rattle.ap_shards.specs.Pages.{HasPages, both_pages};

    /// Adds other pages.
    pub fn merge(&mut self, other: AllPages<B>)
        ensures both { self.new ≡ both_pages self.old other }
        ensures count { (m n : ℕ) → HasPages m self.old → HasPages n other → HasPages (m + n) self.new }
    {
        let AllPages {
            of0,
            of1,
            of2,
            of3,
            of4,
            of5,
            of6,
            of7,
        } = other;
        self.of0.merge(of0);
        self.of1.merge(of1);
        self.of2.merge(of2);
        self.of3.merge(of3);
        self.of4.merge(of4);
        self.of5.merge(of5);
        self.of6.merge(of6);
        self.of7.merge(of7);
    }
}
