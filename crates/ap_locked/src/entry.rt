//! The entries of a shard's journal.

use crate::names::Journals;
use crate::pages::Pages;
use ap_books::Ledgers;
use ap_journal::{Describes, Entry, Past};
use ap_model::{AskLog, Event, Judge, Out};
use std::marker::Model;
use std::snapshot::Snapshot;

/// An entry of a journal: a handled event, its queries with their answers, and its outputs. Only
/// proofs have such values.
#[derive(Drop)]
pub struct JournalEntry {
    event: Event,
    asked: AskLog,
    outs: Vec<Out>,
}

impl Model for JournalEntry {
    ghost use Rattle.ap_model.specs.Runs.{Entry};

    ghost Value = { Entry };

    ghost view = { λ e. record { event = e.event; asked = e.asked.asks; outs = e.outs.items } };
}

/// An entry with the mark of the token that decided it. Only proofs have such values.
#[derive(Drop)]
pub struct SignedEntry {
    mark: u64,
    entry: JournalEntry,
}

impl Model for SignedEntry {
    ghost use Rattle.ap_locked.specs.Pages.{Signed};

    ghost Value = { Signed };

    ghost view = { λ s. record { mark = s.mark; entry = s.entry } };
}

impl Entry for SignedEntry {
    ghost use Rattle.std.specs.Prelude.{[]};
    ghost use Rattle.ap_model.specs.declared.event.Event.TheVariants as event;

    ghost unwritten = { record { mark = 0; entry = record { event = event.Tick 0; asked = []; outs = [] } } };
}

/// What was just done: an event, its outputs, and the judge before and after, whose list grew by
/// the queries.
#[derive(Drop)]
pub(crate) struct Deed<'a, J: Judge> {
    pub(crate) event: &'a Event,
    pub(crate) outs: &'a [Out],
    pub(crate) before: &'a Snapshot<J>,
    pub(crate) judge: &'a J,
}

impl<'a, J: Judge> Describes<JournalEntry> for Deed<'a, J> {
    ghost use Rattle.std.specs.Prelude.{drop, length};

    ghost entry = { λ d. record { event = d.event.now; asked = drop (length (J.asks d.before.now.value)) (J.asks d.judge.now); outs = d.outs.now } };
}

/// An entry, and the page of the token that decided it.
#[derive(Drop)]
pub(crate) struct Signing<'a, B: Ledgers + Journals, const SHARD: usize, D> {
    pub(crate) pages: &'a Pages<B, SHARD>,
    pub(crate) deed: &'a D,
}

impl<'a, B: Ledgers + Journals, const SHARD: usize, D: Describes<JournalEntry>> Describes<
    SignedEntry,
> for Signing<'a, B, SHARD, D> {
    ghost use Rattle.ap_locked.specs.Pages.{first_page};

    ghost entry = { λ s. record { mark = (first_page s.pages.now.pages).mark; entry = D.entry s.deed.now } };
}
