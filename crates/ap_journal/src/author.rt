//! Who adds to a journal.

ghost use Rattle.std.specs.Prelude.{◌≡◌, ◌+◌, ◌<◌, ◌^◌, [], length, IfSome, IsFalse, IsTrue, MatchBool};
ghost use Rattle.logbook.specs.Pages.{nib, may_write};
ghost use Rattle.ap_journal.specs.Beginnings.{Begins, MayAdd, IsPrepared, with_entry};
ghost use Rattle.ap_journal.specs.Turns.{word_of};

use crate::entry::{Describes, Entry};
use crate::known::Known;
use crate::rule::{Adds, Empty, Law, Looks, MakesTurn, Nothing};
use logbook::{Offer, Pen, Seen, Start, Word};
use std::marker::Model;

/// The most entries, since a 64-bit word counts them. No run comes near it.
const MOST: u64 = 1 << 61;

/// The right to add to a journal. Each journal has one.
#[derive(Drop)]
pub struct Author<E> {
    word: Word<E, u64, Law>,
    turn: Option<Pen>,
}

impl<E> Model for Author<E> {
    ghost use Rattle.std.specs.Prelude.{◌≡◌};
    ghost use Rattle.ap_journal.specs.Beginnings.{Right};
    ghost use Rattle.ap_journal.specs.Rights.{turn_of, IsTurnOf};

    ghost Value = { Right };

    ghost view = { λ a. record { journal = a.word.book; turn = turn_of a.turn } };

    ghost invariant = { λ a. IsTurnOf a.word a.turn };
}

/// Makes the turn after the last one, if that one's number is `last`.
fn next_turn<E: Entry>(word: &Word<E, u64, Law>, seen: &Seen<E, u64, Law>, last: u64) -> Option<Pen>
    requires word { word.now ≡ word_of seen.now.book }
    requires room { last < 2 ^ 62 }
    ensures journal { IfSome result (λ pen. pen.book ≡ seen.now.book) }
    ensures turn { IfSome result (λ pen. pen.nib ≡ nib may_write (last + 1) 0) }
{
    let mut seen = seen.again();
    let mut offer: Offer<E, u64, Law, Nothing> = seen.plain::<Nothing, (), Looks>(&());
    let mut pen = seen.no_pen();
    let found = word.compare_exchange::<MakesTurn, Nothing>(
        last,
        last + 1,
        &mut seen,
        &mut offer,
        &mut pen,
    );
    if found != last {
        return None;
    }
    let _made: Word<E, u64, Law> = Word::tracked(0, &mut pen);
    Some(pen)
}

impl<E: Entry> Author<E> {
    /// Prepares adding one more entry after `known`. Returns false, and changes nothing, if `known`
    /// isn't the whole journal, or has about 2^61 entries, which no run reaches. No clause says when it
    /// returns true.
    pub fn prepare(&mut self, known: &Known<E>) -> bool
        requires { MayAdd self.old known.now }
        ensures { MatchBool result (IsPrepared self.new known.now) (self.new ≡ self.old) }
    {
        if self.turn.is_some() {
            return true;
        }
        if known.count >= MOST {
            return false;
        }
        let Some(turn) = next_turn(&self.word, &known.seen, known.count) else {
            return false;
        };
        self.turn = Some(turn);
        true
    }

    /// Proves that whatever is known of a journal is a prefix of what its author has prepared to
    /// extend; changes nothing.
    pub fn look(&mut self, known: &Known<E>, other: &Known<E>)
        requires turn { IsPrepared self.old known.now }
        requires one_journal { other.now.journal ≡ known.now.journal }
        ensures same { self.new ≡ self.old }
        ensures has_all { Begins other.now known.now }
    {
        let Some(turn) = &mut self.turn else {
            unreachable!();
        };
        let mut both = known.seen.again();
        both.learn(&other.seen);
        let mut offer: Offer<E, u64, Law, Nothing> = both.plain::<Nothing, (), Looks>(&());
        self.word
            .compare_exchange::<Looks, Nothing>(0, 0, &mut both, &mut offer, turn);
    }

    /// Adds the described entry to a journal that is known whole, after `prepare`.
    pub fn add<D: Describes<E>>(&mut self, known: &mut Known<E>, described: &D)
        requires { IsPrepared self.old known.old }
        ensures author { MayAdd self.new known.new }
        ensures added { known.new ≡ with_entry known.old (D.entry described.now) }
    {
        let Some(mut turn) = self.turn.take() else {
            unreachable!();
        };
        let mut offer: Offer<E, u64, Law, Nothing> = known
            .seen
            .plain::<Nothing, D, Adds>(described);
        self.word
            .compare_exchange::<Adds, Nothing>(0, 0, &mut known.seen, &mut offer, &mut turn);
        known.count += 1;
    }

    /// Adds the described entry as `add`, and prepares adding one more. Returns false, and changes
    /// nothing, if the journal has about 2^61 entries, which no run reaches. No clause says when it
    /// returns true.
    pub fn add_on<D: Describes<E>>(&mut self, known: &mut Known<E>, described: &D) -> bool
        requires { IsPrepared self.old known.old }
        ensures author { IsTrue result → IsPrepared self.new known.new }
        ensures added { IsTrue result → known.new ≡ with_entry known.old (D.entry described.now) }
        ensures refused { IsFalse result → (self.new ≡ self.old) × (known.new ≡ known.old) }
    {
        if known.count >= MOST - 1 {
            return false;
        }
        let Some(next) = next_turn(&self.word, &known.seen, known.count + 1) else {
            return false;
        };
        self.add(known, described);
        self.turn = Some(next);
        true
    }
}

/// An empty journal, and the right to add to it.
#[derive(Drop)]
pub struct Opened<E> {
    author: Author<E>,
    known: Known<E>,
}

impl<E> Model for Opened<E> {
    ghost use Rattle.std.specs.Prelude.{◌≡◌, []};
    ghost use Rattle.logbook.specs.Pages.{Book};
    ghost use Rattle.ap_journal.specs.Beginnings.{MayAdd};

    ghost Value = { Book };

    ghost view = { λ o. o.known.journal };

    ghost invariant = { λ o. MayAdd o.author o.known × (o.known.entries ≡ []) };
}

impl<E> Opened<E> {
    /// A new journal.
    pub fn new() -> Opened<E> {
        let (seen, mut pens) = Seen::open_row::<(), Empty>(&(), Start::alone(), 1);
        let mut pen = pens.take();
        let word = Word::tracked(0, &mut pen);
        Opened {
            author: Author { word, turn: None },
            known: Known { count: 0, seen },
        }
    }

    /// The right to add to the journal, and what is known of it: no entries.
    pub fn into_parts(self) -> (Author<E>, Known<E>)
        ensures author { MayAdd result.0 result.1 }
        ensures empty { result.1.entries ≡ [] }
        ensures journal { result.1.journal ≡ self }
    {
        let Opened { author, known } = self;
        (author, known)
    }
}
