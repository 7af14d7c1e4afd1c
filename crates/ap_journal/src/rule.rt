//! The rule of a journal's book, and its steps.

use crate::entry::{Describes, Entry};
use logbook::{Gain, Opening, Plain, Play, Rule};

/// The rule of a journal's book.
pub struct Law;

impl<E> Rule<E, u64> for Law {
    ghost use Rattle.std.specs.Prelude.{[]};
    ghost use base.Fml.{ftrue};
    ghost use Rattle.ap_journal.specs.Turns.{IsKept};

    ghost holds = { λ cells entries. IsKept cells entries };

    ghost first = { [] };

    ghost hinted = { λ n entries. Unit {0} };

    ghost shows = { λ entries. [] };

    ghost keeps = { λ names entries. ftrue };

    ghost moves = { λ ask before after answer. Unit {0} };
}

/// A journal begins without entries.
pub struct Empty;

impl<E> Opening<(), E> for Empty {
    ghost use Rattle.std.specs.Prelude.{[]};

    ghost log = { λ _ _. [] };
}

/// Nothing is exchanged.
pub struct Nothing;

impl<E> Gain<E, u64> for Nothing {
    ghost use base.Fml.{ftrue};

    ghost after = { λ names about answer. ftrue };
}

/// A step that makes a turn.
pub struct MakesTurn;

impl<E> Play<E, u64> for MakesTurn {
    ghost use Rattle.ap_journal.specs.Turns.{MakesTurn};

    ghost then = { MakesTurn };
}

/// A step that adds an entry.
pub struct Adds;

impl<E> Play<E, u64> for Adds {
    ghost use Rattle.ap_journal.specs.Turns.{Adds};

    ghost then = { Adds };
}

impl<E, D: Describes<E>> Plain<D, E, u64> for Adds {
    ghost use Rattle.std.specs.Prelude.{None};

    ghost ask = { λ described. D.entry described };

    ghost state = { λ _. None };
}

/// A step that only looks.
pub struct Looks;

impl<E> Play<E, u64> for Looks {
    ghost use Rattle.ap_journal.specs.Turns.{Looks};

    ghost then = { Looks };
}

impl<E: Entry> Plain<(), E, u64> for Looks {
    ghost use Rattle.std.specs.Prelude.{None};

    ghost ask = { λ _. E.unwritten };

    ghost state = { λ _. None };
}
