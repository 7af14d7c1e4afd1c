//! Lists of entries that only proofs have.

ghost use Rattle.std.specs.Prelude.{◌≡◌, ◌∷◌, ◌++◌, [], drop, take};

use crate::entry::{Describes, Lists};
use logbook::{Opening, Rule, Seen, Start};
use std::marker::Model;

/// No rule.
pub struct Anything;

impl<E> Rule<E, u64> for Anything {
    ghost use Rattle.std.specs.Prelude.{[]};
    ghost use base.Fml.{ftrue};

    ghost holds = { λ cells entries. Unit {0} };

    ghost first = { [] };

    ghost hinted = { λ n entries. Unit {0} };

    ghost shows = { λ entries. [] };

    ghost keeps = { λ names entries. ftrue };

    ghost moves = { λ ask before after answer. Unit {0} };
}

/// A list of entries without run-time data, whose methods do nothing at run time.
#[derive(Drop)]
pub struct Past<E> {
    seen: Seen<E, u64, Anything>,
}

impl<E> Model for Past<E> {
    ghost use Rattle.std.specs.Prelude.{List};

    ghost Value = { List E };

    ghost view = { λ p. p.seen.log };
}

/// A list, and a described entry.
#[derive(Clone, Copy)]
struct Longer<'a, E, D: Describes<E>> {
    past: &'a Past<E>,
    described: &'a D,
}

/// A list with one more entry.
pub struct OneMore;

impl<'a, E, D: Describes<E>> Opening<Longer<'a, E, D>, E> for OneMore {
    ghost use Rattle.std.specs.Prelude.{◌∷◌, ◌++◌, []};

    ghost log = { λ _ l. l.past.now ++ D.entry l.described.now ∷ [] };
}

/// A named list.
pub struct Named;

impl<E, D: Lists<E>> Opening<D, E> for Named {
    ghost log = { λ _ d. D.entries d };
}

/// Two lists.
#[derive(Clone, Copy)]
struct Two<'a, E> {
    first: &'a Past<E>,
    second: &'a Past<E>,
}

/// Two lists, one after the other.
pub struct Joined;

impl<'a, E> Opening<Two<'a, E>, E> for Joined {
    ghost use Rattle.std.specs.Prelude.{◌++◌};

    ghost log = { λ _ t. t.first.now ++ t.second.now };
}

/// The first entry of a list alone.
pub struct FirstAlone;

impl<E> Opening<Past<E>, E> for FirstAlone {
    ghost use Rattle.std.specs.Prelude.{take};

    ghost log = { λ _ p. take 1 p };
}

/// A list without its first entry.
pub struct WithoutFirst;

impl<E> Opening<Past<E>, E> for WithoutFirst {
    ghost use Rattle.std.specs.Prelude.{drop};

    ghost log = { λ _ p. drop 1 p };
}

impl<E> Past<E> {
    /// The empty list.
    pub fn new() -> Past<E>
        ensures { result ≡ [] }
    {
        let (seen, _pens) = Seen::open_row::<(), crate::rule::Empty>(&(), Start::alone(), 0);
        Past { seen }
    }

    /// The named list.
    pub fn of<D: Lists<E>>(named: &D) -> Past<E>
        ensures { result ≡ D.entries named.now }
    {
        let (seen, _pens) = Seen::open_row::<D, Named>(named, Start::alone(), 0);
        Past { seen }
    }

    /// Appends the described entry.
    pub fn add<D: Describes<E>>(&mut self, described: &D)
        ensures { self.new ≡ self.old ++ D.entry described.now ∷ [] }
    {
        let longer = Longer {
            past: &*self,
            described,
        };
        let (seen, _pens) = Seen::open_row::<Longer<'_, E, D>, OneMore>(&longer, Start::alone(), 0);
        *self = Past { seen };
    }

    /// Appends another list.
    pub fn append(&mut self, other: Past<E>)
        ensures { self.new ≡ self.old ++ other }
    {
        let two = Two {
            first: &*self,
            second: &other,
        };
        let (seen, _pens) = Seen::open_row::<Two<'_, E>, Joined>(&two, Start::alone(), 0);
        *self = Past { seen };
    }

    /// Splits off the first entry, if there is one.
    pub fn split_first(&mut self) -> Past<E>
        ensures first { result ≡ take 1 self.old }
        ensures others { self.new ≡ drop 1 self.old }
    {
        let (first, _pens) = Seen::open_row::<Past<E>, FirstAlone>(&*self, Start::alone(), 0);
        let (others, _more) = Seen::open_row::<Past<E>, WithoutFirst>(&*self, Start::alone(), 0);
        *self = Past { seen: others };
        Past { seen: first }
    }
}
