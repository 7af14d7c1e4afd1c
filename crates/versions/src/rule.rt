//! The rule by which a reader knows that the set it enters is of its own list.

use crate::list::Known;
use crate::set::ProgramSet;
use atomic_table::{Join, Split};
use crossbeam_utils::rule::{Outcome, Protocol};

pub struct OneList;

impl Protocol<ProgramSet, Option<Known>> for OneList {
    ghost use Rattle.std.specs.Prelude.{None};
    ghost use Rattle.versions.specs.Ties.{OneList};

    ghost holds = { OneList };

    ghost first = { None };
}

/// A step after which a seat knows the published set.
pub struct Enters;

impl Outcome<ProgramSet, Option<Known>> for Enters {
    ghost use Rattle.versions.specs.Ties.{Enters};

    ghost then = { Enters };
}

/// What the publisher's seat knows, told to another seat.
pub struct Tells;

impl Split<Option<Known>> for Tells {
    ghost left = { λ v. v };

    ghost right = { λ v. v };
}

impl Join<Option<Known>> for Tells {
    ghost use Rattle.std.specs.Prelude.{None};

    ghost both = { λ _ w. w };

    ghost spent = { None };
}
