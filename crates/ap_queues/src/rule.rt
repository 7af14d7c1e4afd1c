//! The rule of the queue, and what its steps show.

use crate::item::{Queued, View};
use crossbeam_queue::protocol::{Join, Lesson, Outcome, Protocol, Split};

/// What was put is what was taken followed by what the queue holds, and each operator knows what it
/// put.
pub struct OneQueue;

impl Protocol<Queued, View> for OneQueue {
    ghost use Rattle.ap_queues.specs.Queues.{OneQueue, founder};

    ghost holds = { OneQueue };

    ghost first = { founder };
}

/// An operator puts. If the queue is full, it learns which of its items are in it.
pub(crate) struct Puts;

impl Outcome<Queued, View> for Puts {
    ghost use Rattle.std.specs.Prelude.{◌≡◌, ◌++◌, ◌∷◌, []};

    ghost then = { λ v x w. w ≡ record v { put = v.put ++ x.item ∷ [] } };
}

impl Lesson<Queued, View> for Puts {
    ghost use Rattle.ap_queues.specs.Queues.{EndsIn};

    ghost fact = { λ v items. EndsIn v items };
}

/// The worker takes.
pub(crate) struct Takes;

impl Outcome<Queued, View> for Takes {
    ghost use Rattle.std.specs.Prelude.{◌≡◌, ◌++◌, ◌∷◌, []};

    ghost then = { λ v x w. w ≡ record v { taken = v.taken ++ x ∷ [] } };
}

impl Lesson<Queued, View> for Takes {
    ghost fact = { λ v items. Unit {0} };
}

/// A worker that holds an operator's handle knows what became of what that operator put.
pub(crate) struct Whole;

impl Lesson<Queued, View> for Whole {
    ghost use Rattle.std.specs.Prelude.{◌≡◌, ◌++◌};
    ghost use Rattle.ap_queues.specs.Queues.{of};

    ghost fact = { λ v items. v.put ≡ of v.operator v.taken ++ of v.operator items };
}

/// The first handle gives away the right to take.
pub(crate) struct Founding;

impl Split<View> for Founding {
    ghost use Rattle.ap_queues.specs.Queues.{maker, worker};

    ghost left = { λ v. maker v.made };

    ghost right = { λ v. worker v.taken };
}

/// A new operator.
pub(crate) struct Hiring;

impl Split<View> for Hiring {
    ghost use Rattle.std.specs.Prelude.{◌+◌, []};
    ghost use Rattle.ap_queues.specs.Queues.{maker, operator};

    ghost left = { λ v. maker (v.made + 1) };

    ghost right = { λ v. operator v.made [] };
}

/// A handle that may do nothing, which holds an operator's place while the worker has its handle.
pub(crate) struct Sparing;

impl Split<View> for Sparing {
    ghost use Rattle.ap_queues.specs.Queues.{nobody};

    ghost left = { λ v. v };

    ghost right = { λ _. nobody };
}

/// The worker takes an operator's handle.
pub(crate) struct Meeting;

impl Join<View> for Meeting {
    ghost use Rattle.ap_queues.specs.Queues.{both, nobody};

    ghost both = { λ v w. both v.taken w.operator w.put };

    ghost spent = { nobody };
}

/// The worker returns the operator's handle.
pub(crate) struct Parting;

impl Split<View> for Parting {
    ghost use Rattle.ap_queues.specs.Queues.{worker, operator};

    ghost left = { λ v. worker v.taken };

    ghost right = { λ v. operator v.operator v.put };
}

/// A worker that holds an operator's handle and the maker's, which has made one operator, knows that
/// all was put by that operator.
pub(crate) struct Alone;

impl Lesson<Queued, View> for Alone {
    ghost use Rattle.ap_queues.specs.Queues.{PutAll};

    ghost fact = { λ v items. PutAll v items };
}

/// A handle takes the maker's.
pub(crate) struct Gathering;

impl Join<View> for Gathering {
    ghost use Rattle.ap_queues.specs.Queues.{nobody, with_maker};

    ghost both = { λ v w. with_maker v w.made };

    ghost spent = { nobody };
}

/// A handle returns the maker's.
pub(crate) struct Releasing;

impl Split<View> for Releasing {
    ghost use Rattle.ap_queues.specs.Queues.{maker, without_maker};

    ghost left = { λ v. without_maker v };

    ghost right = { λ v. maker v.made };
}
