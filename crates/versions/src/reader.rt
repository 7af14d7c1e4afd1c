//! The readers.

ghost use Rattle.std.specs.Prelude.{◌≡◌};
ghost use Rattle.left_right.specs.Sides.{view};
ghost use Rattle.versions.specs.Lists.{Begins};
ghost use Rattle.versions.specs.Ties.{tie_of};

use crate::list::Known;
use crate::publisher::News;
use crate::rule::{Enters, OneList};
use crate::set::ProgramSet;
use left_right::reader;
use std::marker::Model;
use std::sync::Wait;
use std::thread;

/// A reader's seat at the two copies, while it holds no set.
pub type Outside = reader::Reader<ProgramSet, Option<Known>, OneList>;

/// A reader that holds no set. Contracts see the loads that it has seen or was told of. It may move to another thread.
#[derive(Drop)]
pub struct Reader {
    place: Outside,
    known: Known,
}

impl Model for Reader {
    ghost use Rattle.std.specs.Prelude.{◌≡◌, Some};
    ghost use Rattle.left_right.specs.Sides.{view as seat_view};
    ghost use Rattle.versions.specs.Lists.{Beginning};
    ghost use Rattle.versions.specs.Ties.{tie_of};

    ghost Value = { Beginning };

    ghost view = { λ r. r.known };

    ghost invariant = { λ r. tie_of (seat_view r.place.place) ≡ Some r.known.list };
}

/// A reader with the set that it holds, which doesn't change until the reader leaves. It isn't `Drop`: end it by
/// `leave`. Contracts see the loads that result in the set.
pub struct Entered {
    reading: reader::Reading<ProgramSet, Option<Known>, OneList>,
}

impl Model for Entered {
    ghost use Rattle.std.specs.Prelude.{◌≡◌, Some};
    ghost use Rattle.left_right.specs.Sides.{view as seat_view};
    ghost use Rattle.versions.specs.Lists.{Beginning};
    ghost use Rattle.versions.specs.Ties.{tie_of};

    ghost Value = { Beginning };

    ghost view = { λ e. e.reading.part.value };

    ghost invariant = { λ e. tie_of (seat_view e.reading.place) ≡ Some e.reading.part.value.list };
}

impl Entered {
    /// The set.
    pub fn set(&self) -> &ProgramSet
        ensures is { result.now ≡ self.now }
    {
        self.reading.get()
    }

    /// Gives the set back, and returns the reader.
    pub fn leave(self) -> Reader
        ensures seen { result ≡ self }
    {
        let Entered { reading } = self;
        let known = reading.get().known().again();
        Reader {
            place: reading.leave(),
            known,
        }
    }
}

impl Reader {
    /// A reader that has seen the known loads.
    pub(crate) fn over(place: Outside, known: Known) -> Reader
        requires { tie_of (view place.place) ≡ Some known.list }
        ensures { result ≡ known }
    {
        Reader { place, known }
    }

    /// The loads that it has seen or was told of.
    pub(crate) fn known(&self) -> &Known
        ensures { result.now ≡ self.now }
    {
        &self.known
    }

    /// Borrows one whole set that includes all this reader has seen or was told of. Retries until it has one.
    pub(crate) fn enter<R: Wait>(self, rt: &R) -> Entered
        ensures { Begins self result }
    {
        let Reader { mut place, known } = self;
        for _ in rt.forever() {
            match place.enter_as::<Enters>() {
                Ok(reading) => {
                    if reading.get().known().covers(&known) {
                        return Entered { reading };
                    }
                    place = reading.leave();
                }
                Err(back) => place = back,
            }
            thread::yield_now();
        }
        unreachable!()
    }

    /// From here on it enters only sets that include the loads in `news`.
    pub(crate) fn learn(self, news: News) -> Reader
        requires { news.list ≡ self.list }
        ensures seen { Begins self result }
        ensures told { Begins news result }
    {
        let Reader { place, known } = self;
        Reader {
            place,
            known: known.longer(&news.known),
        }
    }
}
