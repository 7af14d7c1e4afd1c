//! The readers of the published sets.

ghost use Rattle.std.specs.Prelude.{◌≡◌, ◌+◌, ◌↔◌, [], vec_len, IsErr, IfOk, OnOk, OnErr};
ghost use Rattle.std.specs.List.{All};
ghost use Rattle.versions.specs.Lists.{Begins, newcomer, readers_of};

use crate::fault::NoReader;
use crate::list::Known;
use crate::publisher::News;
use crate::reader::{Entered, Reader};
use std::marker::Model;
use std::sync::Wait;

/// Access to the published set, for readers that were given out. Threads share it by reference. Contracts see the list,
/// and no load of it.
#[derive(Drop)]
pub struct Entrance {
    known: Known,
}

impl Model for Entrance {
    ghost use Rattle.versions.specs.Lists.{Beginning};

    ghost Value = { Beginning };

    ghost view = { λ e. e.known };
}

impl Entrance {
    /// Borrows one whole set: the result of a prefix of the list of published loads that includes all the reader had
    /// seen or was told of. Retries until it has one.
    pub fn enter<R: Wait>(&self, rt: &R, reader: Reader) -> Entered
        requires own { reader.list ≡ self.now.list }
        ensures seen { Begins reader result }
        ensures shapes { result.shapes ≡ self.now.shapes }
    {
        let _known = self.known.covers(reader.known());
        reader.enter(rt)
    }

    /// From here on the reader enters only sets that include the loads in `news`.
    pub fn learn(&self, reader: Reader, news: News) -> Reader
        requires own { reader.list ≡ self.now.list }
        requires news { news.list ≡ self.now.list }
        ensures seen { Begins reader result }
        ensures told { Begins news result }
    {
        let _known = &self.known;
        reader.learn(news)
    }
}

/// The readers still to be given out, and access to the published set for the others. One thread has it; others have an
/// entrance.
#[derive(Drop)]
pub struct Published {
    readers: Vec<Reader>,
    known: Known,
}

impl Model for Published {
    ghost use Rattle.std.specs.Prelude.{◌≡◌, [], vec_len};
    ghost use Rattle.std.specs.List.{All};
    ghost use Rattle.versions.specs.Lists.{Readers, readers_of};

    ghost Value = { Readers };

    ghost view = { λ p. readers_of p.known (vec_len p.readers) };

    ghost invariant = { λ p. All (λ r. r ≡ p.known) p.readers.items × (p.known.loads ≡ []) };
}

impl Published {
    pub(crate) fn of(readers: Vec<Reader>, known: Known) -> Published
        requires new { All (λ r. r ≡ known) readers.items }
        requires empty { known.loads ≡ [] }
        ensures { result ≡ readers_of known (vec_len readers) }
    {
        Published { readers, known }
    }

    /// A reader that has seen no load. Each is given out once. The fault is 62 if and only if none is left.
    pub fn reader(&mut self) -> Result<Reader, NoReader>
        ensures same { (self.new.list ≡ self.old.list) × (self.new.shapes ≡ self.old.shapes) }
        ensures new { IfOk result (λ reader. reader ≡ newcomer self.old) }
        ensures one_less { OnOk result (self.new.left + 1 ≡ self.old.left) }
        ensures refused { OnErr result (self.new ≡ self.old) }
        ensures none_left { IsErr result ↔ (self.old.left ≡ 0) }
    {
        match self.readers.pop() {
            Some(reader) => Ok(reader),
            None => Err(NoReader),
        }
    }

    /// An entrance, which threads may share.
    pub fn entrance(&self) -> Entrance
        ensures is { result ≡ newcomer self.now }
    {
        Entrance {
            known: self.known.again(),
        }
    }

    /// Like `Entrance::enter`.
    pub fn enter<R: Wait>(&self, rt: &R, reader: Reader) -> Entered
        requires own { reader.list ≡ self.now.list }
        ensures seen { Begins reader result }
        ensures shapes { result.shapes ≡ self.now.shapes }
    {
        self.entrance().enter(rt, reader)
    }

    /// Like `Entrance::learn`.
    pub fn learn(&self, reader: Reader, news: News) -> Reader
        requires own { reader.list ≡ self.now.list }
        requires news { news.list ≡ self.now.list }
        ensures seen { Begins reader result }
        ensures told { Begins news result }
    {
        self.entrance().learn(reader, news)
    }
}
