//! The publisher.

ghost use Rattle.std.specs.Prelude.{◌≡◌, ◌++◌, ◌∷◌, ◌↔◌, [], List, length, IsTrue, IsFalse, IsErrOf, IfSome, OnOk, OnErr};
ghost use Rattle.std.specs.Arc.{arc_value};
ghost use Rattle.versions.specs.declared.fault.PublishFault.TheVariants.{OtherShapes};
ghost use Rattle.versions.specs.Desks.{IsTied, Shows, pending};
ghost use Rattle.versions.specs.Lists.{Beginning, Begins, IsNext, with_load};
ghost use Rattle.versions.specs.Sets.{HasOtherShapes, IsFor, kept, load};

use crate::fault::PublishFault;
use crate::list::{Entry, Known, Wanted};
use crate::reader::Reader;
use crate::rule::{Enters, OneList};
use crate::set::ProgramSet;
use ap_journal::Author;
use bpf_machine::Accepted;
use bpf_regions::{Hook, Shape, Shapes};
use core::mem::replace_with;
use left_right::writer::Writer;
use std::marker::Model;
use std::sync::{Arc, Wait};
use std::thread;

/// Two copies of the published set: the readers' and the publisher's.
pub type Desk = Writer<ProgramSet, ProgramSet, Option<Known>, OneList>;

/// The publisher. Contracts see the list of everything published. It isn't `Drop`: end it by `close`.
pub struct Publisher {
    writer: Desk,
    author: Author<Entry>,
    known: Known,
    shapes: Shapes,
}

impl Model for Publisher {
    ghost use Rattle.std.specs.Prelude.{◌≡◌};
    ghost use Rattle.versions.specs.Desks.{Shows};
    ghost use Rattle.versions.specs.Lists.{Beginning, IsNext};

    ghost Value = { Beginning };

    ghost view = { λ p. p.known };

    ghost invariant = { λ p. (p.shapes ≡ p.known.shapes) ×
        IsNext p.author p.known × Shows p.writer p.known };
}

/// The loads so far, for one reader.
#[derive(Drop)]
pub struct News {
    pub(crate) known: Known,
}

impl Model for News {
    ghost use Rattle.versions.specs.Lists.{Beginning};

    ghost Value = { Beginning };

    ghost view = { λ n. n.known };
}

/// Adds the next set to the pending ones. Its memory is reserved when the list is opened.
fn put<R: Wait>(rt: &R, writer: Desk, next: ProgramSet) -> Desk
    ensures desk { result.desk ≡ writer.desk }
    ensures pending { pending result ≡ pending writer ++ next ∷ [] }
{
    let mut writer = writer;
    let mut next = next;
    for _ in rt.forever() {
        match writer.append(next) {
            Ok(()) => return writer,
            Err(back) => next = back,
        }
        thread::yield_now();
    }
    unreachable!()
}

/// Shows readers the set put last.
pub fn show<R: Wait>(rt: &R, writer: Desk, known: &Known) -> Desk
    requires last { (earlier : List Beginning) × (pending writer ≡ earlier ++ known.now ∷ []) }
    requires own { writer.desk.shown.value.list ≡ known.now.list }
    ensures { IsTied result known.now }
{
    let mut writer = writer;
    for _ in rt.forever() {
        let (after, outcome) = writer.publish_as::<Enters, R>(rt);
        match outcome {
            Ok(()) => return after,
            Err(_) => writer = after,
        }
        thread::yield_now();
    }
    unreachable!()
}

/// Whether two lists of map shapes are equal.
fn are_alike(shapes: &[Shape], others: &[Shape]) -> bool
    ensures { IsTrue result ↔ (shapes.now ≡ others.now) }
{
    shapes == others
}

/// Whether a program was accepted for maps of other shapes.
fn has_other_shapes(shapes: &Shapes, program: &Option<Arc<Accepted>>) -> bool
    ensures is { IsTrue result ↔ HasOtherShapes shapes.now (kept program.now) }
    ensures same { IsFalse result → IfSome (kept program.now) (λ p. p.code.shapes ≡ shapes.now) }
{
    match program {
        None => false,
        Some(accepted) => !are_alike(accepted.program().shapes().as_slice(), shapes.as_slice()),
    }
}

impl Publisher {
    /// A publisher whose readers see the set before any load.
    pub(crate) fn over(
        writer: Desk,
        author: Author<Entry>,
        known: Known,
        shapes: Shapes,
    ) -> Publisher
        requires shapes { shapes ≡ known.shapes }
        requires author { IsNext author known }
        requires shown { Shows writer known }
        ensures { result ≡ known }
    {
        Publisher {
            writer,
            author,
            known,
            shapes,
        }
    }

    /// How many loads were published.
    pub fn count(&self) -> u64
        ensures is { result ≡ length self.now.loads }
    {
        self.known.loads()
    }

    /// The loads so far, for a reader to learn.
    pub fn tell(&mut self) -> News
        ensures same { self.new ≡ self.old }
        ensures told { result ≡ self.old }
    {
        News {
            known: self.known.again(),
        }
    }

    /// What a reader has seen or was told of is a prefix of what was published, whichever reader of the same list it
    /// is. This is one atomic step, and returns nothing; a caller's proof uses its contract.
    pub fn beginning_law(&mut self, reader: &Reader)
        requires own { reader.now.list ≡ self.old.list }
        ensures same { self.new ≡ self.old }
        ensures has_all { Begins reader.now self.old }
    {
        self.known.look(&mut self.author, reader.known());
    }

    /// Replaces one hook's program, or removes it, for readers that enter from here on. Waits for the readers that hold
    /// a set from before the last publication. The fault is 60 if and only if the program was accepted for maps of
    /// other shapes; otherwise it is 40, if a program can't have one more owner or about 2^61 loads were made.
    pub fn publish<R: Wait>(
        &mut self,
        rt: &R,
        hook: Hook,
        program: Option<Arc<Accepted>>,
    ) -> Result<(), PublishFault>
        requires own_hook { IfSome (kept program) (λ p. p.hook ≡ hook) }
        ensures list { self.new.list ≡ self.old.list }
        ensures shapes { self.new.shapes ≡ self.old.shapes }
        ensures added { OnOk result (self.new ≡ with_load self.old (load hook (kept program))) }
        ensures refused { OnErr result (self.new ≡ self.old) }
        ensures others { IsErrOf result OtherShapes
            ↔ HasOtherShapes self.old.shapes (kept program) }
        ensures own { OnOk result (IfSome (kept program) (IsFor self.old.shapes hook)) }
    {
        replace_with(
            self,
            (rt, hook, program),
            |publisher, (rt, hook, program)| { publisher.published(rt, hook, program) },
        )
    }

    /// Waits for the readers, ends, and returns the set published last. A reader that enters afterwards waits forever.
    pub fn close<R: Wait>(self, rt: &R) -> ProgramSet
        ensures last { result ≡ self }
    {
        let Publisher {
            writer,
            author: _author,
            known: _known,
            shapes: _shapes,
        } = self;
        Box::into_inner(writer.take(rt))
    }

    // Everything that can be refused comes before the list grows.
    fn published<R: Wait>(
        self,
        rt: &R,
        hook: Hook,
        program: Option<Arc<Accepted>>,
    ) -> (Publisher, Result<(), PublishFault>)
        requires own_hook { IfSome (kept program) (λ p. p.hook ≡ hook) }
        ensures added { OnOk result.1 (result.0 ≡ with_load self (load hook (kept program))) }
        ensures refused { OnErr result.1 (result.0 ≡ self) }
        ensures others { IsErrOf result.1 OtherShapes ↔ HasOtherShapes self.shapes (kept program) }
        ensures own { OnOk result.1 (IfSome (kept program) (IsFor self.shapes hook)) }
    {
        if has_other_shapes(&self.shapes, &program) {
            return (self, Err(PublishFault::OtherShapes));
        }
        let Ok(owners) = self.writer.published().loaded(hook, &program) else {
            return (self, Err(PublishFault::NoMemory));
        };
        let Publisher {
            writer,
            mut author,
            known,
            shapes,
        } = self;
        let Some(after) = known.with(&mut author, &Wanted { hook, program }) else {
            let publisher = Publisher::over(writer, author, known, shapes);
            return (publisher, Err(PublishFault::NoMemory));
        };
        let writer = put(rt, writer, ProgramSet::of(owners, after.again()));
        let writer = show(rt, writer, &after);
        (Publisher::over(writer, author, after, shapes), Ok(()))
    }
}
