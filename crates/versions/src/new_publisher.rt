//! Makes a publisher and its readers.

ghost use Rattle.std.specs.Prelude.{◌≡◌, ◌++◌, ◌∷◌, [], vec_len, IfOk, OnOk};
ghost use Rattle.std.specs.List.{All};
ghost use Rattle.versions.specs.Desks.{IsTied, Shows, pending};
ghost use Rattle.versions.specs.Lists.{readers_of};

use crate::list::Known;
use crate::pool::Published;
use crate::publisher::{Desk, Publisher, show};
use crate::reader::Reader;
use crate::rule::Tells;
use crate::set::ProgramSet;
use bpf_regions::Shapes;
use left_right::writer::Writer;
use std::alloc::{AllocError, Global};
use std::sync::Wait;

/// A reader that knows the publisher's list.
fn tied(writer: &mut Desk, known: &Known) -> Result<Reader, AllocError>
    requires { IsTied writer.old known.now }
    ensures same { IsTied writer.new known.now }
    ensures known { IfOk result (λ reader. reader ≡ known.now) }
{
    let mut place = writer.factory().reader()?;
    place.learn::<Tells>(writer.tell::<Tells>());
    Ok(Reader::over(place, known.again()))
}

fn fill(
    writer: &mut Desk,
    known: &Known,
    readers: &mut Vec<Reader>,
    count: u32,
) -> Result<(), AllocError>
    requires writer { IsTied writer.old known.now }
    requires none { readers.old.items ≡ [] }
    ensures same { Shows writer.new known.now }
    ensures new { All (λ reader. reader ≡ known.now) readers.new.items }
    ensures count { OnOk result (vec_len readers.new ≡ count) }
{
    for _ in 0..count {
        let reader = tied(writer, known)?;
        if readers.push(reader).is_err() {
            return Err(AllocError);
        }
    }
    Ok(())
}

/// Puts the empty set, so that the writer's log reserves memory for it.
fn put_empty(writer: &mut Desk, known: &Known) -> Result<(), AllocError>
    requires { known.now.loads ≡ [] }
    ensures desk { writer.new.desk ≡ writer.old.desk }
    ensures last { OnOk result (pending writer.new ≡ pending writer.old ++ known.now ∷ []) }
{
    match writer.append(ProgramSet::empty(known.again())) {
        Ok(()) => Ok(()),
        Err(_) => Err(AllocError),
    }
}

/// The copies of the set before any load, one of which readers see. The log of operations then has enough memory for
/// all that is ever in it, so no publication allocates.
fn opened<R: Wait>(rt: &R, writer: Desk, known: &Known) -> (Desk, Result<(), AllocError>)
    requires empty { known.now.loads ≡ [] }
    requires own { writer.desk.shown.value.list ≡ known.now.list }
    ensures { OnOk result.1 (IsTied result.0 known.now) }
{
    let mut writer = writer;
    if put_empty(&mut writer, known).is_err() || put_empty(&mut writer, known).is_err() {
        return (writer, Err(AllocError));
    }
    let mut writer = show(rt, writer, known);
    if put_empty(&mut writer, known).is_err() {
        return (writer, Err(AllocError));
    }
    (show(rt, writer, known), Ok(()))
}

/// A publisher for maps of these shapes, and `readers` readers. Lack of memory is 40.
pub fn published<R: Wait>(
    rt: &R,
    alloc: Global,
    shapes: Shapes,
    readers: u32,
) -> Result<(Publisher, Published), AllocError>
    ensures shapes { IfOk result (λ t. t.0.shapes ≡ shapes) }
    ensures empty { IfOk result (λ t. t.0.loads ≡ []) }
    ensures readers { IfOk result (λ t. t.1 ≡ readers_of t.0 readers) }
{
    let Some((author, known)) = Known::open(&shapes) else {
        return Err(AllocError);
    };
    let first = ProgramSet::empty(known.again());
    let second = ProgramSet::empty(known.again());
    let writer: Desk = Writer::new(alloc, first, second, readers.max(1) as usize)?;
    let (mut writer, outcome) = opened(rt, writer, &known);
    let mut all = Vec::new(alloc);
    if outcome.is_err() || fill(&mut writer, &known, &mut all, readers).is_err() {
        drop(writer.take(rt));
        return Err(AllocError);
    }
    let published = Published::of(all, known.again());
    Ok((Publisher::over(writer, author, known, shapes), published))
}
