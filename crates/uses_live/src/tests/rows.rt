//! One publisher and its readers, on one thread.

ghost use Rattle.std.specs.Prelude.{◌≡◌};
ghost use Rattle.std.specs.Arc.{arc_value};
ghost use Rattle.versions.specs.Lists.{Begins};

use crate::tests::programs::{accepted, answers_of, shapes_of};
use crate::tests::same::{holds, same};
use bpf_machine::Accepted;
use bpf_regions::{Hook, Scope, Shape, WordWidth};
use std::alloc::Global;
use std::process::Abort;
use std::sync::{Arc, Wait};
use versions::new_publisher::published;
use versions::{Entered, NoReader, PublishFault, Published, Publisher, Reader};

const ONE: &str = "mov r0, 1\nexit";

const ZERO: &str = "mov r0, 0\nexit";

/// The set that a reader enters after it has learned all loads so far.
pub fn enter_after<R: Wait>(
    rt: &R,
    publisher: &mut Publisher,
    sets: &Published,
    reader: Reader,
) -> Entered
    requires reader { reader.list ≡ sets.now.list }
    requires publisher { publisher.old.list ≡ sets.now.list }
    ensures same { publisher.new ≡ publisher.old }
    ensures told { Begins publisher.old result }
    ensures seen { Begins reader result }
{
    let reader = sets.learn(reader, publisher.tell());
    sets.enter(rt, reader)
}

/// A publisher without a program, and its sets for `readers` readers.
pub fn opened<R: Wait + Abort>(
    rt: &R,
    alloc: Global,
    maps: &[Shape],
    readers: u32,
) -> (Publisher, Published)
    ensures { result.1.list ≡ result.0.list }
{
    let shapes = shapes_of(rt, alloc, maps);
    published(rt, alloc, shapes, readers).expect(rt, "memory")
}

/// Publishes a program for its hook.
fn load<R: Wait + Abort>(rt: &R, publisher: &mut Publisher, hook: Hook, program: Arc<Accepted>)
    requires { (arc_value program).hook ≡ hook }
    ensures { publisher.new.list ≡ publisher.old.list }
{
    publisher
        .publish(rt, hook, Some(program))
        .expect(rt, "a publication");
}

/// The R0 of each hook's program in the set that a reader enters. The reader leaves the set again.
pub fn answers_for<R: Wait>(rt: &R, sets: &Published, reader: Reader) -> ([Option<u64>; 3], Reader)
    requires { reader.list ≡ sets.now.list }
    ensures { result.1.list ≡ sets.now.list }
{
    let held = sets.enter(rt, reader);
    let answers = answers_of(held.set());
    (answers, held.leave())
}

/// The programs of the set that a reader enters after it has learned all loads so far have this R0.
pub fn shows<R: Wait + Abort>(
    rt: &R,
    publisher: &mut Publisher,
    sets: &Published,
    reader: Reader,
    wanted: [Option<u64>; 3],
) -> Reader
    requires reader { reader.list ≡ sets.now.list }
    requires publisher { publisher.old.list ≡ sets.now.list }
    ensures same { publisher.new ≡ publisher.old }
    ensures reader { result.list ≡ sets.now.list }
{
    let reader = sets.learn(reader, publisher.tell());
    let (answers, reader) = answers_for(rt, sets, reader);
    same(rt, answers, wanted, "R0 of each hook");
    reader
}

#[test]
fn a_set_that_is_held_stays(rt: HostRuntime) {
    let alloc = rt.alloc();
    let one = accepted(&rt, alloc, ONE, Hook::Data, &[]);
    let zero = accepted(&rt, alloc, ZERO, Hook::Data, &[]);
    let (mut publisher, mut sets) = opened(&rt, alloc, &[], 1);
    let reader = sets.reader().expect(&rt, "a reader");
    load(&rt, &mut publisher, Hook::Data, one);
    let held = enter_after(&rt, &mut publisher, &sets, reader);
    load(&rt, &mut publisher, Hook::Data, zero);
    let answers = answers_of(held.set());
    same(&rt, answers, [None, None, Some(1)], "the set that is held");
    let wanted = [None, None, Some(0)];
    let reader = shows(&rt, &mut publisher, &sets, held.leave(), wanted);
    publisher.beginning_law(&reader);
    same(&rt, publisher.count(), 2, "loads");
    publisher.close(&rt);
}

#[test]
fn each_hook_has_a_program_of_its_own(rt: HostRuntime) {
    let alloc = rt.alloc();
    let one = accepted(&rt, alloc, ONE, Hook::Association, &[]);
    let zero = accepted(&rt, alloc, ZERO, Hook::Addba, &[]);
    let (mut publisher, mut sets) = opened(&rt, alloc, &[], 1);
    let reader = sets.reader().expect(&rt, "a reader");
    load(&rt, &mut publisher, Hook::Association, one);
    let wanted = [Some(1), None, None];
    let reader = shows(&rt, &mut publisher, &sets, reader, wanted);
    load(&rt, &mut publisher, Hook::Addba, zero);
    let wanted = [Some(1), Some(0), None];
    let reader = shows(&rt, &mut publisher, &sets, reader, wanted);
    publisher
        .publish(&rt, Hook::Association, None)
        .expect(&rt, "a removal");
    let wanted = [None, Some(0), None];
    let _reader = shows(&rt, &mut publisher, &sets, reader, wanted);
    publisher.close(&rt);
}

/// A map of four entries of two words of eight bytes, which all workers share.
const OWN: Shape = Shape {
    entries: 4,
    words: 2,
    width: WordWidth::Eight,
    scope: Scope::Shared,
};

/// Maps that differ from `OWN` in one thing each.
const OTHERS: [Shape; 4] = [
    Shape { entries: 5, ..OWN },
    Shape { words: 1, ..OWN },
    Shape {
        width: WordWidth::Four,
        ..OWN
    },
    Shape {
        scope: Scope::Worker,
        ..OWN
    },
];

/// A publisher for `OWN` refuses a program for another map, and the earlier program stays in force.
fn check_refused<R: Wait + Abort>(rt: &R, alloc: Global, other: Shape) {
    let one = accepted(rt, alloc, ONE, Hook::Data, &[OWN]);
    let zero = accepted(rt, alloc, ZERO, Hook::Data, &[other]);
    let (mut publisher, mut sets) = opened(rt, alloc, &[OWN], 1);
    let reader = sets.reader().expect(rt, "a reader");
    load(rt, &mut publisher, Hook::Data, one);
    let refused = publisher.publish(rt, Hook::Data, Some(zero));
    same(rt, refused, Err(PublishFault::OtherShapes), "other shapes");
    let wanted = [None, None, Some(1)];
    let _reader = shows(rt, &mut publisher, &sets, reader, wanted);
    publisher.close(rt);
}

#[test]
fn other_shapes_are_refused(rt: HostRuntime) {
    for other in OTHERS {
        check_refused(&rt, rt.alloc(), other);
    }
    same(&rt, PublishFault::OtherShapes.number(), 60, "other shapes");
    same(&rt, PublishFault::NoMemory.number(), 40, "no memory");
}

/// Whether another reader is given out.
fn gives(sets: &mut Published) -> bool {
    sets.reader().is_ok()
}

/// Exactly `count` readers are given out.
fn check_readers<R: Wait + Abort>(rt: &R, alloc: Global, count: u32) {
    let (publisher, mut sets) = opened(rt, alloc, &[], count);
    for _ in 0..count {
        holds(rt, gives(&mut sets), "a reader");
    }
    holds(rt, !gives(&mut sets), "no other");
    holds(rt, !gives(&mut sets), "nor after that");
    publisher.close(rt);
}

#[test]
fn readers_are_given_once(rt: HostRuntime) {
    for count in [0, 1, 4] {
        check_readers(&rt, rt.alloc(), count);
    }
    same(&rt, NoReader.number(), 62, "no reader");
}
