//! The setting of tests with programs: a worker's seats of a map, and sets of programs for that map.

ghost use Rattle.std.specs.Prelude.{◌≡◌};
ghost use Rattle.bpf_helpers.specs.Hooked.{HaveTables, IsFitting, shapes_of};

use crate::same::holds;
use bpf_decode::decode;
use bpf_helpers::{MapTables, WorkerState};
use bpf_machine::Accepted;
use bpf_regions::{Hook, Scope, Shape, Shapes, WordWidth};
use bpf_text::assemble;
use bpf_verifier::verify;
use hook_judge::CountedState;
use std::alloc::Global;
use std::process::Abort;
use std::sync::{Arc, Wait};
use versions::new_publisher::published;
use versions::{Entered, Publisher};

/// Maps, and two seats of worker 0 at each of its tables.
#[derive(Drop)]
pub struct Seated {
    pub maps: Vec<MapTables>,
    pub state: CountedState,
    pub other: WorkerState,
    pub ghost fits: { IsFitting maps.items 0 state.seats },
    pub ghost other_fits: { IsFitting maps.items 0 other.seats },
}

/// One map of one word of eight bytes that all workers share.
fn one_map(rt: &impl Abort, alloc: Global) -> Vec<MapTables>
    ensures tables { HaveTables result.items 0 }
{
    let shape = Shape {
        entries: 1,
        words: 1,
        width: WordWidth::Eight,
        scope: Scope::Shared,
    };
    let map = MapTables::new(alloc, shape, 1, 2).expect(rt, "tables");
    vec![in alloc; map].expect(rt, "memory")
}

/// The next two seats of worker 0 at each table of these maps.
fn seats_at(rt: &impl Abort, alloc: Global, maps: &mut [MapTables]) -> (CountedState, WorkerState)
    requires there { HaveTables maps.old 0 }
    ensures one { IsFitting maps.new 0 result.0.seats }
    ensures other { IsFitting maps.new 0 result.1.seats }
{
    let one = WorkerState::seated(alloc, maps, 0, 0).expect(rt, "seats");
    let one = CountedState::new(alloc, one).expect(rt, "counts");
    let other = WorkerState::seated(alloc, maps, 0, 0).expect(rt, "seats");
    (one, other)
}

/// That map, with both its seats.
pub fn two_seats(rt: &impl Abort, alloc: Global) -> Seated {
    let mut maps = one_map(rt, alloc);
    let (state, other) = seats_at(rt, alloc, maps.as_mut_slice());
    Seated { maps, state, other }
}

/// The shapes of one map.
fn shapes_of(rt: &impl Abort, alloc: Global, maps: &[MapTables]) -> Shapes
    ensures is { result ≡ shapes_of maps.now }
{
    let [map] = maps else {
        panic!(rt; "another number of maps");
    };
    let shapes = vec![in alloc; map.shape()].expect(rt, "memory");
    Shapes::new(shapes).expect(rt, "maps within the limits")
}

/// The accepted program of this text, over these maps.
pub fn admitted(
    rt: &impl Abort,
    alloc: Global,
    text: &str,
    hook: Hook,
    maps: &[MapTables],
) -> Accepted
    ensures hook { result.hook ≡ hook }
    ensures shapes { shapes_of maps.now ≡ result.code.shapes }
{
    let code = assemble(alloc, text).expect(rt, text);
    let program = decode(alloc, &code, shapes_of(rt, alloc, maps)).expect(rt, text);
    verify(alloc, program, hook).expect(rt, text)
}

/// The programs' texts, by hook.
#[derive(Clone, Copy)]
pub struct Texts<'a> {
    pub association: Option<&'a str>,
    pub addba: Option<&'a str>,
    pub frames: Option<&'a str>,
}

pub const NO_TEXTS: Texts<'static> = Texts {
    association: None,
    addba: None,
    frames: None,
};

/// Publishes the program of a text for its hook, over these maps; if there is no text, removes the hook's program.
fn publish<R: Wait + Abort>(
    rt: &R,
    alloc: Global,
    publisher: &mut Publisher,
    policy: (Hook, Option<&str>),
    maps: &[MapTables],
)
    ensures list { publisher.new.list ≡ publisher.old.list }
    ensures shapes { publisher.new.shapes ≡ publisher.old.shapes }
{
    let (hook, text) = policy;
    let program = match text {
        None => None,
        Some(text) => {
            let accepted = admitted(rt, alloc, text, hook, maps);
            Some(Arc::new(alloc, accepted).expect(rt, "memory"))
        }
    };
    let published = publisher.publish(rt, hook, program);
    holds(rt, published.is_ok(), "the program is published");
}

/// A set of the programs of these texts, over these maps, entered by a reader, and its publisher.
pub fn entered<R: Wait + Abort>(
    rt: &R,
    alloc: Global,
    texts: Texts<'_>,
    maps: &[MapTables],
) -> (Publisher, Entered)
    ensures shapes { result.1.shapes ≡ shapes_of maps.now }
{
    let shapes = shapes_of(rt, alloc, maps);
    let (mut publisher, mut sets) = published(rt, alloc, shapes, 1).expect(rt, "memory");
    let reader = sets.reader().expect(rt, "a reader");
    publish(
        rt,
        alloc,
        &mut publisher,
        (Hook::Association, texts.association),
        maps,
    );
    publish(rt, alloc, &mut publisher, (Hook::Addba, texts.addba), maps);
    publish(rt, alloc, &mut publisher, (Hook::Data, texts.frames), maps);
    let held = sets.enter(rt, sets.learn(reader, publisher.tell()));
    (publisher, held)
}

/// The reader leaves, and then the publisher closes.
pub fn end<R: Wait>(rt: &R, publisher: Publisher, held: Entered) {
    drop(held.leave());
    drop(publisher.close(rt));
}
