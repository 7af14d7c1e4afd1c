//! Programs for data with what they need: a map of one word, a seat of it, and the set that has a program.

ghost use Rattle.std.specs.Prelude.{◌≡◌, IfSome};
ghost use Rattle.bpf_helpers.specs.Hooked.{HaveTables, IsFitting, shapes_of};
ghost use Rattle.bpf_regions.specs.declared.hooks.Hook.TheVariants.{Data};
ghost use Rattle.versions.specs.Sets.{kept};

use bpf_decode::decode;
use bpf_helpers::{MapTables, WorkerState};
use bpf_machine::Accepted;
use bpf_regions::{Hook, Scope, Shape, Shapes, WordWidth};
use bpf_text::assemble;
use bpf_verifier::verify;
use hook_judge::CountedState;
use std::alloc::Global;
use std::sync::{Arc, Wait};
use versions::ProgramSet;
use versions::new_publisher::published;

/// The programs that are measured, with their names. The filter: R0 is 0 for QoS data with LLC/SNAP, IPv4 and UDP to
/// port 53, and else 1; it tests the frame's end first. The counter: adds 1 to word 0 of map 0, and R0 is 0.
pub static POLICIES: [(&str, Option<&str>); 3] = [
    ("no program", None),
    (
        "port filter",
        Some(
            "mov r4, r1
add r4, 58
jgt r4, r2, +23
ldxb r2, [r1+26]
jne r2, 170, +21
ldxb r2, [r1+27]
jne r2, 170, +19
ldxh r2, [r1+32]
be16 r2
jne r2, 2048, +16
ldxb r3, [r1+34]
mov r4, r3
rsh r4, 4
jne r4, 4, +12
and r3, 15
jne r3, 5, +10
ldxb r2, [r1+43]
jne r2, 17, +8
ldxh r2, [r1+40]
and r2, 8191
jne r2, 0, +5
ldxh r2, [r1+56]
be16 r2
jne r2, 53, +2
mov r0, 0
exit
mov r0, 1
exit
",
        ),
    ),
    (
        "map counter",
        Some(
            "lddw r1, value 0 0
mov r2, 1
atomic_add [r1+0], r2
mov r0, 0
exit
",
        ),
    ),
];

/// A map, and a seat of worker 0 at its table.
#[derive(Drop)]
pub struct Seated {
    pub maps: Vec<MapTables>,
    pub state: CountedState,
    pub ghost fits: { IsFitting maps.items 0 state.seats },
}

/// One map of one word of eight bytes that all workers share, with one seat.
fn one_map(alloc: Global) -> Option<Vec<MapTables>>
    ensures tables { IfSome result (λ maps. HaveTables maps.items 0) }
{
    let shape = Shape {
        entries: 1,
        words: 1,
        width: WordWidth::Eight,
        scope: Scope::Shared,
    };
    let map = MapTables::new(alloc, shape, 1, 1).ok()?;
    vec![in alloc; map].ok()
}

/// The next seat of worker 0 at each table of these maps.
fn seat_at(alloc: Global, maps: &mut [MapTables]) -> Option<CountedState>
    requires there { HaveTables maps.old 0 }
    ensures fits { IfSome result (λ state. IsFitting maps.new 0 state.seats) }
{
    let state = WorkerState::seated(alloc, maps, 0, 0).ok()?;
    CountedState::new(alloc, state).ok()
}

/// That map, with its seat.
pub fn one_seat(alloc: Global) -> Option<Seated> {
    let mut maps = one_map(alloc)?;
    let state = seat_at(alloc, maps.as_mut_slice())?;
    Some(Seated { maps, state })
}

/// The shapes of one map.
fn shapes_of(alloc: Global, maps: &[MapTables]) -> Option<Shapes>
    ensures is { IfSome result (λ shapes. shapes ≡ shapes_of maps.now) }
{
    let [map] = maps else {
        return None;
    };
    Shapes::new(vec![in alloc; map.shape()].ok()?)
}

/// The program of a text, accepted for data and these shapes.
fn accepted(alloc: Global, text: &str, shapes: Shapes) -> Option<Arc<Accepted>>
    ensures { IfSome (kept result) (λ accepted. accepted.hook ≡ Data) }
{
    let code = assemble(alloc, text).ok()?;
    let program = decode(alloc, code.as_slice(), shapes).ok()?;
    let accepted = verify(alloc, program, Hook::Data).ok()?;
    Arc::new(alloc, accepted).ok()
}

/// A set for these maps whose data program is that of a text, or that has none.
pub fn set_of<R: Wait>(
    rt: &R,
    alloc: Global,
    text: Option<&str>,
    maps: &[MapTables],
) -> Option<ProgramSet>
    ensures shapes { IfSome result (λ set. set.shapes ≡ shapes_of maps.now) }
{
    let program = match text {
        Some(text) => accepted(alloc, text, shapes_of(alloc, maps)?),
        None => None,
    };
    let (mut publisher, _sets) = published(rt, alloc, shapes_of(alloc, maps)?, 1).ok()?;
    let _ = publisher.publish(rt, Hook::Data, program);
    Some(publisher.close(rt))
}
