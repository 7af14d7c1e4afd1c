//! Accesses of C to words of maps.

ghost use Rattle.std.specs.Prelude.{◌≡◌, ◌≢◌, ◌<◌, ◌↔◌, map, slice_get, Some, IsTrue, IfOk, IfErr};
ghost use Rattle.bpf_regions.specs.declared.asks.Ask.TheVariants.{Access};
ghost use Rattle.bpf_regions.specs.declared.maps.MapOp.TheVariants.{Load, Store};
ghost use Rattle.bpf_model.specs.Run.{InRange, words_in};
ghost use Rattle.bpf_helpers.specs.Hooked.{Gives, IsFitting, shapes_of};
ghost use Rattle.apd_c.specs.Held.{held};
ghost use Rattle.apd_c.specs.Answers.{number_in};
ghost use Rattle.apd_c.specs.Given.{shape_of};
ghost use Rattle.apd_c.specs.Words.{HasAccessed, HoldsMaps, IsAccessNumber, IsAccessed, IsMakingNumber, IsMapsNumber, IsWordNumber, Operates, reads_of};

use crate::answer::{NO_MEMORY, NOT_EMPTY, OTHER_VALUE, OUT_OF_LIMITS};
use crate::handle::{Content, Handle};
use crate::maps::Maps;
use crate::shapes::{MapShape, shapes_from};
use ap_tables::ApTables;
use bpf_helpers::{HookPort, WorkerState, WorkerView};
use bpf_regions::{MapOp, Shapes};
use bpf_tagged::Port;
use std::alloc::Global;

/// A word that was loaded, or why none was.
#[repr(C)]
#[derive(Clone, Copy, Debug, PartialEq, Eq)]
pub struct Loaded {
    pub number: u32,
    pub value: u64,
}

impl Loaded {
    fn refused(number: u32) -> Loaded
        ensures { result ≡ record { number = number; value = 0 } }
    {
        Loaded { number, value: 0 }
    }
}

/// Whether there is a map of that number, which has the word.
fn has_word(shapes: &Shapes, map: u32, word: u32) -> bool
    ensures { IsTrue result ↔ (word < words_in (slice_get shapes.now map)) }
{
    match shapes.get(map) {
        Some(shape) => word < shape.word_count(),
        None => false,
    }
}

/// One access to a word, by C's seats.
fn ask(tables: &ApTables, hand: &mut WorkerState, map: u32, word: u32, operation: MapOp) -> u64
    requires there { word < words_in (slice_get (shapes_of tables.now.maps) map) }
    requires fitting { IsFitting tables.now.maps 0 hand.old.seats }
    ensures made { Gives (reads_of tables.now.maps) hand.old (Access map word operation) result
        hand.new }
    ensures in_range { InRange (shapes_of tables.now.maps) (Access map word operation) result }
    ensures fitting { IsFitting tables.now.maps 0 hand.new.seats }
{
    let view = WorkerView {
        maps: tables.maps(),
        worker: 0,
        clock: 0,
        stations: 0,
    };
    let mut port = HookPort { view, state: hand };
    port.access(map, word, operation)
}

/// One access to a word, if a map has it.
fn access(maps: &mut Maps, at: u32, word: u32, operation: MapOp) -> Loaded
    ensures made { result.number ≡ 0 →
        IsAccessed maps.old at word operation result.value maps.new }
    ensures refused { result.number ≢ 0 → maps.new ≡ maps.old }
    ensures number { IsWordNumber maps.old.shapes at word result.number }
{
    if !has_word(&maps.shapes, at, word) {
        return Loaded::refused(OUT_OF_LIMITS);
    }
    let value = ask(&maps.tables, &mut maps.hand, at, word, operation);
    Loaded { number: 0, value }
}

/// The same if a content is maps.
fn access_in(content: &mut Content, map: u32, word: u32, operation: MapOp) -> Loaded
    ensures { Operates (Some content.old) map word operation result (Some content.new) }
{
    match content {
        Content::Maps(maps) => access(maps, map, word, operation),
        _ => Loaded::refused(OTHER_VALUE),
    }
}

/// One access to a word of the maps that a handle holds.
pub(crate) fn access_at(maps: &mut Handle, map: u32, word: u32, operation: MapOp) -> Loaded
    ensures { Operates (held maps.old) map word operation result (held maps.new) }
{
    match maps.lent() {
        None => Loaded::refused(OTHER_VALUE),
        Some(content) => access_in(content, map, word, operation),
    }
}

/// Maps whose words are 0, as C describes them.
fn made(alloc: Global, shapes: &[MapShape], draw: u64) -> Result<Maps, u32>
    ensures ok { IfOk result (λ m. (m.shapes ≡ map shape_of shapes.now)
        × (m.state.draw ≡ draw)) }
    ensures err { IfErr result (λ number. number ≢ 0) }
    ensures number { IsMakingNumber shapes.now (number_in result) }
{
    match shapes_from(alloc, shapes) {
        Err(_) => Err(NO_MEMORY),
        Ok(None) => Err(OUT_OF_LIMITS),
        Ok(Some(shapes)) => match Maps::new(alloc, shapes, draw) {
            Err(fault) => Err(u32::from(fault.number())),
            Ok(maps) => Ok(maps),
        },
    }
}

/// Fills an empty handle with maps of these shapes, whose words are 0. `draw` is the first number that programs draw.
///
/// 0: the handle holds them. 40: an allocation failed. 62: no map seat is left, which only tests rule out. 90: the
/// shapes are out of their limits. 92: the handle isn't empty. All but 0 leave the handle unchanged.
#[unsafe(no_mangle)]
pub extern "C" fn apd_c_maps(
    alloc: Global,
    maps: &mut Handle,
    shapes: &[MapShape],
    draw: u64,
) -> u32
    ensures made { result ≡ 0 → HoldsMaps shapes.now draw (held maps.new) }
    ensures kept { result ≢ 0 → held maps.new ≡ held maps.old }
    ensures number { IsMapsNumber shapes.now (held maps.old) result }
{
    if !maps.is_empty() {
        return NOT_EMPTY;
    }
    match made(alloc, shapes, draw) {
        Err(number) => number,
        Ok(words) => maps.fill_maps(alloc, words).number,
    }
}

/// Loads a word of a map. A word's number is its entry's index times the words of an entry, plus its index in the
/// entry.
///
/// 0: the word was loaded. 90: there is no such word. 91: the handle holds no maps. It allocates nothing.
#[unsafe(no_mangle)]
pub extern "C" fn apd_c_load(maps: &mut Handle, map: u32, word: u32) -> Loaded
    ensures { Operates (held maps.old) map word Load result (held maps.new) }
{
    access_at(maps, map, word, MapOp::Load)
}

/// Stores a number, mod 2^(8 * width), in a word of a map.
///
/// 0: it was stored. 90: there is no such word. 91: the handle holds no maps. All but 0 leave the maps unchanged. It
/// allocates nothing.
#[unsafe(no_mangle)]
pub extern "C" fn apd_c_store(maps: &mut Handle, map: u32, word: u32, value: u64) -> u32
    ensures stored { result ≡ 0 →
        HasAccessed (held maps.old) map word (Store value) 0 (held maps.new) }
    ensures kept { result ≢ 0 → held maps.new ≡ held maps.old }
    ensures number { IsAccessNumber (held maps.old) map word result }
{
    access_at(maps, map, word, MapOp::Store(value)).number
}
