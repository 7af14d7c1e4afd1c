//! The maps of a configuration.

ghost use Rattle.std.specs.Prelude.{◌≡◌, ◌≤◌, IfOk, IfErr, IfSome, IfNone, OnOk, Some, true, false, not, find, string_bytes, option_map, option_and_then, codes, length};
ghost use Rattle.std.specs.List.{list_all};
ghost use Rattle.toml.specs.Data.{get_member, array};
ghost use Rattle.toml.specs.View.{view, table_view, array_view};
ghost use Rattle.bpf_regions.specs.Maps.{AreShapes};
ghost use Rattle.apd_config.specs.Keys.{map_text_of};
ghost use Rattle.apd_config.specs.Meaning.{count_of, width_of, scope_of, scope_or_shared, is_map_key, keys_in, SaysShape, SaysMap, SaysShapes, SaysMaps};
ghost use Rattle.apd_config.specs.Text.{are_maps, Tells, TellsOfItems, TellsOfItem, TellsOfMap, LacksKey};

use crate::fault::ConfigFault;
use crate::keys::{Key, MapKey};
use crate::tables::value_at;
use bpf_regions::{Scope, Shape, Shapes, WordWidth};
use std::alloc::Global;
use toml::value::Array;
use toml::{Table, Value};

const MOST_MAPS: usize = 16;

fn as_count(value: &Value, limit: u32) -> Option<u32>
    ensures is { result ≡ count_of limit (view value.now) }
{
    match value.as_integer() {
        Some(number) if 1 <= number && number <= i64::from(limit) => Some(number as u32),
        _ => None,
    }
}

fn as_width(value: &Value) -> Option<WordWidth>
    ensures is { result ≡ width_of (view value.now) }
{
    match value.as_integer() {
        Some(4) => Some(WordWidth::Four),
        Some(8) => Some(WordWidth::Eight),
        _ => None,
    }
}

fn as_scope(value: &Value) -> Option<Scope>
    ensures is { result ≡ scope_of (view value.now) }
{
    let text = value.as_str()?;
    if text == "shared" {
        Some(Scope::Shared)
    } else if text == "worker" {
        Some(Scope::Worker)
    } else {
        None
    }
}

/// The value of a key that a map's table must have.
fn value(map: usize, table: &Table, key: MapKey) -> Result<&Value, ConfigFault>
    ensures found { IfOk result
        (λ v. get_member (map_text_of key) (table_view table.now) ≡ Some (view v.now)) }
    ensures missing { IfErr result (λ e. e ≡ ConfigFault.MissingInMap map key) }
    ensures lacks { IfErr result (λ _. LacksKey (table_view table.now) (map_text_of key)) }
{
    match value_at(table, key.as_str()) {
        Some(value) => Ok(value),
        None => Err(ConfigFault::MissingInMap { map, key }),
    }
}

fn entries(map: usize, table: &Table) -> Result<u32, ConfigFault>
    ensures value { IfOk result (λ n. option_and_then (count_of 4096)
        (get_member (codes "entries") (table_view table.now)) ≡ Some n) }
    ensures fault { IfErr result (TellsOfMap (table_view table.now) map) }
{
    let value = value(map, table, MapKey::Entries)?;
    match as_count(value, 4096) {
        Some(entries) => Ok(entries),
        None => Err(ConfigFault::ValueInMap {
            map,
            key: MapKey::Entries,
        }),
    }
}

fn words(map: usize, table: &Table) -> Result<u32, ConfigFault>
    ensures value { IfOk result (λ n.
        option_and_then (count_of 8) (get_member (codes "words") (table_view table.now)) ≡ Some n) }
    ensures fault { IfErr result (TellsOfMap (table_view table.now) map) }
{
    let value = value(map, table, MapKey::Words)?;
    match as_count(value, 8) {
        Some(words) => Ok(words),
        None => Err(ConfigFault::ValueInMap {
            map,
            key: MapKey::Words,
        }),
    }
}

fn width(map: usize, table: &Table) -> Result<WordWidth, ConfigFault>
    ensures value { IfOk result (λ w.
        option_and_then width_of (get_member (codes "width") (table_view table.now)) ≡ Some w) }
    ensures fault { IfErr result (TellsOfMap (table_view table.now) map) }
{
    let value = value(map, table, MapKey::Width)?;
    match as_width(value) {
        Some(width) => Ok(width),
        None => Err(ConfigFault::ValueInMap {
            map,
            key: MapKey::Width,
        }),
    }
}

/// The scope; shared if the table has no key for it.
fn scope(map: usize, table: &Table) -> Result<Scope, ConfigFault>
    ensures value { IfOk result
        (λ s. scope_or_shared (get_member (codes "scope") (table_view table.now)) ≡ Some s) }
    ensures fault { IfErr result (TellsOfMap (table_view table.now) map) }
{
    let Some(value) = value_at(table, MapKey::Scope.as_str()) else {
        return Ok(Scope::Shared);
    };
    match as_scope(value) {
        Some(scope) => Ok(scope),
        None => Err(ConfigFault::ValueInMap {
            map,
            key: MapKey::Scope,
        }),
    }
}

fn is_map_key(text: &str) -> bool
    ensures is { result ≡ is_map_key text.now }
{
    text == "entries" || text == "words" || text == "width" || text == "scope"
}

/// The first key that no map has.
fn unknown_key(table: &Table) -> Option<&String>
    ensures is { option_map (λ key. string_bytes key.now) result
        ≡ find (λ key. not (is_map_key key)) (keys_in (table_view table.now)) }
{
    table.keys().find(|key| !is_map_key(key.as_str()))
}

/// Checks that a map's table has no other keys.
fn knows_keys(map: usize, table: &Table) -> Result<(), ConfigFault>
    ensures known { OnOk result (list_all is_map_key (keys_in (table_view table.now)) ≡ true) }
    ensures fault { IfErr result (TellsOfMap (table_view table.now) map) }
{
    match unknown_key(table) {
        None => Ok(()),
        Some(key) => {
            let key = key.clone()?;
            Err(ConfigFault::UnknownMapKey { map, key })
        }
    }
}

/// The shape that a map's table spells.
fn shape(map: usize, table: &Table) -> Result<Shape, ConfigFault>
    ensures says { IfOk result (SaysShape (table_view table.now)) }
    ensures fault { IfErr result (TellsOfMap (table_view table.now) map) }
{
    knows_keys(map, table)?;
    let entries = entries(map, table)?;
    let words = words(map, table)?;
    let width = width(map, table)?;
    let scope = scope(map, table)?;
    Ok(Shape {
        entries,
        words,
        width,
        scope,
    })
}

/// The array that a value is, if it has at most 16 items.
fn as_few(value: &Value) -> Option<&Array>
    ensures array { IfSome result (λ maps. view value.now ≡ array (array_view maps.now)) }
    ensures few { IfSome result (λ maps. length maps.now.items ≤ 16) }
    ensures none { IfNone result (are_maps (view value.now) ≡ false) }
{
    match value.as_array() {
        Some(maps) if maps.len() <= MOST_MAPS => Some(maps),
        _ => None,
    }
}

/// The shape that a map's item spells.
fn shape_of(number: usize, map: &Value) -> Result<Shape, ConfigFault>
    ensures says { IfOk result (SaysMap (view map.now)) }
    ensures fault { IfErr result (TellsOfItem (view map.now) number) }
{
    match map.as_table() {
        Some(table) => shape(number, table),
        None => Err(ConfigFault::Value(Key::Map)),
    }
}

/// The shapes that the tables spell, in order.
fn listed(alloc: Global, maps: &Array) -> Result<Vec<Shape>, ConfigFault>
    ensures says { IfOk result (λ shapes. SaysShapes (array_view maps.now) shapes.items) }
    ensures fault { IfErr result (TellsOfItems (array_view maps.now)) }
{
    let mut shapes = Vec::new(alloc);
    for (number, map) in maps.iter().enumerate() {
        let shape = shape_of(number, map)?;
        shapes.push(shape)?;
    }
    Ok(shapes)
}

fn as_shapes(shapes: Vec<Shape>) -> Shapes
    requires { AreShapes shapes.items }
    ensures { result ≡ shapes.items }
{
    match Shapes::new(shapes) {
        Some(shapes) => shapes,
        None => unreachable!(),
    }
}

/// The maps' shapes; none if the table has no key for them.
pub(crate) fn shapes(alloc: Global, table: &Table) -> Result<Shapes, ConfigFault>
    ensures says { IfOk result (SaysMaps (get_member (codes "map") (table_view table.now))) }
    ensures fault { IfErr result (Tells (table_view table.now)) }
{
    let Some(value) = value_at(table, Key::Map.as_str()) else {
        return Ok(as_shapes(Vec::new(alloc)));
    };
    let Some(maps) = as_few(value) else {
        return Err(ConfigFault::Value(Key::Map));
    };
    let shapes = listed(alloc, maps)?;
    Ok(as_shapes(shapes))
}
