//! Calls each constructor at its limits.

use crate::tests::same::{holds, same};
use bpf_regions::{Context, Frame, Hook, Scope, Shape, Shapes, Value, WordWidth};
use std::alloc::Global;
use std::process::Abort;

fn shape(entries: u32, words: u32) -> Shape {
    Shape {
        entries,
        words,
        width: WordWidth::Eight,
        scope: Scope::Shared,
    }
}

/// Entries and words of a map, how many such maps there are, and whether they are within the limits.
static SIZES: &[(u32, u32, usize, bool)] = &[
    (1, 1, 1, true),
    (4096, 8, 1, true),
    (0, 1, 1, false),
    (1, 0, 1, false),
    (4097, 1, 1, false),
    (1, 9, 1, false),
    (1, 1, 16, true),
    (1, 1, 17, false),
];

/// Whether such shapes can be a program's maps.
fn is_limited(rt: &impl Abort, alloc: Global, row: &(u32, u32, usize, bool)) {
    let (entries, words, maps, wanted) = row;
    let shapes = vec![in alloc; shape(*entries, *words); *maps].expect(rt, "memory");
    let found = Shapes::new(shapes).is_some();
    same(rt, (*entries, *words, *maps, found), *row, "maps");
}

/// A map is found by its number.
fn is_found(rt: &impl Abort, shapes: &Shapes) {
    let found = shapes.get(1).expect(rt, "map 1");
    let lengths = (shapes.len(), shapes.is_empty(), shapes.as_slice().len());
    same(rt, lengths, (2, false, 2), "shapes");
    same(
        rt,
        (found.entry_bytes(), found.word_count()),
        (64, 8),
        "sizes",
    );
    holds(rt, shapes.get(2).is_none(), "no map 2");
}

#[test]
fn shapes_have_limits(rt: HostRuntime) {
    for row in SIZES {
        is_limited(&rt, rt.alloc(), row);
    }
    let two = Vec::from_slice(rt.alloc(), &[shape(4, 1), shape(1, 8)]);
    let shapes = Shapes::new(two.expect(&rt, "memory")).expect(&rt, "two maps");
    is_found(&rt, &shapes);
    drop(shapes);
}

fn is_named(rt: &impl Abort, alloc: Global, hook: Hook, name: &str) {
    let named = hook.to_string(alloc).expect(rt, "memory");
    same(rt, named.as_str(), name, "named");
}

static HOOKS: &[(Hook, &str)] = &[
    (Hook::Association, "assoc"),
    (Hook::Addba, "addba"),
    (Hook::Data, "data"),
];

#[test]
fn hooks_are_named_and_inputs_hold_their_bytes(rt: HostRuntime) {
    for (hook, name) in HOOKS {
        is_named(&rt, rt.alloc(), *hook, name);
    }
    same(&rt, Hook::Data.number(), 3, "number");
    // Inputs hold their bytes.
    let frame = Frame::new(&[8, 1]).expect(&rt, "a frame");
    same(&rt, frame.bytes().len(), 2, "bytes");
    let limits = [
        Frame::new(&[0; 2400]).is_some(),
        Frame::new(&[0; 2401]).is_some(),
    ];
    same(&rt, limits, [true, false], "a frame's limit");
    same(&rt, Context::new([7; 32]).bytes()[31], 7, "last byte");
    same(&rt, Value::default(), Value::Unset, "default");
}
