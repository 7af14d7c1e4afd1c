//! The maps that programs are given.

use crate::numbers::Numbers;
use bpf_regions::{Scope, Shape, Shapes, WordWidth};
use std::alloc::{AllocError, Global};

/// A map of 8-byte words. The policies use its first 9 entries of 2 words.
const SHARED: Shape = Shape {
    entries: 2008,
    words: 2,
    width: WordWidth::Eight,
    scope: Scope::Shared,
};

/// A map with long entries.
const LONG: Shape = Shape {
    entries: 4,
    words: 8,
    width: WordWidth::Eight,
    scope: Scope::Worker,
};

/// A map of 4-byte words.
const NARROW: Shape = Shape {
    entries: 16,
    words: 3,
    width: WordWidth::Four,
    scope: Scope::Shared,
};

/// The shapes of these maps. If they aren't within the limits, lack of memory.
pub fn shapes_of(maps: Vec<Shape>) -> Result<Shapes, AllocError> {
    match Shapes::new(maps) {
        Some(shapes) => Ok(shapes),
        None => Err(AllocError),
    }
}

/// The shapes of three maps.
pub fn shapes(alloc: Global) -> Result<Shapes, AllocError> {
    shapes_of(Vec::from_slice(alloc, &[SHARED, LONG, NARROW])?)
}

/// These shapes, or rarely that of one map.
pub fn some_shapes(alloc: Global, numbers: &mut Numbers) -> Result<Shapes, AllocError> {
    if numbers.is_one_in(16) {
        return shapes_of(Vec::from_slice(alloc, &[NARROW])?);
    }
    shapes(alloc)
}

/// A copy of shapes.
pub fn copied(alloc: Global, shapes: &Shapes) -> Result<Shapes, AllocError> {
    shapes_of(Vec::from_slice(alloc, shapes.as_slice())?)
}
