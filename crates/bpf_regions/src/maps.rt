//! The shapes of maps, and the accesses to their words.

ghost use Rattle.std.specs.Prelude.{◌≡◌, ◌<◌, ◌≤◌, ◌*◌, ◌↔◌, ℕ, List, length, slice_get, IsTrue, IsSome, IfSome};
ghost use Rattle.bpf_regions.specs.declared.maps.Shape.{Shape};
ghost use Rattle.bpf_regions.specs.Maps.{bytes_of, entry_bytes, word_count, IsShape, AreShapes};

use std::alloc::AllocError;
use std::marker::Model;

/// Whether all workers share a map, or each has its own.
#[derive(Clone, Copy, Debug, PartialEq, Eq)]
pub enum Scope {
    Shared,
    Worker,
}

/// The size of a map word in bytes.
#[derive(Clone, Copy, Debug, PartialEq, Eq)]
pub enum WordWidth {
    Four,
    Eight,
}

impl WordWidth {
    /// 4 or 8.
    pub fn bytes(self) -> u32
        ensures is { result ≡ bytes_of self }
    {
        match self {
            WordWidth::Four => 4,
            WordWidth::Eight => 8,
        }
    }
}

/// A map's shape. `Shapes` admits only 1 to 4096 entries of 1 to 8 words.
#[derive(Clone, Copy, Debug, PartialEq, Eq)]
pub struct Shape {
    pub entries: u32,
    /// The words of one entry.
    pub words: u32,
    pub width: WordWidth,
    pub scope: Scope,
}

impl Shape {
    /// Whether the map has 1 to 4096 entries of 1 to 8 words.
    pub fn is_valid(&self) -> bool
        ensures is { IsTrue result ↔ IsShape self.now }
    {
        1 <= self.entries && self.entries <= 4096 && 1 <= self.words && self.words <= 8
    }

    /// The bytes of one entry.
    pub fn entry_bytes(&self) -> u32
        requires valid { IsShape self.now }
        ensures is { result ≡ entry_bytes self.now }
    {
        self.words * self.width.bytes()
    }

    /// The words of the whole map.
    pub fn word_count(&self) -> u32
        requires valid { IsShape self.now }
        ensures is { result ≡ word_count self.now }
    {
        self.entries * self.words
    }
}

/// The shapes of a program's maps: at most 16, each within its limits.
#[derive(Debug, Drop)]
pub struct Shapes {
    shapes: Vec<Shape>,
}

impl Model for Shapes {
    ghost Value = { List Shape };

    ghost view = { λ s. s.shapes.items };

    ghost invariant = { λ s. AreShapes s.shapes.items };
}

impl Clone for Shapes {
    ghost is_clone = { λ a b. b ≡ a };

    fn clone(&self) -> Result<Shapes, AllocError> {
        let shapes = self.shapes.clone()?;
        Ok(Shapes { shapes })
    }
}

impl Shapes {
    /// `None` if there are more than 16 maps, or one is outside the limits.
    pub fn new(shapes: Vec<Shape>) -> Option<Self>
        ensures valid { IsSome result ↔ AreShapes shapes.items }
        ensures value { IfSome result (λ s. s ≡ shapes.items) }
    {
        if shapes.len() <= 16 && shapes.iter().all(|shape| shape.is_valid()) {
            Some(Shapes { shapes })
        } else {
            None
        }
    }

    /// Does nothing; its contract says that there are at most 16 shapes, each within its limits.
    pub fn whole(&self)
        ensures is { AreShapes self.now }
    {
        let _ = &self.shapes;
    }

    pub fn len(&self) -> usize
        ensures is { result ≡ length self.now }
    {
        self.shapes.len()
    }

    pub fn is_empty(&self) -> bool
        ensures is { IsTrue result ↔ (length self.now ≡ 0) }
    {
        self.shapes.len() == 0
    }

    /// The shape of map number `map`, if it exists.
    pub fn get(&self, map: u32) -> Option<Shape>
        ensures is { result ≡ slice_get self.now map }
        ensures valid { IfSome result IsShape }
    {
        self.shapes.get(map as usize).copied()
    }

    pub fn as_slice(&self) -> &[Shape]
        ensures is { result.now ≡ self.now }
    {
        self.shapes.as_slice()
    }
}

/// An access to one word of a map. A store returns 0, every other access the old number.
#[derive(Clone, Copy, Debug, PartialEq, Eq)]
pub enum MapOp {
    Load,
    Store(u64),
    Swap(u64),
    Add(u64),
    Or(u64),
    And(u64),
    Xor(u64),
    /// Writes `new` if the word holds `expected`.
    CompareExchange { expected: u64, new: u64 },
}
