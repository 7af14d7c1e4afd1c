//! The shapes of maps, as C describes them.

ghost use Rattle.std.specs.Prelude.{◌≡◌, ◌↔◌, map, IsSome, IsTrue, IfOk, IfSome};
ghost use Rattle.std.specs.List.{All};
ghost use Rattle.apd_c.specs.Given.{AreInLimits, IsWidth, shape_of};

use bpf_regions::{Scope, Shape, Shapes, WordWidth};
use std::alloc::{AllocError, Global};

/// A map's shape: 1 to 4096 entries of 1 to 8 words of 4 or 8 bytes.
#[repr(C)]
#[derive(Clone, Copy, Debug, PartialEq, Eq)]
pub struct MapShape {
    pub entries: u32,
    /// The words of one entry.
    pub words: u32,
    /// The bytes of one word.
    pub width: u32,
}

fn shape_of(given: MapShape) -> Shape
    ensures { result ≡ shape_of given }
{
    Shape {
        entries: given.entries,
        words: given.words,
        width: if given.width == 8 {
            WordWidth::Eight
        } else {
            WordWidth::Four
        },
        scope: Scope::Shared,
    }
}

/// Whether all words have 4 or 8 bytes.
fn have_widths(given: &[MapShape]) -> bool
    ensures { IsTrue result ↔ All (λ s. IsWidth s.width) given.now }
{
    given.iter().all(|one| one.width == 4 || one.width == 8)
}

/// The shapes, with words that all workers share; `None` if there are more than 16, or one is out of its limits.
pub(crate) fn shapes_from(alloc: Global, given: &[MapShape]) -> Result<Option<Shapes>, AllocError>
    ensures are { IfOk result (λ o. IfSome o (λ s. s ≡ map shape_of given.now)) }
    ensures limits { IfOk result (λ o. IsSome o ↔ AreInLimits given.now) }
{
    if !have_widths(given) {
        return Ok(None);
    }
    let mut shapes = Vec::new(alloc);
    for one in given {
        shapes.push(shape_of(*one))?;
    }
    Ok(Shapes::new(shapes))
}
