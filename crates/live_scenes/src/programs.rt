//! Programs over the maps of the stories.

ghost use Rattle.std.specs.Prelude.{◌≡◌, IfSome};
ghost use Rattle.std.specs.Arc.{arc_value};
ghost use Rattle.bpf_regions.specs.declared.hooks.Hook.TheVariants.{Data};

use bpf_decode::decode;
use bpf_machine::Accepted;
use bpf_regions::{Hook, Scope, Shape, Shapes, WordWidth};
use bpf_text::assemble;
use bpf_verifier::verify;
use std::alloc::Global;
use std::sync::{Arc, Wait};
use versions::Publisher;

/// Map 0, which all workers share, and map 1, of which each worker has its own: each one entry of 8 words.
pub(crate) fn shapes(alloc: Global, width: WordWidth) -> Option<Shapes> {
    let mut shapes = Vec::with_capacity(alloc, 2).ok()?;
    for scope in [Scope::Shared, Scope::Worker] {
        let shape = Shape {
            entries: 1,
            words: 8,
            width,
            scope,
        };
        shapes.push(shape).ok()?;
    }
    Shapes::new(shapes)
}

/// The program of a text over these maps, accepted for data.
fn accepted(alloc: Global, text: &str, width: WordWidth) -> Option<Arc<Accepted>>
    ensures { IfSome result (λ p. (arc_value p).hook ≡ Data) }
{
    let code = assemble(alloc, text).ok()?;
    let program = decode(alloc, &code, shapes(alloc, width)?).ok()?;
    let accepted = verify(alloc, program, Hook::Data).ok()?;
    Arc::new(alloc, accepted).ok()
}

/// Publishes the program of a text for data, over maps of this width. False if it is refused, or an allocation fails.
pub fn publish<R: Wait>(
    rt: &R,
    alloc: Global,
    publisher: &mut Publisher,
    text: &str,
    width: WordWidth,
) -> bool {
    match accepted(alloc, text, width) {
        Some(program) => publisher.publish(rt, Hook::Data, Some(program)).is_ok(),
        None => false,
    }
}
