//! A run's input.

use bpf_regions::Shapes;

/// A run's input: the shapes of its maps, its frame and its context.
#[derive(Clone, Copy)]
pub struct Input<'a> {
    pub shapes: &'a Shapes,
    pub frame: &'a [u8],
    pub context: &'a [u8],
}
