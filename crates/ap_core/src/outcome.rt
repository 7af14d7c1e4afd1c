//! The outcome of an event.

use ap_model::Out;

/// The outcome of an event: its outputs, and whether a verdict dropped data.
#[derive(Drop)]
pub struct Outcome {
    pub outs: Vec<Out>,
    pub dropped: bool,
}
