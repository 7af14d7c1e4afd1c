//! What becomes of an event.

use ap_model::Out;

/// What became of an event that a worker took.
#[derive(Drop)]
pub enum Fate {
    /// Its outputs, and whether a data verdict dropped.
    Decided { outs: Vec<Out>, dropped: bool },
    /// It was refused for lack of memory, and changed nothing.
    Refused,
    /// The gate stopped its worker: it counts as never received.
    NotHandled,
}
