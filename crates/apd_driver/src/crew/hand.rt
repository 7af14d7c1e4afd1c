//! Workers that come back.

use crate::crew::serving::Serving;

/// A worker that served. `refused` says that an allocation failed for what became of an event.
#[derive(Drop)]
pub struct Done<W: Serving + Drop> {
    pub worker: W,
    pub refused: bool,
}
