//! What all parts of a run need.

use crate::crew::{Desk, Serving, Signs};
use crate::manner::Manner;
use crate::operating::Operating;
use std::alloc::Global;

/// What the operator shares with the workers' threads.
#[derive(Drop)]
pub struct Setting<'a, W: Serving + Drop, R> {
    pub rt: &'a R,
    pub alloc: Global,
    pub desks: &'a [Desk<W>],
    pub signs: &'a Signs,
    pub manner: Manner,
}

/// An operator and the workers at rest.
#[derive(Drop)]
pub struct Staff<W: Serving + Drop, O: Operating<W> + Drop> {
    pub operator: O,
    pub workers: Vec<W>,
}
