//! An input for which no time passes.

use crate::source::source::{Arrival, Source};
use apd_files::{FileFault, block_of};
use std::alloc::Global;
use std::io::Read;

/// An input that its owner reads. No time passes.
#[derive(Drop)]
pub struct Direct<I: Drop> {
    pub input: I,
}

impl<I: Read + Drop> Source for Direct<I> {
    ghost use Rattle.std.specs.Prelude.{None};

    ghost clock = { λ d. None };

    fn next(&mut self, alloc: Global) -> Result<Arrival, FileFault> {
        let block = block_of(alloc, &mut self.input)?;
        Ok(Arrival::Bytes(block))
    }

    fn passed(&mut self) -> u32 {
        0
    }

    fn end(self) {}
}
