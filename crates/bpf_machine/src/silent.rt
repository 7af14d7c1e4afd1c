//! A port for steps that must query no other port.

ghost use Rattle.bpf_regions.specs.declared.asks.Ask.TheVariants.{Access, Help};

use bpf_regions::{Helper, MapOp, Shapes};
use bpf_tagged::Port;

/// Answers every query with 0.
#[derive(Drop)]
pub struct Silent<'a> {
    pub shapes: &'a Shapes,
}

impl<'a> Port for Silent<'a> {
    ghost shapes = { λ p. p.shapes.now };

    ghost gives = { λ p q a p2. Unit {0} };

    fn access(&mut self, _map: u32, _word: u32, _op: MapOp) -> u64 {
        0
    }

    fn helper(&mut self, _helper: Helper) -> u64 {
        0
    }
}
