//! A port that answers from a list.

ghost use Rattle.std.specs.Prelude.{◌≡◌, ◌%◌, ◌^◌, ◌*◌, slice_get};
ghost use Rattle.bpf_regions.specs.Maps.{bytes_of};
ghost use Rattle.bpf_machine.specs.Listed.{cut_to_word, taken, left_after};

use bpf_regions::{Helper, MapOp, Shape, Shapes, WordWidth};
use bpf_tagged::Port;
use std::marker::Model;

/// A port for maps of given shapes. It answers each query with the next number of a list, reduced to the query's range,
/// and with 0 past the list's end.
#[derive(Drop)]
pub struct ListPort<'a> {
    shapes: &'a Shapes,
    left: &'a [u64],
}

impl<'a> Model for ListPort<'a> {
    ghost use Rattle.bpf_machine.specs.Listed.{Listed};

    ghost Value = { Listed };

    ghost view = { λ p. record { shapes = p.shapes.now; left = p.left.now } };
}

/// A number reduced mod the size of a map's word; 0 if the map doesn't exist.
fn cut_to(shape: Option<Shape>, number: u64) -> u64
    ensures is { result ≡ cut_to_word shape number }
{
    let Some(shape) = shape else {
        return 0;
    };
    match shape.width {
        WordWidth::Four => number % 0x1_0000_0000,
        WordWidth::Eight => number,
    }
}

impl<'a> ListPort<'a> {
    /// A port for maps of these shapes, with these answers.
    pub fn new(shapes: &'a Shapes, answers: &'a [u64]) -> Self
        ensures shapes { result.shapes ≡ shapes.now }
        ensures left { result.left ≡ answers.now }
    {
        ListPort {
            shapes,
            left: answers,
        }
    }

    /// Takes the next number; 0 past the end.
    fn take(&mut self) -> u64
        ensures is { result ≡ taken self.old }
        ensures left { self.new ≡ left_after self.old }
    {
        match self.left {
            [first, rest @ ..] => {
                let number = *first;
                self.left = rest;
                number
            }
            [] => 0,
        }
    }
}

impl<'a> Port for ListPort<'a> {
    ghost use Rattle.std.specs.Prelude.{◌≡◌};
    ghost use Rattle.bpf_machine.specs.Listed.{answer_of, left_after};

    ghost shapes = { λ p. p.shapes };

    ghost gives = { λ p q a p2. (a ≡ answer_of p q) × (p2 ≡ left_after p) };

    fn access(&mut self, map: u32, _word: u32, op: MapOp) -> u64 {
        let number = self.take();
        match op {
            MapOp::Store(_) => 0,
            _ => cut_to(self.shapes.get(map), number),
        }
    }

    fn helper(&mut self, helper: Helper) -> u64 {
        let number = self.take();
        match helper {
            Helper::Now => number,
            Helper::Stations => number % 2008,
            Helper::Draw => number,
        }
    }
}
