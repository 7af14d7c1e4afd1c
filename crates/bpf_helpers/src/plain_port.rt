//! A port over plain maps.

ghost use Rattle.std.specs.Prelude.{◌≡◌, ◌≤◌, map, IfOk};
ghost use Rattle.bpf_helpers.specs.Plain.{zeros, shapes_of};

use crate::PlainMap;
use crate::draws::drawn_after;
use bpf_regions::{Helper, MapOp, Shapes};
use bpf_tagged::Port;
use std::alloc::{AllocError, Global};
use std::marker::Model;

/// Answers accesses from plain maps, `now` and `stations` with fixed numbers, and `draw` with a word that changes
/// at each draw. Answering allocates nothing.
#[derive(Drop)]
pub struct PlainPort {
    tables: Vec<PlainMap>,
    clock: u64,
    stations: u16,
    draw: u64,
}

impl Model for PlainPort {
    ghost use Rattle.std.specs.Prelude.{◌≤◌};
    ghost use Rattle.bpf_helpers.specs.Plain.{Plain};

    ghost Value = { Plain };

    ghost view = { λ p. record {
      tables = p.tables.items;
      clock = p.clock;
      stations = p.stations;
      draw = p.draw;
    } };

    ghost invariant = { λ p. p.stations ≤ 2007 };
}

impl PlainPort {
    /// Maps of these shapes with all words 0, the clock, at most 2007 stations, and the first word to draw.
    pub fn new(
        alloc: Global,
        shapes: &Shapes,
        clock: u64,
        stations: u16,
        draw: u64,
    ) -> Result<Self, AllocError>
        requires few { stations ≤ 2007 }
        ensures is { IfOk result
            (λ p. p ≡ record {
              tables = map zeros shapes.now;
              clock = clock;
              stations = stations;
              draw = draw;
            }) }
        ensures shapes { IfOk result (λ p. shapes_of p ≡ shapes.now) }
    {
        let tables = empty_tables(alloc, shapes)?;
        Ok(PlainPort {
            tables,
            clock,
            stations,
            draw,
        })
    }
}

fn empty_tables(alloc: Global, shapes: &Shapes) -> Result<Vec<PlainMap>, AllocError>
    ensures is { IfOk result (λ tables. tables.items ≡ map zeros shapes.now) }
{
    let mut tables = Vec::new(alloc);
    for shape in shapes.as_slice() {
        let table = PlainMap::new(alloc, *shape)?;
        tables.push(table)?;
    }
    Ok(tables)
}

impl Port for PlainPort {
    ghost use Rattle.std.specs.Prelude.{◌≡◌};
    ghost use Rattle.bpf_helpers.specs.Plain.{answer_of, left_after, shapes_of};

    ghost shapes = { λ p. shapes_of p };

    ghost gives = { λ p q a p2. (a ≡ answer_of p q) × (p2 ≡ left_after p q) };

    fn access(&mut self, map: u32, word: u32, op: MapOp) -> u64 {
        self.tables[map as usize].access(word, op)
    }

    fn helper(&mut self, helper: Helper) -> u64 {
        match helper {
            Helper::Now => self.clock,
            Helper::Stations => u64::from(self.stations),
            Helper::Draw => {
                let word = self.draw;
                self.draw = drawn_after(word);
                word
            }
        }
    }
}
