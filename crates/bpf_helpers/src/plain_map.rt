//! A map as plain numbers.

ghost use Rattle.std.specs.Prelude.{◌≡◌, ◌<◌, ◌≤◌, ◌^◌, ◌*◌, slice_index, slice_set, IfOk};
ghost use Rattle.bpf_regions.specs.Maps.{bytes_of, word_count};
ghost use Rattle.bpf_model.specs.Memory.{number_after};
ghost use Rattle.bpf_model.specs.Step.{atomic_bytes};
ghost use Rattle.bpf_helpers.specs.Plain.{answer_to, after, zeros, word_limit};

use bpf_regions::{MapOp, Shape, WordWidth};
use bpf_values::map_words::new_number;
use std::alloc::{AllocError, Global};
use std::marker::Model;

/// The words of a map, as numbers below 2^32 or 2^64, by its width.
#[derive(Drop)]
pub struct PlainMap {
    shape: Shape,
    words: Vec<u64>,
}

impl Model for PlainMap {
    ghost use Rattle.bpf_helpers.specs.Plain.{Table, IsTable};

    ghost Value = { Table };

    ghost view = { λ m. record { shape = m.shape; words = m.words.items } };

    ghost invariant = { λ m. IsTable (record { shape = m.shape; words = m.words.items }) };
}

fn count_of(shape: Shape) -> usize
    ensures is { result ≡ word_count shape }
{
    shape.entries as usize * shape.words as usize
}

fn is_wide(width: WordWidth) -> bool
    ensures is { atomic_bytes result ≡ bytes_of width }
{
    match width {
        WordWidth::Four => false,
        WordWidth::Eight => true,
    }
}

/// The word after an access.
fn changed(shape: Shape, op: MapOp, old: u64) -> u64
    requires old { old < word_limit shape }
    ensures is { result ≡ number_after (word_limit shape) op old }
    ensures fits { result < word_limit shape }
{
    new_number(is_wide(shape.width), op, old)
}

impl PlainMap {
    /// A map with all words 0.
    pub fn new(alloc: Global, shape: Shape) -> Result<Self, AllocError>
        ensures is { IfOk result (λ map. map ≡ zeros shape) }
    {
        let words = vec![in alloc; 0u64; count_of(shape)]?;
        Ok(PlainMap { shape, words })
    }

    /// One access to a word: returns, and then holds, what a plain array of numbers would.
    pub fn access(&mut self, word: u32, op: MapOp) -> u64
        requires there { word < word_count self.old.shape }
        ensures answer { result ≡ answer_to op (slice_index self.old.words word) }
        ensures after { self.new ≡ after self.old word op }
        ensures range { result < word_limit self.old.shape }
    {
        let old = self.words[word as usize];
        self.words[word as usize] = changed(self.shape, op, old);
        match op {
            MapOp::Store(_) => 0,
            _ => old,
        }
    }
}
