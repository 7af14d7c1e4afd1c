//! A sweep: inputs of a kind, made from a seed, and their results.

use crate::frames::edge_of;
use crate::kinds::{Kind, Of};
use crate::numbers::Numbers;
use crate::tally::{Judged, Tally};
use std::alloc::{AllocError, Global};
use std::io;
use std::rt::Files;

/// A sweep: the kind, how many inputs, and the seed of the first. Each next input has the next seed.
#[derive(Clone, Copy)]
pub struct Task {
    pub kind: &'static Kind,
    pub count: u64,
    pub seed: u64,
}

/// An input for which something is wrong.
#[derive(Drop)]
struct Found {
    seed: u64,
    what: &'static str,
    input: Vec<u8>,
}

/// The input of a seed.
fn input_of(
    alloc: Global,
    kind: &Kind,
    numbers: &mut Numbers,
    samples: &[Vec<u8>],
    seed: u64,
) -> Result<Vec<u8>, AllocError> {
    if let Of::Octet = kind.of {
        return edge_of(alloc, samples, seed as usize);
    }
    if samples.is_empty() {
        return Ok(Vec::new(alloc));
    }
    let sample = &samples[numbers.place_in(samples.len())];
    kind.input(alloc, numbers, sample)
}

/// Makes and tests the inputs, and counts the results, up to the first wrong one.
fn swept<R: Eprint>(
    rt: &R,
    alloc: Global,
    task: Task,
    samples: &[Vec<u8>],
) -> io::Result<(Tally, Option<Found>)> {
    let mut tally = Tally::NONE;
    for number in 0..task.count {
        let seed = task.seed.wrapping_add(number);
        let mut numbers = Numbers::new(seed);
        let input = input_of(alloc, task.kind, &mut numbers, samples, seed)?;
        let judged = task.kind.judged(alloc, &mut numbers, &input)?;
        if let Judged::Wrong(what) = judged {
            return Ok((tally, Some(Found { seed, what, input })));
        }
        tally.count(judged);
        if number % 0x10_0000 == 0xf_ffff {
            eprintln!(rt; "{}: {}", task.kind.name, tally)?;
        }
    }
    Ok((tally, None))
}

fn print_digits<R: Print>(rt: &R, bytes: &[u8]) -> io::Result<()> {
    for byte in bytes {
        print!(rt; "{byte:02x}")?;
    }
    println!(rt; "")
}

/// Makes a sweep and prints its counts. If something is wrong, it prints the seed and the input instead, and returns
/// false.
pub fn print_counts<R: Print + Eprint + Files + AllocGlobal>(
    rt: &R,
    task: Task,
) -> io::Result<bool> {
    let samples = task.kind.samples(rt)?;
    let (tally, found) = swept(rt, rt.alloc(), task, &samples)?;
    let name = task.kind.name;
    let Some(found) = found else {
        println!(rt; "{name}: {} inputs, {tally}", task.count)?;
        return Ok(true);
    };
    println!(rt; "{name}: wrong at seed {}: {}", found.seed, found.what)?;
    print_digits(rt, &found.input)?;
    Ok(false)
}
