//! Sweeps the access point's libraries with random inputs, or samples with random changes, and prints how many were
//! accepted and refused. Each run tests again what the libraries prove: this is evidence against faulty tools.
//!
//! `sweeps` makes a few inputs of each kind, `sweeps KIND` some of one, and `sweeps KIND COUNT SEED` any number, from a
//! seed. Input N of a seed is the first input of the seed that is N greater. It reads its samples from files: it runs in
//! `data/`. The kinds:
//!
//! - `code`: is decoded, written again, and verified; accepted code runs on eight frames on both machines, whose
//!   results agree within the budget, and no run of it meets a fault. Code that may take long to verify is put aside;
//! - `frames`: are parsed, written again, and parsed again. `octets`: each kind of frame, cut at each length, and with
//!   each byte set to each value;
//! - `texts`: are assembled; the text of each program gives the same code again. These count as runs;
//! - `configurations`, `scripts`, `captures`: are read twice, with the same result;
//! - `certificates`: are checked for the code that they name; accepted code runs as above.
//!
//! `sweeps` then asks what the rows in `rows/` say of worked programs, and compares the results with theirs: `rows` says
//! how they are written.
//!
//! If something is wrong, it prints the kind, the seed and the input, or the row and its result, and exits with status 1.
#![tactic(auto)]

mod admission;
mod assembly;
mod captures;
mod certificate_bytes;
mod certificates;
mod changes;
mod codes;
mod configurations;
mod examples;
mod files;
mod frames;
mod grown;
mod kinds;
mod maps;
mod numbers;
mod rows;
mod runs;
mod scripts;
mod slots;
mod sweep;
mod tally;
mod weight;

use kinds::{KINDS, Kind};
use std::process::ExitCode;
use std::rt::Files;
use std::{env, io};
use sweep::{Task, print_counts};

/// The reply to unknown arguments.
const USAGE: &str =
    "usage: sweeps [KIND [COUNT [SEED]]]; the kinds are code, frames, octets, texts, configurations, \
scripts, certificates and captures";

/// The number that an argument spells, or `otherwise` if there is no argument. None if it spells none.
fn number_or(word: Option<&String>, otherwise: u64) -> Option<u64> {
    match word {
        None => Some(otherwise),
        Some(word) => word.as_str().parse::<u64>().ok(),
    }
}

/// What the arguments request. None if they mean nothing.
fn task_of(words: &[String]) -> Option<Task> {
    let kind = Kind::named(words.first()?.as_str())?;
    if words.len() > 3 {
        return None;
    }
    Some(Task {
        kind,
        count: number_or(words.get(1), kind.few)?,
        seed: number_or(words.get(2), 0)?,
    })
}

/// A short sweep of each kind, and all rows. False if something is wrong.
fn print_all<R: Print + Eprint + Files + AllocGlobal>(rt: &R) -> io::Result<bool> {
    let mut right = true;
    for kind in &KINDS {
        let task = Task {
            kind,
            count: kind.few,
            seed: 0,
        };
        right &= print_counts(rt, task)?;
    }
    for name in &rows::FILES {
        right &= rows::print_rows(rt, name)?;
    }
    Ok(right)
}

/// The exit status: 0 if nothing is wrong.
fn status(right: bool) -> ExitCode {
    ExitCode::from(if right { 0 } else { 1 })
}

fn main(rt: HostRuntime) -> io::Result<ExitCode> {
    let mut words = Vec::new(rt.alloc());
    for word in env::args(&rt)?.skip(1) {
        words.push(word)?;
    }
    if words.is_empty() {
        return Ok(status(print_all(&rt)?));
    }
    let Some(task) = task_of(&words) else {
        eprintln!(rt; "sweeps: {USAGE}")?;
        return Ok(ExitCode::from(2));
    };
    Ok(status(print_counts(&rt, task)?))
}
