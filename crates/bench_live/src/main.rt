//! How many events a second an access point takes that several threads serve, on standard error. `bench_live NAME
//! [NUMBER]` measures one benchmark, and `bench_live quick` a little of `filled` and `submitted`:
//!
//! - `filled ROUNDS`: queues of 256 events each are filled, and then all workers serve at once, repeatedly;
//! - `submitted EVENTS`: one submitter runs beside the workers;
//! - `soak FRAMES`: four operators and a publisher run beside four workers, as in the tests of `uses_workers`.
//!
//! The events are QoS data of agreements, 100 bytes each, spread over eight shards; there are 1, 2 and 4 workers, and
//! no program, the port filter, and programs that count in a map that all workers share or that each has for itself.
#![tactic(auto)]

mod asked;
mod clock;
mod filled;
mod programs;
mod returned;
mod soak;
mod stations;
mod submitted;

use asked::Asked;
use programs::{Case, POLICIES};
use std::alloc::Global;
use std::process::ExitCode;
use std::rt::Clock;
use std::sync::Wait;
use std::thread::Threads;
use std::{env, io};

/// Measures `filled` or `submitted` under each program and by 1, 2 and 4 workers, and prints the rates. None if an
/// allocation fails.
fn print_rates<R: Threads + Wait + Clock + Eprint + Sync>(
    rt: &R,
    alloc: Global,
    is_filled: bool,
    count: u64,
) -> Option<()> {
    for policy in &POLICIES {
        let (name, text) = *policy;
        for workers in [1, 2, 4] {
            let case = Case {
                workers,
                count,
                name,
                text,
            };
            if is_filled {
                filled::report(rt, alloc, case)?;
            } else {
                submitted::report(rt, alloc, case)?;
            }
        }
    }
    Some(())
}

/// Measures a benchmark, and prints the result. None if there is no such benchmark, or it can't be measured.
fn perform<R: Threads + Wait + Clock + Eprint + Sync>(
    rt: &R,
    alloc: Global,
    asked: Asked<'_>,
) -> Option<()> {
    match asked.name {
        "filled" => print_rates(rt, alloc, true, asked.number(0, 1000, 2)),
        "submitted" => print_rates(rt, alloc, false, asked.number(0, 200_000, 2000)),
        "soak" => soak::report(rt, alloc, asked.number(0, 1_000_000, 10_000)),
        _ => None,
    }
}

/// Measures what the words request. None if it can't be measured.
fn perform_all<R: Threads + Wait + Clock + Eprint + Sync>(
    rt: &R,
    alloc: Global,
    words: &[String],
) -> Option<()> {
    let (name, words) = words.split_first()?;
    let is_quick = name.as_str() == "quick";
    let mut asked = Asked {
        name: name.as_str(),
        words,
        is_quick,
    };
    if !is_quick {
        return perform(rt, alloc, asked);
    }
    for name in ["filled", "submitted"] {
        asked.name = name;
        perform(rt, alloc, asked)?;
    }
    Some(())
}

fn main(rt: HostRuntime) -> io::Result<ExitCode> {
    let alloc = rt.alloc();
    let mut words = Vec::new(alloc);
    for word in env::args(&rt)?.skip(1) {
        words.push(word)?;
    }
    if perform_all(&rt, alloc, words.as_slice()).is_some() {
        return Ok(ExitCode::SUCCESS);
    }
    eprintln!(rt;
        "bench_live: no memory, a fault, or no such benchmark: quick, filled, submitted, soak"
    )?;
    Ok(ExitCode::from(1))
}
