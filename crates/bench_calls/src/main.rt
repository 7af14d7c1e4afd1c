//! How long calls of the libraries take, on standard error. `bench_calls NAME [NUMBER ..]` measures one benchmark, and
//! `bench_calls quick` a little of each.
//!
//! Programs:
//!
//! - `text`: assembles 16384 lines, decodes them and writes them as text again;
//! - `loop TURNS TIMES`, `joins TURNS TIMES`: verifies a loop of three instructions, or pairs of branches that join
//!   again;
//! - `certificates TIMES FILE CONFIG`: `verify`, `certificate` and `check` of the program in the hex digits of a file,
//!   with the maps of a configuration, or without maps if there is none. Prints the least of so many times;
//! - `machine`: `run`, `probe` and `enter` on the workloads that standard input has, one a line, as
//!   `bench/peers/workloads.py` writes them;
//! - `versions TIMES`: readers enter a published set of programs and leave it, by 1, 2 and 4 threads, alone and while a
//!   publisher publishes about 1000 times a second.
//!
//! The link:
//!
//! - `frames TIMES`: `parse` of a data frame of 1500 bytes and of an association request;
//! - `windows PAIRS`: a reorder buffer, for data in order and with every second pair swapped;
//! - `link FRAMES`: a shard, for data frames of 100 and of 1500 bytes, of one associated station in an agreement and of
//!   500 stations alternating, 250 in each of two shards; and a copy of the frame;
//! - `judge`: a shard, for a data frame of 100 bytes of one associated station that programs judge: without a program,
//!   under a port filter that tests the frame's end, and under a program that counts in a map; beside each the verdict
//!   by itself;
//! - `single`: an access point of one caller, without a program, for a data frame of 100 bytes.
#![tactic(auto)]

mod access_point;
mod asked;
mod certificates;
mod clock;
mod frames;
mod judges;
mod link;
mod machine;
mod policies;
mod programs;
mod sets;
mod stations;
mod text;
mod windows;

use asked::Asked;
use std::alloc::Global;
use std::process::ExitCode;
use std::rt::Runtime;
use std::sync::Wait;
use std::thread::Threads;
use std::{env, io};

/// All benchmarks.
static NAMES: [&str; 11] = [
    "text",
    "loop",
    "joins",
    "certificates",
    "machine",
    "versions",
    "frames",
    "windows",
    "link",
    "judge",
    "single",
];

/// Measures a benchmark, and prints the result. None if there is no such benchmark, or it can't be measured.
fn perform<R: Threads + Wait + Runtime + Sync + AllocGlobal>(
    rt: &R,
    alloc: Global,
    name: &str,
    asked: Asked<'_>,
) -> Option<()> {
    match name {
        "text" => text::print_times(rt, alloc),
        "loop" | "joins" => programs::print_times(rt, alloc, name, asked),
        "certificates" => certificates::print_times(rt, alloc, asked),
        "machine" => machine::print_times(rt, alloc, asked),
        "versions" => sets::print_times(rt, alloc, asked),
        "frames" => frames::print_times(rt, alloc, asked),
        "windows" => Some(windows::print_times(rt, asked)),
        "link" => link::print_times(rt, alloc, asked),
        "judge" => judges::print_times(rt, alloc, asked),
        "single" => access_point::print_times(rt, alloc, asked),
        _ => None,
    }
}

/// Measures a benchmark, after its name. False if it can't be measured.
fn report<R: Threads + Wait + Runtime + Sync + AllocGlobal>(
    rt: &R,
    alloc: Global,
    name: &str,
    asked: Asked<'_>,
) -> bool {
    let _ = eprintln!(rt; "{name}:");
    let measured = perform(rt, alloc, name, asked).is_some();
    if !measured {
        let _ = eprintln!(rt; "bench_calls: {name} can't be measured");
    }
    measured
}

/// Measures what the words request. False if it can't be measured.
fn report_all<R: Threads + Wait + Runtime + Sync + AllocGlobal>(
    rt: &R,
    alloc: Global,
    words: &[String],
) -> bool {
    let Some((name, words)) = words.split_first() else {
        return false;
    };
    if name.as_str() != "quick" {
        return report(
            rt,
            alloc,
            name.as_str(),
            Asked {
                words,
                is_quick: false,
            },
        );
    }
    let mut measured = true;
    for name in &NAMES {
        measured &= report(
            rt,
            alloc,
            name,
            Asked {
                words,
                is_quick: true,
            },
        );
    }
    measured
}

fn main(rt: HostRuntime) -> io::Result<ExitCode> {
    let alloc = rt.alloc();
    let mut words = Vec::new(alloc);
    for word in env::args(&rt)?.skip(1) {
        words.push(word)?;
    }
    let measured = report_all(&rt, alloc, words.as_slice());
    Ok(ExitCode::from(if measured { 0 } else { 1 }))
}
