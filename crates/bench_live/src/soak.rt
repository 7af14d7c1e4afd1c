//! The soak of `live_scenes`, of any length.

use crate::clock::{nanos_since, now};
use ap_books::Totals;
use bpf_regions::WordWidth;
use live_scenes::{Found, Soak, play, settings};
use std::alloc::Global;
use std::rt::Clock;
use std::sync::Wait;
use std::thread::Threads;

/// Runs the soak with `events` data frames. Returns what it found, and the totals; None if an allocation fails.
fn run_soak<R: Threads + Wait + Clock + Sync>(
    rt: &R,
    alloc: Global,
    events: u64,
) -> Option<(Found, Totals)> {
    let settings = settings(alloc, 4, WordWidth::Eight)?;
    let mut soak = Soak::new(events / 4);
    let totals = play(rt, alloc, settings, 4, &mut soak)?;
    Some((soak.found(rt), totals))
}

/// Prints what a soak found, and its milliseconds.
fn print_found<R: Eprint>(rt: &R, found: &Found, millis: u64) {
    let _ = eprintln!(rt;
        "soak: {} events, {} commands, {} publications, {} passed up, {} dropped, {millis} ms",
        found.served.events,
        found.acted.events,
        found.published,
        found.served.up,
        found.served.dropped
    );
}

/// Runs the soak with `events` data frames, and prints what it found. None if something is wrong, or an allocation
/// fails.
pub fn report<R: Threads + Wait + Clock + Eprint + Sync>(
    rt: &R,
    alloc: Global,
    events: u64,
) -> Option<()> {
    let start = now(rt);
    let (found, totals) = run_soak(rt, alloc, events)?;
    print_found(rt, &found, nanos_since(rt, start) / 1_000_000);
    if let Some(fault) = found.fault(totals) {
        let _ = eprintln!(rt; "the soak: {fault}");
        return None;
    }
    Some(())
}
