//! How long `parse` takes for a data frame of 1500 bytes and for an association request.

use crate::asked::Asked;
use crate::clock::{now, print_since};
use crate::stations::{data, joining};
use mac_frame::parse;
use std::alloc::Global;
use std::rt::Clock;

/// How many of `times` parses found a frame.
fn readings(alloc: Global, bytes: &[u8], times: u64) -> u64 {
    let mut found = 0u64;
    for _ in 0..times {
        if parse(alloc, bytes).is_ok() {
            found = found.wrapping_add(1);
        }
    }
    found
}

/// Parses a frame `times` times, and prints how long one parse took; the sum is how many found a frame.
fn report<R: Clock + Eprint>(rt: &R, alloc: Global, name: &str, bytes: &[u8], times: u64) {
    let start = now(rt);
    let found = readings(alloc, bytes, times);
    print_since(rt, name, start, times, found);
}

/// Parses a frame of each kind as often as the first number says. None if an allocation fails.
pub fn print_times<R: Clock + Eprint>(rt: &R, alloc: Global, asked: Asked<'_>) -> Option<()> {
    let times = asked.number(0, 1_000_000, 10_000);
    let frame = data(alloc, 0, 3, 1474).ok()?;
    report(rt, alloc, "data of 1500 bytes", frame.as_slice(), times);
    let request = joining(alloc, 0, 1).ok()?;
    report(rt, alloc, "association request", request.as_slice(), times);
    Some(())
}
