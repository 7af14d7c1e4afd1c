//! How long something takes.

use std::rt::Clock;
use std::time::{Duration, Instant};

/// The time, if the clock can be read.
pub fn now<R: Clock>(rt: &R) -> Option<Instant> {
    Instant::now(rt).ok()
}

fn since<R: Clock>(rt: &R, start: Option<Instant>) -> Option<Duration> {
    start?.elapsed(rt).ok()
}

/// The nanoseconds since a time; 0 if the clock can't be read.
pub fn nanos_since<R: Clock>(rt: &R, start: Option<Instant>) -> u64 {
    match since(rt, start) {
        Some(spent) => u64::try_from(spent.as_nanos()).unwrap_or(u64::MAX),
        None => 0,
    }
}

/// How many events a second, of so many in so many nanoseconds.
pub fn rate(events: u64, nanos: u64) -> u64 {
    events.saturating_mul(1_000_000_000) / nanos.max(1)
}
