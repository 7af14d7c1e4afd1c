//! How long something takes.

use std::rt::Clock;
use std::time::{Duration, Instant};

/// The time, if the clock can be read.
pub fn now<R: Clock>(rt: &R) -> Option<Instant> {
    Instant::now(rt).ok()
}

fn since<R: Clock>(rt: &R, start: Option<Instant>) -> Option<Duration> {
    start?.elapsed(rt).ok()
}

/// The nanoseconds since a time; 0 if the clock can't be read.
pub fn nanos_since<R: Clock>(rt: &R, start: Option<Instant>) -> u64 {
    match since(rt, start) {
        Some(spent) => u64::try_from(spent.as_nanos()).unwrap_or(u64::MAX),
        None => 0,
    }
}

/// Prints how long each of `times` took of these nanoseconds, in hundredths of one, and a sum of what came out.
pub fn print_each<R: Eprint>(rt: &R, name: &str, nanos: u64, times: u64, sum: u64) {
    let each = nanos.saturating_mul(100) / times.max(1);
    let _ = eprintln!(rt;
        "{name}: {}.{:02} ns each; {times} times, sum {sum}",
        each / 100,
        each % 100
    );
}

/// Prints the same of the nanoseconds since a time.
pub fn print_since<R: Clock + Eprint>(
    rt: &R,
    name: &str,
    start: Option<Instant>,
    times: u64,
    sum: u64,
) {
    let nanos = nanos_since(rt, start);
    print_each(rt, name, nanos, times, sum);
}

/// Something that is done repeatedly.
pub trait Work {
    /// Does it once, and returns a number that depends on what came out.
    fn once(&mut self) -> u64;
}

/// Does a work `times` times. The nanoseconds, and the sum of the numbers.
fn round<R: Clock, W: Work>(rt: &R, work: &mut W, times: u64) -> (u64, u64) {
    let start = now(rt);
    let mut sum = 0u64;
    for _ in 0..times {
        sum = sum.wrapping_add(work.once());
    }
    (nanos_since(rt, start), sum)
}

/// The nanoseconds of the shortest of `rounds` rounds, since other work on the machine disturbs few of many short ones;
/// and the sum of the numbers of the last.
pub fn least<R: Clock, W: Work>(rt: &R, work: &mut W, times: u64, rounds: u64) -> (u64, u64) {
    let (mut least, mut sum) = (u64::MAX, 0);
    for _ in 0..rounds {
        let (nanos, all) = round(rt, work, times);
        least = least.min(nanos);
        sum = all;
    }
    (least, sum)
}
