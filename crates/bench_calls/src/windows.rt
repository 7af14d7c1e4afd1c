//! How long a reorder buffer takes for a number: data in order, and data with every second pair swapped.

ghost use Rattle.std.specs.Prelude.{◌<◌};

use crate::asked::Asked;
use crate::clock::{now, print_since};
use arrayvec::ArrayVec;
use blockack::Agreement;
use std::rt::Clock;

type Frames = ArrayVec<(u16, u64), 64>;

/// How many frames a data frame releases.
fn deliver(agreement: &mut Agreement<u64>, number: u16, out: &mut Frames) -> u64
    requires { number < 4096 }
{
    out.clear();
    let _placed = agreement.on_data(number, Some(number as u64), out);
    out.len() as u64
}

/// `count` pairs of numbers, in order, or with every second pair swapped. Returns how many frames were released.
fn pairs(count: u64, swapping: bool) -> u64 {
    let mut agreement = Agreement::open(0, 64);
    let mut out = Frames::new();
    let mut handed_up = 0u64;
    for pair in 0..count {
        let first = (pair % 2048 * 2) as u16;
        let swapped = u16::from(swapping && pair % 2 == 1);
        handed_up = handed_up.wrapping_add(deliver(&mut agreement, first + swapped, &mut out));
        handed_up = handed_up.wrapping_add(deliver(&mut agreement, first + 1 - swapped, &mut out));
    }
    handed_up
}

/// Prints how long a number takes, of `count` pairs; the sum is how many frames are released.
fn report<R: Clock + Eprint>(rt: &R, name: &str, count: u64, swapping: bool) {
    let start = now(rt);
    let sum = pairs(count, swapping);
    print_since(rt, name, start, count.saturating_mul(2), sum);
}

/// Prints how long a number takes, of as many pairs as the first number says.
pub fn print_times<R: Clock + Eprint>(rt: &R, asked: Asked<'_>) {
    let count = asked.number(0, 1_000_000, 10_000);
    report(rt, "in order", count, false);
    report(rt, "every second pair swapped", count, true);
}
