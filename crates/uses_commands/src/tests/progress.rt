//! What is told of a run, by a clock that a test sets.

use crate::tests::clocks::Hand;
use crate::tests::same::same;
use ap_live::Gate;
use apd_run::{Progress, Watcher};
use std::fmt::Display;
use std::io;
use std::sync::atomic::Ordering;

impl Eprint for Hand {
    fn eprint<D: Display + Drop>(&self, _value: D) -> io::Result<()> {
        Ok(())
    }

    fn eprintln<D: Display + Drop>(&self, _value: D) -> io::Result<()> {
        self.lines.fetch_add(1, Ordering::SeqCst);
        Ok(())
    }
}

/// Tells of `events` events, and returns the number of lines then.
fn lines_after(hand: &Hand, gate: &impl Gate, events: u64) -> u64 {
    for call in 1..=events {
        gate.begin(call);
        gate.end(call);
    }
    hand.lines.load(Ordering::SeqCst)
}

/// Milliseconds that a clock shows one after the other, and the number of lines then.
static LINES: &[(u64, u64)] = &[(500, 0), (1400, 0), (1500, 1), (4400, 2), (4400, 2)];

#[test]
fn a_line_a_second_is_told_of_a_long_run(rt: HostRuntime) {
    let hand = Hand::at(500_000);
    let progress = Progress::new(&hand);
    let gate = &progress;
    gate.start(1000);
    for (milliseconds, lines) in LINES {
        let micros = milliseconds.saturating_mul(1000);
        hand.micros.store(micros, Ordering::SeqCst);
        same(&rt, lines_after(&hand, &gate, 200), *lines, "lines");
    }
}
