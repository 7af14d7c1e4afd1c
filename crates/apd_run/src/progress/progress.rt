//! The progress of a run.

use crate::progress::watcher::Watcher;
use ap_live::Gate;
use std::sync::atomic::{AtomicU64, Ordering};
use std::time::{Clock, Instant};

/// The number of events between two readings of the clock.
const EVENTS_A_LOOK: u64 = 64;

/// Writes the progress of a run to standard error: a line each second, from the end of the first on; nothing if the
/// clock can't be read.
#[derive(Drop)]
pub struct Progress<'a, R> {
    rt: &'a R,
    begun: Option<Instant>,
    lines: AtomicU64,
    handled: AtomicU64,
    told: AtomicU64,
}

impl<'a, R: Clock> Progress<'a, R> {
    /// The progress of a run that begins at this moment.
    pub fn new(rt: &'a R) -> Progress<'a, R> {
        Progress {
            rt,
            begun: Instant::now(rt).ok(),
            lines: AtomicU64::new(0),
            handled: AtomicU64::new(0),
            told: AtomicU64::new(0),
        }
    }

    /// The whole seconds since the beginning, if the clock can be read.
    fn seconds(&self) -> Option<u64> {
        let elapsed = self.begun?.elapsed(self.rt).ok()?;
        Some(elapsed.as_secs())
    }
}

impl<'a, R: Clock + Eprint> Progress<'a, R> {
    /// Writes the progress, if a second has passed since the last line. Only one of several workers writes it.
    fn look(&self, line: u64, handled: u64) {
        let Some(seconds) = self.seconds() else {
            return;
        };
        let told = self.told.load(Ordering::SeqCst);
        if seconds <= told {
            return;
        }
        let first = self
            .told
            .compare_exchange(told, seconds, Ordering::SeqCst, Ordering::SeqCst);
        if first.is_ok() {
            self.tell(line, handled / seconds);
        }
    }

    /// Writes the line of the event handled last. A failed write doesn't matter.
    fn tell(&self, line: u64, rate: u64) {
        let lines = self.lines.load(Ordering::SeqCst);
        let _ = eprintln!(self.rt; "apd: line {line} of {lines}, {rate} events a second");
    }
}

impl<R: Clock + Eprint> Gate for &Progress<'_, R> {
    fn end(&self, call: u64) {
        let handled = self.handled.fetch_add(1, Ordering::SeqCst).wrapping_add(1);
        if handled % EVENTS_A_LOOK == 0 {
            self.look(call, handled);
        }
    }
}

impl<R: Clock + Eprint> Watcher for &Progress<'_, R> {
    fn start(&self, lines: u64) {
        self.lines.store(lines, Ordering::SeqCst);
    }
}
