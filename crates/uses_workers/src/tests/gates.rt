//! A gate that holds and stops workers, and the signals between threads.

use ap_live::Gate;
use std::sync::atomic::AtomicU64;
use std::sync::atomic::Ordering::SeqCst;
use std::thread;

/// A signal from one thread to another.
#[derive(Drop)]
pub struct Sign(AtomicU64);

impl Sign {
    /// A signal that isn't given yet.
    pub fn new() -> Sign {
        Sign(AtomicU64::new(0))
    }

    /// Gives the signal.
    pub fn give(&self) {
        self.0.store(1, SeqCst);
    }

    /// Whether it has been given.
    pub fn is_given(&self) -> bool {
        self.0.load(SeqCst) != 0
    }

    /// Waits for the signal.
    pub fn wait(&self) {
        for _ in 0..u64::MAX {
            if self.is_given() {
                return;
            }
            thread::yield_now();
        }
    }
}

/// Holds the worker that begins one call until it is let go, by whom it may be or by the end of another call; stops a
/// worker at a third call.
#[derive(Drop)]
pub struct Holding {
    held: u64,
    lets_go: u64,
    stopped: u64,
    /// The call that is held has begun.
    pub begun: Sign,
    pub let_go: Sign,
    /// It was let go.
    pub passed: Sign,
}

impl Holding {
    /// A gate that is about these calls: the held one, the one whose end lets it go, and the one at which it stops.
    pub fn new(calls: (u64, u64, u64)) -> Holding {
        let (held, lets_go, stopped) = calls;
        Holding {
            held,
            lets_go,
            stopped,
            begun: Sign::new(),
            let_go: Sign::new(),
            passed: Sign::new(),
        }
    }
}

impl Gate for Holding {
    fn begin(&self, call: u64) {
        if call == self.held {
            self.begun.give();
            self.let_go.wait();
            self.passed.give();
        }
    }

    fn end(&self, call: u64) {
        if call == self.lets_go {
            self.let_go.give();
        }
    }

    fn stop(&self, call: u64) -> bool {
        call == self.stopped
    }
}
