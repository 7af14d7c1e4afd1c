//! Bells, for which threads sleep.

use std::sync::Wait;
use std::sync::atomic::{AtomicU64, Ordering};

/// A bell that threads strike, and for whose next stroke others sleep.
#[derive(Drop)]
pub struct Bell {
    strokes: AtomicU64,
}

impl Bell {
    /// A bell that wasn't struck.
    pub fn new() -> Bell {
        Bell {
            strokes: AtomicU64::new(0),
        }
    }

    /// How often it was struck, modulo 2^64.
    pub fn strokes(&self) -> u64 {
        self.strokes.load(Ordering::SeqCst)
    }

    /// Strikes it, and wakes all who sleep for it.
    pub fn strike(&self) {
        self.strokes.fetch_add(1, Ordering::SeqCst);
        self.strokes.wake_all();
    }

    /// Sleeps until it is struck, if it was struck so often and no more. It may wake before that, too.
    pub fn sleep<R: Wait>(&self, rt: &R, strokes: u64) {
        let low = (strokes % (1 << 32)) as u32;
        self.strokes.park(rt, low);
    }
}
