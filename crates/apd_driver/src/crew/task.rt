//! Threads that start.

use std::sync::Wait;
use std::thread::{Scope, Threads};

/// What the thread with a number does.
pub trait Task<R: Wait> {
    fn run(&self, rt: &R, number: usize);
}

/// Starts a thread for each number below `many`. True if all have started.
pub fn start_all<'s, E: 's, R: Threads + Wait + Sync, T: Task<R> + Sync>(
    scope: &Scope<'s, E>,
    rt: &'s R,
    task: &'s T,
    many: usize,
) -> bool {
    let mut all = true;
    for number in 0..many {
        if scope.spawn(move || task.run(rt, number)).is_err() {
            all = false;
        }
    }
    all
}
