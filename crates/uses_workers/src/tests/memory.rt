//! Events that are refused for lack of memory, and retried. All assertions here hold if any one allocation fails.

use crate::tests::same::same;
use crate::tests::scene::{puts, serve};
use ap_books::{Ledgers, Totals};
use ap_live::OpenGate;
use ap_locked::Journals;
use bpf_regions::WordWidth;
use live_scenes::{Scene, Story, address, play, settings};
use std::alloc::Global;
use std::sync::Wait;
use std::test::Fail;
use std::thread::Threads;

/// How often something is tried.
const TRIES: u32 = 3;

/// How many events were decided, and whether the command was answered.
#[derive(Clone, Copy)]
struct Again {
    decided: u64,
    kicked: bool,
}

/// Whether the event of a step is put and decided: a station sets up its agreement, and then sends data three times. If
/// a worker's list can't grow, its event stays in the queue, and the next call serves it.
fn comes<L: Ledgers + Journals, R: Wait>(
    rt: &R,
    alloc: Global,
    scene: &mut Scene<'_, L>,
    step: u8,
) -> bool {
    let number = u64::from(step).wrapping_sub(3);
    let put = puts(rt, alloc, scene, address(0, 2), step.min(3), number);
    let first = serve(rt, alloc, scene, &OpenGate);
    let second = serve(rt, alloc, scene, &OpenGate);
    put && (first == 1 || second == 1)
}

/// Whether the station is sent away.
fn kicks<L: Ledgers + Journals, R: Wait>(rt: &R, alloc: Global, scene: &mut Scene<'_, L>) -> bool {
    match scene.chiefs.first_mut() {
        Some(chief) => chief.kick(rt, alloc, address(0, 2), 1).is_ok(),
        None => false,
    }
}

impl<R: Wait> Story<R> for Again {
    fn prepare<L: Ledgers + Journals>(&mut self, rt: &R, alloc: Global, scene: &mut Scene<'_, L>) {
        for step in 0..6 {
            for _ in 0..TRIES {
                if comes(rt, alloc, scene, step) {
                    self.decided = self.decided.wrapping_add(1);
                    break;
                }
            }
        }
        self.kicked = kicks(rt, alloc, scene) || kicks(rt, alloc, scene);
    }
}

/// Runs the story with a new access point, and retries if an allocation fails before or after it.
fn told_again<R: Threads + Wait + Sync>(rt: &R, alloc: Global) -> Option<(Again, Totals)> {
    for _ in 0..TRIES {
        let mut story = Again {
            decided: 0,
            kicked: false,
        };
        if let Some(settings) = settings(alloc, 2, WordWidth::Eight) {
            if let Some(totals) = play(rt, alloc, settings, 1, &mut story) {
                return Some((story, totals));
            }
        }
    }
    None
}

#[test]
fn what_is_refused_for_memory_comes_again(rt: HostRuntime) -> Result<(), Fail> {
    let (story, totals) = told_again(&rt, rt.alloc()).expect(&rt, "totals");
    same(&rt, story.decided, 6, "each is decided");
    same(&rt, story.kicked, true, "the command is answered");
    let counts = Totals {
        events: 7,
        sent: 4,
        up: 3,
        dropped: 0,
        notes: 0,
    };
    same(&rt, totals, counts, "and each is counted once");
    Ok(())
}
