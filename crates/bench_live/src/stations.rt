//! Stations with agreements, one of each shard, and their data.

use crate::programs::put_in_force;
use ap_books::Ledgers;
use ap_live::OpenGate;
use ap_locked::Journals;
use ap_model::Event;
use bpf_regions::WordWidth;
use live_scenes::{Scene, Story, address, data, play, settings};
use std::alloc::Global;
use std::sync::Wait;
use std::thread::Threads;

/// Each station sets up its agreement. False if there is no operator, or an allocation fails.
fn join_all<B: Ledgers + Journals, R: Wait>(
    rt: &R,
    alloc: Global,
    scene: &mut Scene<'_, B>,
) -> bool {
    let Some(chief) = scene.chiefs.first_mut() else {
        return false;
    };
    if !chief.join(rt, alloc, 0) {
        return false;
    }
    scene.serve(rt, alloc, &OpenGate).len() == 24
}

/// The program of a text is published, if there is one, and each station sets up its agreement. False if it is refused,
/// there is no operator, or an allocation fails.
pub fn begin<B: Ledgers + Journals, R: Wait>(
    rt: &R,
    alloc: Global,
    scene: &mut Scene<'_, B>,
    text: &str,
) -> bool {
    put_in_force(rt, alloc, scene.publisher, text) && join_all(rt, alloc, scene)
}

/// Runs a story with so many workers and one operator. None if an allocation fails.
pub fn play_case<R: Threads + Wait + Sync, S: Story<R> + Sync>(
    rt: &R,
    alloc: Global,
    workers: u32,
    story: &mut S,
) -> Option<()> {
    let settings = settings(alloc, workers, WordWidth::Eight)?;
    play(rt, alloc, settings, 1, story)?;
    Some(())
}

/// Event `index` of a stream of data of all eight stations alternating.
pub fn event(alloc: Global, index: u64) -> Option<Event> {
    let station = address(0, (index % 8) as u8);
    data(alloc, station, (index / 8 % 4096) as u16).ok()
}
