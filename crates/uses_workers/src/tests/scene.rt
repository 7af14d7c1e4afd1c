//! What several tests do with an access point.

use ap_books::{Ledgers, Totals};
use ap_live::{Fate, Gate, Tagged};
use ap_locked::Journals;
use ap_model::Event;
use ap_queues::Unserved;
use bpf_regions::WordWidth;
use live_scenes::{Scene, Story, address, data, joining, play, settings};
use std::alloc::Global;
use std::process::Abort;
use std::sync::Wait;
use std::thread::Threads;

/// Runs a story with this many workers and operators, over maps of this width, and returns the totals.
pub fn tell<R: Threads + Wait + Abort + Sync, S: Story<R> + Sync>(
    rt: &R,
    alloc: Global,
    many: (u32, usize),
    width: WordWidth,
    story: &mut S,
) -> Totals {
    let settings = settings(alloc, many.0, width).expect(rt, "settings");
    play(rt, alloc, settings, many.1, story).expect(rt, "totals")
}

/// One operator puts a frame of a station under a call: steps 0 to 2 set up its agreement, and step 3 is data, whose
/// number is the call's. False if an allocation fails, or the queue is full.
pub fn puts<L: Ledgers + Journals, R: Wait>(
    rt: &R,
    alloc: Global,
    scene: &mut Scene<'_, L>,
    station: [u8; 6],
    step: u8,
    call: u64,
) -> bool {
    let event = match step {
        3 => data(alloc, station, (call % 4096) as u16),
        _ => joining(alloc, station, step),
    };
    match (event, scene.chiefs.first_mut()) {
        (Ok(event), Some(chief)) => chief.submit(rt, call, event).is_ok(),
        _ => false,
    }
}

/// The frame that fills a queue, of a station of shard 5.
fn frame(alloc: Global) -> Option<Event> {
    joining(alloc, address(0, 5), 0).ok()
}

/// Whether that frame was returned, with 61 and its shard.
fn is_frame(alloc: Global, back: &Unserved) -> bool {
    let Some(wanted) = frame(alloc) else {
        return false;
    };
    match (&back.event, &wanted) {
        (Event::Frame(bytes), Event::Frame(others)) => {
            bytes.bytes() == others.bytes() && back.number() == 61 && back.shard == 5
        }
        _ => false,
    }
}

/// One operator puts a frame until it is returned: how many were taken. 0 if it was not returned as it should be.
pub fn fill<L: Ledgers + Journals, R: Wait>(
    rt: &R,
    alloc: Global,
    scene: &mut Scene<'_, L>,
) -> u64 {
    let Some(chief) = scene.chiefs.first_mut() else {
        return 0;
    };
    for taken in 0..1000 {
        let Some(event) = frame(alloc) else {
            return 0;
        };
        if let Err(back) = chief.submit(rt, taken, event) {
            return if is_frame(alloc, &back) { taken } else { 0 };
        }
    }
    0
}

/// The fates of these reports, a digit each, the first in front: 1 for decided, 2 for refused, 3 for not handled.
pub fn fates(list: &[Tagged]) -> u64 {
    let mut digits = 0u64;
    for tagged in list {
        let digit = match tagged.fate {
            Fate::Decided { .. } => 1,
            Fate::Refused => 2,
            Fate::NotHandled => 3,
        };
        digits = digits.wrapping_mul(10).wrapping_add(digit);
    }
    digits
}

/// Each worker serves its queue, one after another. Returns the fates, as `fates`.
pub fn serve<L: Ledgers + Journals, R: Wait, G: Gate>(
    rt: &R,
    alloc: Global,
    scene: &mut Scene<'_, L>,
    gate: &G,
) -> u64 {
    let list = scene.serve(rt, alloc, gate);
    fates(list.as_slice())
}
