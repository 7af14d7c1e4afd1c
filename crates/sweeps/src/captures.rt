//! Captures.

use crate::tally::Judged;
use capture::{CaptureFault, Packet, read_capture};
use std::alloc::{AllocError, Global};

fn are_same(one: &Packet<'_>, other: &Packet<'_>) -> bool {
    if one.time != other.time {
        return false;
    }
    match (one.frame, other.frame) {
        (Ok(frame), Ok(again)) => frame == again,
        (Err(why), Err(again)) => why == again,
        _ => false,
    }
}

/// The length of the common prefix of two lists of packets.
fn count_same(one: &[Packet<'_>], other: &[Packet<'_>]) -> usize {
    let mut count = 0usize;
    for (packet, again) in one.iter().zip(other) {
        if !are_same(packet, again) {
            return count;
        }
        count = count.saturating_add(1);
    }
    count
}

/// The result for packets that were read twice.
fn judged_packets(one: &[Packet<'_>], other: &[Packet<'_>]) -> Judged {
    let count = count_same(one, other);
    if count != one.len() || count != other.len() {
        return Judged::Wrong("read twice it is not the same");
    }
    Judged::Admitted { runs: count as u64 }
}

/// The result for two refusals of a capture.
fn unread(one: CaptureFault, other: CaptureFault) -> Judged {
    match one {
        CaptureFault::NoMemory => Judged::Wrong("out of memory"),
        _ if one == other => Judged::Refused,
        _ => Judged::Wrong("read twice it is not the same"),
    }
}

/// Reads a capture twice, which must give the same result. Its packets count as runs.
pub fn judged(alloc: Global, file: &[u8]) -> Result<Judged, AllocError> {
    let first = read_capture(alloc, file);
    let second = read_capture(alloc, file);
    match (&first, &second) {
        (Ok(one), Ok(other)) => Ok(judged_packets(one, other)),
        (Err(one), Err(other)) => Ok(unread(*one, *other)),
        _ => Ok(Judged::Wrong("read twice it is not the same")),
    }
}
