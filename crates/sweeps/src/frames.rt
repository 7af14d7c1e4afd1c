//! Frames that are parsed and written again.

ghost use Rattle.std.specs.Prelude.{◌≤◌, ◌<◌, ◌+◌, ◌*◌, length};

use crate::tally::Judged;
use mac_frame::{FrameFault, MacFrame, parse, write};
use std::alloc::{AllocError, Global};

/// The result for bytes that are no frame.
fn refused(fault: FrameFault) -> Judged {
    match fault {
        FrameFault::Memory => Judged::Wrong("out of memory"),
        FrameFault::Fault(fault) => match fault.number() {
            50..=55 => Judged::Refused,
            _ => Judged::Wrong("an unknown fault of a frame"),
        },
    }
}

fn are_alike(one: &MacFrame, other: &MacFrame) -> bool {
    one.flags() == other.flags()
        && one.duration() == other.duration()
        && one.receiver() == other.receiver()
        && one.sender() == other.sender()
        && one.content() == other.content()
        && one.tail() == other.tail()
        && one.ssid() == other.ssid()
        && one.rates() == other.rates()
        && one.tid() == other.tid()
        && one.bssid() == other.bssid()
}

/// Parses a frame, writes it again, and parses that.
pub fn judged(alloc: Global, bytes: &[u8]) -> Result<Judged, AllocError> {
    let frame = match parse(alloc, bytes) {
        Ok(frame) => frame,
        Err(fault) => return Ok(refused(fault)),
    };
    let mut again = Vec::new(alloc);
    write(&frame, &mut again)?;
    if again.as_slice() != bytes {
        return Ok(Judged::Wrong("written again it is another frame"));
    }
    match parse(alloc, &again) {
        Ok(second) if are_alike(&frame, &second) => Ok(Judged::Admitted { runs: 0 }),
        _ => Ok(Judged::Wrong("parsed again it is another frame")),
    }
}

/// The bytes cut at a length, or with a byte set to a value, by number: first the cuts, then the values.
fn edge(alloc: Global, bytes: &[u8], number: usize) -> Result<Vec<u8>, AllocError> {
    if number < bytes.len() {
        return Vec::from_slice(alloc, &bytes[..number]);
    }
    let rest = number - bytes.len();
    let mut out = Vec::from_slice(alloc, bytes)?;
    let at = rest / 256;
    if at < out.len() {
        out[at] = (rest % 256) as u8;
    }
    Ok(out)
}

/// How many of these there are.
fn edges(bytes: &[u8]) -> usize {
    bytes.len().saturating_mul(257)
}

/// Each sample cut at each length and with each byte set to each value, by number. No bytes after the last.
pub fn edge_of(alloc: Global, samples: &[Vec<u8>], number: usize) -> Result<Vec<u8>, AllocError> {
    let mut left = number;
    for sample in samples {
        if left < edges(sample) {
            return edge(alloc, sample, left);
        }
        left = left.saturating_sub(edges(sample));
    }
    Ok(Vec::new(alloc))
}
