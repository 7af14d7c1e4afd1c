//! Reads values and stack slots.

ghost use Rattle.std.specs.Prelude.{◌≡◌, ◌≤◌};
ghost use Rattle.bpf_cert_format.specs.Answers.{Gives};
ghost use Rattle.bpf_cert_format.specs.Reading.{region_named as names_region, map_at as reads_map, pointer_into as reads_pointer, value_tagged as reads_value, value_at as reads_any, cell_at as reads_cell, frame_pointer_at as reads_frame_pointer};

use crate::fault::ReadFault;
use crate::fields::{byte_at, label_at, number_at};
use bpf_absval::{AbsRegion, AbsSlot, AbsVal};

/// The region of that byte, for that many maps and stack frames.
fn region_named(maps: usize, frames: usize, byte: u8) -> Option<AbsRegion>
    requires few_maps { maps ≤ 16 }
    requires few_frames { frames ≤ 8 }
    ensures is { result ≡ names_region maps frames byte }
{
    if byte == 1 {
        return Some(AbsRegion::Context);
    }
    if 16 <= byte && (byte as usize) < 16 + frames {
        return Some(AbsRegion::Stack(byte - 16));
    }
    if 32 <= byte && (byte as usize) < 32 + maps {
        return Some(AbsRegion::Entry(u32::from(byte - 32)));
    }
    None
}

/// A map's number, below `maps`.
fn map_at(maps: usize, bytes: &[u8]) -> Result<(u32, &[u8]), ReadFault>
    ensures is { Gives (λ x. (x.0, x.1.now)) result (reads_map maps bytes.now) }
{
    let (map, rest) = byte_at(bytes)?;
    if (map as usize) < maps {
        return Ok((u32::from(map), rest));
    }
    Err(ReadFault::Malformed)
}

/// A pointer into the received frame.
fn frame_pointer_at(bytes: &[u8]) -> Result<(AbsVal, &[u8]), ReadFault>
    ensures is { Gives (λ x. (x.0, x.1.now)) result (reads_frame_pointer bytes.now) }
{
    match number_at(bytes) {
        Err(fault) => Err(fault),
        Ok((offset, rest)) => {
            let (label, rest) = label_at(rest)?;
            Ok((AbsVal::Frame { offset, label }, rest))
        }
    }
}

/// A pointer into the region of that byte.
#[tactic(auto, unfolding(crate::specs::Reading::pointer_into))]
fn pointer_into(
    maps: usize,
    frames: usize,
    region: u8,
    bytes: &[u8],
) -> Result<(AbsVal, &[u8]), ReadFault>
    requires few_maps { maps ≤ 16 }
    requires few_frames { frames ≤ 8 }
    ensures is { Gives (λ x. (x.0, x.1.now)) result (reads_pointer maps frames region bytes.now) }
{
    if region == 0 {
        return frame_pointer_at(bytes);
    }
    match region_named(maps, frames, region) {
        None => Err(ReadFault::Malformed),
        Some(region) => match number_at(bytes) {
            Err(fault) => Err(fault),
            Ok((offset, rest)) => Ok((AbsVal::Pointer { region, offset }, rest)),
        },
    }
}

/// A value after its tag.
#[tactic(auto, unfolding(crate::specs::Reading::value_tagged))]
fn value_tagged(
    maps: usize,
    frames: usize,
    tag: u8,
    bytes: &[u8],
) -> Result<(AbsVal, &[u8]), ReadFault>
    requires few_maps { maps ≤ 16 }
    requires few_frames { frames ≤ 8 }
    ensures is { Gives (λ x. (x.0, x.1.now)) result (reads_value maps frames tag bytes.now) }
{
    match tag {
        0 => Ok((AbsVal::Unset, bytes)),
        1 => match number_at(bytes) {
            Err(fault) => Err(fault),
            Ok((number, rest)) => Ok((AbsVal::Number(number), rest)),
        },
        2 => {
            let (region, rest) = byte_at(bytes)?;
            pointer_into(maps, frames, region, rest)
        }
        3 => Ok((AbsVal::FrameEnd, bytes)),
        4 => {
            let (map, rest) = map_at(maps, bytes)?;
            Ok((AbsVal::MapReference(map), rest))
        }
        5 => {
            let (map, rest) = map_at(maps, bytes)?;
            Ok((AbsVal::Lookup(map), rest))
        }
        _ => Err(ReadFault::Malformed),
    }
}

/// A value.
#[tactic(auto, unfolding(crate::specs::Reading::value_at))]
pub(crate) fn value_at(
    maps: usize,
    frames: usize,
    bytes: &[u8],
) -> Result<(AbsVal, &[u8]), ReadFault>
    requires few_maps { maps ≤ 16 }
    requires few_frames { frames ≤ 8 }
    ensures is { Gives (λ x. (x.0, x.1.now)) result (reads_any maps frames bytes.now) }
{
    let (tag, rest) = byte_at(bytes)?;
    value_tagged(maps, frames, tag, rest)
}

/// What eight bytes of a stack may hold.
#[tactic(auto, unfolding(crate::specs::Reading::cell_at))]
pub(crate) fn cell_at(
    maps: usize,
    frames: usize,
    bytes: &[u8],
) -> Result<(AbsSlot, &[u8]), ReadFault>
    requires few_maps { maps ≤ 16 }
    requires few_frames { frames ≤ 8 }
    ensures is { Gives (λ x. (x.0, x.1.now)) result (reads_cell maps frames bytes.now) }
{
    let (tag, rest) = byte_at(bytes)?;
    if tag == 0 {
        return Ok((AbsSlot::Unset, rest));
    }
    if tag == 6 {
        let (set, rest) = byte_at(rest)?;
        return Ok((AbsSlot::Bytes(set), rest));
    }
    match value_tagged(maps, frames, tag, rest) {
        Err(fault) => Err(fault),
        Ok((value, rest)) => Ok((AbsSlot::Stored(value), rest)),
    }
}
