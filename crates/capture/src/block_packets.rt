//! The packets in the blocks of a pcapng file.

ghost use Rattle.std.specs.Prelude.{◌≡◌, ◌≤◌, ◌∷◌, [], length, map, Some};
ghost use Rattle.std.specs.Int.NonZero.{non_zero_u64_get};
ghost use Rattle.capture.specs.Blocks.{framed_of};
ghost use Rattle.capture.specs.Interfaces.{described_of};
ghost use Rattle.capture.specs.Sections.{seen_in, stamp_of, stamp_in, enhanced_of, enhanced, kept, simple_of, simple};

use crate::block::Block;
use crate::fault::CaptureFault;
use crate::fields::u32_at;
use crate::interface::Interface;
use crate::packet::{Packet, frame};
use std::num::NonZeroU64;

/// A count of units of time, in nanoseconds, at most what 64 bits can count.
fn stamp(units: NonZeroU64, count: u64) -> u64
    ensures is { result ≡ stamp_of (non_zero_u64_get units) count }
{
    let nanoseconds = u128::from(count) * 1_000_000_000 / u128::from(units.get());
    nanoseconds.min(u128::from(u64::MAX)) as u64
}

/// The time of an enhanced packet block.
fn stamp_in(interface: Interface, block: Block<'_>) -> u64
    requires { 20 ≤ length block.body.now }
    ensures is { result ≡ stamp_in (described_of interface) (framed_of block.entry) }
{
    let upper = u64::from(u32_at(block.endian, block.body, 4));
    let lower = u64::from(u32_at(block.endian, block.body, 8));
    stamp(interface.units, upper * 0x1_0000_0000 + lower)
}

fn enhanced_packet<'a>(
    place: u64,
    interface: Interface,
    block: Block<'a>,
) -> Result<Packet<'a>, CaptureFault>
    requires { 20 ≤ length block.body.now }
    ensures is { seen_in result
        ≡ enhanced_of place (framed_of block.entry) (Some (described_of interface)) }
{
    let count = u32_at(block.endian, block.body, 12) as usize;
    let original = u32_at(block.endian, block.body, 16) as usize;
    let bytes = block.body.split_at(20).1;
    if bytes.len() < count {
        return Err(CaptureFault::BadBlock(place));
    }
    Ok(Packet {
        time: Some(stamp_in(interface, block)),
        frame: frame(interface.link, original, bytes.split_at(count).0),
    })
}

/// The packet of an enhanced packet block at a position in the file.
pub(crate) fn enhanced<'a>(
    place: u64,
    interfaces: &[Interface],
    block: Block<'a>,
) -> Result<Packet<'a>, CaptureFault>
    ensures is { seen_in result
        ≡ enhanced place (map described_of interfaces.now) (framed_of block.entry) }
{
    if block.body.len() < 20 {
        return Err(CaptureFault::BadBlock(place));
    }
    let number = u32_at(block.endian, block.body, 0) as usize;
    match interfaces.get(number) {
        Some(interface) => return enhanced_packet(place, *interface, block),
        None => return Err(CaptureFault::BadBlock(place)),
    }
}

/// How many of a packet's bytes an interface captures.
fn kept(most: u32, original: u32) -> u32
    ensures is { result ≡ kept most original }
{
    if most == 0 {
        return original;
    }
    original.min(most)
}

fn simple_packet<'a>(
    place: u64,
    interface: Interface,
    block: Block<'a>,
) -> Result<Packet<'a>, CaptureFault>
    requires { 4 ≤ length block.body.now }
    ensures is { seen_in result
        ≡ simple_of place (framed_of block.entry) (described_of interface ∷ []) }
{
    let original = u32_at(block.endian, block.body, 0);
    let count = kept(interface.most, original) as usize;
    let bytes = block.body.split_at(4).1;
    if bytes.len() < count {
        return Err(CaptureFault::BadBlock(place));
    }
    Ok(Packet {
        time: None,
        frame: frame(interface.link, original as usize, bytes.split_at(count).0),
    })
}

/// The packet of a simple packet block at a position in the file.
pub(crate) fn simple<'a>(
    place: u64,
    interfaces: &[Interface],
    block: Block<'a>,
) -> Result<Packet<'a>, CaptureFault>
    ensures is { seen_in result
        ≡ simple place (map described_of interfaces.now) (framed_of block.entry) }
{
    if block.body.len() < 4 {
        return Err(CaptureFault::BadBlock(place));
    }
    match interfaces.first() {
        Some(interface) => return simple_packet(place, *interface, block),
        None => return Err(CaptureFault::BadBlock(place)),
    }
}
