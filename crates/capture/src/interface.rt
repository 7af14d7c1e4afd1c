//! The interfaces that a section of a pcapng file describes.

ghost use Rattle.std.specs.Prelude.{◌≡◌, ◌≤◌, ◌<◌, ◌^◌, length, option_map};
ghost use Rattle.std.specs.Int.NonZero.{non_zero_u64_get};
ghost use Rattle.capture.specs.Blocks.{framed_of};
ghost use Rattle.capture.specs.Interfaces.{described_in, padded, resolution_in, counted_units, interface_of};

use crate::block::Block;
use crate::fault::CaptureFault;
use crate::fields::{Endian, u16_at, u32_at};
use crate::form::{Link, any_link};
use std::num::NonZeroU64;

/// An interface that captured packets.
#[derive(Clone, Copy, Debug, PartialEq, Eq)]
pub(crate) struct Interface {
    pub(crate) link: Link,
    /// How many units of time a second has.
    pub(crate) units: NonZeroU64,
    /// The most bytes captured of a packet, 0 for all.
    pub(crate) most: u32,
}

/// The length of an option's value with its padding.
fn padded(count: usize) -> usize
    requires { count < 2 ^ 16 }
    ensures is { result ≡ padded count }
{
    (count + 3) / 4 * 4
}

/// The time resolution in an interface's options, 6 if none gives it. None if they are damaged.
fn resolution_in(endian: Endian, options: &[u8]) -> Option<u8>
    ensures is { result ≡ resolution_in (length options.now) endian options.now }
{
    let mut rest = options;
    while rest.len() >= 4 {
        let code = u16_at(endian, rest, 0);
        if code == 0 {
            return Some(6);
        }
        let count = usize::from(u16_at(endian, rest, 2));
        let values = rest.split_at(4).1;
        if values.len() < padded(count) {
            return None;
        }
        if code == 9 {
            return if count == 1 { Some(rest[4]) } else { None };
        }
        rest = values.split_at(padded(count)).1;
    }
    Some(6)
}

/// How many units of this resolution a second has. None if 64 bits can't count them.
fn units(resolution: u8) -> Option<u64>
    ensures is { result ≡ counted_units resolution }
{
    if resolution < 128 {
        return 10u64.checked_pow(u32::from(resolution));
    }
    2u64.checked_pow(u32::from(resolution - 128))
}

/// The same, as a number that isn't 0.
fn counted_units(resolution: u8) -> Option<NonZeroU64>
    ensures is { option_map non_zero_u64_get result ≡ counted_units resolution }
{
    let units = units(resolution)?;
    NonZeroU64::new(units)
}

/// The interface that a block at a position in the file describes.
pub(crate) fn interface_in(place: u64, block: Block<'_>) -> Result<Interface, CaptureFault>
    ensures is { described_in result ≡ interface_of place (framed_of block.entry) }
{
    if block.body.len() < 8 {
        return Err(CaptureFault::BadBlock(place));
    }
    let link = any_link(u32::from(u16_at(block.endian, block.body, 0)));
    let Some(resolution) = resolution_in(block.endian, block.body.split_at(8).1) else {
        return Err(CaptureFault::BadBlock(place));
    };
    let Some(units) = counted_units(resolution) else {
        return Err(CaptureFault::Resolution(resolution));
    };
    let most = u32_at(block.endian, block.body, 4);
    Ok(Interface { link, units, most })
}
