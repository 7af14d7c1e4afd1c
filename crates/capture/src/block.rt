//! The blocks of a pcapng file.

ghost use Rattle.std.specs.Prelude.{◌≡◌, ◌≤◌, ◌<◌, length, IfOk};
ghost use Rattle.capture.specs.Blocks.{framed_in, endian_shown, endian_of, whole, block_at};

use crate::fault::CaptureFault;
use crate::fields::{Endian, u32_at};

/// The type of a section header, the same in either byte order.
pub(crate) const SECTION: u32 = 0x0a0d_0d0a;

/// A block: its byte order, type and body, and what follows it.
#[derive(Clone, Copy, Debug, PartialEq, Eq)]
pub(crate) struct Block<'a> {
    pub(crate) endian: Endian,
    pub(crate) kind: u32,
    pub(crate) body: &'a [u8],
    pub(crate) after: &'a [u8],
}

/// The byte order that a section header shows.
fn endian_shown(block: &[u8]) -> Option<Endian>
    requires { 8 ≤ length block.now }
    ensures is { result ≡ endian_shown block.now }
{
    match block.split_at(8).1 {
        [0x1a, 0x2b, 0x3c, 0x4d, ..] => Some(Endian::Big),
        [0x4d, 0x3c, 0x2b, 0x1a, ..] => Some(Endian::Little),
        _ => None,
    }
}

/// The byte order of a block in a section with this one.
fn endian_of(endian: Endian, block: &[u8]) -> Option<Endian>
    requires { 8 ≤ length block.now }
    ensures is { result ≡ endian_of endian block.now }
{
    if u32_at(endian, block, 0) == SECTION {
        return endian_shown(block);
    }
    Some(endian)
}

/// The first block of the bytes, in its byte order.
fn whole_block(place: u64, endian: Endian, bytes: &[u8]) -> Result<Block<'_>, CaptureFault>
    requires { 12 ≤ length bytes.now }
    ensures is { framed_in result ≡ whole place endian bytes.now }
    ensures shorter { IfOk result (λ block. length block.after.now < length bytes.now) }
{
    let total = u32_at(endian, bytes, 4) as usize;
    if total < 12 || total % 4 > 0 {
        return Err(CaptureFault::BadBlock(place));
    }
    if bytes.len() < total {
        return Err(CaptureFault::CutBlock(place));
    }
    if u32_at(endian, bytes, total - 4) as usize != total {
        return Err(CaptureFault::BadBlock(place));
    }
    Ok(Block {
        endian,
        kind: u32_at(endian, bytes, 0),
        body: bytes.split_at(8).1.split_at(total - 12).0,
        after: bytes.split_at(total).1,
    })
}

/// The first block of the bytes at a position in the file, in a section with this byte order.
pub(crate) fn first_block(
    place: u64,
    endian: Endian,
    bytes: &[u8],
) -> Result<Block<'_>, CaptureFault>
    ensures is { framed_in result ≡ block_at place endian bytes.now }
    ensures shorter { IfOk result (λ block. length block.after.now < length bytes.now) }
{
    if bytes.len() < 12 {
        return Err(CaptureFault::CutBlock(place));
    }
    match endian_of(endian, bytes) {
        Some(endian) => return whole_block(place, endian, bytes),
        None => return Err(CaptureFault::BadBlock(place)),
    }
}
