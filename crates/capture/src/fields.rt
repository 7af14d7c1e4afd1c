//! Numbers in either byte order.

ghost use Rattle.std.specs.Prelude.{◌≡◌, ◌≤◌, ◌+◌, length, drop};
ghost use Rattle.capture.specs.Fields.{number, number_at};

use byteorder::{BigEndian, ByteOrder, LittleEndian};

/// Which byte of a number comes first.
#[derive(Clone, Copy, Debug, PartialEq, Eq)]
pub(crate) enum Endian {
    /// The lowest.
    Little,
    /// The highest.
    Big,
}

fn tail(bytes: &[u8], at: usize) -> &[u8]
    requires { at ≤ length bytes.now }
    ensures { result.now ≡ drop at bytes.now }
{
    bytes.split_at(at).1
}

/// The number in the two bytes at `at`.
pub(crate) fn u16_at(endian: Endian, bytes: &[u8], at: usize) -> u16
    requires { at + 2 ≤ length bytes.now }
    ensures { result ≡ number_at endian 2 at bytes.now }
{
    match endian {
        Endian::Little => LittleEndian::read_u16(tail(bytes, at)),
        Endian::Big => BigEndian::read_u16(tail(bytes, at)),
    }
}

/// The number in the four bytes at `at`.
pub(crate) fn u32_at(endian: Endian, bytes: &[u8], at: usize) -> u32
    requires { at + 4 ≤ length bytes.now }
    ensures { result ≡ number_at endian 4 at bytes.now }
{
    match endian {
        Endian::Little => LittleEndian::read_u32(tail(bytes, at)),
        Endian::Big => BigEndian::read_u32(tail(bytes, at)),
    }
}
