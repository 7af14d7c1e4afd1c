//! The header of a classic capture file.

ghost use Rattle.std.specs.Prelude.{◌≡◌, ◌≤◌, length, IfErr, OnOk};
ghost use Rattle.capture.specs.Form.{magic_of, link_of, any_link, form_of, IsOfHeader};

use crate::fault::CaptureFault;
use crate::fields::{Endian, u16_at, u32_at};

/// The unit of the parts of a second in records' times.
#[derive(Clone, Copy, Debug, PartialEq, Eq)]
pub(crate) enum TimeUnit {
    Microsecond,
    Nanosecond,
}

/// What a packet begins with.
#[derive(Clone, Copy, Debug, PartialEq, Eq)]
pub(crate) enum Link {
    /// The frame.
    Plain,
    /// A radiotap header.
    Radiotap,
    /// Something else: no frame is read from it.
    Other(u32),
}

/// What a file's header says of its records.
#[derive(Clone, Copy, Debug, PartialEq, Eq)]
pub(crate) struct Form {
    pub(crate) endian: Endian,
    pub(crate) unit: TimeUnit,
    pub(crate) link: Link,
}

fn magic(file: &[u8]) -> Option<(Endian, TimeUnit)>
    ensures is { result ≡ magic_of file.now }
{
    match file {
        [0xd4, 0xc3, 0xb2, 0xa1, ..] => Some((Endian::Little, TimeUnit::Microsecond)),
        [0xa1, 0xb2, 0xc3, 0xd4, ..] => Some((Endian::Big, TimeUnit::Microsecond)),
        [0x4d, 0x3c, 0xb2, 0xa1, ..] => Some((Endian::Little, TimeUnit::Nanosecond)),
        [0xa1, 0xb2, 0x3c, 0x4d, ..] => Some((Endian::Big, TimeUnit::Nanosecond)),
        _ => None,
    }
}

/// The kind of packet that a link type means.
pub(crate) fn link_named(number: u32) -> Result<Link, CaptureFault>
    ensures is { result ≡ link_of number }
    ensures fault { IfErr result IsOfHeader }
{
    match number {
        105 => Ok(Link::Plain),
        127 => Ok(Link::Radiotap),
        _ => Err(CaptureFault::LinkType(number)),
    }
}

/// The kind of packet that a link type means, if an interface may have any.
pub(crate) fn any_link(number: u32) -> Link
    ensures is { result ≡ any_link number }
{
    match link_named(number) {
        Ok(link) => link,
        Err(_) => Link::Other(number),
    }
}

/// What a file's header says.
pub(crate) fn read_form(file: &[u8]) -> Result<Form, CaptureFault>
    ensures is { result ≡ form_of file.now }
    ensures fault { IfErr result IsOfHeader }
    ensures long { OnOk result (24 ≤ length file.now) }
{
    let Some((endian, unit)) = magic(file) else {
        return Err(CaptureFault::NoCapture);
    };
    if file.len() < 24 {
        return Err(CaptureFault::CutHeader);
    }
    let major = u16_at(endian, file, 4);
    let minor = u16_at(endian, file, 6);
    if major != 2 || minor != 4 {
        return Err(CaptureFault::Version { major, minor });
    }
    let link = link_named(u32_at(endian, file, 20))?;
    Ok(Form { endian, unit, link })
}
