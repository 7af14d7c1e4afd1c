//! One record of a classic capture file.

ghost use Rattle.std.specs.Prelude.{◌≡◌, ◌<◌, length, IfSome};
ghost use Rattle.capture.specs.Radiotap.{bytes_in};
ghost use Rattle.capture.specs.Packets.{time_of, frame_of, First};

use crate::fault::LeftOut;
use crate::fields::u32_at;
use crate::form::{Form, Link, TimeUnit};
use crate::radiotap::radiotap_frame;

/// A packet of a capture: its time in nanoseconds since the start of 1970, if it has one, and the frame
/// without radiotap header and frame check sequence, or why there is none.
#[derive(Clone, Copy, Debug, PartialEq, Eq)]
pub struct Packet<'a> {
    pub time: Option<u64>,
    pub frame: Result<&'a [u8], LeftOut>,
}

fn time(unit: TimeUnit, seconds: u32, part: u32) -> u64
    ensures is { result ≡ time_of unit seconds part }
{
    let part = match unit {
        TimeUnit::Microsecond => 1000 * u64::from(part),
        TimeUnit::Nanosecond => u64::from(part),
    };
    1_000_000_000 * u64::from(seconds) + part
}

/// The frame in captured bytes of a packet of `original` bytes.
pub(crate) fn frame(link: Link, original: usize, bytes: &[u8]) -> Result<&[u8], LeftOut>
    ensures is { bytes_in result ≡ frame_of link original bytes.now }
{
    if bytes.len() < original {
        return Err(LeftOut::Cut);
    }
    match link {
        Link::Plain => Ok(bytes),
        Link::Radiotap => radiotap_frame(bytes),
        Link::Other(number) => Err(LeftOut::LinkType(number)),
    }
}

/// The packet of the first record, and what follows the record. None if the record is cut.
pub(crate) fn first_packet(form: Form, bytes: &[u8]) -> Option<(Packet<'_>, &[u8])>
    ensures first { First form bytes.now result }
    ensures shorter { IfSome result (λ x. length x.1.now < length bytes.now) }
{
    if bytes.len() < 16 {
        return None;
    }
    let (head, rest) = bytes.split_at(16);
    let captured = u32_at(form.endian, head, 8) as usize;
    if rest.len() < captured {
        return None;
    }
    let (captured, after) = rest.split_at(captured);
    let original = u32_at(form.endian, head, 12) as usize;
    let seconds = u32_at(form.endian, head, 0);
    let part = u32_at(form.endian, head, 4);
    let packet = Packet {
        time: Some(time(form.unit, seconds, part)),
        frame: frame(form.link, original, captured),
    };
    Some((packet, after))
}
