//! Frames after a radiotap header.

ghost use Rattle.std.specs.Prelude.{◌≡◌, ◌≤◌, ◌+◌, ◌^◌, ◌<◌, length, IfSome};
ghost use Rattle.capture.specs.Radiotap.{bytes_in, words_len, flags_place, flags_of, without_check, radiotap_frame};

use crate::fault::LeftOut;
use crate::fields::{Endian, u16_at};

/// How many bytes the words of present fields have: the last one lacks its highest bit. None if they are cut.
#[tactic(auto, using(crate::proofs::Present::step, crate::proofs::Present::short, crate::proofs::Present::add_zero))]
fn words_len(bytes: &[u8]) -> Option<usize>
    ensures is { result ≡ words_len bytes.now }
    ensures within { IfSome result (λ count. count ≤ length bytes.now) }
{
    let mut rest = bytes;
    let mut count = 0;
    while rest.len() >= 4 {
        count += 4;
        if rest[3] < 128 {
            return Some(count);
        }
        rest = rest.split_at(4).1;
    }
    None
}

/// The index of the flags in a header that has them: after the present words, which end at `start`, and after the
/// time, if the header has one.
fn flags_place(has_time: bool, start: usize) -> usize
    requires { start < 2 ^ 32 }
    ensures is { result ≡ flags_place has_time start }
{
    if has_time {
        (start + 7) / 8 * 8 + 8
    } else {
        start
    }
}

/// The flags of a header, 0 if it has none. None if they are cut.
fn flags(header: &[u8]) -> Option<u8>
    requires long { 8 ≤ length header.now }
    requires short { length header.now < 2 ^ 16 }
    ensures is { result ≡ flags_of header.now }
{
    let words = words_len(header.split_at(4).1)?;
    let fields = header[4];
    if fields / 2 % 2 == 0 {
        return Some(0);
    }
    header.get(flags_place(fields % 2 == 1, 4 + words)).copied()
}

/// A frame without its frame check sequence, if it has one. A frame whose sequence is wrong is left out.
fn without_check(flags: u8, frame: &[u8]) -> Result<&[u8], LeftOut>
    ensures is { bytes_in result ≡ without_check flags frame.now }
{
    if flags / 64 % 2 == 1 {
        return Err(LeftOut::WrongCheckSequence);
    }
    if flags / 16 % 2 == 0 {
        return Ok(frame);
    }
    if frame.len() < 4 {
        return Err(LeftOut::CheckSequence);
    }
    Ok(frame.split_at(frame.len() - 4).0)
}

/// The frame after a radiotap header.
pub(crate) fn radiotap_frame(packet: &[u8]) -> Result<&[u8], LeftOut>
    ensures is { bytes_in result ≡ radiotap_frame packet.now }
{
    if packet.len() < 8 || packet[0] != 0 {
        return Err(LeftOut::Radiotap);
    }
    let length = usize::from(u16_at(Endian::Little, packet, 2));
    if length < 8 || packet.len() < length {
        return Err(LeftOut::Radiotap);
    }
    let (header, frame) = packet.split_at(length);
    match flags(header) {
        Some(flags) => without_check(flags, frame),
        None => Err(LeftOut::Radiotap),
    }
}
