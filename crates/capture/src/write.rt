//! Writing a capture: a pcapng file of what an access point received, sent and passed up.

ghost use Rattle.std.specs.Prelude.{◌≡◌, ◌<◌, ◌≤◌, ◌+◌, ◌^◌, ◌++◌, ◌↔◌, List, IfOk, OnOk, length, map};
ghost use Rattle.byteorder.specs.Endian.{little_bytes};
ghost use Rattle.capture.specs.Captures.{Holds};
ghost use Rattle.capture.specs.Packets.{Seen};
ghost use Rattle.capture.specs.Writing.{Written, AreCounted, block_of, cut_to, file_of, heading, interface_body, link_number, name_of, number_of, option_of, packet_block, packet_body, padding, seen_from, written_of};

use crate::block::SECTION;
use crate::new_packet::{NewPacket, Side};
use std::alloc::{AllocError, Global};

/// The most bytes of a packet that a capture keeps.
pub const MOST_KEPT: usize = 262_144;

/// The most bytes of an option's value.
const MOST_TEXT: usize = 65_535;

/// The body of a section header: the byte order's magic number, version 1.0, and no known length.
const SECTION_BODY: [u8; 16] = [
    0x4d, 0x3c, 0x2b, 0x1a, 1, 0, 0, 0, 0xff, 0xff, 0xff, 0xff, 0xff, 0xff, 0xff, 0xff,
];

impl Side {
    /// The number of the interface in its section.
    fn number(self) -> u32
        ensures is { result ≡ number_of self }
    {
        match self {
            Side::In => 0,
            Side::Out => 1,
            Side::Up => 2,
        }
    }

    /// The link type: IEEE 802.11, or Ethernet.
    fn link(self) -> u16
        ensures is { result ≡ link_number self }
    {
        match self {
            Side::In => 105,
            Side::Out => 105,
            Side::Up => 1,
        }
    }

    fn name(self) -> &'static str
        ensures is { result.now ≡ name_of self }
    {
        match self {
            Side::In => "in",
            Side::Out => "out",
            Side::Up => "up",
        }
    }
}

/// The first bytes, at most so many.
#[tactic(auto, unfolding(crate::specs::Writing::cut_to))]
fn first(most: usize, bytes: &[u8]) -> &[u8]
    ensures is { result.now ≡ cut_to most bytes.now }
    ensures short { length result.now ≤ most }
{
    if bytes.len() <= most {
        return bytes;
    }
    bytes.split_at(most).0
}

fn append_u16(out: &mut Vec<u8>, number: u16) -> Result<(), AllocError>
    ensures ok { OnOk result (out.new.items ≡ out.old.items ++ little_bytes 2 number) }
{
    out.extend_from_slice(&number.to_le_bytes())?;
    Ok(())
}

fn append_u32(out: &mut Vec<u8>, number: u32) -> Result<(), AllocError>
    ensures ok { OnOk result (out.new.items ≡ out.old.items ++ little_bytes 4 number) }
{
    out.extend_from_slice(&number.to_le_bytes())?;
    Ok(())
}

/// Appends zeros up to a multiple of 4 bytes.
fn append_padding(out: &mut Vec<u8>, count: usize) -> Result<(), AllocError>
    ensures ok { OnOk result (out.new.items ≡ out.old.items ++ padding count) }
{
    let zeros = match count % 4 {
        0 => [].as_slice(),
        1 => [0u8, 0, 0].as_slice(),
        2 => [0u8, 0].as_slice(),
        _ => [0u8].as_slice(),
    };
    out.extend_from_slice(zeros)?;
    Ok(())
}

/// Appends an option.
fn append_option(out: &mut Vec<u8>, code: u16, value: &[u8]) -> Result<(), AllocError>
    requires short { length value.now < 2 ^ 16 }
    ensures ok { OnOk result (out.new.items ≡ out.old.items ++ option_of code value.now) }
{
    append_u16(out, code)?;
    append_u16(out, value.len() as u16)?;
    out.extend_from_slice(value)?;
    append_padding(out, value.len())
}

fn append_block(out: &mut Vec<u8>, kind: u32, body: &[u8]) -> Result<(), AllocError>
    requires short { length body.now + 12 < 2 ^ 32 }
    ensures ok { OnOk result (out.new.items ≡ out.old.items ++ block_of kind body.now) }
{
    let total = body.len() as u32 + 12;
    append_u32(out, kind)?;
    append_u32(out, total)?;
    out.extend_from_slice(body)?;
    append_u32(out, total)
}

fn interface_body(alloc: Global, side: Side) -> Result<Vec<u8>, AllocError>
    ensures is { IfOk result (λ body. body.items ≡ interface_body side) }
{
    let mut body = Vec::new(alloc);
    append_u16(&mut body, side.link())?;
    append_u16(&mut body, 0)?;
    append_u32(&mut body, MOST_KEPT as u32)?;
    append_option(&mut body, 2, side.name().as_bytes())?;
    append_option(&mut body, 9, &[9])?;
    body.extend_from_slice(&[0, 0, 0, 0])?;
    Ok(body)
}

fn packet_body(alloc: Global, packet: NewPacket<'_>) -> Result<Vec<u8>, AllocError>
    ensures is { IfOk result (λ body. body.items ≡ packet_body (written_of packet.entry)) }
{
    let kept = first(MOST_KEPT, packet.bytes);
    let mut body = Vec::new(alloc);
    append_u32(&mut body, packet.side.number())?;
    append_u32(&mut body, (packet.time / 0x1_0000_0000) as u32)?;
    append_u32(&mut body, (packet.time % 0x1_0000_0000) as u32)?;
    append_u32(&mut body, kept.len() as u32)?;
    append_u32(&mut body, packet.bytes.len().min(0xffff_ffff) as u32)?;
    body.extend_from_slice(kept)?;
    append_padding(&mut body, kept.len())?;
    append_option(&mut body, 1, first(MOST_TEXT, packet.comment))?;
    body.extend_from_slice(&[0, 0, 0, 0])?;
    Ok(body)
}

/// Appends what a file begins with: its section and its interfaces `in`, `out` and `up`.
pub fn append_heading(alloc: Global, out: &mut Vec<u8>) -> Result<(), AllocError>
    ensures ok { OnOk result (out.new.items ≡ out.old.items ++ heading) }
{
    append_block(out, SECTION, &SECTION_BODY)?;
    append_interface(alloc, out, Side::In)?;
    append_interface(alloc, out, Side::Out)?;
    append_interface(alloc, out, Side::Up)?;
    Ok(())
}

fn append_interface(alloc: Global, out: &mut Vec<u8>, side: Side) -> Result<(), AllocError>
    ensures ok { OnOk result
        (out.new.items ≡ out.old.items ++ block_of 1 (interface_body side)) }
{
    let body = interface_body(alloc, side)?;
    append_block(out, 1, body.as_slice())
}

/// Appends the block of a packet.
pub fn append_packet(
    alloc: Global,
    out: &mut Vec<u8>,
    packet: NewPacket<'_>,
) -> Result<(), AllocError>
    ensures ok { OnOk result
        (out.new.items ≡ out.old.items ++ packet_block (written_of packet.entry)) }
{
    let body = packet_body(alloc, packet)?;
    append_block(out, 6, body.as_slice())?;
    Ok(())
}

/// A whole file of these packets. What is read from it is the frames that were received and sent, with their times; each
/// packet of `up` is left out for its link type, and a packet of more than 262144 bytes since it is cut.
pub fn write_capture(alloc: Global, packets: &[NewPacket<'_>]) -> Result<Vec<u8>, AllocError>
    ensures is { IfOk result (λ file. file.items ≡ file_of (map written_of packets.now)) }
    ensures read { IfOk result (λ file. (seen : List Seen) →
        Holds file.items seen ↔ (seen ≡ map seen_from (map written_of packets.now))) }
{
    let mut file = Vec::new(alloc);
    append_heading(alloc, &mut file)?;
    for packet in packets {
        append_packet(alloc, &mut file, *packet)?;
    }
    Ok(file)
}

/// Reading a file that begins with the heading and goes on with the blocks of packets, whose times 64 bits count, gives
/// these packets and no others.
pub fn written_law()
    ensures read { (packets : List Written) → AreCounted packets → (seen : List Seen) →
        Holds (file_of packets) seen ↔ (seen ≡ map seen_from packets) }
{}
