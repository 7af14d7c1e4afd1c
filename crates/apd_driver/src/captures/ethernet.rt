//! Data that is passed up, as a frame of Ethernet.

ghost use Rattle.std.specs.Prelude.{◌≡◌, ◌++◌, IfOk, OnOk};
ghost use Rattle.byteorder.specs.Endian.{big_bytes};
ghost use Rattle.apd_driver.specs.Ethernet.{ethernet_of, has_type, length_field, typed};

use ap_model::Up;
use std::alloc::{AllocError, Global};

/// The headers of LLC and SNAP before a type (RFC 1042).
const SNAP: [u8; 6] = [0xaa, 0xaa, 3, 0, 0, 0];

/// The type of Ethernet that stands for the length of data of more than 1500 bytes.
const LONG: [u8; 2] = [0x88, 0x70];

/// Whether the data begins with the headers before a type of Ethernet II.
fn has_type(body: &[u8]) -> bool
    ensures is { result ≡ has_type body.now }
{
    8 <= body.len() && body[..6] == SNAP[..] && 6 <= body[6]
}

/// The length field for so many bytes.
fn length_field(count: usize) -> [u8; 2]
    ensures is { result ≡ length_field count }
{
    if count > 1500 {
        return LONG;
    }
    (count as u16).to_be_bytes()
}

fn append_typed(frame: &mut Vec<u8>, body: &[u8]) -> Result<(), AllocError>
    ensures ok { OnOk result (frame.new.items ≡ frame.old.items ++ typed body.now) }
{
    if has_type(body) {
        frame.extend_from_slice(&body[6..])?;
        return Ok(());
    }
    frame.extend_from_slice(&length_field(body.len()))?;
    frame.extend_from_slice(body)?;
    Ok(())
}

/// Data as a frame: of Ethernet II if it begins with the headers of LLC and SNAP, otherwise of IEEE 802.3.
pub(crate) fn ethernet(alloc: Global, up: &Up) -> Result<Vec<u8>, AllocError>
    ensures is { IfOk result (λ frame. frame.items ≡ ethernet_of up.now) }
{
    let mut frame = Vec::new(alloc);
    frame.extend_from_slice(&up.destination.octets())?;
    frame.extend_from_slice(&up.source.octets())?;
    append_typed(&mut frame, up.body.bytes())?;
    Ok(frame)
}
