//! Stations of an access point: their frames, and the events by which they join it.

use ap_core::{Event, LinkConfig, Octets};
use mac_frame::Address;
use std::alloc::{AllocError, Global};

/// The access point.
const BSSID: [u8; 6] = [2, 0, 0, 0, 0, 1];

/// LLC/SNAP, the header of IPv4 with UDP, and that of UDP to port 53.
static DATAGRAM: [u8; 36] = [
    0xaa, 0xaa, 3, 0, 0, 0, 8, 0, 0x45, 0, 0, 92, 0, 0, 0, 0, 64, 17, 0, 0, 10, 0, 0, 1, 10, 0, 0,
    2, 0x13, 0x88, 0, 53, 0, 72, 0, 0,
];

/// The configuration of an access point of network `lab`, which is within the limits.
pub fn config(alloc: Global) -> Option<LinkConfig> {
    let ssid = Octets::copy(alloc, b"lab").ok()?;
    let rates = Octets::copy(alloc, &[0x82, 0x84, 0x8b, 0x96]).ok()?;
    LinkConfig::new(Address::new(BSSID), ssid, rates)
}

/// A frame to the access point: its first byte and its second, three addresses, and the rest. Stations with even
/// numbers belong to shard 0, the others to shard 1.
fn frame(alloc: Global, first: [u8; 2], station: u16, rest: &[u8]) -> Result<Vec<u8>, AllocError> {
    let [high, low] = (((station >> 1) << 3) | (station & 1)).to_be_bytes();
    let mut bytes = Vec::with_capacity(alloc, 24 + rest.len())?;
    bytes.extend_from_slice(&[first[0], first[1], 0, 0])?;
    bytes.extend_from_slice(&BSSID)?;
    bytes.extend_from_slice(&[2, 0, 0, 1, high, low])?;
    bytes.extend_from_slice(&BSSID)?;
    bytes.extend_from_slice(rest)?;
    Ok(bytes)
}

/// The step of a station towards an agreement: it authenticates (0), associates (1), or requests an agreement of size
/// 64 for TID 0, from number 0 on, without timeout.
pub fn joining(alloc: Global, station: u16, step: u8) -> Result<Vec<u8>, AllocError> {
    let (first, rest): (u8, &[u8]) = match step {
        0 => (0xb0, &[0x10, 0, 0, 0, 1, 0, 0, 0]),
        1 => (
            0,
            &[0x10, 0, 1, 0, 10, 0, 0, 3, b'l', b'a', b'b', 1, 1, 0x82],
        ),
        _ => (0xd0, &[0x10, 0, 3, 0, 7, 0x02, 0x10, 0, 0, 0, 0]),
    };
    frame(alloc, [first, 0], station, rest)
}

/// QoS data for TID 0 with a number and this many bytes: LLC/SNAP, IPv4, UDP to port 53, and zeros.
pub fn data(alloc: Global, station: u16, number: u16, size: u16) -> Result<Vec<u8>, AllocError> {
    let mut rest = Vec::from_slice(alloc, &(number << 4).to_le_bytes())?;
    rest.extend_from_slice(&[0, 0])?;
    rest.extend_from_slice(&DATAGRAM)?;
    rest.resize(usize::from(size) + 4, 0)?;
    frame(alloc, [0x88, 0x01], station, rest.as_slice())
}

/// Data without QoS, number 0, in a frame of 100 bytes: zeros behind the addresses.
pub fn plain(alloc: Global, station: u16) -> Result<Vec<u8>, AllocError> {
    frame(alloc, [0x08, 0x01], station, &[0; 78])
}

/// The event of a frame.
pub fn event(bytes: Vec<u8>) -> Event {
    Event::Frame(Octets::new(bytes))
}
