//! Frames of stations to the access point `020000000001`, whose network is `lab`.

use ap_model::{Event, LinkConfig, Octets};
use mac_types::Address;
use std::alloc::{AllocError, Global};

const BSSID: [u8; 6] = [2, 0, 0, 0, 0, 1];

/// The body of a data frame: LLC/SNAP and a packet to UDP port 53, 74 bytes in all.
const PACKET: [u8; 74] = [
    0xaa, 0xaa, 0x03, 0, 0, 0, 0x08, 0, 0x45, 0, 0, 66, 0, 0, 0, 0, 64, 17, 0, 0, 10, 0, 0, 1, 10,
    0, 0, 2, 0x30, 0x39, 0, 53, 0, 46, 0, 0, 1, 2, 3, 4, 5, 6, 7, 8, 9, 10, 11, 12, 13, 14, 15, 16,
    17, 18, 19, 20, 21, 22, 23, 24, 25, 26, 27, 28, 29, 30, 31, 32, 33, 34, 35, 36, 37, 38,
];

/// The address of a station of a shard. Each of 256 owners has one station in each shard.
pub fn address(owner: u8, shard: u8) -> [u8; 6] {
    [2, 0, 0, 1, owner, shard % 8]
}

/// A frame to the access point: its first four bytes, the addresses, and the rest.
fn frame(
    alloc: Global,
    first: [u8; 4],
    station: [u8; 6],
    rest: &[u8],
) -> Result<Event, AllocError> {
    let mut bytes = Vec::with_capacity(alloc, 128)?;
    bytes.extend_from_slice(&first)?;
    bytes.extend_from_slice(&BSSID)?;
    bytes.extend_from_slice(&station)?;
    bytes.extend_from_slice(&BSSID)?;
    bytes.extend_from_slice(rest)?;
    Ok(Event::Frame(Octets::new(bytes)))
}

/// The configuration of an access point of network `lab`.
pub fn lab(alloc: Global) -> Option<LinkConfig> {
    let ssid = Octets::copy(alloc, b"lab").ok()?;
    let rates = Octets::copy(alloc, &[0x82, 0x84, 0x8b, 0x96]).ok()?;
    LinkConfig::new(Address::new(BSSID), ssid, rates)
}

/// A step of a station towards an agreement: it authenticates (0), associates (1), or requests an agreement of size 64
/// for TID 0, from number 0 on, without timeout.
pub fn joining(alloc: Global, station: [u8; 6], step: u8) -> Result<Event, AllocError> {
    match step {
        0 => frame(
            alloc,
            [0xb0, 0, 0, 0],
            station,
            &[0x10, 0, 0, 0, 1, 0, 0, 0],
        ),
        1 => frame(
            alloc,
            [0, 0, 0, 0],
            station,
            &[0x10, 0, 1, 0, 10, 0, 0, 3, b'l', b'a', b'b', 1, 1, 0x82],
        ),
        _ => frame(
            alloc,
            [0xd0, 0, 0, 0],
            station,
            &[0x10, 0, 3, 0, 7, 0x02, 0x10, 0, 0, 0, 0],
        ),
    }
}

/// QoS data for TID 0 with this number.
pub fn data(alloc: Global, station: [u8; 6], number: u16) -> Result<Event, AllocError> {
    let [low, high] = (number << 4).to_le_bytes();
    let mut rest = Vec::with_capacity(alloc, 78)?;
    rest.extend_from_slice(&[low, high, 0, 0])?;
    rest.extend_from_slice(&PACKET)?;
    frame(alloc, [0x88, 0x01, 0, 0], station, &rest)
}
