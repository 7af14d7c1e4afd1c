//! Which packets of a capture are for an access point.

ghost use Rattle.std.specs.Prelude.{◌≡◌, ◌≤◌, IfOk, if◌then◌else◌};
ghost use Rattle.capture.specs.Walks.{packets_in};
ghost use Rattle.capture.specs.Radiotap.{bytes_in};
ghost use Rattle.apd_policies.specs.Chosen.{octet, address_at, type_of, is_response, is_to, is_for, is_kept, others, individual, data_point, management_point, point_of, point_in, points_of, named_with, AreNamed};

use capture::{LeftOut, Recording};
use std::alloc::{AllocError, Global};

/// The address of an access point.
pub type Bssid = [u8; 6];

/// The access points that the frames of a capture name.
#[derive(Clone, Copy, Debug, PartialEq, Eq)]
pub enum Named {
    NoOne,
    /// One and no other.
    One(Bssid),
    Several,
}

/// The octet at an index, or 0 past the end.
fn octet(frame: &[u8], at: usize) -> u8
    ensures is { result ≡ octet frame.now at }
{
    match frame.get(at) {
        Some(octet) => *octet,
        None => 0,
    }
}

/// The address at an index, if the frame is long enough.
fn address_at(frame: &[u8], at: usize) -> Option<[u8; 6]>
    requires small { at ≤ 16 }
    ensures is { result ≡ address_at frame.now at }
{
    if frame.len() < at + 6 {
        return None;
    }
    Some([
        octet(frame, at),
        octet(frame, at + 1),
        octet(frame, at + 2),
        octet(frame, at + 3),
        octet(frame, at + 4),
        octet(frame, at + 5),
    ])
}

/// 0 for management, 1 for control, 2 for data.
fn type_of(frame: &[u8]) -> u8
    ensures is { result ≡ type_of frame.now }
{
    octet(frame, 0) / 4 % 4
}

/// Whether it is a control frame other than a request for a block acknowledgement, such as an acknowledgement.
fn is_response(frame: &[u8]) -> bool
    ensures is { result ≡ is_response frame.now }
{
    type_of(frame) == 1 && octet(frame, 0) / 16 != 8
}

/// Whether the frame's receiver has this address.
fn is_to(address: Bssid, frame: &[u8]) -> bool
    ensures is { result ≡ is_to address frame.now }
{
    match address_at(frame, 4) {
        Some(receiver) => address[..] == receiver[..],
        None => false,
    }
}

/// Whether the frame is for an access point with this address.
fn is_for(address: Bssid, frame: &[u8]) -> bool
    ensures is { result ≡ is_for address frame.now }
{
    is_to(address, frame) && !is_response(frame)
}

/// Whether a packet is kept: it has no frame, or one for the access point, if one is named.
pub(crate) fn is_kept(bssid: Option<Bssid>, frame: Result<&[u8], LeftOut>) -> bool
    ensures is { result ≡ is_kept bssid (bytes_in frame.entry) }
{
    match (bssid, frame) {
        (None, _) => true,
        (Some(_), Err(_)) => true,
        (Some(bssid), Ok(frame)) => is_for(bssid, frame),
    }
}

/// 1 for a packet that isn't kept, otherwise 0.
fn unkept(bssid: Option<Bssid>, frame: Result<&[u8], LeftOut>) -> usize
    ensures is { result ≡ (if is_kept bssid (bytes_in frame.entry) then 0 else 1) }
{
    if is_kept(bssid, frame) { 0 } else { 1 }
}

/// How many packets of a capture aren't kept.
pub(crate) fn count_others(
    alloc: Global,
    bssid: Option<Bssid>,
    recording: Recording<'_>,
) -> Result<usize, AllocError>
    ensures is { IfOk result
        (λ count. count ≡ others bssid (packets_in recording.entry.bytes.now)) }
{
    let mut walk = recording.walk(alloc);
    let mut count = 0;
    while let Some(packet) = walk.next()? {
        count += unkept(bssid, packet.frame);
    }
    Ok(count)
}

/// The address, if it is that of one station.
fn individual(address: Bssid) -> Option<Bssid>
    ensures is { result ≡ individual address }
{
    if address[0] % 2 == 0 {
        Some(address)
    } else {
        None
    }
}

/// The access point of data: the receiver if it goes to one, the sender if it comes from one.
fn data_point(frame: &[u8]) -> Option<Bssid>
    ensures is { result ≡ data_point frame.now }
{
    match octet(frame, 1) % 4 {
        1 => address_at(frame, 4),
        2 => address_at(frame, 10),
        _ => None,
    }
}

/// The access point of a management frame.
fn management_point(frame: &[u8]) -> Option<Bssid>
    ensures is { result ≡ management_point frame.now }
{
    let address = address_at(frame, 16)?;
    individual(address)
}

/// The access point that a frame names.
fn point_of(frame: &[u8]) -> Option<Bssid>
    ensures is { result ≡ point_of frame.now }
{
    match type_of(frame) {
        0 => management_point(frame),
        2 => data_point(frame),
        _ => None,
    }
}

/// The access point that a packet names.
fn point_in(frame: Result<&[u8], LeftOut>) -> Option<Bssid>
    ensures is { result ≡ point_in (bytes_in frame.entry) }
{
    match frame {
        Ok(frame) => point_of(frame),
        Err(_) => None,
    }
}

impl Named {
    /// What is named with one more access point, if it is one.
    fn with(self, point: Option<Bssid>) -> Named
        ensures is { result ≡ named_with self point }
    {
        let Some(point) = point else {
            return self;
        };
        match self {
            Named::NoOne => return Named::One(point),
            Named::One(address) => {
                if address[..] == point[..] {
                    return self;
                }
                return Named::Several;
            }
            Named::Several => return self,
        }
    }
}

/// The access points that the packets of a capture name.
pub fn access_points(alloc: Global, recording: Recording<'_>) -> Result<Named, AllocError>
    ensures is { IfOk result (AreNamed (points_of (packets_in recording.entry.bytes.now))) }
{
    let mut walk = recording.walk(alloc);
    let mut named = Named::NoOne;
    while let Some(packet) = walk.next()? {
        named = named.with(point_in(packet.frame));
    }
    Ok(named)
}
