//! Packets to write.

ghost use Rattle.std.specs.Prelude.{◌<◌, ◌^◌};

/// An interface of a written capture.
#[derive(Clone, Copy, Debug, PartialEq, Eq)]
pub enum Side {
    /// The frames that are received.
    In,
    /// The frames that are sent.
    Out,
    /// What is passed up, as Ethernet frames.
    Up,
}

/// A packet to write.
#[derive(Clone, Copy)]
pub struct NewPacket<'a> {
    pub side: Side,
    /// Nanoseconds since the start of 1970.
    pub time: u64,
    /// The packet, of which the first 262144 bytes are kept.
    pub bytes: &'a [u8],
    /// A text on the packet, of which the first 65535 bytes are kept.
    pub comment: &'a [u8],
    pub ghost counted: { time < 2 ^ 64 },
}
