//! Events and their outputs.

use crate::octets::Octets;
use mac_frame::{Address, Reason, SequenceNumber, Tid};

/// An event at a shard.
#[derive(Drop)]
pub enum Event {
    /// Bytes were received: a frame without its FCS.
    Frame(Octets),
    /// This many units of time passed.
    Tick(u32),
    /// The operator deauthenticates a station.
    Kick { station: Address, reason: Reason },
    /// The operator ends an agreement.
    Close { station: Address, tid: Tid },
}

/// Data that is passed up. Only QoS data has a TID.
#[derive(Drop)]
pub struct Up {
    pub source: Address,
    pub destination: Address,
    pub tid: Option<Tid>,
    pub number: SequenceNumber,
    pub mark: u8,
    pub body: Octets,
}

/// An output of an event.
#[derive(Drop)]
pub enum Out {
    /// A frame to send, without its FCS.
    Send(Octets),
    Up(Up),
    /// 50 to 55: the bytes aren't a frame. 56: the frame isn't for this access point, or its sender is
    /// a group address. 63: an operator's command names an unknown station.
    Note(u8),
}
