//! The frames of an access point's link, read and written: the grammar of IEEE 802.11-2016, clause 9, for the kinds
//! that the link has.
//!
//! Main calls: `parse` and `write`. It depends on `mac_types` and `byteorder`. If memory suffices, `parse` returns the
//! frame of the grammar that the bytes spell, or if there is none, the first fault of an ordered list of tests on the
//! bytes. `write` appends exactly the frame's spelling, or nothing. Accessors and constructors are defined in
//! `specs/Frames.antt`.
#![tactic(auto)]

mod content;
mod contents;
mod control_bodies;
mod data_bodies;
mod elements;
mod fault;
mod fields;
mod frame;
mod header;
mod headers;
mod laws;
mod management_bodies;
mod spelled_parts;
mod subtype;

pub use content::{AddbaResponse, BlockAck, Content, Control, DataKind, Management};
pub use elements::{Elements, ElementsBuf, SSID, SUPPORTED_RATES};
pub use fault::{Fault, FrameFault};
pub use frame::{LONGEST_HEAD, MacFrame, parse, write};
pub use laws::{frames_are_spelled, written_is_read};
pub use mac_types::{
    AckPolicy, Address, AidField, BlockAckParameters, BlockAckPolicy, BufferSize, Capability,
    DelbaParameters, FrameFlags, QosControl, Reason, SequenceNumber, Status, Tid,
};
pub use subtype::{HeaderKind, Subtype};
