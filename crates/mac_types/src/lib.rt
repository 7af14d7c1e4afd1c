//! The addresses, numbers, codes and fields that IEEE 802.11 frames consist of.
//!
//! Main calls: `from_field` and `field` of each parameter field, `new` of each number. It depends on std alone.
//! Reserved bits of parameter fields are refused, and ignored bits kept, so each value has one spelling.
//! `fields_are_spelled` relates the test of a field's bits to the values that it spells.
#![tactic(auto)]

mod address;
mod aid_field;
mod bits;
mod buffer_size;
mod capability;
mod fields;
mod laws;
mod reason;
mod sequence_number;
mod status;
mod tid;

pub use address::Address;
pub use aid_field::AidField;
pub use buffer_size::BufferSize;
pub use capability::Capability;
pub use fields::{
    AckPolicy, BlockAckParameters, BlockAckPolicy, DelbaParameters, FrameFlags, QosControl,
};
pub use laws::fields_are_spelled;
pub use reason::Reason;
pub use sequence_number::SequenceNumber;
pub use status::Status;
pub use tid::Tid;
