//! What the headers of management and data frames hold besides duration and the first two addresses.

use mac_types::{Address, FrameFlags, SequenceNumber};

#[derive(Clone, Copy)]
pub(crate) struct Header {
    pub(crate) flags: FrameFlags,
    /// Address 3.
    pub(crate) third: Address,
    pub(crate) sequence: SequenceNumber,
}
