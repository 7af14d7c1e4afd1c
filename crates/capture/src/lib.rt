//! The frames of a capture file: classic pcap in either byte order, with times in microseconds or
//! nanoseconds, or pcapng, of IEEE 802.11 frames with or without a radiotap header.
//!
//! Main calls: `read_capture` returns the packets that a file holds, each with its time and its frame, or why it is left
//! out; or the file's first fault. A `Recording` is a file without a fault, and its `Walk` gives the same packets one after
//! another, without a list. `append_heading` and `append_packet` write a pcapng file of what an access point
//! receives, sends and passes up, and `written_law` shows that reading it gives these packets. It depends on `byteorder`.
#![tactic(auto)]

mod block;
mod block_packets;
mod block_walk;
mod fault;
mod fields;
mod form;
mod interface;
mod new_packet;
mod packet;
mod radiotap;
mod read;
mod record_walk;
mod recording;
mod section;
mod walk;
mod write;

pub use fault::{CaptureFault, LeftOut};
pub use new_packet::{NewPacket, Side};
pub use packet::Packet;
pub use read::read_capture;
pub use recording::Recording;
pub use walk::{Walk, count_packets};
pub use write::{MOST_KEPT, append_heading, append_packet, write_capture, written_law};
