//! The packets of a capture file, as a list.

ghost use Rattle.std.specs.Prelude.{◌≡◌, map, IfOk, IfErr};
ghost use Rattle.capture.specs.Packets.{seen_of};
ghost use Rattle.capture.specs.Captures.{Holds, Refuses};
ghost use Rattle.capture.specs.Walks.{packets_in};

use crate::fault::CaptureFault;
use crate::packet::Packet;
use crate::walk::{Walk, count_packets};
use std::alloc::Global;

/// The packets of a capture file, in order, from classic pcap or pcapng (draft-ietf-opsawg-pcapng). A packet without a
/// readable frame says why; so does one of an interface of another link type than 105 and 127. A simple packet block has
/// no time. Blocks other than section header, interface description, enhanced and simple packet are skipped, as are an
/// interface's options other than `if_tsresol`. An error is `NoMemory`, or the file's first fault: in its header, a record
/// or a block.
pub fn read_capture<'a>(alloc: Global, file: &'a [u8]) -> Result<Vec<Packet<'a>>, CaptureFault>
    ensures packets { IfOk result (λ packets. Holds file.entry.now (map seen_of packets.items)) }
    ensures same { IfOk result
        (λ packets. map seen_of packets.items ≡ packets_in file.entry.now) }
    ensures fault { IfErr result (Refuses file.entry.now) }
{
    let count = count_packets(alloc, file)?;
    let mut packets = Vec::with_capacity(alloc, count)?;
    let mut walk = Walk::new(alloc, file);
    while let Some(packet) = walk.next()? {
        packets.push(packet)?;
    }
    Ok(packets)
}
