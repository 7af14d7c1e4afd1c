//! Captures without a fault.

ghost use Rattle.std.specs.Prelude.{◌≡◌, length, IfOk, IfErr, OnOk};
ghost use Rattle.capture.specs.Captures.{Holds, Refuses};
ghost use Rattle.capture.specs.Walks.{packets_in};

use crate::fault::CaptureFault;
use crate::walk::{Walk, count_packets};
use std::alloc::Global;

/// The bytes of a capture file, and how many packets they hold up to their end or their first fault. `new` makes it of
/// files without a fault.
#[derive(Clone, Copy)]
pub struct Recording<'a> {
    pub bytes: &'a [u8],
    pub count: usize,
    pub ghost counted: { length (packets_in bytes.now) ≡ count },
}

impl<'a> Recording<'a> {
    /// The capture with these bytes. An error is `NoMemory`, or the file's first fault: in its header, a record or a
    /// block.
    pub fn new(alloc: Global, bytes: &'a [u8]) -> Result<Recording<'a>, CaptureFault>
        ensures same { IfOk result (λ recording. recording.bytes.now ≡ bytes.entry.now) }
        ensures held { OnOk result (Holds bytes.entry.now (packets_in bytes.entry.now)) }
        ensures fault { IfErr result (Refuses bytes.entry.now) }
    {
        let count = count_packets(alloc, bytes)?;
        Ok(Recording { bytes, count })
    }

    /// A walk over all its packets.
    pub fn walk(self, alloc: Global) -> Walk<'a>
        ensures packets { result ≡ packets_in self.entry.bytes.now }
    {
        Walk::new(alloc, self.bytes)
    }
}
