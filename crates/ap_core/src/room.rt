//! Memory for the outputs of an event, allocated before the event is handled.

ghost use Rattle.std.specs.Prelude.{◌≡◌, ◌≤◌, ◌<◌, [], ◌∷◌, length, vec_len, vec_capacity};
ghost use Rattle.ap_model.specs.declared.event.Out.{Out};
ghost use Rattle.ap_model.specs.Changes.{sends};

use ap_model::{Octets, Out};
use mac_frame::{LONGEST_HEAD, MacFrame, write};
use std::alloc::{AllocError, Global};

/// The longest tail of a sent frame: a rates element.
const LONGEST_TAIL: usize = 12;

/// Memory for a frame to send.
#[derive(Drop)]
pub(crate) struct FrameRoom {
    bytes: Vec<u8>,
    ghost no_bytes: { vec_len bytes ≡ 0 },
    ghost a_frame: { 46 ≤ vec_capacity bytes },
}

/// Memory for one output, and for the frame that it may send.
#[derive(Drop)]
pub(crate) struct Room {
    outs: Vec<Out>,
    frame: FrameRoom,
    ghost no_outs: { vec_len outs ≡ 0 },
    ghost one_out: { 1 ≤ vec_capacity outs },
}

impl FrameRoom {
    pub(crate) fn new(alloc: Global) -> Result<Self, AllocError> {
        let bytes = Vec::with_capacity(alloc, LONGEST_HEAD + LONGEST_TAIL)?;
        Ok(FrameRoom { bytes })
    }

    /// The output that sends the frame.
    pub(crate) fn send(self, frame: &MacFrame) -> Out
        requires { length frame.now.tail ≤ 12 }
        ensures { result ≡ sends frame.now }
    {
        let mut bytes = self.bytes;
        match write(frame, &mut bytes) {
            Ok(()) => Out::Send(Octets::new(bytes)),
            Err(_) => unreachable!(),
        }
    }
}

/// A list with this output, in place of the empty one that has capacity for it.
pub(crate) fn with_out(outs: Vec<Out>, out: Out) -> Vec<Out>
    requires empty { vec_len outs ≡ 0 }
    requires room { 1 ≤ vec_capacity outs }
    ensures { result.items ≡ out ∷ [] }
{
    let mut outs = outs;
    outs.push_reserved(out);
    outs
}

impl Room {
    pub(crate) fn new(alloc: Global) -> Result<Self, AllocError> {
        let outs = Vec::with_capacity(alloc, 1)?;
        let frame = FrameRoom::new(alloc)?;
        Ok(Room { outs, frame })
    }

    /// The output that sends a frame, alone.
    pub(crate) fn send(self, frame: &MacFrame) -> Vec<Out>
        requires { length frame.now.tail ≤ 12 }
        ensures { result.items ≡ sends frame.now ∷ [] }
    {
        let out = self.frame.send(frame);
        with_out(self.outs, out)
    }

    pub(crate) fn note(self, number: u8) -> Vec<Out>
        ensures { result.items ≡ Out.Note number ∷ [] }
    {
        with_out(self.outs, Out::Note(number))
    }
}
