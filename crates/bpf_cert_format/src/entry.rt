//! Entries of a certificate.

ghost use Rattle.std.specs.Prelude.{◌≡◌};

use crate::frame::Frame;
use bpf_absval::Room;
use std::marker::Model;

/// A set of states at one slot with one call chain, and the budget within which each run from them is claimed to end.
#[derive(Drop)]
pub struct Entry {
    pc: u16,
    budget: u32,
    least: u16,
    rooms: Vec<Room>,
    frames: Vec<Frame>,
}

impl Model for Entry {
    ghost use Rattle.bpf_cert_format.specs.Views.{EntryView};

    ghost Value = { EntryView };

    ghost view = { λ e. record { pc = e.pc; budget = e.budget; least = e.least; rooms = e.rooms.items; frames = e.frames.items } };
}

impl Entry {
    /// An entry from its parts: the slot, the budget, the known least length of the received frame, the bytes known to
    /// follow labels, and the call frames, the main function's first.
    pub fn new(pc: u16, budget: u32, least: u16, rooms: Vec<Room>, frames: Vec<Frame>) -> Entry
        ensures is { result ≡ record {
          pc = pc;
          budget = budget;
          least = least;
          rooms = rooms.items;
          frames = frames.items;
        } }
    {
        Entry {
            pc,
            budget,
            least,
            rooms,
            frames,
        }
    }

    /// The slot.
    pub fn pc(&self) -> u16
        ensures is { result ≡ self.now.pc }
    {
        self.pc
    }

    /// The budget, in instructions.
    pub fn budget(&self) -> u32
        ensures is { result ≡ self.now.budget }
    {
        self.budget
    }

    /// The known least length of the received frame, in bytes.
    pub fn least(&self) -> u16
        ensures is { result ≡ self.now.least }
    {
        self.least
    }

    /// The bytes known to follow labels.
    pub fn rooms(&self) -> &[Room]
        ensures is { result.now ≡ self.now.rooms }
    {
        self.rooms.as_slice()
    }

    /// The call frames, the main function's first.
    pub fn frames(&self) -> &[Frame]
        ensures is { result.now ≡ self.now.frames }
    {
        self.frames.as_slice()
    }

    /// Roughly the bytes of memory that it takes; a state takes as many again.
    pub fn weight(&self) -> usize {
        let mut weight = 0usize;
        for frame in self.frames.as_slice() {
            weight = weight.saturating_add(frame.registers.weight());
            weight = weight.saturating_add(frame.stack.weight());
        }
        weight
    }
}
