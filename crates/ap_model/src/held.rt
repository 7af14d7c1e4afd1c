//! Frames that wait in a window.

ghost use Rattle.std.specs.Prelude.{◌≡◌, None, Some};
ghost use Rattle.std.specs.Option.{option_map};

use crate::event::Up;
use crate::octets::Octets;
use mac_frame::{Address, SequenceNumber, Tid};
use std::marker::Model;

/// What a window holds of a data frame that the verdict passed: destination, mark and data. `None`
/// is a placeholder in lists, which no window ever holds.
#[derive(Drop)]
pub struct Held {
    frame: Option<(Address, u8, Octets)>,
}

impl Model for Held {
    ghost use Rattle.std.specs.Prelude.{Option, List, ℕ};

    ghost Value = { Option (List ℕ × ℕ × List ℕ) };

    ghost view = { λ h. h.frame };
}

/// The placeholder.
impl Default for Held {
    ghost is_default = { λ h. h ≡ None };

    fn default() -> Self {
        Held { frame: None }
    }
}

impl Held {
    /// What is held of a frame.
    pub fn new(destination: Address, mark: u8, body: Octets) -> Self
        ensures { result ≡ Some (destination, mark, body) }
    {
        Held {
            frame: Some((destination, mark, body)),
        }
    }

    /// The frame as data passed up, with its source, TID and number. `None` for the placeholder.
    pub fn up(self, source: Address, tid: Tid, number: SequenceNumber) -> Option<Up>
        ensures { result ≡ option_map (λ h.
            record {
              source = source;
              destination = h.0;
              tid = Some tid;
              number = number;
              mark =
                  h.1;
              body = h.2;
            }) self }
    {
        let (destination, mark, body) = self.frame?;
        Some(Up {
            source,
            destination,
            tid: Some(tid),
            number,
            mark,
            body,
        })
    }
}
