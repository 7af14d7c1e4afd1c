//! Sizes of reorder buffers.

ghost use Rattle.std.specs.Prelude.{◌≡◌, ◌↔◌, ℕ, IsSome, IfSome, Some};
ghost use Rattle.std.specs.Fmt.{decimal};
ghost use Rattle.mac_types.specs.Numbers.{IsBufferSize};

use std::fmt;
use std::marker::Model;

/// How many frames a reorder buffer can hold, below 1024 (IEEE 802.11-2016, 9.4.1.14).
#[derive(Clone, Copy, Debug, PartialEq, Eq, PartialOrd, Ord, Hash)]
pub struct BufferSize {
    number: u16,
}

impl Model for BufferSize {
    ghost Value = { ℕ };

    ghost view = { λ s. s.number };

    ghost invariant = { λ s. IsBufferSize s.number };

    ghost inverse = { λ n. record { number = n } };
}

impl BufferSize {
    /// None if the number is 1024 or more.
    pub fn new(number: u16) -> Option<Self>
        ensures valid { IsSome result ↔ IsBufferSize number }
        ensures value { IfSome result (λ s. s ≡ number) }
    {
        if number < 1024 {
            Some(BufferSize { number })
        } else {
            None
        }
    }

    /// The number, below 1024. In a request, 0 leaves the choice to the recipient.
    pub fn number(self) -> u16
        ensures value { result ≡ self }
        ensures fits { IsBufferSize self }
    {
        self.number
    }
}

/// The number in decimal.
impl fmt::Display for BufferSize {
    ghost output = { λ n. Some (decimal n) };

    fn fmt<W: fmt::Write>(&self, f: &mut fmt::Formatter<W>) -> fmt::Result {
        write!(f, "{}", self.number)
    }
}
