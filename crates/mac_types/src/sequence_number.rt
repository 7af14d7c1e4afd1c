//! Sequence numbers.

ghost use Rattle.std.specs.Prelude.{◌≡◌, ◌↔◌, ℕ, IsSome, IfSome, Some, is_some};
ghost use Rattle.std.specs.Fmt.{decimal};
ghost use Rattle.mac_types.specs.Numbers.{IsSequenceNumber, sequence_control, is_sequence_control};

use crate::bits::bits;
use std::fmt;
use std::marker::Model;

/// A sequence number, below 4096 (IEEE 802.11-2016, 9.2.4.4.2).
#[derive(Clone, Copy, Debug, PartialEq, Eq, PartialOrd, Ord, Hash)]
pub struct SequenceNumber {
    number: u16,
}

impl Model for SequenceNumber {
    ghost Value = { ℕ };

    ghost view = { λ n. n.number };

    ghost invariant = { λ n. IsSequenceNumber n.number };

    ghost inverse = { λ n. record { number = n } };
}

impl SequenceNumber {
    /// The number of every frame that an access point sends.
    pub const ZERO: SequenceNumber = SequenceNumber { number: 0 };

    /// None if the number is 4096 or more.
    pub fn new(number: u16) -> Option<Self>
        ensures valid { IsSome result ↔ IsSequenceNumber number }
        ensures value { IfSome result (λ n. n ≡ number) }
    {
        if number < 4096 {
            Some(SequenceNumber { number })
        } else {
            None
        }
    }

    /// The number, below 4096.
    pub fn number(self) -> u16
        ensures value { result ≡ self }
        ensures fits { IsSequenceNumber self }
    {
        self.number
    }

    /// The number in a Sequence Control or Block Ack Starting Sequence Control field (9.2.4.4, 9.3.1.8).
    /// None if the field has a fragment number.
    pub fn from_control(field: u16) -> Option<Self>
        ensures variant { is_some result ≡ is_sequence_control field }
        ensures spelled { IfSome result (λ n. field ≡ sequence_control n) }
        ensures fits { IfSome result IsSequenceNumber }
    {
        if bits(field, 0, 4) != 0 {
            return None;
        }
        SequenceNumber::new(bits(field, 4, 12))
    }

    /// The Sequence Control field of this number, without a fragment number.
    pub fn control(self) -> u16
        ensures value { result ≡ sequence_control self }
        ensures fits { IsSequenceNumber self }
    {
        16 * self.number
    }
}

/// The number in decimal.
impl fmt::Display for SequenceNumber {
    ghost output = { λ n. Some (decimal n) };

    fn fmt<W: fmt::Write>(&self, f: &mut fmt::Formatter<W>) -> fmt::Result {
        write!(f, "{}", self.number)
    }
}
