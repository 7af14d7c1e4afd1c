//! Traffic identifiers.

ghost use Rattle.std.specs.Prelude.{◌≡◌, ◌↔◌, ℕ, IsSome, IfSome, Some, is_some};
ghost use Rattle.std.specs.Fmt.{decimal};
ghost use Rattle.mac_types.specs.Numbers.{IsTid, block_ack_control, is_block_ack_control};

use crate::bits::bits;
use std::fmt;
use std::marker::Model;

/// A traffic identifier, below 8: the TIDs of priorities (IEEE 802.11-2016, 9.2.4.5.2).
#[derive(Clone, Copy, Debug, PartialEq, Eq, PartialOrd, Ord, Hash)]
pub struct Tid {
    number: u8,
}

impl Model for Tid {
    ghost Value = { ℕ };

    ghost view = { λ t. t.number };

    ghost invariant = { λ t. IsTid t.number };

    ghost inverse = { λ n. record { number = n } };
}

impl Tid {
    /// None if the number is 8 or more.
    pub fn new(number: u8) -> Option<Self>
        ensures valid { IsSome result ↔ IsTid number }
        ensures value { IfSome result (λ t. t ≡ number) }
    {
        if number < 8 {
            Some(Tid { number })
        } else {
            None
        }
    }

    /// The number, below 8.
    pub fn number(self) -> u8
        ensures value { result ≡ self }
        ensures fits { IsTid self }
    {
        self.number
    }

    /// The TID of a BAR Control or BA Control field (9.3.1.8, 9.3.1.9). None if it is 8 or more, Compressed Bitmap
    /// isn't set, or another bit is.
    pub fn from_block_ack_control(field: u16) -> Option<Self>
        ensures variant { is_some result ≡ is_block_ack_control field }
        ensures spelled { IfSome result (λ t. field ≡ block_ack_control t) }
        ensures fits { IfSome result IsTid }
    {
        if bits(field, 0, 12) != 4 {
            return None;
        }
        Tid::new(bits(field, 12, 4) as u8)
    }

    /// The BAR Control or BA Control field of a compressed bitmap for this TID.
    pub fn block_ack_control(self) -> u16
        ensures value { result ≡ block_ack_control self }
        ensures fits { IsTid self }
    {
        4 + 4096 * u16::from(self.number)
    }
}

/// The number in decimal.
impl fmt::Display for Tid {
    ghost output = { λ n. Some (decimal n) };

    fn fmt<W: fmt::Write>(&self, f: &mut fmt::Formatter<W>) -> fmt::Result {
        write!(f, "{}", self.number)
    }
}
