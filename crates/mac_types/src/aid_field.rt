//! Association identifiers, as in frames.

ghost use Rattle.std.specs.Prelude.{◌≡◌, ◌+◌, ◌≤◌, ℕ, Some};
ghost use Rattle.std.specs.Fmt.{decimal};
ghost use Rattle.mac_types.specs.Bits.{bits};
ghost use Rattle.mac_types.specs.Numbers.{IsWord};

use crate::bits::bits;
use std::fmt;
use std::marker::Model;

/// The AID field of a (re)association response (IEEE 802.11-2016, 9.4.1.8). A clause sees the field.
#[derive(Clone, Copy, Debug, PartialEq, Eq)]
pub struct AidField {
    field: u16,
}

impl Model for AidField {
    ghost Value = { ℕ };

    ghost view = { λ a. a.field };

    ghost inverse = { λ field. record { field = field } };
}

impl AidField {
    /// No identifier: 0.
    pub const NONE: AidField = AidField { field: 0 };

    /// The AID with this field, whatever it is.
    pub fn new(field: u16) -> Self
        ensures { result ≡ field }
    {
        AidField { field }
    }

    /// The field for an association identifier: the identifier, with the two top bits 1.
    pub fn granted(identifier: u16) -> Self
        requires low { 1 ≤ identifier }
        requires high { identifier ≤ 2007 }
        ensures { result ≡ 49152 + identifier }
    {
        AidField {
            field: 0xc000 + identifier,
        }
    }

    /// The field.
    pub fn field(self) -> u16
        ensures value { result ≡ self }
        ensures fits { IsWord self }
    {
        self.field
    }

    /// The lower fourteen bits.
    pub fn identifier(self) -> u16
        ensures { result ≡ bits self 0 14 }
    {
        bits(self.field, 0, 14)
    }
}

/// The identifier in decimal.
impl fmt::Display for AidField {
    ghost output = { λ a. Some (decimal (bits a 0 14)) };

    fn fmt<W: fmt::Write>(&self, f: &mut fmt::Formatter<W>) -> fmt::Result {
        write!(f, "{}", self.identifier())
    }
}
