//! Capability information.

ghost use Rattle.std.specs.Prelude.{◌≡◌, ◌==◌, ℕ};
ghost use Rattle.mac_types.specs.Bits.{bits};
ghost use Rattle.mac_types.specs.Numbers.{IsWord};

use crate::bits::bit;
use std::marker::Model;

/// The Capability Information field (IEEE 802.11-2016, 9.4.1.4). A clause sees the field.
#[derive(Clone, Copy, Debug, PartialEq, Eq)]
pub struct Capability {
    field: u16,
}

impl Model for Capability {
    ghost Value = { ℕ };

    ghost view = { λ c. c.field };

    ghost inverse = { λ field. record { field = field } };
}

impl Capability {
    /// An access point's, or that of a station that wants one: bit 0 alone.
    pub const ESS: Capability = Capability { field: 1 };

    /// The capabilities of this field.
    pub fn new(field: u16) -> Self
        ensures { result ≡ field }
    {
        Capability { field }
    }

    /// The field.
    pub fn field(self) -> u16
        ensures value { result ≡ self }
        ensures fits { IsWord self }
    {
        self.field
    }

    /// Whether bit 0 is set, as by an access point, or by a station that wants one.
    pub fn is_ess(self) -> bool
        ensures { result ≡ (bits self 0 1 == 1) }
    {
        bit(self.field, 0)
    }
}
