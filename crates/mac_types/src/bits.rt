//! Bits of a field.

ghost use Rattle.std.specs.Prelude.{◌≡◌, ◌<◌, ◌==◌};
ghost use Rattle.mac_types.specs.Bits.{bits};

/// The number of `count` bits from bit `low` on.
pub(crate) fn bits(field: u16, low: u32, count: u32) -> u16
    requires low { low < 16 }
    requires count { count < 16 }
    ensures { result ≡ bits field low count }
{
    (field >> low) % (1 << count)
}

/// Whether a bit is 1.
pub(crate) fn bit(field: u16, at: u32) -> bool
    requires { at < 16 }
    ensures { result ≡ (bits field at 1 == 1) }
{
    bits(field, at, 1) == 1
}
