//! Reason codes.

ghost use Rattle.std.specs.Prelude.{◌≡◌, ℕ, Some};
ghost use Rattle.std.specs.Fmt.{decimal};
ghost use Rattle.mac_types.specs.Numbers.{IsWord};

use std::fmt;
use std::marker::Model;

/// A reason code: why a link or an agreement ends (IEEE 802.11-2016, 9.4.1.7). The constants have
/// the names of Table 9-45. A clause sees the code.
#[derive(Clone, Copy, Debug, PartialEq, Eq)]
pub struct Reason {
    code: u16,
}

impl Model for Reason {
    ghost Value = { ℕ };

    ghost view = { λ r. r.code };

    ghost inverse = { λ code. record { code = code } };
}

impl Reason {
    /// 6: a class 2 frame came from a station that isn't authenticated.
    pub const INVALID_CLASS2_FRAME: Reason = Reason { code: 6 };
    /// 7: a class 3 frame came from a station that isn't associated.
    pub const INVALID_CLASS3_FRAME: Reason = Reason { code: 7 };
    /// 37: the sender no longer uses the agreement.
    pub const END_BA: Reason = Reason { code: 37 };
    /// 39: the agreement was unused for the length of its timeout.
    pub const TIMEOUT: Reason = Reason { code: 39 };

    /// The reason with this code.
    pub fn new(code: u16) -> Self
        ensures { result ≡ code }
    {
        Reason { code }
    }

    /// The code.
    pub fn code(self) -> u16
        ensures value { result ≡ self }
        ensures fits { IsWord self }
    {
        self.code
    }
}

/// The code in decimal.
impl fmt::Display for Reason {
    ghost output = { λ r. Some (decimal r) };

    fn fmt<W: fmt::Write>(&self, f: &mut fmt::Formatter<W>) -> fmt::Result {
        write!(f, "{}", self.code)
    }
}
