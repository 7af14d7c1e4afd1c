//! Status codes.

ghost use Rattle.std.specs.Prelude.{◌≡◌, ◌==◌, ℕ, Some};
ghost use Rattle.std.specs.Fmt.{decimal};
ghost use Rattle.mac_types.specs.Numbers.{IsWord};

use std::fmt;
use std::marker::Model;

/// A status code: the answer to a request (IEEE 802.11-2016, 9.4.1.9). The constants have the names
/// of Table 9-46. A clause sees the code.
#[derive(Clone, Copy, Debug, PartialEq, Eq)]
pub struct Status {
    code: u16,
}

impl Model for Status {
    ghost Value = { ℕ };

    ghost view = { λ s. s.code };

    ghost inverse = { λ code. record { code = code } };
}

impl Status {
    /// 0: the request is granted.
    pub const SUCCESS: Status = Status { code: 0 };
    /// 1: refused for an unspecified reason.
    pub const REFUSED_REASON_UNSPECIFIED: Status = Status { code: 1 };
    /// 10: the station lacks a capability.
    pub const REFUSED_CAPABILITIES_MISMATCH: Status = Status { code: 10 };
    /// 12: denied for a reason outside the standard.
    pub const DENIED_OTHER_REASON: Status = Status { code: 12 };
    /// 13: the authentication algorithm isn't supported.
    pub const UNSUPPORTED_AUTH_ALGORITHM: Status = Status { code: 13 };
    /// 14: the transaction sequence number isn't the expected one.
    pub const TRANSACTION_SEQUENCE_ERROR: Status = Status { code: 14 };
    /// 17: no further station can be admitted.
    pub const DENIED_NO_MORE_STAS: Status = Status { code: 17 };
    /// 37: the request is declined.
    pub const REQUEST_DECLINED: Status = Status { code: 37 };

    /// The status with this code.
    pub fn new(code: u16) -> Self
        ensures { result ≡ code }
    {
        Status { code }
    }

    /// The code.
    pub fn code(self) -> u16
        ensures value { result ≡ self }
        ensures fits { IsWord self }
    {
        self.code
    }

    /// Whether the request was granted.
    pub fn is_success(self) -> bool
        ensures { result ≡ (self == 0) }
    {
        self == Status::SUCCESS
    }
}

/// The code in decimal.
impl fmt::Display for Status {
    ghost output = { λ s. Some (decimal s) };

    fn fmt<W: fmt::Write>(&self, f: &mut fmt::Formatter<W>) -> fmt::Result {
        write!(f, "{}", self.code)
    }
}
