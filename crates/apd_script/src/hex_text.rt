//! Bytes, kept as hex digits.

ghost use Rattle.std.specs.Prelude.{◌≡◌, is_ok, IsOk, IsSome, IfSome, IfOk, ◌↔◌};
ghost use Rattle.std.specs.List.{list_all};
ghost use Rattle.std.specs.Char.{is_ascii_hexdigit};
ghost use Rattle.hex.specs.Hex.{decode_of};
ghost use Rattle.apd_script.specs.Digits.{bytes_of};

use std::alloc::{AllocError, Global};

/// Hex digits of either case that spell bytes, two a byte.
#[derive(Clone, Copy, Debug, PartialEq, Eq)]
pub struct HexText<'a> {
    pub digits: &'a [u8],
    ghost hex: { IsOk (decode_of digits.now) },
}

/// Whether all are hex digits. It tests every one, since a loop without a branch is fastest.
pub(crate) fn are_digits(digits: &[u8]) -> bool
    ensures is { result ≡ list_all is_ascii_hexdigit digits.now }
{
    let mut good = true;
    for digit in digits {
        good &= digit.is_ascii_hexdigit();
    }
    good
}

fn is_hex(digits: &[u8]) -> bool
    ensures is { result ≡ is_ok (decode_of digits.now) }
{
    let even = digits.len() % 2 == 0;
    even && are_digits(digits)
}

impl<'a> HexText<'a> {
    /// `None` if a byte isn't a hex digit, or the number of digits is odd.
    pub fn new(digits: &'a [u8]) -> Option<Self>
        ensures valid { IsSome result ↔ IsOk (decode_of digits.entry.now) }
        ensures same { IfSome result (λ text. text.digits.now ≡ digits.entry.now) }
    {
        if is_hex(digits) {
            Some(HexText { digits })
        } else {
            None
        }
    }

    /// The bytes, in an allocation of their own.
    pub fn bytes(&self, alloc: Global) -> Result<Vec<u8>, AllocError>
        ensures is { IfOk result (λ bytes. bytes.items ≡ bytes_of self.now.digits.now) }
    {
        match hex::decode(alloc, self.digits) {
            Ok(bytes) => Ok(bytes),
            Err(_) => Err(AllocError),
        }
    }
}
