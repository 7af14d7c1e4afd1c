//! What single words spell.

ghost use Rattle.std.specs.Prelude.{◌≡◌, ◌<◌, ◌^◌, IfSome};
ghost use Rattle.apd_script.specs.Words.{is_decimal, number_below, address, hook_named};

use bpf_regions::Hook;
use hex::FromHex;
use mac_types::Address;

fn is_decimal(text: &[u8]) -> bool
    ensures is { result ≡ is_decimal text.now }
{
    !text.is_empty() && text.iter().all(|byte| byte.is_ascii_digit())
}

/// The number that decimal digits without a sign spell, if it is below 2^64.
pub fn number(text: &str) -> Option<u64>
    ensures is { result ≡ number_below (2 ^ 64) text.now }
{
    if !is_decimal(text.as_bytes()) {
        return None;
    }
    text.parse().ok()
}

/// The number that decimal digits spell, if it is below a limit.
pub fn number_below(limit: u64, text: &str) -> Option<u64>
    ensures is { result ≡ number_below limit text.now }
    ensures below { IfSome result (λ number. number < limit) }
{
    match number(text) {
        Some(number) if number < limit => Some(number),
        _ => None,
    }
}

/// The address that twelve hex digits spell.
pub(crate) fn address(text: &str) -> Option<Address>
    ensures is { result ≡ address text.now }
{
    let octets = <[u8; 6] as FromHex>::from_hex(text).ok()?;
    Some(Address::new(octets))
}

/// The hook that a word names: `assoc`, `addba` or `data`.
pub fn hook_named(text: &str) -> Option<Hook>
    ensures is { result ≡ hook_named text.now }
{
    match text {
        "assoc" => Some(Hook::Association),
        "addba" => Some(Hook::Addba),
        "data" => Some(Hook::Data),
        _ => None,
    }
}
