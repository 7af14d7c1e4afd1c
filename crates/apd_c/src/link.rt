//! Access points that C keeps.

ghost use Rattle.std.specs.Prelude.{◌≡◌, ◌≢◌, ◌↔◌, Some, IsSome, IfOk, IfErr, IfSome};
ghost use Rattle.apd_c.specs.Held.{held};
ghost use Rattle.apd_c.specs.Answers.{number_in};
ghost use Rattle.apd_c.specs.Link.{IsMade, IsNetwork, IsNewNumber, IsLinkNumber, HoldsMade, config_of};

use crate::answer::{NO_MEMORY, NOT_EMPTY, OUT_OF_LIMITS};
use crate::handle::{Content, Handle};
use crate::shapes::{MapShape, shapes_from};
use ap_core::{LinkConfig, Octets};
use ap_single::AccessPoint;
use mac_types::Address;
use std::alloc::{AllocError, Global};

/// The configuration of an access point: its address, the name of its network, of at most 32 bytes, and 1 to 8
/// supported rates.
#[repr(C)]
#[derive(Clone, Copy)]
pub struct Network {
    pub bssid: [u8; 6],
    pub name_length: u8,
    pub name: [u8; 32],
    pub rate_count: u8,
    pub rates: [u8; 8],
}

/// The configuration; `None` if it is out of its limits.
fn config_from(alloc: Global, network: &Network) -> Result<Option<LinkConfig>, AllocError>
    ensures is { IfOk result (λ o. IfSome o (λ c. c ≡ config_of network.now)) }
    ensures limits { IfOk result (λ o. IsSome o ↔ IsNetwork network.now) }
{
    let named = usize::from(network.name_length);
    let rated = usize::from(network.rate_count);
    if named > 32 || rated > 8 {
        return Ok(None);
    }
    let name = Octets::copy(alloc, &network.name[..named])?;
    let rates = Octets::copy(alloc, &network.rates[..rated])?;
    Ok(LinkConfig::new(Address::new(network.bssid), name, rates))
}

/// An access point that has handled nothing, in a box of its own.
fn made(alloc: Global, network: &Network, shapes: &[MapShape]) -> Result<Box<AccessPoint>, u32>
    ensures ok { IfOk result (λ boxed. IsMade network.now shapes.now boxed.value) }
    ensures err { IfErr result (λ number. number ≢ 0) }
    ensures number { IsNewNumber network.now shapes.now (number_in result) }
{
    match config_from(alloc, network) {
        Err(_) => Err(NO_MEMORY),
        Ok(None) => Err(OUT_OF_LIMITS),
        Ok(Some(config)) => match shapes_from(alloc, shapes) {
            Err(_) => Err(NO_MEMORY),
            Ok(None) => Err(OUT_OF_LIMITS),
            Ok(Some(shapes)) => match AccessPoint::new(alloc, &config, shapes) {
                Err(_) => Err(NO_MEMORY),
                Ok(made) => match Box::new(alloc, made) {
                    Err(_) => Err(NO_MEMORY),
                    Ok(boxed) => Ok(boxed),
                },
            },
        },
    }
}

/// Fills an empty handle with an access point that has handled nothing and has no programs, for maps of these shapes.
///
/// 0: the handle holds it. 40: an allocation failed. 90: the name, the rates or the shapes are out of their limits. 92:
/// the handle isn't empty. All but 0 leave the handle unchanged.
#[unsafe(no_mangle)]
pub extern "C" fn apd_c_link(
    alloc: Global,
    link: &mut Handle,
    network: &Network,
    shapes: &[MapShape],
) -> u32
    ensures made { result ≡ 0 → HoldsMade network.now shapes.now (held link.new) }
    ensures kept { result ≢ 0 → held link.new ≡ held link.old }
    ensures number { IsLinkNumber network.now shapes.now (held link.old) result }
{
    if !link.is_empty() {
        return NOT_EMPTY;
    }
    match made(alloc, network, shapes) {
        Err(number) => number,
        Ok(boxed) => link.fill(alloc, Content::Link(boxed)).number,
    }
}
