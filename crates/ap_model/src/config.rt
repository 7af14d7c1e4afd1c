//! The configuration of an access point.

ghost use Rattle.std.specs.Prelude.{◌≡◌, ◌≤◌, length, vec_len, IsSome, IfSome, ◌↔◌};

use crate::octets::Octets;
use mac_frame::Address;
use std::alloc::AllocError;
use std::marker::Model;

/// The BSSID, the network's name of at most 32 bytes, and 1 to 8 supported rates.
#[derive(Drop)]
pub struct LinkConfig {
    bssid: Address,
    ssid: Octets,
    rates: Octets,
}

impl Model for LinkConfig {
    ghost use Rattle.ap_model.specs.Readings.{Config, IsConfig};

    ghost Value = { Config };

    ghost view = { λ c. record { bssid = c.bssid; ssid = c.ssid; rates = c.rates } };

    ghost invariant = { λ c. IsConfig (record { bssid = c.bssid; ssid = c.ssid; rates = c.rates }) };
}

/// A deep copy.
impl Clone for LinkConfig {
    ghost is_clone = { λ a b. b ≡ a };

    fn clone(&self) -> Result<Self, AllocError> {
        let ssid = self.ssid.clone()?;
        let rates = self.rates.clone()?;
        Ok(LinkConfig {
            bssid: self.bssid,
            ssid,
            rates,
        })
    }
}

impl LinkConfig {
    ghost use Rattle.ap_model.specs.Readings.{IsConfig};

    /// `None` if the name is longer than 32 bytes, or there are no rates or more than 8.
    pub fn new(bssid: Address, ssid: Octets, rates: Octets) -> Option<Self>
        ensures valid { IsSome result ↔ IsConfig
            (record { bssid = bssid; ssid = ssid; rates = rates }) }
        ensures value { IfSome result
            (λ c. c ≡ record { bssid = bssid; ssid = ssid; rates = rates }) }
    {
        let named = ssid.bytes().len() <= 32;
        let some = !rates.bytes().is_empty();
        let few = rates.bytes().len() <= 8;
        if named && some && few {
            Some(LinkConfig { bssid, ssid, rates })
        } else {
            None
        }
    }

    pub fn bssid(&self) -> Address
        ensures { result ≡ self.now.bssid }
    {
        self.bssid
    }

    pub fn ssid(&self) -> &[u8]
        ensures { result.now ≡ self.now.ssid }
    {
        self.ssid.bytes()
    }

    pub fn rates(&self) -> &[u8]
        ensures is { result.now ≡ self.now.rates }
        ensures few { length result.now ≤ 8 }
    {
        self.rates.bytes()
    }
}
