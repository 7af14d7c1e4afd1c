//! How a station is known.

ghost use Rattle.std.specs.Prelude.{◌≡◌};
ghost use Rattle.assoc.specs.Standings.{state_of, aid_of};

use mac_frame::Address;

/// The standing of a known station (IEEE 802.11-2016, 11.3.1). There is no RSN, so States 3 and 4 are one.
#[derive(Clone, Copy, Debug, PartialEq, Eq)]
pub enum Known {
    /// State 2.
    Authenticated,
    /// State 3, with the association identifier, from 1 to 2007.
    Associated(u16),
}

/// A known station, with its standing.
#[derive(Clone, Copy, Debug, PartialEq, Eq)]
pub struct KnownStation {
    pub station: Address,
    pub known: Known,
}

/// A station's standing. None is State 1: the station is unknown.
pub type Standing = Option<Known>;

/// The number of a standing's state, 1 to 3.
pub fn state_of(standing: Standing) -> u8
    ensures { result ≡ state_of standing }
{
    match standing {
        None => 1,
        Some(Known::Authenticated) => 2,
        Some(Known::Associated(_)) => 3,
    }
}

/// The association identifier, 0 for none.
pub fn aid_of(standing: Standing) -> u16
    ensures { result ≡ aid_of standing }
{
    match standing {
        None => 0,
        Some(Known::Authenticated) => 0,
        Some(Known::Associated(aid)) => aid,
    }
}
