//! Addresses.

ghost use Rattle.std.specs.Prelude.{◌≡◌, ◌%◌, ◌==◌, List, ℕ, Some, slice_index};
ghost use Rattle.mac_types.specs.Numbers.{IsAddress};
ghost use Rattle.mac_types.specs.Texts.{address_text, octet_text};

use std::fmt;
use std::marker::Model;

/// The address of a station, an access point or a group: six octets in the order in which they are
/// sent (IEEE 802.11-2016, 9.2.4.3). A clause sees it as the list of its octets.
#[derive(Clone, Copy, Debug, PartialEq, Eq, PartialOrd, Ord, Hash)]
pub struct Address {
    octets: [u8; 6],
}

impl Model for Address {
    ghost Value = { List ℕ };

    ghost view = { λ a. a.octets };

    ghost inverse = { λ octets. record { octets = octets } };
}

impl Address {
    /// The address with these octets.
    pub fn new(octets: [u8; 6]) -> Self
        ensures { result ≡ octets }
    {
        Address { octets }
    }

    /// The octets, in the order in which they are sent.
    pub fn octets(self) -> [u8; 6]
        ensures octets { result ≡ self }
        ensures fits { IsAddress self }
    {
        self.octets
    }

    /// Whether it is a group's address: the first bit sent is 1 (9.2.4.3.2).
    pub fn is_group(self) -> bool
        ensures { result ≡ (slice_index self 0 % 2 == 1) }
    {
        let [first, ..] = self.octets;
        first % 2 == 1
    }
}

/// An octet as two hexadecimal digits.
#[derive(Clone, Copy)]
struct Octet(u8);

impl fmt::Display for Octet {
    ghost output = { λ o. Some (octet_text o.0) };

    #[tactic(auto, using(std::proofs::lemmas::Fmt::hex_byte))]
    fn fmt<W: fmt::Write>(&self, f: &mut fmt::Formatter<W>) -> fmt::Result {
        let octet = self.0;
        write!(f, "{octet:02x}")
    }
}

/// Twelve hexadecimal digits.
impl fmt::Display for Address {
    ghost output = { λ a. Some (address_text a) };

    #[tactic(auto, using(crate::proofs::Octets::text_by_octets))]
    fn fmt<W: fmt::Write>(&self, f: &mut fmt::Formatter<W>) -> fmt::Result {
        let [a, b, c, d, e, g] = self.octets;
        write!(
            f,
            "{}{}{}{}{}{}",
            Octet(a),
            Octet(b),
            Octet(c),
            Octet(d),
            Octet(e),
            Octet(g)
        )
    }
}
