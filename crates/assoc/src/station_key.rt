//! Stations as keys of a table.

ghost use Rattle.std.proofs.Common.{[], ◌∷◌, ap};
ghost use Rattle.std.proofs.lemmas.Slice.Eq.{bytes_eq-Decides};

use mac_frame::Address;
use std::hash::{Hash, Hasher};
use std::marker::Model;

/// A station's address as a key: it hashes by one write of six octets, where `Address` makes a write for each.
#[derive(Clone, Copy, PartialEq, Eq)]
pub(crate) struct StationKey {
    pub(crate) station: Address,
}

impl Model for StationKey {
    ghost use Rattle.std.specs.Prelude.{List, ℕ};

    ghost Value = { List ℕ };

    ghost view = { λ k. k.station };

    ghost inverse = { λ octets. record { station = octets } };
}

impl Hash for StationKey {
    ghost hash_input = { λ k. k ∷ [] };

    ghost respects_eq = { λ x y same. ap (λ octets. octets ∷ []) ((bytes_eq-Decides x y).0 same) };

    #[inline(always)]
    fn hash<H: Hasher>(&self, state: &mut H) {
        let octets = self.station.octets();
        state.write(&octets);
    }
}
