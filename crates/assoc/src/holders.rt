//! Who holds the association identifiers of a shard.

ghost use Rattle.std.specs.Prelude.{◌≡◌, ◌<◌, None, Some, length, replicate, slice_index_or, slice_set, count_by};
ghost use Rattle.std.specs.Option.{is_some};

use mac_frame::Address;
use std::marker::Model;

/// At index k the station that has identifier 8 k + s of shard s, and how many indices are held.
#[derive(Drop)]
pub(crate) struct Holders {
    places: [Option<Address>; 251],
    held: u16,
}

impl Model for Holders {
    ghost use Rattle.std.specs.Prelude.{◌≡◌, ℕ, List, Option, count_by};
    ghost use Rattle.std.specs.Option.{is_some};

    ghost Value = { List (Option (List ℕ)) };

    ghost view = { λ h. h.places };

    ghost invariant = { λ h. h.held ≡ count_by is_some h.places };
}

impl Holders {
    /// Nobody has an identifier.
    pub(crate) fn none() -> Holders
        ensures { result ≡ replicate 251 None }
    {
        Holders {
            places: [None; 251],
            held: 0,
        }
    }

    pub(crate) fn count(&self) -> u16
        ensures { result ≡ count_by is_some self.now }
    {
        self.held
    }

    pub(crate) fn get(&self, place: usize) -> Option<Address>
        requires { place < 251 }
        ensures is { result ≡ slice_index_or self.now place None }
        ensures whole { length self.now ≡ 251 }
    {
        self.places[place]
    }

    pub(crate) fn free(&mut self, place: usize)
        requires { place < 251 }
        ensures { self.new ≡ slice_set self.old place None }
    {
        if self.places[place].is_some() {
            self.held -= 1;
        }
        self.places[place] = None;
    }

    pub(crate) fn give(&mut self, place: usize, station: Address)
        requires { place < 251 }
        ensures is { self.new ≡ slice_set self.old place (Some station) }
        ensures whole { length self.old ≡ 251 }
    {
        if self.places[place].is_none() {
            self.held += 1;
        }
        self.places[place] = Some(station);
    }
}
