//! Elements: an id, a length, and that many bytes (IEEE 802.11-2016, 9.4.2.1).

ghost use Rattle.std.specs.Prelude.{◌≡◌, ◌∷◌, [], ◌↔◌, List, IsSome, IfSome, IfNone, IfOk, option_copied, length, ◌<◌};
ghost use Rattle.mac_frame.specs.Elements.{Element, AreElements, is_cut, elements_in, first_with, nonempty, IsSendable, rates_text};

use crate::fields::tail_from;
use crate::spelled_parts::put;
use std::alloc::{AllocError, Global};
use std::marker::Model;

/// The id of the SSID element (9.4.2.2).
pub const SSID: u8 = 0;

/// The id of the Supported Rates element (9.4.2.3).
pub const SUPPORTED_RATES: u8 = 1;

/// Elements, as the bytes that spell them. A clause sees the list of elements.
#[derive(Drop)]
pub struct Elements<'a> {
    bytes: &'a [u8],
}

impl<'a> Model for Elements<'a> {
    ghost use Rattle.std.specs.Prelude.{List};
    ghost use Rattle.mac_frame.specs.Elements.{Element, elements_in, AreElements};

    ghost Value = { List Element };

    ghost view = { λ e. elements_in e.bytes.now };

    ghost invariant = { λ e. AreElements e.bytes.now };
}

impl<'a> Elements<'a> {
    /// The elements that the bytes spell. None if one is cut.
    #[tactic(auto, using(crate::proofs::Cutting::are_elements, crate::proofs::Cutting::not_cut))]
    pub fn read(bytes: &'a [u8]) -> Option<Self>
        ensures spelled { IsSome result ↔ AreElements bytes.now }
        ensures value { IfSome result (λ e. e ≡ elements_in bytes.now) }
    {
        if ends_within(bytes) {
            return None;
        }
        Some(Elements { bytes })
    }

    /// The elements that these bytes spell.
    pub fn new(bytes: &'a [u8]) -> Self
        requires { AreElements bytes.now }
        ensures { result ≡ elements_in bytes.now }
    {
        Elements { bytes }
    }

    /// No elements.
    #[tactic(auto, unfolding(crate::specs::Elements::elements_in))]
    pub fn none() -> Self
        ensures { result ≡ [] }
    {
        Elements { bytes: &[] }
    }

    /// The bytes of the first element with this id.
    pub fn first(&self, id: u8) -> Option<&'a [u8]>
        ensures { option_copied result ≡ first_with id self.now }
    {
        first_in(self.bytes, id)
    }

    /// The bytes of the first nonempty element with this id.
    pub fn first_nonempty(&self, id: u8) -> Option<&'a [u8]>
        ensures { option_copied result ≡ first_with id (nonempty self.now) }
    {
        first_nonempty_in(self.bytes, id)
    }
}

/// Elements to be sent, which own their bytes: at most 2366, so that they fit each frame. A clause sees the bytes.
#[derive(Debug, Drop)]
pub struct ElementsBuf {
    bytes: Vec<u8>,
}

impl Model for ElementsBuf {
    ghost use Rattle.std.specs.Prelude.{List, ℕ};
    ghost use Rattle.mac_frame.specs.Elements.{IsSendable};

    ghost Value = { List ℕ };

    ghost view = { λ e. e.bytes.items };

    ghost invariant = { λ e. IsSendable e.bytes.items };
}

impl ElementsBuf {
    /// The rates as a Supported Rates element.
    #[tactic(auto, using(crate::proofs::Cutting::one_sendable))]
    pub fn rates(alloc: Global, rates: &[u8]) -> Result<Self, AllocError>
        requires { length rates.now < 256 }
        ensures { IfOk result (λ e. e ≡ rates_text rates.now) }
    {
        let mut bytes = Vec::with_capacity(alloc, 2 + rates.len())?;
        put(&mut bytes, &[SUPPORTED_RATES, rates.len() as u8]);
        put(&mut bytes, rates);
        Ok(ElementsBuf { bytes })
    }

    /// The bytes.
    pub fn into_bytes(self) -> Vec<u8>
        ensures bytes { result.items ≡ self }
        ensures fits { IsSendable self }
    {
        self.bytes
    }
}

/// Whether the bytes end within an element.
#[tactic(auto, using(crate::proofs::Cutting::one_on, crate::proofs::Cutting::cut_here, crate::proofs::Cutting::at_end))]
pub(crate) fn ends_within(bytes: &[u8]) -> bool
    ensures { result ≡ is_cut bytes.now }
{
    let mut rest = bytes;
    while rest.len() >= 2 {
        let len = rest[1] as usize;
        if rest.len() < 2 + len {
            return true;
        }
        rest = tail_from(rest, 2 + len);
    }
    !rest.is_empty()
}

/// The id and the bytes of the first element, and the bytes after it.
#[tactic(auto, using(crate::proofs::Cutting::room_for, crate::proofs::Cutting::none_left, crate::proofs::Cutting::first_left, crate::proofs::Cutting::others_left))]
fn split_first(bytes: &[u8]) -> Option<(u8, &[u8], &[u8])>
    requires { AreElements bytes.now }
    ensures none { IfNone result (elements_in bytes.now ≡ []) }
    ensures first { IfSome result
        (λ x. elements_in bytes.now ≡ record { id = x.0; bytes = x.1.now } ∷ elements_in x.2.now) }
    ensures rest { IfSome result (λ x. AreElements x.2.now) }
    ensures shorter { IfSome result (λ x. length x.2.now < length bytes.now) }
{
    if bytes.len() < 2 {
        return None;
    }
    let after = tail_from(bytes, 2);
    let (first, rest) = after.split_at(bytes[1] as usize);
    Some((bytes[0], first, rest))
}

fn first_in(bytes: &[u8], id: u8) -> Option<&[u8]>
    requires { AreElements bytes.now }
    ensures { option_copied result ≡ first_with id (elements_in bytes.now) }
{
    let mut rest = bytes;
    while let Some((found, element, others)) = split_first(rest) {
        if found == id {
            return Some(element);
        }
        rest = others;
    }
    None
}

fn first_nonempty_in(bytes: &[u8], id: u8) -> Option<&[u8]>
    requires { AreElements bytes.now }
    ensures { option_copied result ≡ first_with id (nonempty (elements_in bytes.now)) }
{
    let mut rest = bytes;
    while let Some((found, element, others)) = split_first(rest) {
        if found == id && !element.is_empty() {
            return Some(element);
        }
        rest = others;
    }
    None
}
