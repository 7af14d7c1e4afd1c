//! What C keeps: handles.

ghost use Rattle.std.specs.Prelude.{◌≡◌, true, false};
ghost use Rattle.std.specs.Option.{option_map};
ghost use Rattle.apd_c.specs.declared.handle.Content.{Content};
ghost use Rattle.apd_c.specs.contracts.handle.Content.{the_row};
ghost use Rattle.apd_c.specs.Holding.{holds, held_by};

use crate::loose::Loose;
use crate::maps::Maps;
use crate::outs::Outputs;
use ap_core::{AgreementInForce, KnownStation};
use ap_single::AccessPoint;
use bpf_machine::Accepted;
use std::alloc::Global;
use std::marker::Model;

/// What a handle may hold.
#[derive(Drop)]
pub enum Content {
    /// The content of an empty handle, and of a box whose content was taken out. No full handle holds it.
    Nothing,
    /// An admitted program. Programs, maps and links are boxed, so that a `Content` stays small.
    Code(Box<Accepted>),
    /// The words of maps.
    Maps(Box<Maps>),
    /// Bytes that C reads by `apd_c_read`.
    Bytes(Vec<u8>),
    /// Eight shards and their programs.
    Link(Box<AccessPoint>),
    /// The outputs of an event.
    Outs(Outputs),
    /// Stations of an access point.
    Stations(Vec<KnownStation>),
    /// Agreements of an access point.
    Agreements(Vec<AgreementInForce>),
}

/// What C sees of a content: its address.
#[repr(C)]
#[derive(Drop)]
pub struct Hidden {
    byte: u8,
}

/// A handle, which C keeps. It is empty or owns a content; a handle of zeros is empty. C changes neither field, copies
/// no full handle, makes one call at a time on a handle, and frees it by `apd_c_free`.
#[repr(C)]
#[derive(Drop)]
pub struct Handle {
    full: bool,
    at: *mut Hidden,
    ghost content: { Content },
}

impl Model for Handle {
    ghost also_owns = { λ h. holds the_row h.full h.at h.content };
}

impl Handle {
    ghost use Rattle.std.specs.Borrow.{sem};
    ghost use Rattle.apd_c.specs.Lending.{LendsContent};

    pub(crate) fn sealed(content: Loose<Content, Global>) -> Handle
        ensures full { result.full ≡ true }
        ensures content { result.content ≡ content.value }
    {
        let Loose { at, alloc: _ } = content;
        Handle {
            full: true,
            at: at as *mut Hidden,
        }
    }

    pub(crate) fn empty() -> Handle
        ensures empty { result.full ≡ false }
    {
        Handle {
            full: false,
            at: std::ptr::null_mut(),
        }
    }

    pub(crate) fn opened(self, alloc: Global) -> Option<Loose<Content, Global>>
        ensures { option_map (λ b. b.value) result ≡ held_by self.full self.content }
    {
        let Handle { full, at } = self;
        if full {
            Some(Loose {
                at: at as *mut Content,
                alloc,
            })
        } else {
            None
        }
    }

    /// Its content, lent; `None` if it is empty.
    pub(crate) fn lent(&mut self) -> Option<&mut Content>
        ensures* writes_back { sem 𝓛 (LendsContent self.entry result) }
        ensures value { option_map (λ c. c.now) result ≡ held_by self.old.full self.old.content }
    {
        if !self.full {
            return None;
        }
        unsafe { Some(&mut *(self.at as *mut Content)) }
    }
}
