//! The stack of a call frame, slot by slot.

ghost use Rattle.std.specs.Prelude.{◌≡◌, ◌<◌, slice_set, OnOk, OnErr};
ghost use Rattle.std.specs.List.{All};
ghost use Rattle.bpf_cert_format.specs.Slots.{no_slots, slots_after};

use bpf_absval::AbsSlot;
use std::alloc::{AllocError, Global};
use std::marker::Model;

/// One of the 64 slots, and what it may hold.
#[derive(Clone, Copy)]
pub struct KnownSlot {
    pub index: u8,
    pub slot: AbsSlot,
}

/// What the 64 slots of a stack may hold. Contracts see all 64; those of which nothing is known take no memory.
#[derive(Drop)]
pub struct Slots {
    known: Vec<KnownSlot>,
}

impl Model for Slots {
    ghost use Rattle.std.specs.Prelude.{◌<◌, List};
    ghost use Rattle.std.specs.List.{All};
    ghost use Rattle.bpf_absval.specs.declared.slot.AbsSlot.{AbsSlot};
    ghost use Rattle.bpf_cert_format.specs.Slots.{no_slots, slots_after};

    ghost Value = { List AbsSlot };

    ghost view = { λ a. slots_after no_slots a.known.items };

    ghost invariant = { λ a. All (λ k. k.index < 64) a.known.items };
}

/// All 64 slots, given the known ones.
fn filled(known: &[KnownSlot]) -> [AbsSlot; 64]
    requires inside { All (λ k. k.index < 64) known.now }
    ensures is { result ≡ slots_after no_slots known.now }
{
    let mut slots = [AbsSlot::Unset; 64];
    for one in known {
        slots[one.index as usize] = one.slot;
    }
    slots
}

impl Slots {
    /// 64 slots of which nothing is known.
    pub fn unset(alloc: Global) -> Slots
        ensures is { result ≡ no_slots }
    {
        Slots {
            known: Vec::new(alloc),
        }
    }

    /// Sets what a slot may hold. If allocation fails, nothing changes.
    pub fn set(&mut self, index: usize, slot: AbsSlot) -> Result<(), AllocError>
        requires inside { index < 64 }
        ensures ok { OnOk result (self.new ≡ slice_set self.old index slot) }
        ensures err { OnErr result (self.new ≡ self.old) }
    {
        let index = index as u8;
        self.known.push(KnownSlot { index, slot })?;
        Ok(())
    }

    /// The slots that were set, in order; a later one overrides an earlier one.
    pub fn known(&self) -> &[KnownSlot]
        ensures is { slots_after no_slots result.now ≡ self.now }
        ensures inside { All (λ k. k.index < 64) result.now }
    {
        self.known.as_slice()
    }

    /// All 64 slots.
    pub fn all(&self) -> [AbsSlot; 64]
        ensures is { result ≡ self.now }
    {
        filled(self.known())
    }

    /// Roughly the bytes of memory that they take; a state takes as many again.
    pub fn weight(&self) -> usize {
        let slots = self.known.len().saturating_mul(160);
        slots.saturating_add(384)
    }
}
