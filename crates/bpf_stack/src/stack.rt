//! The stack of one call frame: 64 slots.

ghost use Rattle.std.specs.Prelude.{◌≡◌, ◌<◌, map, slice_set, slice_get, OnOk, OnErr, IfSome, IfNone, replicate, true};
ghost use Rattle.bpf_absval.specs.Unlabelled.{slot_unlabelled};
ghost use Rattle.bpf_absval.specs.declared.slot.AbsSlot.TheVariants as cell;
ghost use Rattle.bpf_stack.specs.Included.{slots_included, IsOutside};
ghost use Rattle.bpf_stack.specs.Leaves.{IsStack};

use crate::comparison::Comparison;
use crate::tree::Slots;
use bpf_absval::{AbsSlot, Marks, Rooms};
use std::alloc::{AllocError, Global};
use std::marker::Model;

/// What is known of the 512 bytes of a call frame's stack: slot i has the bytes from 8 * i on. Copies share the parts
/// that neither has written since.
#[derive(Drop)]
pub struct Stack {
    alloc: Global,
    slots: Slots,
    /// The slots whose label is forgotten: none has a label, whatever `slots` says.
    bare: Marks,
}

impl Model for Stack {
    ghost use Rattle.std.specs.Prelude.{List};
    ghost use Rattle.bpf_absval.specs.declared.slot.AbsSlot.{AbsSlot};

    ghost Value = { List AbsSlot };

    ghost use Rattle.bpf_absval.specs.Marked.{seen};
    ghost use Rattle.bpf_absval.specs.Unlabelled.{slot_bare};
    ghost use Rattle.bpf_stack.specs.Leaves.{slots_of, IsStack};

    ghost view = { λ a. seen slot_bare a.bare.bits 0 (slots_of a.slots) };

    ghost invariant = { λ a. IsStack (slots_of a.slots) };
}

impl Clone for Stack {
    ghost is_clone = { λ a b. b ≡ a };

    fn clone(&self) -> Result<Stack, AllocError> {
        let slots = self.slots.clone()?;
        Ok(Stack {
            alloc: self.alloc,
            slots,
            bare: self.bare,
        })
    }
}

impl Stack {
    /// A stack of which nothing is known. It doesn't allocate.
    pub fn unset(alloc: Global) -> Stack
        ensures { result ≡ replicate 64 cell.Unset }
    {
        Stack {
            alloc,
            slots: Slots::Unset(6),
            bare: Marks::none(),
        }
    }

    /// The slot at `index`.
    pub fn get(&self, index: usize) -> AbsSlot
        requires { index < 64 }
        ensures is { slice_get self.now index ≡ Some result }
        // The stack has 64 well-formed slots.
        ensures whole { IsStack self.now }
    {
        let slot = self.slots.get(64, index);
        if self.bare.has(index) {
            return slot.bare();
        }
        slot
    }

    /// Sets the slot at `index`. If allocation fails, the stack is unchanged.
    pub fn set(&mut self, index: usize, slot: AbsSlot) -> Result<(), AllocError>
        requires { index < 64 }
        ensures ok { OnOk result (self.new ≡ slice_set self.old index slot) }
        ensures err { OnErr result (self.new ≡ self.old) }
    {
        let alloc = self.alloc;
        self.slots.set(alloc, 64, index, slot)?;
        self.bare = self.bare.without(index);
        Ok(())
    }

    /// An index at which the slot of this stack, in a state with `rooms`, isn't included in the other's, in a state
    /// with `others`; `None` if there is none.
    pub fn first_outside(&self, other: &Stack, rooms: &Rooms, others: &Rooms) -> Option<usize>
        ensures none { IfNone result
            (slots_included rooms.now others.now self.now other.now ≡ true) }
        ensures some { IfSome result (IsOutside rooms.now others.now self.now other.now) }
        ensures few { IfSome result (λ index. index < 64) }
    {
        let compared = Comparison {
            rooms,
            others,
            bare: self.bare,
            others_bare: other.bare,
        };
        self.slots.first_outside(&other.slots, &compared, 0, 64)
    }

    /// Whether each slot of this stack, in a state with `rooms`, is included in the other's at that index, in a state
    /// with `others`.
    pub fn is_included(&self, other: &Stack, rooms: &Rooms, others: &Rooms) -> bool
        ensures { result ≡ slots_included rooms.now others.now self.now other.now }
    {
        self.first_outside(other, rooms, others).is_none()
    }

    /// Removes the label from each slot. All slots stay shared.
    pub fn forget(&mut self, label: u16)
        ensures is { self.new ≡ map (slot_unlabelled label) self.old }
    {
        self.bare = self.slots.forgotten(self.bare, label, 0, 64);
    }
}
