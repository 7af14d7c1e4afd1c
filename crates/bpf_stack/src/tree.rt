//! A row of slots as a binary tree, which copies share until one of them is written. Adjacent unset slots take no
//! memory.

ghost use Rattle.std.specs.Prelude.{◌≡◌, ◌^◌, ◌<◌, ◌≤◌, ◌+◌, ◌++◌, length, map, slice_set, slice_get, OnOk, OnErr, IfOk, IfSome, IfNone, replicate, true};
ghost use Rattle.std.specs.List.{list_all};
ghost use Rattle.bpf_absval.specs.Unlabelled.{slot_unlabelled, slot_bare};
ghost use Rattle.bpf_absval.specs.Inclusion.{slot_included};
ghost use Rattle.bpf_absval.specs.Marked.{seen};
ghost use Rattle.bpf_absval.specs.WellFormed.{IsSlot};
ghost use Rattle.bpf_absval.specs.declared.slot.AbsSlot.TheVariants as cell;
ghost use Rattle.bpf_stack.specs.Included.{slots_included, IsSet, IsOutside};
ghost use Rattle.bpf_stack.specs.Marks.{StayOutside};
ghost use Rattle.bpf_stack.specs.Leaves.{slots_of, IsEven};

use crate::comparison::Comparison;
use bpf_absval::{AbsSlot, Marks, Rooms};
use std::alloc::{AllocError, Global};
use std::marker::Model;
use std::rc::Rc;

/// A row of slots; their number is a power of two.
#[cycle(slots)]
#[derive(Drop)]
pub enum Slots {
    /// Two to this power, all unset.
    Unset(u32),
    /// One.
    Leaf(Rc<AbsSlot>),
    /// The slots of two rows, in order.
    Fork(Rc<Pair>),
}

/// Two rows of equal length.
#[cycle(slots)]
#[derive(Drop)]
pub struct Pair {
    left: Slots,
    right: Slots,
}

impl Model for Pair {
    ghost use Rattle.std.specs.Prelude.{List, length, ◌++◌};
    ghost use Rattle.bpf_absval.specs.declared.slot.AbsSlot.{AbsSlot};

    ghost Value = { List AbsSlot };

    ghost use Rattle.bpf_stack.specs.Leaves.{slots_of, IsEven};

    ghost view = { λ a. slots_of a.left ++ slots_of a.right };

    ghost invariant = { λ a. IsEven (slots_of a.left) (slots_of a.right) };

    ghost size = { length };

    ghost use Rattle.bpf_stack.specs.Fall.{fall};

    ghost size_decreases = { λ a h. fall a.left a.right h };
}

impl Clone for Slots {
    ghost use Rattle.bpf_stack.specs.Leaves.{slots_of};

    ghost is_clone = { λ a b. slots_of b ≡ slots_of a };

    fn clone(&self) -> Result<Slots, AllocError> {
        match self {
            Slots::Unset(depth) => Ok(Slots::Unset(*depth)),
            Slots::Leaf(slot) => {
                let slot = slot.clone()?;
                Ok(Slots::Leaf(slot))
            }
            Slots::Fork(pair) => {
                let pair = pair.clone()?;
                Ok(Slots::Fork(pair))
            }
        }
    }
}

impl Clone for Pair {
    ghost is_clone = { λ a b. b ≡ a };

    fn clone(&self) -> Result<Pair, AllocError> {
        let left = self.left.clone()?;
        let right = self.right.clone()?;
        Ok(Pair { left, right })
    }
}

impl Slots {
    fn joined(alloc: Global, left: Slots, right: Slots) -> Result<Slots, AllocError>
        requires even { IsEven (slots_of left) (slots_of right) }
        ensures { IfOk result (λ slots. slots_of slots ≡ slots_of left ++ slots_of right) }
    {
        let pair = Rc::new(alloc, Pair { left, right })?;
        Ok(Slots::Fork(pair))
    }

    /// A row of `count` slots, two to the power of `depth`: `slot` at `index`, the others unset.
    fn with_one(
        alloc: Global,
        depth: u32,
        count: usize,
        index: usize,
        slot: AbsSlot,
    ) -> Result<Slots, AllocError>
        requires whole { count ≡ 2 ^ depth }
        requires within { index < count }
        ensures { IfOk result
            (λ slots. slots_of slots ≡ slice_set (replicate count cell.Unset) index slot) }
    {
        if depth == 0 {
            let leaf = Rc::new(alloc, slot)?;
            return Ok(Slots::Leaf(leaf));
        }
        let half = count / 2;
        let unset = Slots::Unset(depth - 1);
        if index < half {
            let left = Slots::with_one(alloc, depth - 1, half, index, slot)?;
            let slots = Slots::joined(alloc, left, unset)?;
            return Ok(slots);
        }
        let right = Slots::with_one(alloc, depth - 1, half, index - half, slot)?;
        let slots = Slots::joined(alloc, unset, right)?;
        return Ok(slots);
    }

    /// The slot at `index`, of `count`.
    pub fn get(&self, count: usize, index: usize) -> AbsSlot
        requires whole { count ≡ length (slots_of self.now) }
        requires within { index < count }
        ensures { slice_get (slots_of self.now) index ≡ Some result }
    {
        match self {
            Slots::Unset(_) => AbsSlot::Unset,
            Slots::Leaf(slot) => **slot,
            Slots::Fork(pair) => {
                let half = count / 2;
                let pair: &Pair = pair;
                if index < half {
                    return pair.left.get(half, index);
                }
                pair.right.get(half, index - half)
            }
        }
    }

    /// Sets the slot at `index`, of `count`; shared parts on the path to it are copied.
    pub fn set(
        &mut self,
        alloc: Global,
        count: usize,
        index: usize,
        slot: AbsSlot,
    ) -> Result<(), AllocError>
        requires whole { count ≡ length (slots_of self.old) }
        requires within { index < count }
        ensures ok { OnOk result (slots_of self.new ≡ slice_set (slots_of self.old) index slot) }
        ensures err { OnErr result (slots_of self.new ≡ slots_of self.old) }
        // The slot is well formed.
        ensures whole { IsSlot slot }
    {
        match self {
            Slots::Unset(depth) => {
                let slots = Slots::with_one(alloc, *depth, count, index, slot)?;
                *self = slots;
                return Ok(());
            }
            Slots::Leaf(old) => {
                let old = Rc::make_mut(old)?;
                *old = slot;
                return Ok(());
            }
            Slots::Fork(pair) => {
                let half = count / 2;
                let pair = Rc::make_mut(pair)?;
                if index < half {
                    pair.left.set(alloc, half, index, slot)?;
                    return Ok(());
                }
                pair.right.set(alloc, half, index - half, slot)?;
                return Ok(());
            }
        }
    }

    /// An index at which an unset slot isn't included in that of this row, of `count` slots.
    fn first_set(&self, count: usize, rooms: &Rooms, others: &Rooms) -> Option<usize>
        requires whole { count ≡ length (slots_of self.now) }
        ensures none { IfNone result
            (list_all (slot_included rooms.now others.now cell.Unset) (slots_of self.now) ≡ true) }
        ensures some { IfSome result (IsSet rooms.now others.now (slots_of self.now)) }
    {
        match self {
            Slots::Unset(_) => None,
            Slots::Leaf(slot) => {
                if AbsSlot::Unset.is_included(slot, rooms, others) {
                    return None;
                }
                return Some(0);
            }
            Slots::Fork(pair) => {
                let half = count / 2;
                let pair: &Pair = pair;
                if let Some(index) = pair.left.first_set(half, rooms, others) {
                    return Some(index);
                }
                match pair.right.first_set(half, rooms, others) {
                    Some(index) => {
                        return Some(half + index);
                    }
                    None => {
                        return None;
                    }
                }
            }
        }
    }

    /// An index at which the slot of this row, of `count` slots, isn't included in the other's. The first slot of both
    /// has index `first` in its stack.
    pub fn first_outside(
        &self,
        other: &Slots,
        compared: &Comparison<'_>,
        first: usize,
        count: usize,
    ) -> Option<usize>
        requires whole { count ≡ length (slots_of self.now) }
        requires same { count ≡ length (slots_of other.now) }
        requires within { first + count ≤ 64 }
        ensures none { IfNone result
            (slots_included compared.now.rooms.now compared.now.others.now
            (seen slot_bare compared.now.bare.bits first (slots_of self.now))
            (seen slot_bare compared.now.others_bare.bits first (slots_of other.now)) ≡ true) }
        ensures some { IfSome result
            (IsOutside compared.now.rooms.now compared.now.others.now
            (seen slot_bare compared.now.bare.bits first (slots_of self.now))
            (seen slot_bare compared.now.others_bare.bits first (slots_of other.now))) }
    {
        match self {
            Slots::Unset(_) => other.first_set(count, compared.rooms, compared.others),
            Slots::Leaf(a) => match other {
                Slots::Unset(_) => None,
                Slots::Leaf(b) => {
                    if compared.include(a, b, first) {
                        return None;
                    }
                    return Some(0);
                }
                // The rows of a fork have more than one slot.
                Slots::Fork(b) => {
                    let b: &Pair = b;
                    let _half = &b.left;
                    return None;
                }
            },
            Slots::Fork(a) => {
                let a: &Pair = a;
                match other {
                    Slots::Unset(_) => None,
                    Slots::Leaf(_) => {
                        let _half = &a.left;
                        return None;
                    }
                    Slots::Fork(b) => {
                        let b: &Pair = b;
                        let half = count / 2;
                        if let Some(index) = a.left.first_outside(&b.left, compared, first, half) {
                            return Some(index);
                        }
                        match a
                            .right
                            .first_outside(&b.right, compared, first + half, half)
                        {
                            Some(index) => {
                                return Some(half + index);
                            }
                            None => {
                                return None;
                            }
                        }
                    }
                }
            }
        }
    }

    /// The marks of the slots that have lost their label, once this one is forgotten too. `bare` are those before. The
    /// first of `count` slots has index `first` in its stack.
    pub fn forgotten(&self, bare: Marks, label: u16, first: usize, count: usize) -> Marks
        requires whole { count ≡ length (slots_of self.now) }
        requires within { first + count ≤ 64 }
        ensures inside { seen slot_bare result.bits first (slots_of self.now)
            ≡ map (slot_unlabelled label) (seen slot_bare bare.bits first (slots_of self.now)) }
        ensures outside { StayOutside first count bare.bits result.bits }
    {
        match self {
            Slots::Unset(_) => bare,
            Slots::Leaf(slot) => {
                if slot.has_label(label) {
                    return bare.with(first);
                }
                bare
            }
            Slots::Fork(pair) => {
                let half = count / 2;
                let pair: &Pair = pair;
                let bare = pair.left.forgotten(bare, label, first, half);
                pair.right.forgotten(bare, label, first + half, half)
            }
        }
    }
}
