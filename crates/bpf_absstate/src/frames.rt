//! The call frames of a state: a chain of shared pointers, the newest first in memory, the main function's first in
//! definitions.

ghost use Rattle.std.specs.Prelude.{◌≡◌, ◌<◌, ◌+◌, [], ◌∷◌, ◌++◌, length, map, slice_index_or, slice_set, take, OnOk, OnErr, IfOk, IfSome, IfNone, true};
ghost use Rattle.bpf_absval.specs.WellFormed.{IsSlot};
ghost use Rattle.bpf_absval.specs.declared.slot.AbsSlot.TheVariants.{Unset};
ghost use Rattle.bpf_absstate.specs.View.{main_frame, empty_stack, frame_unlabelled, with_frame_slot};
ghost use Rattle.bpf_absstate.specs.Popped.{Popped};
ghost use Rattle.bpf_absstate.specs.Difference.{part_outside, IsPlaceOutside};
ghost use Rattle.bpf_absstate.specs.Inclusion.{frame_included, frames_included};

use crate::registers::Kept;
use bpf_absval::{AbsSlot, Rooms};
use bpf_stack::Stack;
use std::alloc::{AllocError, Global};
use std::marker::Model;
use std::rc::Rc;

/// A function's frame: its return slot, the caller's R6 to R9, its stack.
#[derive(Drop)]
pub struct CallFrame {
    /// The slot at which the caller resumes; 0 for the main function.
    pub return_slot: u16,
    /// What the caller has in R6 to R9; unset for the main function.
    pub kept: Kept,
    pub stack: Stack,
}

/// A part of a call frame.
#[derive(Clone, Copy)]
pub enum Part {
    /// The return slot.
    Return,
    /// One of the caller's R6 to R9; R6 is number 0.
    Kept(u8),
    /// A slot of the stack.
    Slot(u8),
}

/// A part of the call frame with that number; the main function's is number 0.
#[derive(Clone, Copy)]
pub struct Place {
    pub frame: u8,
    pub part: Part,
}

/// What a frame keeps for its caller.
#[derive(Drop)]
pub struct Left {
    pub return_slot: u16,
    pub kept: Kept,
}

impl Clone for CallFrame {
    ghost is_clone = { λ a b. b ≡ a };

    fn clone(&self) -> Result<CallFrame, AllocError> {
        let stack = self.stack.clone()?;
        let kept = self.kept.clone()?;
        Ok(CallFrame {
            return_slot: self.return_slot,
            kept,
            stack,
        })
    }
}

impl CallFrame {
    /// A frame with an unset stack.
    pub fn new(alloc: Global, return_slot: u16, kept: Kept) -> CallFrame
        ensures is { result
            ≡ record { return_slot = return_slot; kept = kept; stack = empty_stack } }
    {
        CallFrame {
            return_slot,
            kept,
            stack: Stack::unset(alloc),
        }
    }

    /// A part that isn't included in the other's.
    fn first_outside(&self, other: &CallFrame, rooms: &Rooms, others: &Rooms) -> Option<Part>
        ensures none { IfNone result
            (frame_included rooms.now others.now self.now other.now ≡ true) }
        ensures some { IfSome result
            (λ part. part_outside rooms.now others.now self.now other.now part ≡ true) }
    {
        if self.return_slot != other.return_slot {
            return Some(Part::Return);
        }
        if let Some(number) = self.kept.first_outside(&other.kept, rooms, others) {
            return Some(Part::Kept(number as u8));
        }
        match self.stack.first_outside(&other.stack, rooms, others) {
            Some(index) => Some(Part::Slot(index as u8)),
            None => None,
        }
    }

    /// Whether a part isn't included in the other's.
    pub fn lies_outside(&self, other: &CallFrame, part: Part, rooms: &Rooms, others: &Rooms) -> bool
        ensures is { result ≡ part_outside rooms.now others.now self.now other.now part }
    {
        match part {
            Part::Return => self.return_slot != other.return_slot,
            Part::Kept(number) => {
                number < 4
                    && !self
                        .kept
                        .lies_in(&other.kept, number as usize, rooms, others)
            }
            Part::Slot(index) => {
                if index >= 64 {
                    return false;
                }
                let slot = self.stack.get(index as usize);
                !slot.is_included(&other.stack.get(index as usize), rooms, others)
            }
        }
    }

    fn without_label(&self, label: u16) -> Result<CallFrame, AllocError>
        ensures is { IfOk result (λ frame. frame ≡ frame_unlabelled label self.now) }
    {
        let kept = self.kept.without_label(label)?;
        let mut stack = self.stack.clone()?;
        stack.forget(label);
        Ok(CallFrame {
            return_slot: self.return_slot,
            kept,
            stack,
        })
    }
}

/// The call frames of a state.
#[cycle(chain)]
#[derive(Drop)]
pub struct Chain {
    link: Link,
}

#[cycle(chain)]
#[derive(Drop)]
enum Link {
    End,
    More(CallFrame, Rc<Chain>),
}

impl Model for Chain {
    ghost use Rattle.std.specs.Prelude.{List, length};
    ghost use Rattle.bpf_absstate.specs.declared.frames.CallFrame.{CallFrame};

    ghost Value = { List CallFrame };

    ghost use Rattle.bpf_absstate.specs.Linked.{linked};

    ghost view = { λ a. linked a.link };

    ghost size = { length };

    ghost use Rattle.bpf_absstate.specs.Fall.{fall};

    ghost size_decreases = { λ a h. fall a.link };
}

impl Clone for Chain {
    ghost is_clone = { λ a b. b ≡ a };

    fn clone(&self) -> Result<Chain, AllocError> {
        match &self.link {
            Link::End => Ok(Chain { link: Link::End }),
            Link::More(frame, below) => {
                let frame = frame.clone()?;
                let below = below.clone()?;
                Ok(Chain {
                    link: Link::More(frame, below),
                })
            }
        }
    }
}

impl Chain {
    /// The empty chain.
    pub fn empty() -> Chain
        ensures is { result ≡ [] }
    {
        Chain { link: Link::End }
    }

    /// Those frames, and this one as the newest.
    pub fn with_newest(below: Rc<Chain>, frame: CallFrame) -> Chain
        ensures is { result ≡ below.value ++ frame ∷ [] }
    {
        Chain {
            link: Link::More(frame, below),
        }
    }

    /// What the newest frame keeps for its caller, and the frames below it.
    pub fn below(&self) -> Result<Option<(Left, Rc<Chain>)>, AllocError>
        ensures is { IfOk result (Popped self.now) }
    {
        match &self.link {
            Link::End => Ok(None),
            Link::More(frame, below) => {
                let below = below.clone()?;
                let kept = frame.kept.clone()?;
                let left = Left {
                    return_slot: frame.return_slot,
                    kept,
                };
                Ok(Some((left, below)))
            }
        }
    }

    #[tactic(auto, using(crate::proofs::Chained::get_before, crate::proofs::Chained::get_last, std::proofs::lemmas::List::length_push))]
    /// Slot `index` of the stack of frame `k`, of `count` frames.
    pub fn slot(&self, count: usize, k: usize, index: usize) -> AbsSlot
        requires whole { count ≡ length self.now }
        requires within { k < count }
        requires inside { index < 64 }
        ensures is { result
            ≡ slice_index_or (slice_index_or self.now k main_frame).stack index Unset }
    {
        match &self.link {
            Link::End => AbsSlot::Unset,
            Link::More(frame, below) => {
                if k + 1 == count {
                    return frame.stack.get(index);
                }
                below.slot(count - 1, k, index)
            }
        }
    }

    #[tactic(auto, using(crate::proofs::Chained::set_before, crate::proofs::Chained::set_last, crate::proofs::Chained::get_before, crate::proofs::Chained::get_last, std::proofs::lemmas::List::length_push))]
    /// Sets a slot of the stack of frame `k`, of `count` frames. If allocation fails, the frames are unchanged.
    pub fn set_slot(
        &mut self,
        count: usize,
        k: usize,
        index: usize,
        slot: AbsSlot,
    ) -> Result<(), AllocError>
        requires whole { count ≡ length self.old }
        requires within { k < count }
        requires inside { index < 64 }
        ensures ok { OnOk result (self.new ≡ with_frame_slot self.old k index slot) }
        ensures err { OnErr result (self.new ≡ self.old) }
        // The slot is well formed.
        ensures whole { IsSlot slot }
    {
        match &mut self.link {
            Link::End => {
                return Ok(());
            }
            Link::More(frame, below) => {
                if k + 1 == count {
                    frame.stack.set(index, slot)?;
                    return Ok(());
                }
                let below = Rc::make_mut(below)?;
                below.set_slot(count - 1, k, index, slot)?;
                return Ok(());
            }
        }
    }

    #[tactic(auto, using(crate::proofs::Chained::map_more))]
    /// The chain without a label.
    pub fn without_label(&self, alloc: Global, label: u16) -> Result<Chain, AllocError>
        ensures is { IfOk result (λ chain. chain ≡ map (frame_unlabelled label) self.now) }
    {
        match &self.link {
            Link::End => Ok(Chain::empty()),
            Link::More(frame, below) => {
                let rest = below.without_label(alloc, label)?;
                let below = Rc::new(alloc, rest)?;
                let frame = frame.without_label(label)?;
                Ok(Chain::with_newest(below, frame))
            }
        }
    }

    /// Frame `k`, of `count` frames.
    #[tactic(auto, using(crate::proofs::Chained::get_before, crate::proofs::Chained::get_last, std::proofs::lemmas::List::length_push))]
    pub fn frame(&self, count: usize, k: usize) -> &CallFrame
        requires whole { count ≡ length self.now }
        requires within { k < count }
        ensures is { result.now ≡ slice_index_or self.now k main_frame }
    {
        match &self.link {
            Link::End => unreachable!(),
            Link::More(frame, below) => {
                if k + 1 == count {
                    return frame;
                }
                below.frame(count - 1, k)
            }
        }
    }

    /// A place at which this chain isn't included in the other; both have `count` frames. `None` if there is none.
    #[tactic(auto, using(crate::proofs::Chained::included_more, crate::proofs::Chained::none_included, crate::proofs::Chained::not_in_none, crate::proofs::Chained::get_before, crate::proofs::Chained::get_last, std::proofs::lemmas::List::length_push), unfolding(crate::specs::Inclusion::frames_included))]
    pub fn first_outside(
        &self,
        other: &Chain,
        count: u8,
        rooms: &Rooms,
        others: &Rooms,
    ) -> Option<Place>
        requires whole { count ≡ length self.now }
        requires same { count ≡ length other.now }
        ensures none { IfNone result
            (frames_included rooms.now others.now self.now other.now ≡ true) }
        ensures some { IfSome result
            (IsPlaceOutside rooms.now others.now self.now other.now) }
    {
        match &self.link {
            Link::End => None,
            Link::More(frame, below) => match &other.link {
                Link::End => None,
                Link::More(other_frame, other_below) => {
                    if let Some(part) = frame.first_outside(other_frame, rooms, others) {
                        return Some(Place {
                            frame: count - 1,
                            part,
                        });
                    }
                    return below.first_outside(other_below, count - 1, rooms, others);
                }
            },
        }
    }
}
