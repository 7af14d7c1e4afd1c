//! A state as contracts see it: plain lists. In memory, copies share what none of them has written.

ghost use Rattle.std.specs.Prelude.{◌≡◌, ◌<◌, ◌≤◌, length, slice_index_or, OnOk, OnErr, IfOk, IfSome, IfNone, OnSome, true, false, not};
ghost use Rattle.bpf_absval.specs.Rooms.{find_room};
ghost use Rattle.bpf_absval.specs.declared.slot.AbsSlot.TheVariants.{Unset};
ghost use Rattle.bpf_absstate.specs.Difference.{stand_together, lies_outside};
ghost use Rattle.bpf_absstate.specs.Inclusion.{state_included};
ghost use Rattle.bpf_absstate.specs.View.{entry_view, register, stack_of, at_slot, with_register, with_slot, with_least, with_room, without_label, without_arguments, called, returned};
ghost use Rattle.bpf_absstate.specs.WellFormed.{IsView};

use crate::frames::{CallFrame, Chain, Place};
use crate::registers::{Kept, Registers};
use bpf_absval::{AbsSlot, AbsVal, Rooms};
use bpf_insn::Reg;
use std::alloc::{AllocError, Global};
use std::marker::Model;
use std::rc::Rc;

/// A set of states of a run, all at one slot and with the same call chain.
#[derive(Drop)]
pub struct AbsState {
    pc: usize,
    registers: Registers,
    frames: Rc<Chain>,
    rooms: Rc<Rooms>,
    least: u16,
    depth: usize,
}

/// Why one state isn't included in another.
#[derive(Clone, Copy)]
pub enum Difference {
    /// They are at two slots, have two depths, or less of the received frame is known.
    Apart,
    /// A register.
    Register(u8),
    /// A part of a call frame.
    Frame(Place),
}

impl Model for AbsState {
    ghost use Rattle.bpf_absstate.specs.View.{View};
    ghost use Rattle.bpf_absstate.specs.WellFormed.{IsState};

    ghost Value = { View };

    ghost view = { λ a. record {
      pc = a.pc;
      registers = a.registers;
      frames = a.frames.value;
      least = a.least;
      rooms = a.rooms.value;
    } };

    ghost invariant = { λ a. IsState a.depth (record {
      pc = a.pc;
      registers = a.registers;
      frames = a.frames.value;
      least = a.least;
      rooms = a.rooms.value;
    }) };
}

impl Clone for AbsState {
    ghost is_clone = { λ a b. b ≡ a };

    fn clone(&self) -> Result<AbsState, AllocError> {
        let registers = self.registers.clone()?;
        let frames = self.frames.clone()?;
        let rooms = self.rooms.clone()?;
        Ok(AbsState {
            pc: self.pc,
            registers,
            frames,
            rooms,
            least: self.least,
            depth: self.depth,
        })
    }
}

impl AbsState {
    /// The state at the start of a run.
    #[tactic(auto, using(crate::proofs::Whole::whole_entry))]
    pub fn entry(alloc: Global) -> Result<AbsState, AllocError>
        ensures is { IfOk result (λ state. state ≡ entry_view) }
    {
        let none = Rc::new(alloc, Chain::empty())?;
        let main = CallFrame::new(alloc, 0, Kept::none(alloc)?);
        let frames = Rc::new(alloc, Chain::with_newest(none, main))?;
        let registers = Registers::entry(alloc)?;
        let rooms = Rc::new(alloc, Rooms::new(alloc))?;
        Ok(AbsState {
            pc: 0,
            registers,
            frames,
            rooms,
            least: 0,
            depth: 1,
        })
    }

    /// The state is well formed.
    pub fn whole(&self)
        ensures is { IsView self.now }
    {
        let _ = &self.registers;
    }

    /// The slot of the next instruction.
    pub fn pc(&self) -> usize
        ensures is { result ≡ self.now.pc }
    {
        self.pc
    }

    /// Goes to a slot.
    pub fn go_to(&mut self, pc: usize)
        ensures is { self.new ≡ at_slot self.old pc }
    {
        self.pc = pc;
    }

    /// How many call frames there are, 1 to 8.
    pub fn depth(&self) -> usize
        ensures is { result ≡ length self.now.frames }
        ensures some { 1 ≤ result }
        ensures few { result ≤ 8 }
    {
        self.depth
    }

    /// What a register may hold.
    #[tactic(auto, using(crate::proofs::Whole::same_within))]
    pub fn register(&self, number: Reg) -> AbsVal
        ensures is { result ≡ register self.now number }
    {
        self.registers.get(number.number() as usize)
    }

    /// Sets a register. If allocation fails, the state is unchanged.
    #[tactic(auto, using(crate::proofs::Whole::whole_register))]
    pub fn set_register(&mut self, number: Reg, value: AbsVal) -> Result<(), AllocError>
        ensures ok { OnOk result (self.new ≡ with_register self.old number value) }
        ensures err { OnErr result (self.new ≡ self.old) }
    {
        self.registers.set(number.number() as usize, value)?;
        Ok(())
    }

    /// The known least length of the received frame.
    pub fn least(&self) -> u16
        ensures is { result ≡ self.now.least }
    {
        self.least
    }

    /// Records that the received frame has at least `least` bytes.
    pub fn raise_least(&mut self, least: u16)
        ensures is { self.new ≡ with_least self.old least }
    {
        self.least = self.least.max(least);
    }

    /// How many bytes are known to follow the label's position.
    pub fn room(&self, label: u16) -> Option<u16>
        ensures is { result ≡ find_room self.now.rooms label }
    {
        self.rooms.find(label)
    }

    /// Records that at least `size` bytes follow the label's position. If allocation fails, the state is unchanged.
    pub fn raise_room(&mut self, label: u16, size: u16) -> Result<(), AllocError>
        ensures ok { OnOk result (self.new ≡ with_room self.old label size) }
        ensures err { OnErr result (self.new ≡ self.old) }
    {
        let rooms = Rc::make_mut(&mut self.rooms)?;
        rooms.raise(label, size)?;
        Ok(())
    }

    /// Slot `index` of the stack of call frame `k`; the main function's is number 0.
    pub fn slot(&self, k: usize, index: usize) -> AbsSlot
        requires lives { k < length self.now.frames }
        requires inside { index < 64 }
        ensures is { result ≡ slice_index_or (stack_of self.now k) index Unset }
    {
        self.frames.slot(self.depth, k, index)
    }

    /// Sets a slot of the stack of call frame `k`. If allocation fails, the state is unchanged.
    #[tactic(auto, using(crate::proofs::Whole::whole_slot))]
    pub fn set_slot(&mut self, k: usize, index: usize, slot: AbsSlot) -> Result<(), AllocError>
        requires lives { k < length self.old.frames }
        requires inside { index < 64 }
        ensures ok { OnOk result (self.new ≡ with_slot self.old k index slot) }
        ensures err { OnErr result (self.new ≡ self.old) }
    {
        let frames = Rc::make_mut(&mut self.frames)?;
        frames.set_slot(self.depth, k, index, slot)?;
        Ok(())
    }

    /// Unsets R1 to R5, as a call does. If allocation fails, the state is unchanged.
    pub fn clear_arguments(&mut self) -> Result<(), AllocError>
        ensures ok { OnOk result
            (self.new ≡ record self.old { registers = without_arguments self.old.registers }) }
        ensures err { OnErr result (self.new ≡ self.old) }
    {
        let registers = self.registers.without_arguments()?;
        self.registers = registers;
        Ok(())
    }

    /// Calls the function at slot `to`, which returns to `back`. If allocation fails, the state is unchanged.
    pub fn call(&mut self, alloc: Global, to: usize, back: u16) -> Result<(), AllocError>
        requires few { length self.old.frames < 8 }
        ensures ok { OnOk result (self.new ≡ called self.old to back) }
        ensures err { OnErr result (self.new ≡ self.old) }
    {
        let kept = self.registers.kept()?;
        let frame = CallFrame::new(alloc, back, kept);
        let below = self.frames.clone()?;
        let frames = Rc::new(alloc, Chain::with_newest(below, frame))?;
        let registers = self.registers.called(self.depth as u8)?;
        self.registers = registers;
        self.frames = frames;
        self.depth += 1;
        self.pc = to;
        Ok(())
    }

    /// The newest function returns to its caller. If allocation fails, the state is unchanged.
    pub fn return_to_caller(&mut self) -> Result<(), AllocError>
        requires called { 1 < length self.old.frames }
        ensures ok { OnOk result (self.new ≡ returned self.old) }
        ensures err { OnErr result (self.new ≡ self.old) }
    {
        match self.frames.below()? {
            None => unreachable!(),
            Some((left, below)) => {
                let registers = self.registers.returned(&left.kept, self.depth as u8 - 2)?;
                self.registers = registers;
                self.frames = below;
                self.depth -= 1;
                self.pc = left.return_slot as usize;
                Ok(())
            }
        }
    }

    /// Removes a label from every value, and its room. If allocation fails, the state is unchanged.
    pub fn forget_label(&mut self, alloc: Global, label: u16) -> Result<(), AllocError>
        ensures ok { OnOk result (self.new ≡ without_label self.old label) }
        ensures err { OnErr result (self.new ≡ self.old) }
    {
        let chain = self.frames.without_label(alloc, label)?;
        let frames = Rc::new(alloc, chain)?;
        let mut rooms = self.rooms.clone()?;
        let left = Rc::make_mut(&mut rooms)?;
        left.forget(label)?;
        let registers = self.registers.without_label(label)?;
        self.registers = registers;
        self.frames = frames;
        self.rooms = rooms;
        Ok(())
    }

    /// Whether the states are at two slots, have two depths, or less of the received frame is known here.
    fn stands_apart(&self, other: &AbsState) -> bool
        ensures is { result ≡ not (stand_together self.now other.now) }
    {
        self.pc != other.pc || self.least < other.least || self.depth != other.depth
    }

    /// Why this state isn't included in the other; `None` if it is.
    pub fn difference(&self, other: &AbsState) -> Option<Difference>
        ensures none { IfNone result (state_included self.now other.now ≡ true) }
        ensures some { IfSome result
            (λ difference. lies_outside self.now other.now difference ≡ true) }
        ensures outside { OnSome result (state_included self.now other.now ≡ false) }
    {
        if self.stands_apart(other) {
            return Some(Difference::Apart);
        }
        let rooms = &self.rooms;
        let others = &other.rooms;
        if let Some(number) = self
            .registers
            .first_outside(&other.registers, rooms, others)
        {
            return Some(Difference::Register(number as u8));
        }
        let depth = self.depth as u8;
        match self
            .frames
            .first_outside(&other.frames, depth, rooms, others)
        {
            Some(place) => Some(Difference::Frame(place)),
            None => None,
        }
    }

    /// Whether this state isn't included in the other because of `difference`, which implies that it isn't included at
    /// all. It compares nothing else.
    pub fn differs_at(&self, other: &AbsState, difference: Difference) -> bool
        ensures is { result ≡ lies_outside self.now other.now difference }
        ensures outside { result ≡ true → state_included self.now other.now ≡ false }
    {
        let rooms = &self.rooms;
        let others = &other.rooms;
        match difference {
            Difference::Apart => self.stands_apart(other),
            Difference::Register(number) => {
                let number = number as usize;
                number < 11
                    && !self
                        .registers
                        .lies_in(&other.registers, number, rooms, others)
            }
            Difference::Frame(place) => {
                let k = place.frame as usize;
                if k >= self.depth || k >= other.depth {
                    return false;
                }
                let frame = self.frames.frame(self.depth, k);
                frame.lies_outside(
                    other.frames.frame(other.depth, k),
                    place.part,
                    rooms,
                    others,
                )
            }
        }
    }

    /// Whether this state is included in the other: both are at one slot with the same call chain, each value is
    /// included in the other's, and the known least length isn't below the other's.
    pub fn is_included(&self, other: &AbsState) -> bool
        ensures is { result ≡ state_included self.now other.now }
    {
        self.difference(other).is_none()
    }
}
