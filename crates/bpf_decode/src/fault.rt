//! Why bytes aren't well-formed code.

ghost use Rattle.std.specs.Prelude.{◌≡◌, Some};
ghost use Rattle.bpf_decode.specs.declared.fault.DecodeFault.TheVariants.{NoMemory};
ghost use Rattle.bpf_insn.specs.Faults.{number_of};
ghost use Rattle.bpf_decode.specs.Answer.{slot_number, fault_number, fault_slot};

use bpf_insn::fault::FieldFault;
use std::alloc::{AllocError, AllocFailed};
use std::fmt;

/// A fault of the instruction at a slot.
#[derive(Clone, Copy, Debug, PartialEq, Eq)]
pub enum SlotFault {
    /// 10 to 14: the slots spell no instruction.
    Field(FieldFault),
    /// 15: a jump, branch or local call leads outside the code, or into a second half.
    JumpAstray,
    /// 16: the last instruction is neither an exit nor an unconditional jump.
    PastEnd,
    /// 17: the instruction writes R10, the frame pointer.
    FrameWritten,
    /// 18: the helper isn't one of 1 to 5.
    UnknownHelper,
    /// 19: the map doesn't exist, or its entries are no longer than the offset.
    UnknownMap,
}

impl SlotFault {
    /// Its number, 10 to 19.
    pub fn number(self) -> u8
        ensures is { result ≡ slot_number self }
    {
        match self {
            SlotFault::Field(fault) => field_number(fault),
            SlotFault::JumpAstray => 15,
            SlotFault::PastEnd => 16,
            SlotFault::FrameWritten => 17,
            SlotFault::UnknownHelper => 18,
            SlotFault::UnknownMap => 19,
        }
    }
}

fn field_number(fault: FieldFault) -> u8
    ensures is { result ≡ number_of fault }
{
    fault as u8
}

/// Why bytes aren't decoded.
#[derive(Clone, Copy, Debug, PartialEq, Eq)]
pub enum DecodeFault {
    /// 40: memory was refused. This says nothing about the bytes.
    NoMemory,
    /// 1: the length is no multiple of 8.
    Length,
    /// 2: there are no bytes.
    Empty,
    /// 3: there are more than 16384 slots.
    Long,
    /// The lowest slot that has a fault, and the fault there with the lowest number.
    At { slot: usize, fault: SlotFault },
}

impl DecodeFault {
    /// Its number: 1 to 3, 10 to 19, or 40 for lack of memory.
    pub fn number(self) -> u8
        ensures is { result ≡ fault_number self }
    {
        match self {
            DecodeFault::NoMemory => 40,
            DecodeFault::Length => 1,
            DecodeFault::Empty => 2,
            DecodeFault::Long => 3,
            DecodeFault::At { fault, .. } => fault.number(),
        }
    }

    /// Its slot; 0 if it is at none.
    pub fn slot(self) -> usize
        ensures is { result ≡ fault_slot self }
    {
        match self {
            DecodeFault::At { slot, .. } => slot,
            _ => 0,
        }
    }
}

impl fmt::Display for DecodeFault {
    ghost use Rattle.bpf_decode.specs.Answer.{fault_text};

    ghost output = { λ e. Some (fault_text e) };

    fn fmt<W: fmt::Write>(&self, f: &mut fmt::Formatter<W>) -> fmt::Result {
        match self {
            DecodeFault::NoMemory => write!(f, "out of memory"),
            _ => write!(f, "fault {} at {}", self.number(), self.slot()),
        }
    }
}

impl From<AllocError> for DecodeFault {
    ghost from_gives = { λ _ e. e ≡ NoMemory };

    fn from(_e: AllocError) -> DecodeFault {
        DecodeFault::NoMemory
    }
}

impl<T: Drop> From<AllocFailed<T>> for DecodeFault {
    ghost from_gives = { λ _ e. e ≡ NoMemory };

    fn from(_e: AllocFailed<T>) -> DecodeFault {
        DecodeFault::NoMemory
    }
}
