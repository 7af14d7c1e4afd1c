//! Why an instruction isn't admitted.

ghost use Rattle.std.specs.Prelude.{◌≡◌};
ghost use Rattle.bpf_rules.specs.Faults.{number_of};

use std::alloc::AllocError;

/// Why an instruction isn't admitted.
#[derive(Clone, Copy, Debug, PartialEq, Eq)]
pub enum Fault {
    /// 30: an unset register or stack byte is read.
    Unset,
    /// 31: an operand is of the wrong kind.
    WrongOperand,
    /// 32: an access may leave its region.
    OutsideRegion,
    /// 33: the alignment or the width of an access is wrong.
    Misaligned,
    /// 34: a pointer wasn't tested for null.
    NotTested,
    /// 35: a ninth call frame.
    TooManyFrames,
    /// 36: more than 2^22 visits.
    TooManyVisits,
    /// 37: a stack pointer is stored in another frame.
    StackPointerStored,
    /// 38: R0 isn't a number at EXIT.
    NoResult,
    /// 40: an allocation failed, which says nothing of the program.
    NoMemory,
}

impl Fault {
    /// Its number, 30 to 38, or 40.
    pub fn number(self) -> u8
        ensures is { result ≡ number_of self }
    {
        match self {
            Fault::Unset => 30,
            Fault::WrongOperand => 31,
            Fault::OutsideRegion => 32,
            Fault::Misaligned => 33,
            Fault::NotTested => 34,
            Fault::TooManyFrames => 35,
            Fault::TooManyVisits => 36,
            Fault::StackPointerStored => 37,
            Fault::NoResult => 38,
            Fault::NoMemory => 40,
        }
    }
}

impl From<AllocError> for Fault {
    ghost use Rattle.std.specs.Prelude.{◌≡◌};
    ghost use Rattle.bpf_rules.specs.declared.fault.Fault.TheVariants.{NoMemory};

    ghost from_gives = { λ _ e. e ≡ NoMemory };

    fn from(_error: AllocError) -> Fault {
        Fault::NoMemory
    }
}
