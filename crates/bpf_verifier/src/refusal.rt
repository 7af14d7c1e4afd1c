//! Why a program isn't admitted, and where.

ghost use Rattle.std.specs.Prelude.{◌≡◌};
ghost use Rattle.bpf_rules.specs.Faults.{number_of};
ghost use Rattle.bpf_rules.specs.declared.fault.Fault.TheVariants.{TooManyVisits};

use bpf_rules::Fault;
use std::alloc::AllocError;
use std::fmt;

/// The fault met first, and its slot. At each conditional jump the fall-through is explored before the jump.
#[derive(Clone, Copy, Debug, PartialEq, Eq)]
pub struct Refusal {
    pub fault: Fault,
    pub pc: usize,
}

impl Refusal {
    /// The fault's number, 30 to 38, or 40.
    pub fn number(self) -> u8
        ensures is { result ≡ number_of self.fault }
    {
        self.fault.number()
    }

    /// A limit is reached at this slot, and more is needed: 36.
    pub(crate) fn past_limits(pc: usize) -> Refusal
        ensures is { result ≡ record { fault = TooManyVisits; pc = pc } }
    {
        Refusal {
            fault: Fault::TooManyVisits,
            pc,
        }
    }
}

impl From<AllocError> for Refusal {
    ghost use Rattle.std.specs.Prelude.{◌≡◌};
    ghost use Rattle.bpf_rules.specs.declared.fault.Fault.TheVariants.{NoMemory};

    ghost from_gives = { λ _ r. r ≡ record { fault = NoMemory; pc = 0 } };

    /// An allocation failed before the first instruction was examined.
    fn from(_error: AllocError) -> Refusal {
        Refusal {
            fault: Fault::NoMemory,
            pc: 0,
        }
    }
}

impl fmt::Display for Refusal {
    ghost use Rattle.std.specs.Prelude.{Some};
    ghost use Rattle.bpf_verifier.specs.Refusals.{refusal_text};

    ghost output = { λ r. Some (refusal_text r) };

    fn fmt<W: fmt::Write>(&self, f: &mut fmt::Formatter<W>) -> fmt::Result {
        write!(f, "refused {} at {}", self.number(), self.pc)
    }
}
