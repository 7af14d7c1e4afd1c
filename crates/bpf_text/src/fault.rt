//! Why a text is refused.

ghost use Rattle.std.specs.Prelude.{◌≡◌, Some};
ghost use Rattle.bpf_text.specs.declared.fault.AsmFault.TheVariants.{NoMemory};
ghost use Rattle.bpf_text.specs.Refusals.{text_of};

use std::alloc::AllocError;
use std::fmt;

/// Why a text is refused. Displayed as `line L fault N`, or `out of memory`.
#[derive(Clone, Copy, Debug, PartialEq, Eq)]
pub enum AsmFault {
    NoMemory,
    /// The first faulty line, counted from 1, and its fault: 20 if it isn't in the grammar, else 21 if a number is out
    /// of range, else 22 because the code would exceed 16384 slots.
    Line { line: u64, number: u8 },
}

impl From<AllocError> for AsmFault {
    ghost from_gives = { λ _ fault. fault ≡ NoMemory };

    fn from(_: AllocError) -> AsmFault {
        AsmFault::NoMemory
    }
}

impl fmt::Display for AsmFault {
    ghost output = { λ fault. Some (text_of fault) };

    fn fmt<W: fmt::Write>(&self, f: &mut fmt::Formatter<W>) -> fmt::Result {
        match self {
            AsmFault::NoMemory => f.write_str("out of memory"),
            AsmFault::Line { line, number } => write!(f, "line {line} fault {number}"),
        }
    }
}
