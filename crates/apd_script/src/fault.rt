//! Why a text isn't a script.

ghost use Rattle.std.specs.Prelude.{◌≡◌, Some};
ghost use Rattle.apd_script.specs.declared.fault.ScriptFault.TheVariants.{NoMemory};
ghost use Rattle.apd_script.specs.Faults.{text_of};

use std::alloc::AllocError;
use std::fmt;

/// Why a text isn't a script.
#[derive(Clone, Copy, Debug, PartialEq, Eq)]
pub enum ScriptFault {
    /// The number of the first malformed line, counted from 1; displayed as `script line N`.
    Line(u64),
    /// An allocation failed.
    NoMemory,
}

impl From<AllocError> for ScriptFault {
    ghost from_gives = { λ _ fault. fault ≡ NoMemory };

    fn from(_error: AllocError) -> ScriptFault {
        ScriptFault::NoMemory
    }
}

impl fmt::Display for ScriptFault {
    ghost output = { λ fault. Some (text_of fault) };

    fn fmt<W: fmt::Write>(&self, f: &mut fmt::Formatter<W>) -> fmt::Result {
        match self {
            ScriptFault::Line(number) => write!(f, "script line {number}"),
            ScriptFault::NoMemory => f.write_str("out of memory"),
        }
    }
}
