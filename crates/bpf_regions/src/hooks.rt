//! The points at which the access point runs a program.

ghost use Rattle.std.specs.Prelude.{◌≡◌, Some};
ghost use Rattle.bpf_regions.specs.Hooks.{number_of, name_of};

use std::fmt;

/// A hook point.
#[derive(Clone, Copy, Debug, PartialEq, Eq)]
pub enum Hook {
    /// Judges an association or reassociation request.
    Association,
    /// Admits a block acknowledgement agreement.
    Addba,
    /// Marks or drops a data frame.
    Data,
}

impl Hook {
    /// The hook's number in a context: 1, 2 or 3.
    pub fn number(self) -> u8
        ensures is { result ≡ number_of self }
    {
        match self {
            Hook::Association => 1,
            Hook::Addba => 2,
            Hook::Data => 3,
        }
    }
}

impl fmt::Display for Hook {
    ghost output = { λ hook. Some (name_of hook) };

    fn fmt<W: fmt::Write>(&self, f: &mut fmt::Formatter<W>) -> fmt::Result {
        f.write_str(match self {
            Hook::Association => "assoc",
            Hook::Addba => "addba",
            Hook::Data => "data",
        })
    }
}
