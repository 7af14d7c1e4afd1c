//! Why a line can't be read.

ghost use Rattle.std.specs.Prelude.{◌≡◌};
ghost use Rattle.bpf_line.specs.Faults.{number_of};

/// Why a line can't be read.
#[derive(Clone, Copy, Debug, PartialEq, Eq)]
pub enum LineFault {
    /// 20: the line isn't in the grammar.
    Grammar,
    /// 21: a number is out of range.
    Range,
}

impl LineFault {
    /// 20 or 21.
    pub fn number(self) -> u8
        ensures is { result ≡ number_of self }
    {
        match self {
            LineFault::Grammar => 20,
            LineFault::Range => 21,
        }
    }
}
