//! Which values of a row have lost their label.

ghost use Rattle.std.specs.Prelude.{◌≡◌, ◌<◌, true, false};
ghost use Rattle.bpf_absval.specs.Marked.{is_marked, OthersStay};

/// Marks of a row of at most 64 values.
#[derive(Clone, Copy)]
pub struct Marks {
    /// Bit i is 1 if the value at index i has a mark.
    pub bits: u64,
}

impl Marks {
    /// No marks.
    pub fn none() -> Marks
        ensures { result.bits ≡ 0 }
    {
        Marks { bits: 0 }
    }

    /// Whether the value at `index` has a mark.
    pub fn has(self, index: usize) -> bool
        requires { index < 64 }
        ensures { result ≡ is_marked self.bits index }
    {
        self.bits >> index & 1 == 1
    }

    /// These marks, and one at `index`.
    pub fn with(self, index: usize) -> Marks
        requires { index < 64 }
        ensures here { is_marked result.bits index ≡ true }
        ensures others { OthersStay index self.bits result.bits }
    {
        Marks {
            bits: self.bits | 1 << index,
        }
    }

    /// These marks but the one at `index`.
    pub fn without(self, index: usize) -> Marks
        requires { index < 64 }
        ensures here { is_marked result.bits index ≡ false }
        ensures others { OthersStay index self.bits result.bits }
    {
        Marks {
            bits: self.bits & !(1 << index),
        }
    }
}
