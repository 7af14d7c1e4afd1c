//! How many loads each hook had.

ghost use Rattle.std.specs.Prelude.{◌≡◌};
ghost use Rattle.versions.specs.Numbers.{next_at, no_numbers, number_at};

use bpf_regions::Hook;

/// For each hook, how many loads were for it, removals too, mod 2^64. It numbers the hook's last load.
#[derive(Clone, Copy, PartialEq, Eq)]
pub struct LoadNumbers {
    pub association: u64,
    pub addba: u64,
    pub frames: u64,
}

impl LoadNumbers {
    /// No hook had a load.
    pub fn none() -> LoadNumbers
        ensures none { result ≡ no_numbers }
    {
        LoadNumbers {
            association: 0,
            addba: 0,
            frames: 0,
        }
    }

    /// A hook's number.
    pub fn at(&self, hook: Hook) -> u64
        ensures is { result ≡ number_at hook self.now }
    {
        match hook {
            Hook::Association => self.association,
            Hook::Addba => self.addba,
            Hook::Data => self.frames,
        }
    }

    /// The numbers after one more load for this hook.
    pub fn next(self, hook: Hook) -> LoadNumbers
        ensures next { result ≡ next_at hook self }
    {
        let mut numbers = self;
        match hook {
            Hook::Association => numbers.association = self.association.wrapping_add(1),
            Hook::Addba => numbers.addba = self.addba.wrapping_add(1),
            Hook::Data => numbers.frames = self.frames.wrapping_add(1),
        }
        numbers
    }
}
