//! The machine of RFC 9669 with its regions: states, steps, faults, runs and safety, in `specs/`.
//!
//! These definitions are trusted: `next` in `specs/Step.antt` says what each instruction does, and
//! `Safe` in `specs/Run.antt` what a verified program is. They mention no intervals, visits or
//! tags. The crate depends on `bpf_insn`, `bpf_words` and `bpf_regions`; its code is three types,
//! `StackFrame`, `Caller` and `Place`. `laws::within_law`: code that is safe state by state within
//! a budget is `Safe` within it.
#![tactic(auto)]

ghost use Rattle.std.specs.Prelude.{◌≡◌};
ghost use Rattle.bpf_regions.specs.declared.memory.Value.TheVariants.{Unset};
ghost use Rattle.bpf_model.specs.State.{empty_frame};

pub mod laws;

use bpf_regions::Value;

/// A stack frame. A slot of eight bytes that holds a spilled value has no set byte.
#[derive(Clone, Copy)]
pub struct StackFrame {
    pub bytes: [Option<u8>; 512],
    pub spills: [Value; 64],
}

impl Default for StackFrame {
    fn default() -> Self
        ensures is { result ≡ empty_frame }
    {
        StackFrame {
            bytes: [None; 512],
            spills: [Value::Unset; 64],
        }
    }
}

/// What a local call saves: the return slot, and R6 to R10.
#[derive(Clone, Copy)]
pub struct Caller {
    pub slot: usize,
    pub r6: Value,
    pub r7: Value,
    pub r8: Value,
    pub r9: Value,
    pub r10: Value,
}

impl Default for Caller {
    fn default() -> Self
        ensures is { result
            ≡ record { slot = 0; r6 = Unset; r7 = Unset; r8 = Unset; r9 = Unset; r10 = Unset } }
    {
        Caller {
            slot: 0,
            r6: Value::Unset,
            r7: Value::Unset,
            r8: Value::Unset,
            r9: Value::Unset,
            r10: Value::Unset,
        }
    }
}

/// The location of an access within its region.
#[derive(Clone, Copy)]
pub enum Place {
    Frame(usize),
    Context(usize),
    Stack { frame: usize, at: usize },
    Word { map: u32, word: u32 },
}
