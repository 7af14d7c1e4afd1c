//! Values, and the memory regions that pointers point into.

ghost use Rattle.std.specs.Prelude.{◌≡◌};
ghost use Rattle.bpf_regions.specs.declared.memory.Value.TheVariants.{Unset};

/// A memory region that a pointer may point into.
#[derive(Clone, Copy, Debug, PartialEq, Eq)]
pub enum Region {
    /// The received frame, read-only.
    Frame,
    /// The hook's context of 32 bytes, read-only.
    Context,
    /// The 512 bytes of a live stack frame; the main function's is number 0.
    Stack(u8),
    /// The map entry at an index.
    Entry { map: u32, index: u32 },
}

/// What a register or a spilled stack slot holds.
#[derive(Clone, Copy, Debug, PartialEq, Eq)]
pub enum Value {
    Unset,
    Number(u64),
    /// An offset from the start of a region, mod 2^64.
    Pointer { region: Region, offset: u64 },
    /// The end of the received frame.
    FrameEnd,
    /// A reference to the map of that number.
    MapReference(u32),
}

impl Default for Value {
    ghost is_default = { λ v. v ≡ Unset };

    fn default() -> Self {
        Value::Unset
    }
}
