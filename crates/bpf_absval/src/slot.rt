//! What eight bytes of a stack frame may hold.

ghost use Rattle.std.specs.Prelude.{◌≡◌};
ghost use Rattle.bpf_absval.specs.Unlabelled.{slot_unlabelled, slot_has_label, slot_bare};

use crate::value::AbsVal;

/// What eight bytes of a stack frame may hold.
#[derive(Clone, Copy, Debug, PartialEq, Eq)]
pub enum AbsSlot {
    /// Anything, even unset.
    Unset,
    /// A value stored whole.
    Stored(AbsVal),
    /// Byte i is set if bit i is 1.
    Bytes(u8),
}

impl AbsSlot {
    /// Whether a frame pointer with that label is stored.
    pub fn has_label(&self, label: u16) -> bool
        ensures { result ≡ slot_has_label label self.now }
    {
        match self {
            AbsSlot::Stored(value) => value.has_label(label),
            _ => false,
        }
    }

    /// The slot without the label, otherwise unchanged.
    pub fn without_label(self, label: u16) -> AbsSlot
        ensures { result ≡ slot_unlabelled label self }
    {
        match self {
            AbsSlot::Stored(value) => AbsSlot::Stored(value.without_label(label)),
            other => other,
        }
    }

    /// The slot without a label, whichever it has.
    pub fn bare(self) -> AbsSlot
        ensures { result ≡ slot_bare self }
    {
        match self {
            AbsSlot::Stored(value) => AbsSlot::Stored(value.bare()),
            other => other,
        }
    }
}
