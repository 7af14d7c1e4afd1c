//! Abstract values and slots, as in tables.

use bpf_absnum::AbsNum;
use bpf_absval::{AbsRegion, AbsSlot, AbsVal, Label};

/// An abstract value.
pub enum Val {
    Unset,
    /// That number alone.
    One(u64),
    AnyNumber,
    /// The frame's start.
    FrameStart,
    /// A frame pointer somewhere.
    Anywhere,
    /// A frame pointer somewhere: a label, and how many bytes after the label's position.
    Behind(u16, u16),
    FrameEnd,
    /// A region, and an offset into it.
    Pointer(AbsRegion, u64),
    MapReference(u32),
    Lookup(u32),
}

/// A slot of a stack.
pub enum Slot {
    Unset,
    Bytes(u8),
    Stored(Val),
}

/// The abstract value of a table.
pub fn value(val: &Val) -> AbsVal {
    match val {
        Val::Unset => AbsVal::Unset,
        Val::One(number) => AbsVal::Number(AbsNum::single(*number)),
        Val::AnyNumber => AbsVal::Number(AbsNum::full()),
        Val::FrameStart => AbsVal::Frame {
            offset: AbsNum::single(0),
            label: None,
        },
        Val::Anywhere => AbsVal::Frame {
            offset: AbsNum::full(),
            label: None,
        },
        Val::Behind(label, distance) => AbsVal::Frame {
            offset: AbsNum::full(),
            label: Some(Label {
                label: *label,
                distance: *distance,
            }),
        },
        Val::FrameEnd => AbsVal::FrameEnd,
        Val::Pointer(region, offset) => AbsVal::Pointer {
            region: *region,
            offset: AbsNum::single(*offset),
        },
        Val::MapReference(map) => AbsVal::MapReference(*map),
        Val::Lookup(map) => AbsVal::Lookup(*map),
    }
}

/// The slot of a table.
pub fn slot_of(slot: &Slot) -> AbsSlot {
    match slot {
        Slot::Unset => AbsSlot::Unset,
        Slot::Bytes(set) => AbsSlot::Bytes(*set),
        Slot::Stored(val) => AbsSlot::Stored(value(val)),
    }
}
