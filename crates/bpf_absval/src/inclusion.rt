//! Inclusion of values: a value contains each value of a run that a value included in it contains.

ghost use Rattle.std.specs.Prelude.{◌≡◌};
ghost use Rattle.bpf_absval.specs.Inclusion.{region_same, room_included, label_included, value_included, bytes_set, slot_included};

use crate::room::Rooms;
use crate::slot::AbsSlot;
use crate::value::{AbsRegion, AbsVal, Label};

fn is_same(region: AbsRegion, other: AbsRegion) -> bool
    ensures { result ≡ region_same region other }
{
    match region {
        AbsRegion::Context => matches!(other, AbsRegion::Context),
        AbsRegion::Stack(i) => match other {
            AbsRegion::Stack(j) => i == j,
            _ => false,
        },
        AbsRegion::Entry(i) => match other {
            AbsRegion::Entry(j) => i == j,
            _ => false,
        },
    }
}

fn has_room(known: Option<u16>, needed: Option<u16>) -> bool
    ensures { result ≡ room_included known needed }
{
    match needed {
        None => true,
        Some(needed) => match known {
            None => false,
            Some(known) => needed <= known,
        },
    }
}

fn keeps_label(rooms: &Rooms, others: &Rooms, known: Option<Label>, needed: Option<Label>) -> bool
    ensures { result ≡ label_included rooms.now others.now known needed }
{
    match needed {
        None => true,
        Some(l) => match known {
            None => false,
            Some(k) => {
                k.label == l.label
                    && k.distance == l.distance
                    && has_room(rooms.find(l.label), others.find(l.label))
            }
        },
    }
}

impl AbsVal {
    /// Whether `self`, in a state with `rooms`, is included in `other`, in a state with `others`.
    pub fn is_included(&self, other: &AbsVal, rooms: &Rooms, others: &Rooms) -> bool
        ensures { result ≡ value_included rooms.now others.now self.now other.now }
    {
        match other {
            AbsVal::Unset => true,
            AbsVal::Number(b) => match self {
                AbsVal::Number(a) => a.is_included(*b),
                _ => false,
            },
            AbsVal::Frame {
                offset: b,
                label: needed,
            } => match self {
                AbsVal::Frame {
                    offset: a,
                    label: known,
                } => a.is_included(*b) && keeps_label(rooms, others, *known, *needed),
                _ => false,
            },
            AbsVal::Pointer {
                region: to,
                offset: b,
            } => match self {
                AbsVal::Pointer { region, offset: a } => is_same(*region, *to) && a.is_included(*b),
                _ => false,
            },
            AbsVal::FrameEnd => matches!(self, AbsVal::FrameEnd),
            AbsVal::MapReference(n) => match self {
                AbsVal::MapReference(m) => *m == *n,
                _ => false,
            },
            AbsVal::Lookup(n) => match self {
                AbsVal::Lookup(m) => *m == *n,
                _ => false,
            },
        }
    }
}

impl AbsSlot {
    /// The bytes known to be set: byte i is bit i.
    pub fn set_bytes(&self) -> u8
        ensures { result ≡ bytes_set self.now }
    {
        match self {
            AbsSlot::Unset => 0,
            AbsSlot::Stored(AbsVal::Number(_)) => 0xff,
            AbsSlot::Stored(_) => 0,
            AbsSlot::Bytes(mask) => *mask,
        }
    }

    /// Whether `self`, in a state with `rooms`, is included in `other`, in a state with `others`.
    pub fn is_included(&self, other: &AbsSlot, rooms: &Rooms, others: &Rooms) -> bool
        ensures { result ≡ slot_included rooms.now others.now self.now other.now }
    {
        match other {
            AbsSlot::Unset => true,
            AbsSlot::Stored(b) => match self {
                AbsSlot::Stored(a) => a.is_included(b, rooms, others),
                _ => false,
            },
            AbsSlot::Bytes(needed) => self.set_bytes() & *needed == *needed,
        }
    }
}
