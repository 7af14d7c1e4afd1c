//! Abstract values and slots: inclusion, and the bytes known to follow a label.

use crate::tests::abstract_values::Slot::{Bytes, Stored};
use crate::tests::abstract_values::Val::{
    AnyNumber, Anywhere, Behind, FrameEnd, Lookup, MapReference, One, Pointer,
};
use crate::tests::abstract_values::{Slot, Val, slot_of, value};
use crate::tests::same::same;
use bpf_absval::{AbsRegion, AbsSlot, AbsVal, Room, Rooms};
use std::alloc::Global;
use std::process::Abort;

/// What is done to rooms, or found in them.
enum Step {
    Raise(u16, u16),
    Forget(u16),
    Find(u16, Option<u16>),
}

use Step::{Find, Forget, Raise};

fn are_taken(rt: &impl Abort, rooms: &mut Rooms, steps: &[Step]) {
    for step in steps {
        match step {
            Raise(label, size) => rooms.raise(*label, *size).expect(rt, "memory"),
            Forget(label) => rooms.forget(*label).expect(rt, "memory"),
            Find(label, size) => same(rt, (*label, rooms.find(*label)), (*label, *size), "find"),
        }
    }
}

/// These are all the rooms.
fn are_listed(rt: &impl Abort, rooms: Rooms, wanted: &[Room], what: &str) {
    let list = rooms.to_vec().expect(rt, "memory");
    drop(rooms);
    same(rt, list.as_slice(), wanted, what);
    drop(list);
}

static RAISED: &[Step] = &[
    Find(8, None),
    Raise(8, 3),
    Raise(12, 0),
    Raise(8, 1),
    Find(8, Some(3)),
    Raise(8, 40),
    Find(8, Some(40)),
    Find(12, Some(0)),
];

const LOW: Room = Room { label: 8, size: 40 };

const HIGH: Room = Room { label: 12, size: 0 };

#[test]
fn rooms_rise_and_are_forgotten(rt: HostRuntime) {
    let mut rooms = Rooms::new(rt.alloc());
    are_taken(&rt, &mut rooms, RAISED);
    let copy = rooms.clone().expect(&rt, "memory");
    are_taken(&rt, &mut rooms, &[Forget(8), Find(8, None)]);
    are_listed(&rt, rooms, &[HIGH], "rooms");
    are_listed(&rt, copy, &[LOW, HIGH], "copy");
}

/// Rooms in which so many bytes are known to follow label 8, if any.
fn room_of_8(rt: &impl Abort, alloc: Global, size: Option<u16>) -> Rooms {
    let mut rooms = Rooms::new(alloc);
    if let Some(size) = size {
        rooms.raise(8, size).expect(rt, "memory");
    }
    rooms
}

/// A value, the bytes known to follow label 8 in its state, another value, those in its state, and whether the first
/// is included in the other.
type Row = (Val, Option<u16>, Val, Option<u16>, bool);

fn is_included(rt: &impl Abort, alloc: Global, row: &Row) {
    let (val, size, other, others_size, wanted) = row;
    let rooms = room_of_8(rt, alloc, *size);
    let others = room_of_8(rt, alloc, *others_size);
    let (one, other) = (value(val), value(other));
    let found = one.is_included(&other, &rooms, &others);
    drop(rooms);
    drop(others);
    same(
        rt,
        (one, other, found),
        (one, other, *wanted),
        "is included",
    );
}

const HERE: Val = Behind(8, 1);

/// A needed label has its distance and its room.
static LABELS: &[Row] = &[
    (HERE, Some(3), HERE, Some(3), true),
    (HERE, Some(4), HERE, Some(3), true),
    (HERE, Some(3), HERE, Some(4), false),
    (HERE, None, HERE, None, true),
    (HERE, Some(3), HERE, None, true),
    (HERE, None, HERE, Some(0), false),
    (HERE, Some(3), Behind(8, 2), Some(3), false),
    (HERE, Some(3), Behind(9, 1), Some(3), false),
    (HERE, None, Anywhere, Some(3), true),
    (Anywhere, Some(3), HERE, Some(3), false),
    (One(7), None, AnyNumber, None, true),
    (AnyNumber, None, One(7), None, false),
];

/// Of these each is included in itself alone, and in what may be unset.
static KINDS: &[Val] = &[
    One(7),
    Anywhere,
    Pointer(AbsRegion::Context, 8),
    Pointer(AbsRegion::Stack(0), 8),
    Pointer(AbsRegion::Stack(1), 8),
    Pointer(AbsRegion::Stack(1), 16),
    Pointer(AbsRegion::Entry(0), 8),
    Pointer(AbsRegion::Entry(1), 8),
    FrameEnd,
    MapReference(0),
    MapReference(1),
    Lookup(0),
    Lookup(1),
];

/// Of these kinds the value includes itself alone.
fn is_of_its_kind(rt: &impl Abort, none: &Rooms, one: AbsVal, kinds: &[Val]) {
    let unset = AbsVal::Unset;
    let found = (
        one.is_included(&unset, none, none),
        unset.is_included(&one, none, none),
    );
    same(rt, (one, found), (one, (true, false)), "is included");
    for kind in kinds {
        let other = value(kind);
        let found = one.is_included(&other, none, none);
        same(
            rt,
            (one, other, found),
            (one, other, one == other),
            "is included",
        );
    }
}

/// Slots, and whether the first is included in the other. A slot with a number has all bytes set.
static SLOTS: &[(Slot, Slot, bool)] = &[
    (Stored(One(7)), Slot::Unset, true),
    (Stored(One(7)), Bytes(0), true),
    (Bytes(0xff), Slot::Unset, true),
    (Bytes(0xff), Bytes(0), true),
    (Bytes(0x0f), Slot::Unset, true),
    (Bytes(0x0f), Bytes(0), true),
    (Stored(FrameEnd), Slot::Unset, true),
    (Stored(FrameEnd), Bytes(0), true),
    (Slot::Unset, Slot::Unset, true),
    (Slot::Unset, Bytes(0), true),
    (Stored(One(7)), Stored(AnyNumber), true),
    (Stored(One(7)), Bytes(0xff), true),
    (Bytes(0xff), Stored(AnyNumber), false),
    (Bytes(0xff), Bytes(0x0f), true),
    (Bytes(0x0f), Bytes(0xff), false),
    (Stored(FrameEnd), Bytes(1), false),
    (Slot::Unset, Bytes(0x80), false),
    (Slot::Unset, Stored(Val::Unset), false),
];

fn slot_is_included(rt: &impl Abort, none: &Rooms, row: &(Slot, Slot, bool)) {
    let (slot, other, wanted) = row;
    let (slot, other) = (slot_of(slot), slot_of(other));
    let found = slot.is_included(&other, none, none);
    same(
        rt,
        (slot, other, found),
        (slot, other, *wanted),
        "is included",
    );
}

#[test]
fn what_is_known_is_included_in_what_may_be_more(rt: HostRuntime) {
    for row in LABELS {
        is_included(&rt, rt.alloc(), row);
    }
    let none = Rooms::new(rt.alloc());
    let kinds = KINDS;
    for kind in kinds {
        is_of_its_kind(&rt, &none, value(kind), kinds);
    }
    for row in SLOTS {
        slot_is_included(&rt, &none, row);
    }
    drop(none);
}

/// A value, whether it has label 8, and what it is without that label, and without any.
const LABELLED: &[(Val, bool, Val, Val)] = &[
    (Behind(8, 1), true, Anywhere, Anywhere),
    (Behind(9, 1), false, Behind(9, 1), Anywhere),
    (Anywhere, false, Anywhere, Anywhere),
    (One(8), false, One(8), One(8)),
];

fn forgets(rt: &impl Abort, row: &(Val, bool, Val, Val)) {
    let (val, had, left, bare) = row;
    let one = value(val);
    same(rt, one.has_label(8), *had, "has label");
    let found = [one.without_label(8), one.bare()];
    same(rt, found, [value(left), value(bare)], "without label, bare");
    let slot = AbsSlot::Stored(value(val));
    same(rt, slot.has_label(8), *had, "slot has label");
    let found = [slot.without_label(8), slot.bare()];
    let wanted = [AbsSlot::Stored(value(left)), AbsSlot::Stored(value(bare))];
    same(rt, found, wanted, "slot without label, bare");
}

#[test]
fn one_label_is_forgotten(rt: HostRuntime) {
    for row in LABELLED {
        forgets(&rt, row);
    }
    let bytes = AbsSlot::Bytes(8);
    let found = (bytes.has_label(8), bytes.without_label(8));
    same(&rt, found, (false, bytes), "has label, without label");
}
