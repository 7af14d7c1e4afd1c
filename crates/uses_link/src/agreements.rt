//! Agreements of stations whose addresses end in octets 1 to 3, for TIDs 0 and 5.

use crate::same::{counts, same};
use ap_agreements::{AgreementInForce, Agreements, Entry, Released};
use ap_model::{Held, Octets};
use mac_types::{Address, SequenceNumber, Tid};
use std::alloc::{AllocError, Global};
use std::process::Abort;

fn station(last: u8) -> Address {
    Address::new([2, 0, 0, 0, 0, last])
}

fn tid(rt: &impl Abort, number: u8) -> Tid {
    Tid::new(number).expect(rt, "a TID")
}

fn number(rt: &impl Abort, number: u16) -> SequenceNumber {
    SequenceNumber::new(number).expect(rt, "a number")
}

/// An agreement's station, by its last octet, and its TID.
type Key = (u8, u8);

/// A row of a list: an agreement's key, start, held numbers and timeout. Each has size 8.
type Row = (Key, u16, usize, u16);

/// A step of a story: what is done, or what is read then.
#[derive(Clone, Copy)]
enum Step {
    /// An agreement from number 100 on with this timeout is opened at time 3: whether it replaces one of its key.
    Opens(Key, u16, bool),
    /// Whether there is such an agreement.
    Kept(Key, bool),
    /// One is removed: the start of its window.
    Removes(Key, Option<u16>),
    /// All agreements of a station are discarded.
    Discards(u8),
    /// How many have timed out at this time, and what they hold.
    Late(u64, usize, usize),
    /// How many numbers one holds.
    Holds(Key, usize),
    /// Those that have timed out at this time are ended, in this order.
    Ends(u64, &'static [Key]),
    /// Data with this number comes, and is taken.
    Takes(Key, u16),
    /// The agreements in force, in their order.
    Lists(&'static [Row]),
}

use Step::{Discards, Ends, Holds, Kept, Late, Lists, Opens, Removes, Takes};

static STORIES: &[(&str, &[Step])] = &[
    (
        "agreements are kept by station and TID",
        &[
            Opens((2, 5), 0, false),
            Opens((1, 0), 0, false),
            Opens((2, 0), 0, false),
            Opens((3, 5), 0, false),
            Kept((2, 0), true),
            Kept((1, 5), false),
            Opens((2, 5), 7, true),
            Removes((1, 0), Some(100)),
            Removes((1, 0), None),
            Discards(2),
            Kept((2, 0), false),
            Kept((2, 5), false),
            Kept((3, 5), true),
        ],
    ),
    (
        "late agreements end in order",
        &[
            Opens((3, 0), 10, false),
            Opens((2, 5), 10, false),
            Opens((2, 0), 11, false),
            Opens((1, 0), 0, false),
            Late(12, 0, 0),
            Late(13, 2, 0),
            Holds((3, 0), 0),
            Ends(13, &[(2, 5), (3, 0)]),
            Kept((2, 0), true),
            Kept((3, 0), false),
            Late(u64::MAX, 1, 0),
        ],
    ),
    (
        "agreements in force are listed by key",
        &[
            Lists(&[]),
            Opens((2, 5), 7, false),
            Opens((1, 0), 0, false),
            Opens((2, 0), 10, false),
            Opens((3, 5), 65535, false),
            Lists(&[
                ((1, 0), 100, 0, 0),
                ((2, 0), 100, 0, 10),
                ((2, 5), 100, 0, 7),
                ((3, 5), 100, 0, 65535),
            ]),
            // One number waits for the window's first one, which comes then.
            Takes((2, 0), 101),
            Lists(&[
                ((1, 0), 100, 0, 0),
                ((2, 0), 100, 1, 10),
                ((2, 5), 100, 0, 7),
                ((3, 5), 100, 0, 65535),
            ]),
            Takes((2, 0), 100),
            Discards(1),
            Lists(&[
                ((2, 0), 102, 0, 10),
                ((2, 5), 100, 0, 7),
                ((3, 5), 100, 0, 65535),
            ]),
        ],
    ),
];

/// The station and the TID.
fn key_of(entry: &Entry) -> (Address, Tid) {
    (entry.station(), entry.tid())
}

/// Opens an agreement of size 8 from this number on at time 3: the key of the one that it replaces.
fn opens(
    alloc: Global,
    agreements: &mut Agreements,
    key: (Address, Tid),
    start: SequenceNumber,
    timeout: u16,
) -> Result<Option<(Address, Tid)>, AllocError> {
    agreements.reserve()?;
    let entry = Entry::new(alloc, key.0, key.1)?;
    let old = agreements.put(entry.opened(start, 8, timeout, 3));
    let replaced = old.as_ref().map(key_of);
    drop(old);
    Ok(replaced)
}

/// Whether an agreement was replaced is as it should be, and it had its key.
fn is_replaced(rt: &impl Abort, found: Option<(Address, Tid)>, wanted: (Key, bool), what: &str) {
    let ((last, of), replaces) = wanted;
    let key = if replaces {
        Some((station(last), tid(rt, of)))
    } else {
        None
    };
    same(rt, found, key, what);
}

/// Removes an agreement: the start of its window.
fn removed(agreements: &mut Agreements, station: Address, tid: Tid) -> Option<u16> {
    let entry = agreements.remove(station, tid);
    let start = entry.as_ref().map(Entry::start);
    drop(entry);
    start.map(SequenceNumber::number)
}

/// Exactly these agreements have timed out, and are ended in this order.
fn ends(rt: &impl Abort, alloc: Global, agreements: &mut Agreements, clock: u64, wanted: &[Key]) {
    let count = agreements.late(clock);
    let mut ended = Vec::with_capacity(alloc, count).expect(rt, "memory");
    agreements.take_late(clock, &mut ended);
    counts(rt, ended.len(), wanted.len(), "ended");
    for at in 0..wanted.len() {
        let (last, of) = wanted[at];
        let key = (station(last), tid(rt, of));
        same(rt, key_of(&ended[at]), key, "ended");
    }
    drop(ended);
}

/// A data frame to the station that ends in 9, with mark 5.
fn held(rt: &impl Abort, alloc: Global) -> Held {
    let body = Octets::copy(alloc, b"c").expect(rt, "memory");
    Held::new(station(9), 5, body)
}

/// Data with this number comes, and is taken.
fn takes(rt: &impl Abort, alloc: Global, agreements: &mut Agreements, key: Key, of: u16) {
    let frame = held(rt, alloc);
    let wanted = number(rt, of);
    let placed = agreements.get_placed(station(key.0), tid(rt, key.1));
    let (at, entry) = placed.expect(rt, "an agreement");
    assert!(rt; entry.wants(wanted));
    assert!(rt; entry.held() < 64);
    let mut out = Released::new();
    agreements.pass_to(at, wanted, Some(frame), 4, &mut out);
    drop(out);
}

/// Fails unless these rows are exactly these agreements, in this order.
fn are_rows(rt: &impl Abort, rows: &[AgreementInForce], wanted: &[Row]) {
    counts(rt, rows.len(), wanted.len(), "rows");
    for at in 0..rows.len() {
        let (key, start, held, timeout) = wanted[at];
        let row = AgreementInForce {
            station: station(key.0),
            tid: tid(rt, key.1),
            start: number(rt, start),
            size: 8,
            held,
            timeout,
        };
        same(rt, rows[at], row, "row");
    }
}

/// Fails unless exactly these agreements are listed, in this order.
fn lists(rt: &impl Abort, alloc: Global, agreements: &Agreements, wanted: &[Row]) {
    let rows = agreements.in_force(alloc).expect(rt, "memory");
    are_rows(rt, &rows, wanted);
    drop(rows);
}

/// Follows a step, and fails unless it leads to what it says.
fn follow(rt: &impl Abort, alloc: Global, agreements: &mut Agreements, step: Step, what: &str) {
    match step {
        Opens(key, timeout, replaces) => {
            let of = (station(key.0), tid(rt, key.1));
            let found = opens(alloc, agreements, of, number(rt, 100), timeout);
            return is_replaced(rt, found.expect(rt, "memory"), (key, replaces), what);
        }
        Kept(key, kept) => {
            let found = agreements.get(station(key.0), tid(rt, key.1)).is_some();
            return same(rt, (key, found), (key, kept), what);
        }
        Removes(key, start) => {
            let found = removed(agreements, station(key.0), tid(rt, key.1));
            return same(rt, (key, found), (key, start), what);
        }
        Discards(last) => return agreements.discard(station(last)),
        Late(clock, count, numbers) => {
            let found = (clock, agreements.late(clock), agreements.late_held(clock));
            return same(rt, found, (clock, count, numbers), what);
        }
        Holds(key, count) => {
            let found = agreements.held(station(key.0), tid(rt, key.1));
            return same(rt, (key, found), (key, count), what);
        }
        Ends(clock, keys) => return ends(rt, alloc, agreements, clock, keys),
        Takes(key, of) => return takes(rt, alloc, agreements, key, of),
        Lists(rows) => return lists(rt, alloc, agreements, rows),
    }
}

/// Tells a story from its beginning.
fn goes(rt: &impl Abort, alloc: Global, what: &str, steps: &[Step]) {
    let mut agreements = Agreements::new(alloc);
    for step in steps {
        follow(rt, alloc, &mut agreements, *step, what);
    }
}

#[test]
fn agreements_come_and_go(rt: HostRuntime) {
    for (what, steps) in STORIES {
        goes(&rt, rt.alloc(), what, steps);
    }
}

/// The number is wanted, and comes: nothing is released.
fn take_in(rt: &impl Abort, alloc: Global, entry: &mut Entry, of: SequenceNumber) {
    assert!(rt; entry.wants(of));
    assert!(rt; entry.held() < 64);
    let mut out = Released::new();
    entry.pass_to(of, Some(held(rt, alloc)), 4, &mut out);
    counts(rt, out.len(), 0, "handed up");
    drop(out);
}

/// A request with this start comes: nothing is released, and the scoreboard has these bits from there on.
fn request(rt: &impl Abort, entry: &mut Entry, start: SequenceNumber, bits: u64) {
    let mut out = Released::new();
    entry.request(start, 6, &mut out);
    counts(rt, out.len(), 0, "handed up");
    drop(out);
    same(
        rt,
        (entry.start(), entry.scoreboard()),
        (start, (start, bits)),
        "request",
    );
}

/// The only released frame is that data with number 102.
fn is_released(rt: &impl Abort, frame: Held) {
    let up = frame.up(station(1), tid(rt, 0), number(rt, 102));
    let up = up.expect(rt, "a frame");
    let found = (up.mark, up.destination);
    same(rt, found, (5, station(9)), "released");
    same(rt, up.body.bytes(), b"c".as_slice(), "bytes");
    drop(up);
}

/// The agreement ends: number 102 is released.
fn close(rt: &impl Abort, entry: Entry) {
    let mut out = Released::new();
    entry.close(&mut out);
    counts(rt, out.len(), 1, "handed up");
    let (first, frame) = out.remove(0);
    drop(out);
    same(rt, first, 102, "first");
    is_released(rt, frame);
}

#[test]
fn windows_hand_up_in_order(rt: HostRuntime) {
    let alloc = rt.alloc();
    let entry = Entry::new(alloc, station(1), tid(&rt, 0)).expect(&rt, "memory");
    let mut entry = entry.opened(number(&rt, 100), 8, 0, 3);
    let third = number(&rt, 102);
    same(&rt, entry.most_passed(third), 0, "most passed");
    take_in(&rt, alloc, &mut entry, third);
    let found = (entry.held(), entry.most_passed(number(&rt, 100)));
    same(&rt, found, (1, 2), "held, most passed");
    assert!(rt; !entry.wants(third));
    entry.leave(third, 5);
    request(&rt, &mut entry, number(&rt, 101), 2);
    close(&rt, entry);
}
