//! Stations that come and go.

ghost use Rattle.std.specs.Prelude.{◌≤◌};

use crate::same::{counts, holds, same};
use assoc::{
    Class, ClassAnswer, Known, KnownStation, Link, aid_of, class_check, class_of, state_of,
};
use mac_frame::{Address, Subtype};
use std::alloc::Global;
use std::process::Abort;

/// The station with this number.
fn station(number: u16) -> Address {
    let [low, high] = number.to_le_bytes();
    Address::new([2, 0, 0, 0, high, low])
}

/// Associates the station, if an identifier is free.
fn associated(link: &mut Link, station: Address) -> Option<u16> {
    if link.standing(station).is_none() {
        if link.is_full() || link.on_auth(station).is_err() {
            return None;
        }
    }
    if link.standing(station).is_none() {
        return None;
    }
    let aid = link.free_aid(station)?;
    link.on_assoc(station, aid);
    Some(aid)
}

/// Authenticates the station, if there is room.
fn authenticate(rt: &impl Abort, link: &mut Link, station: Address) {
    if link.standing(station).is_some() || !link.is_full() {
        holds(rt, link.on_auth(station).is_ok(), "is ok");
    }
}

/// A step of a story: what a station does, by its number, or what is read then.
#[derive(Clone, Copy)]
enum Step {
    /// It authenticates.
    Authenticates(u16),
    /// It associates, after an authentication if it is unknown: its identifier.
    Associates(u16, Option<u16>),
    Disassociates(u16),
    Deauthenticates(u16),
    Stands(u16, Option<Known>),
    /// How many stations are associated.
    Associated(u16),
    /// The known stations, in their order.
    Lists(&'static [(u16, Known)]),
}

use Step::{Associated, Associates, Authenticates, Deauthenticates, Disassociates, Lists, Stands};

/// The number of a shard without stations, and what comes.
type Story = (&'static str, u16, &'static [Step]);

static STORIES: &[Story] = &[
    (
        "a second authentication gives the identifier back",
        2,
        &[
            Stands(10, None),
            Associates(10, Some(2)),
            Stands(10, Some(Known::Associated(2))),
            Associated(1),
            Authenticates(10),
            Stands(10, Some(Known::Authenticated)),
            Associated(0),
            Associates(18, Some(2)),
            Associates(10, Some(10)),
        ],
    ),
    (
        "departures free the identifier",
        7,
        &[
            Associates(7, Some(7)),
            Associates(7, Some(7)),
            Disassociates(7),
            Stands(7, Some(Known::Authenticated)),
            Deauthenticates(7),
            Stands(7, None),
            Associates(15, Some(7)),
        ],
    ),
    (
        "known stations are listed by address",
        2,
        &[
            Lists(&[]),
            Authenticates(0x0312),
            Authenticates(0x001a),
            Associates(0x0202, Some(2)),
            Associates(0x000a, Some(10)),
            Lists(&[
                (0x000a, Known::Associated(10)),
                (0x001a, Known::Authenticated),
                (0x0202, Known::Associated(2)),
                (0x0312, Known::Authenticated),
            ]),
            // A station that is known already is listed once.
            Authenticates(0x001a),
            Lists(&[
                (0x000a, Known::Associated(10)),
                (0x001a, Known::Authenticated),
                (0x0202, Known::Associated(2)),
                (0x0312, Known::Authenticated),
            ]),
            Deauthenticates(0x0202),
            Disassociates(0x000a),
            Lists(&[
                (0x000a, Known::Authenticated),
                (0x001a, Known::Authenticated),
                (0x0312, Known::Authenticated),
            ]),
        ],
    ),
];

/// Fails unless these rows are exactly these stations, in this order.
fn are_rows(rt: &impl Abort, rows: &[KnownStation], wanted: &[(u16, Known)]) {
    counts(rt, rows.len(), wanted.len(), "rows");
    for at in 0..rows.len() {
        let (number, known) = wanted[at];
        let station = station(number);
        same(rt, rows[at], KnownStation { station, known }, "row");
    }
}

/// Fails unless exactly these stations are listed, in this order.
fn lists(rt: &impl Abort, alloc: Global, link: &Link, wanted: &[(u16, Known)]) {
    let rows = link.known_stations(alloc).expect(rt, "memory");
    are_rows(rt, &rows, wanted);
    drop(rows);
}

/// Follows a step, and fails unless it leads to what it says.
fn follow(rt: &impl Abort, alloc: Global, link: &mut Link, step: Step, what: &str) {
    match step {
        Authenticates(number) => return authenticate(rt, link, station(number)),
        Associates(number, aid) => {
            let found = associated(link, station(number));
            return same(rt, (number, found), (number, aid), what);
        }
        Disassociates(number) => return link.on_disassoc(station(number)),
        Deauthenticates(number) => return link.on_deauth(station(number)),
        Stands(number, known) => {
            let found = link.standing(station(number));
            return same(rt, (number, found), (number, known), what);
        }
        Associated(count) => return same(rt, link.associated(), count, what),
        Lists(wanted) => return lists(rt, alloc, link, wanted),
    }
}

/// Tells a story from its beginning.
fn goes(rt: &impl Abort, alloc: Global, story: &Story) {
    let (what, shard, steps) = story;
    let mut link = Link::new(alloc, *shard % 8);
    same(rt, link.shard(), *shard, what);
    for step in *steps {
        follow(rt, alloc, &mut link, *step, what);
    }
}

#[test]
fn stations_come_and_go(rt: HostRuntime) {
    for story in STORIES {
        goes(&rt, rt.alloc(), story);
    }
}

/// A shard has identifiers for this many of 512 stations, the first of which gets this one; and then it is full.
fn fills(rt: &impl Abort, link: &mut Link, identifiers: u16, first: u16)
    requires { first ≤ 8 }
{
    for number in 0..512u16 {
        holds(rt, !link.is_full(), "is full");
        let found = associated(link, station(number));
        let wanted = if number < identifiers {
            Some(8 * number + first)
        } else {
            None
        };
        same(rt, (number, found), (number, wanted), "identifier");
    }
    same(
        rt,
        (link.is_full(), link.associated()),
        (true, identifiers),
        "is full",
    );
}

#[test]
fn shards_have_512_stations_and_250_or_251_identifiers(rt: HostRuntime) {
    let mut link = Link::new(rt.alloc(), 0);
    fills(&rt, &mut link, 250, 8);
    same(&rt, link.free_aid(station(3)), Some(32), "its own");
    let mut other = Link::new(rt.alloc(), 1);
    fills(&rt, &mut other, 251, 1);
}

/// Fails unless these are the stations from 0 on.
fn are_numbered(rt: &impl Abort, rows: &[KnownStation]) {
    counts(rt, rows.len(), 512, "rows");
    for number in 0..512u16 {
        same(
            rt,
            rows[usize::from(number)].station,
            station(number),
            "station",
        );
    }
}

#[test]
fn a_full_list_has_512_rows(rt: HostRuntime) {
    let mut link = Link::new(rt.alloc(), 1);
    for number in 0..512u16 {
        // From the greatest address down.
        authenticate(&rt, &mut link, station(511 - number));
    }
    let rows = link.known_stations(rt.alloc()).expect(&rt, "memory");
    drop(link);
    are_numbered(&rt, &rows);
}

/// A standing, a class, and the frame that answers frames of this class with its reason, if they aren't permitted.
type Row = (Option<Known>, Class, Option<(Subtype, u16)>);

static CLASSES: &[Row] = &[
    (None, Class::One, None),
    (None, Class::Two, Some((Subtype::Deauthentication, 6))),
    (None, Class::Three, Some((Subtype::Deauthentication, 7))),
    (Some(Known::Authenticated), Class::Two, None),
    (
        Some(Known::Authenticated),
        Class::Three,
        Some((Subtype::Disassociation, 7)),
    ),
    (Some(Known::Associated(9)), Class::Three, None),
];

/// The frame that answers, and its reason.
fn answer(standing: Option<Known>, class: Class) -> Option<(Subtype, u16)> {
    match class_check(standing, class) {
        ClassAnswer::Permitted => None,
        ClassAnswer::Deauthenticate(why) => Some((Subtype::Deauthentication, why.code())),
        ClassAnswer::Disassociate(why) => Some((Subtype::Disassociation, why.code())),
    }
}

#[test]
fn classes_are_checked_by_state(rt: HostRuntime) {
    let associated = Some(Known::Associated(9));
    same(
        &rt,
        (state_of(associated), aid_of(associated)),
        (3, 9),
        "state",
    );
    let classes = (
        class_of(Subtype::AssociationRequest),
        class_of(Subtype::QosNull),
    );
    same(&rt, classes, (Class::Two, Class::Three), "classes");
    for (standing, class, wanted) in CLASSES {
        let found = (*standing, *class, answer(*standing, *class));
        same(&rt, found, (*standing, *class, *wanted), "answer");
    }
}
