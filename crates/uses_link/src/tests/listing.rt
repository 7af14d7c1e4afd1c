//! What the shard of `02000000000a` lists: the stations that it knows, and their agreements.

use super::Line::{Frame, From, Qos};
use super::{ASSOCIATION, AUTHENTICATION, Line, SETUP, events, shards};
use crate::same::{counts, holds, same};
use ap_core::{AgreementInForce, Event, Known, KnownStation, ListJudge, handle_all};
use mac_frame::{Address, SequenceNumber, Tid};
use std::alloc::Global;
use std::process::Abort;

/// For TID 5, with timeout 10.
const FOR_TID_5: &str = "d0000000 P S P 4000 0300 07 1602 0a00 4006";

const LEAVES: &str = "c0000000 P S P 5000 0300";

/// Events at a new access point, and what is listed after them.
struct Listing {
    what: &'static str,
    answers: &'static [u64],
    events: &'static [Line<'static>],
    /// The last two octets of each station, and its standing.
    stations: &'static [(u8, u8, Known)],
    /// Agreements of `02000000000a`, of size 8 from number 100 on: the TID, how many numbers are held, and the timeout.
    agreements: &'static [(u8, usize, u16)],
}

static LISTINGS: &[Listing] = &[
    Listing {
        what: "a new shard lists nothing",
        answers: &[],
        events: &[],
        stations: &[],
        agreements: &[],
    },
    Listing {
        what: "stations are listed by address",
        answers: &[],
        events: &[
            From(1, 2, AUTHENTICATION),
            From(1, 2, ASSOCIATION),
            From(0, 18, AUTHENTICATION),
            From(0, 10, AUTHENTICATION),
            From(0, 10, ASSOCIATION),
            From(0, 2, AUTHENTICATION),
            From(0, 2, ASSOCIATION),
            // Another shard's.
            From(0, 3, AUTHENTICATION),
            From(0, 3, ASSOCIATION),
            From(0, 2, LEAVES),
        ],
        stations: &[
            (0, 10, Known::Associated(10)),
            (0, 18, Known::Authenticated),
            (1, 2, Known::Associated(2)),
        ],
        agreements: &[],
    },
    Listing {
        what: "agreements are listed by TID",
        answers: &[0, 8, 8],
        events: &[
            Frame(AUTHENTICATION),
            Frame(ASSOCIATION),
            Frame(FOR_TID_5),
            Frame(SETUP),
            // It waits for number 100.
            Qos(102, "68"),
        ],
        stations: &[(0, 10, Known::Associated(2))],
        agreements: &[(0, 1, 0), (5, 0, 10)],
    },
];

/// What the shard lists after these events at a new access point, if queries have these answers.
fn listed_after(
    rt: &impl Abort,
    alloc: Global,
    answers: &[u64],
    events: &[Event],
) -> (Vec<KnownStation>, Vec<AgreementInForce>) {
    let mut shards = shards(rt, alloc);
    let mut judge = ListJudge::new(answers);
    let results = handle_all(alloc, &mut shards, events, &mut judge);
    let stations = shards[2].known_stations(alloc);
    let agreements = shards[2].agreements(alloc);
    // Freed by a call, since eight shards have many parts.
    drop(shards);
    holds(rt, results.is_ok(), "memory");
    (
        stations.expect(rt, "memory"),
        agreements.expect(rt, "memory"),
    )
}

/// Exactly these stations are listed, in this order.
fn are_stations(rt: &impl Abort, rows: &[KnownStation], wanted: &[(u8, u8, Known)], what: &str) {
    counts(rt, rows.len(), wanted.len(), what);
    for at in 0..rows.len() {
        let (fifth, last, known) = wanted[at];
        let station = Address::new([2, 0, 0, 0, fifth, last]);
        same(rt, rows[at], KnownStation { station, known }, what);
    }
}

/// An agreement of `02000000000a`, of size 8 from number 100 on.
fn agreement(rt: &impl Abort, row: (u8, usize, u16)) -> AgreementInForce {
    let (tid, held, timeout) = row;
    AgreementInForce {
        station: Address::new([2, 0, 0, 0, 0, 10]),
        tid: Tid::new(tid).expect(rt, "a TID"),
        start: SequenceNumber::new(100).expect(rt, "a number"),
        size: 8,
        held,
        timeout,
    }
}

/// Exactly these agreements are listed, in this order.
fn are_agreements(
    rt: &impl Abort,
    rows: &[AgreementInForce],
    wanted: &[(u8, usize, u16)],
    what: &str,
) {
    counts(rt, rows.len(), wanted.len(), what);
    for at in 0..rows.len() {
        same(rt, rows[at], agreement(rt, wanted[at]), what);
    }
}

fn is_listed(rt: &impl Abort, alloc: Global, listing: &Listing) {
    let events = events(rt, alloc, listing.events);
    let (stations, agreements) = listed_after(rt, alloc, listing.answers, &events);
    are_stations(rt, &stations, listing.stations, listing.what);
    are_agreements(rt, &agreements, listing.agreements, listing.what);
}

#[test]
fn shards_list_stations_and_agreements(rt: HostRuntime) {
    for listing in LISTINGS {
        is_listed(&rt, rt.alloc(), listing);
    }
}
