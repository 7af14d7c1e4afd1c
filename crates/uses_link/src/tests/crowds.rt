//! Many stations, until a shard has no room or no identifier for more.

use super::{ASSOCIATION, AUTHENTICATION, from, handled};
use crate::same::{counts, same};
use ap_core::{Event, Out};
use std::alloc::Global;
use std::process::Abort;

/// Stations that send these frames, one station after the other. Their addresses end in an octet from 0 up to the first
/// number, and one of as many last octets as the second number says, from the third on in steps of the fourth.
type Comers = (u8, u8, (u8, u8), &'static [&'static str]);

/// As many answers as the first number says: the fields at bytes 26 and 28 of the first, the second of which grows by
/// the last number from one to the next.
type Answers = (usize, (u16, u16), u16);

/// What comes, the first byte of the answers that count, and these.
type Crowd = (&'static str, &'static [Comers], u8, &'static [Answers]);

static CROWDS: &[Crowd] = &[
    (
        "a shard knows 512 stations",
        &[(17, 32, (2, 8), &[AUTHENTICATION])],
        0xb0,
        &[(512, (2, 0), 0), (32, (2, 17), 0)],
    ),
    (
        "a shard has 250 identifiers",
        &[(8, 32, (0, 8), &[AUTHENTICATION, ASSOCIATION])],
        0x10,
        &[(250, (0, 0xc008), 8), (6, (17, 0), 0)],
    ),
    // The station that ends in 9 leaves, and another takes its identifier. Shard 0 has no identifier 0.
    (
        "identifiers are given by shard and back",
        &[
            (1, 16, (0, 1), &[AUTHENTICATION, ASSOCIATION]),
            (1, 1, (9, 1), &[AUTHENTICATION]),
            (1, 1, (17, 1), &[AUTHENTICATION, ASSOCIATION]),
        ],
        0x10,
        &[
            (1, (0, 0xc008), 0),
            (7, (0, 0xc001), 1),
            (1, (0, 0xc010), 0),
            (7, (0, 0xc009), 1),
            (1, (0, 0xc009), 0),
        ],
    ),
];

/// A station sends these frames.
fn sends(
    rt: &impl Abort,
    alloc: Global,
    events: &mut Vec<Event>,
    octets: (u8, u8),
    frames: &[&str],
) {
    for digits in frames {
        let event = from(rt, alloc, digits, octets.0, octets.1);
        events.push(event).expect(rt, "memory");
    }
}

/// Those of the stations whose addresses have this fifth octet.
fn row(rt: &impl Abort, alloc: Global, events: &mut Vec<Event>, fifth: u8, comers: &Comers) {
    let (_, count, (first, step), frames) = comers;
    let mut last = *first;
    for _station in 0..*count {
        sends(rt, alloc, events, (fifth, last), frames);
        last = last.wrapping_add(*step);
    }
}

/// These stations come.
fn come(rt: &impl Abort, alloc: Global, events: &mut Vec<Event>, comers: &Comers) {
    for fifth in 0..comers.0 {
        row(rt, alloc, events, fifth, comers);
    }
}

/// A byte, 0 if there is none.
fn byte(bytes: &[u8], at: usize) -> u8 {
    bytes.get(at).copied().unwrap_or(0)
}

/// The fields of the only frame that is sent, if it begins with this byte.
fn answer(outs: &[Out], first: u8) -> Option<(u16, u16)> {
    let [Out::Send(sent)] = outs else {
        return None;
    };
    let bytes = sent.bytes();
    let one = u16::from_le_bytes([byte(bytes, 26), byte(bytes, 27)]);
    let other = u16::from_le_bytes([byte(bytes, 28), byte(bytes, 29)]);
    if byte(bytes, 0) == first {
        Some((one, other))
    } else {
        None
    }
}

/// The same of all results.
fn answers(
    rt: &impl Abort,
    alloc: Global,
    results: &[Option<Vec<Out>>],
    first: u8,
) -> Vec<(u16, u16)> {
    let mut answers = Vec::new(alloc);
    for result in results {
        let outs = result.as_ref().expect(rt, "an event that is handled");
        if let Some(found) = answer(outs, first) {
            answers.push(found).expect(rt, "memory");
        }
    }
    answers
}

/// Exactly these answers come.
fn are_answers(rt: &impl Abort, found: &[(u16, u16)], wanted: &Answers, what: &str) {
    let (count, (first, start), step) = wanted;
    counts(rt, found.len(), *count, what);
    let mut second = *start;
    for fields in found {
        same(rt, *fields, (*first, second), what);
        second = second.wrapping_add(*step);
    }
}

/// Exactly these come, one after the other.
fn are_all(rt: &impl Abort, found: &[(u16, u16)], wanted: &[Answers], what: &str) {
    let mut rest = found;
    for answers in wanted {
        let (these, later) = rest.split_at_checked(answers.0).expect(rt, what);
        are_answers(rt, these, answers, what);
        rest = later;
    }
    counts(rt, rest.len(), 0, what);
}

/// The answers to a crowd at a new access point.
fn is_answered(rt: &impl Abort, alloc: Global, crowd: &Crowd) {
    let (what, all, first, wanted) = crowd;
    let mut events = Vec::new(alloc);
    for comers in *all {
        come(rt, alloc, &mut events, comers);
    }
    let results = handled(rt, alloc, &[], &events);
    drop(events);
    let found = answers(rt, alloc, &results, *first);
    drop(results);
    are_all(rt, &found, wanted, what);
    drop(found);
}

#[test]
fn crowds_are_answered(rt: HostRuntime) {
    for crowd in CROWDS {
        is_answered(&rt, rt.alloc(), crowd);
    }
}
