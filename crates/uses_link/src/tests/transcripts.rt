//! Transcripts of a new access point.

use super::Line::{Close, Frame, Kick, Notes, PassesUp, Qos, Request, Sends, Tick};
use super::{
    ASSOCIATED, ASSOCIATION, AUTHENTICATED, AUTHENTICATION, DATA, DEAUTHENTICATED_6,
    DEAUTHENTICATED_7, DECLINED, DISASSOCIATED_7, ENDS_OTHER, ENDS_OWN, JOINS, SET_UP, SETUP,
    Transcript, events, handled, is_told, lines_of,
};
use std::alloc::Global;
use std::process::Abort;

/// Stations authenticate and associate.
static ADMISSIONS: &[Transcript] = &[
    (
        "stations authenticate and associate",
        JOINS,
        &[],
        &[
            // It releases its identifier, and gets it again.
            Frame(AUTHENTICATION),
            Sends(AUTHENTICATED),
            Frame(ASSOCIATION),
            Sends(ASSOCIATED),
            // It keeps one that it holds.
            Frame(ASSOCIATION),
            Sends(ASSOCIATED),
        ],
    ),
    // The shortest request, of 28 bytes, has no elements, and so no rates. The station stays in State 2.
    (
        "a request without elements is refused",
        &[],
        &[],
        &[
            Frame(AUTHENTICATION),
            Sends(AUTHENTICATED),
            Frame("00000000 P S P 2000 0100 0a00"),
            Sends("10000000 S P P 0000 0100 0a00 0000 R"),
            // Data is of class 3, and the station isn't associated.
            Frame(DATA),
            Sends(DISASSOCIATED_7),
            Frame(ASSOCIATION),
            Sends(ASSOCIATED),
        ],
    ),
    (
        "authentications are refused",
        &[],
        &[],
        &[
            // Another algorithm, and another transaction number.
            Frame("b0000000 P S P 1000 0100 0100 0000"),
            Sends("b0000000 S P P 0000 0100 0200 0d00"),
            Frame("b0000000 P S P 1000 0000 0200 0000"),
            Sends("b0000000 S P P 0000 0000 0200 0e00"),
        ],
    ),
    (
        "associations are refused",
        &[],
        &[5, 37, 0],
        &[
            Frame(AUTHENTICATION),
            Sends(AUTHENTICATED),
            // No elements: its 28 bytes end with the listen interval.
            Frame("00000000 P S P 2000 0100 0a00"),
            Sends("10000000 S P P 0000 0100 0a00 0000 R"),
            // No infrastructure network, no rates, another network.
            Frame("00000000 P S P 2000 0000 0a00 N R"),
            Sends("10000000 S P P 0000 0100 0a00 0000 R"),
            Frame("00000000 P S P 2000 0100 0a00 N"),
            Sends("10000000 S P P 0000 0100 0a00 0000 R"),
            Frame("00000000 P S P 2000 0100 0a00 0003 6c6163 R"),
            Sends("10000000 S P P 0000 0100 0c00 0000 R"),
            // Two verdicts that refuse, and one that accepts.
            Frame(ASSOCIATION),
            Sends("10000000 S P P 0000 0100 0100 0000 R"),
            Frame(ASSOCIATION),
            Sends("10000000 S P P 0000 0100 2500 0000 R"),
            Frame("20000000 P S P 2000 0100 0a00 P N R"),
            Sends("30000000 S P P 0000 0100 0000 02c0 R"),
        ],
    ),
];

/// Frames are answered, marked, dropped or noted.
static ANSWERS: &[Transcript] = &[
    (
        "frames are answered by their class",
        &[],
        &[],
        &[
            Frame(DATA),
            Sends(DEAUTHENTICATED_7),
            Frame(ASSOCIATION),
            Sends(DEAUTHENTICATED_6),
            Frame(SETUP),
            Sends(DEAUTHENTICATED_7),
            Request(100),
            Sends(DEAUTHENTICATED_7),
            Frame(AUTHENTICATION),
            Sends(AUTHENTICATED),
            Frame(DATA),
            Sends(DISASSOCIATED_7),
            Frame(ASSOCIATION),
            Sends(ASSOCIATED),
            Frame(DATA),
            PassesUp(None, 3, 0, "68656c6c6f"),
            // It disassociates, and then deauthenticates.
            Frame("a0000000 P S P 5000 0800"),
            Frame(DATA),
            Sends(DISASSOCIATED_7),
            Frame("c0000000 P S P 6000 0300"),
            Frame(DATA),
            Sends(DEAUTHENTICATED_7),
        ],
    ),
    (
        "data is marked or dropped",
        JOINS,
        &[0, 1282, 1280, 1281, 514, 2],
        &[
            Frame(DATA),
            PassesUp(None, 3, 5, "68656c6c6f"),
            Frame(DATA),
            PassesUp(None, 3, 0, "68656c6c6f"),
            Frame(DATA),
            // Without an agreement duplicates are passed up too. A frame without data isn't.
            Qos(7, "61"),
            PassesUp(Some(0), 7, 2, "61"),
            Qos(7, "61"),
            PassesUp(Some(0), 7, 0, "61"),
            Frame("48010000 P S 0200000000ff 3000"),
            Request(7),
        ],
    ),
    (
        "bytes that are no frame for us are noted",
        &[],
        &[],
        &[
            Frame("b0000000 P S P 1000 0000 0100 00"),
            Notes(55),
            Frame("b0000000 P S P 10"),
            Notes(50),
            Frame("b0"),
            Notes(50),
            Frame("b1000000 P S P 1000 0000 0100 0000"),
            Notes(51),
            Frame("b0000000 030000000001 S P 1000 0000 0100 0000"),
            Notes(56),
            Frame("b0000000 P 03000000000a P 1000 0000 0100 0000"),
            Notes(56),
        ],
    ),
];

/// Windows move.
static WINDOWS: &[Transcript] = &[
    (
        "agreements are granted by their verdicts",
        JOINS,
        &[0, 0, 0, 200, 8],
        &[
            // A delayed policy, for which no verdict is requested.
            Frame("d0000000 P S P 4000 0300 07 0002 0000 4006"),
            Sends(DECLINED),
            // Declined, and so no agreement.
            Frame(SETUP),
            Sends(DECLINED),
            Request(100),
            Qos(105, "61"),
            PassesUp(Some(0), 105, 0, "61"),
            // 64 of 64 requested, and 4 of 4.
            Frame("d0000000 P S P 4000 0300 07 0210 0000 4006"),
            Sends("d0000000 S P P 0000 0301 07 0000 0210 0000"),
            Frame("d0000000 P S P 4000 0300 07 0201 0000 4006"),
            Sends("d0000000 S P P 0000 0301 07 0000 0201 0000"),
        ],
    ),
    (
        "numbers go round in a window",
        JOINS,
        &[0, 64],
        &[
            // Size 4, from 4094 on.
            Frame("d0000000 P S P 4000 0300 07 0201 0000 e0ff"),
            Sends("d0000000 S P P 0000 0301 07 0000 0201 0000"),
            Qos(4095, "61"),
            Qos(0, "62"),
            Qos(4094, "63"),
            PassesUp(Some(0), 4094, 0, "63"),
            PassesUp(Some(0), 4095, 0, "61"),
            PassesUp(Some(0), 0, 0, "62"),
            Request(4094),
            Sends("94000000 S P 0400 e0ff 0700000000000000"),
            Qos(1, "64"),
            PassesUp(Some(0), 1, 0, "64"),
        ],
    ),
    (
        "far numbers move a window or are discarded",
        JOINS,
        &[0, 8, 0, 0, 8],
        &[
            // 2148 is too far ahead, and so counts as old; 100 is still awaited.
            Frame(SETUP),
            Sends(SET_UP),
            Qos(2148, "61"),
            Qos(100, "62"),
            PassesUp(Some(0), 100, 0, "62"),
            // 2148 is the last number that moves the window. It is held, and passed up when the agreement is replaced.
            Qos(2148, "63"),
            Frame(SETUP),
            PassesUp(Some(0), 2148, 0, "63"),
            Sends(SET_UP),
            Qos(2147, "64"),
            Request(2140),
            Sends("94000000 S P 0400 c085 8000000000000000"),
        ],
    ),
];

/// Windows are left behind, and agreements end.
static ENDS: &[Transcript] = &[
    (
        "requests and dropped frames leave no gap",
        JOINS,
        &[0, 8, 0, 0, 0, 0, 8, 0, 1],
        &[
            Frame(SETUP),
            Sends(SET_UP),
            Qos(102, "61"),
            Qos(104, "62"),
            Request(103),
            PassesUp(Some(0), 102, 0, "61"),
            Sends("94000000 S P 0400 7006 0200000000000000"),
            Qos(103, "63"),
            PassesUp(Some(0), 103, 0, "63"),
            PassesUp(Some(0), 104, 0, "62"),
            Qos(105, "64"),
            PassesUp(Some(0), 105, 0, "64"),
            // 100 is dropped, but its number counts.
            Frame(SETUP),
            Sends(SET_UP),
            Qos(101, "65"),
            Qos(100, "66"),
            PassesUp(Some(0), 101, 0, "65"),
            Qos(102, "67"),
            PassesUp(Some(0), 102, 0, "67"),
        ],
    ),
    (
        "agreements end",
        &[],
        &[0, 8, 0, 8, 0, 8],
        &[
            Close(0),
            Notes(63),
            Frame(AUTHENTICATION),
            Sends(AUTHENTICATED),
            Frame(ASSOCIATION),
            Sends(ASSOCIATED),
            Close(0),
            // The originator ends it.
            Frame(SETUP),
            Sends(SET_UP),
            Qos(102, "61"),
            Frame(ENDS_OTHER),
            Frame(ENDS_OWN),
            PassesUp(Some(0), 102, 0, "61"),
            Frame(ENDS_OWN),
            // The operator ends it.
            Frame(SETUP),
            Sends(SET_UP),
            Qos(103, "62"),
            Close(0),
            PassesUp(Some(0), 103, 0, "62"),
            Sends("d0000000 S P P 0000 0302 0000 2500"),
            // It is discarded with the frames that it holds.
            Frame(SETUP),
            Sends(SET_UP),
            Qos(104, "63"),
            Frame(AUTHENTICATION),
            Sends(AUTHENTICATED),
            Frame(ASSOCIATION),
            Sends(ASSOCIATED),
            Close(0),
            Kick(3),
            Sends("c0000000 S P P 0000 0300"),
            Kick(3),
            Notes(63),
        ],
    ),
    (
        "agreements time out",
        JOINS,
        &[0, 8],
        &[
            Tick(7),
            // For TID 5, with timeout 10.
            Frame("d0000000 P S P 4000 0300 07 1602 0a00 4006"),
            Sends("d0000000 S P P 0000 0301 07 0000 1602 0a00"),
            Tick(9),
            Frame("88010000 P S 0200000000ff 6006 0500 61"),
            Tick(9),
            Tick(1),
            PassesUp(Some(5), 102, 0, "61"),
            Sends("d0000000 S P P 0000 0302 0050 2700"),
            Tick(10),
        ],
    ),
];

/// At a new access point, the events of a transcript lead to the outputs that it describes.
fn leads(rt: &impl Abort, alloc: Global, transcript: &Transcript) {
    let (what, _, answers, _) = transcript;
    let lines = lines_of(rt, alloc, transcript);
    let events = events(rt, alloc, &lines);
    let results = handled(rt, alloc, answers, &events);
    drop(events);
    is_told(rt, alloc, &lines, &results, what);
    drop(lines);
    drop(results);
}

/// So do those of each transcript.
fn lead(rt: &impl Abort, alloc: Global, transcripts: &[Transcript]) {
    for transcript in transcripts {
        leads(rt, alloc, transcript);
    }
}

#[test]
fn stations_are_admitted(rt: HostRuntime) {
    lead(&rt, rt.alloc(), ADMISSIONS);
}

#[test]
fn frames_are_answered(rt: HostRuntime) {
    lead(&rt, rt.alloc(), ANSWERS);
}

#[test]
fn windows_move(rt: HostRuntime) {
    lead(&rt, rt.alloc(), WINDOWS);
}

#[test]
fn agreements_end(rt: HostRuntime) {
    lead(&rt, rt.alloc(), ENDS);
}
