//! Events at the access point `020000000001`, mostly of station `02000000000a`, and what each leads to. Frames are hex
//! digits and the letters of `spelled`, with spaces for reading.

ghost use Rattle.std.specs.Prelude.{◌<◌};
ghost use Rattle.ap_model.specs.AccessPoint.{InPlace};
ghost use Rattle.ap_core.specs.AccessPoints.{rules_of};

mod counters;
mod crowds;
mod listing;
mod policies;
mod questions;
mod refusals;
mod seats;
mod transcripts;

use crate::digits::{append, spelled};
use crate::same::{counts, holds};
use ap_core::{Event, LinkConfig, ListJudge, Octets, Out, Shard, Up, handle_all, new_shards};
use mac_frame::{Address, Reason, Tid};
use std::alloc::Global;
use std::process::Abort;

const AUTHENTICATION: &str = "b0000000 P S P 1000 0000 0100 0000";

const AUTHENTICATED: &str = "b0000000 S P P 0000 0000 0200 0000";

const ASSOCIATION: &str = "00000000 P S P 2000 0100 0a00 N R";

/// With identifier 2.
const ASSOCIATED: &str = "10000000 S P P 0000 0100 0000 02c0 R";

/// Data with number 3.
const DATA: &str = "08010000 P S 0200000000ff 3000 68656c6c6f";

/// For TID 0, an immediate policy and size 8, from number 100 on, without timeout.
const SETUP: &str = "d0000000 P S P 4000 0300 07 0202 0000 4006";

const SET_UP: &str = "d0000000 S P P 0000 0301 07 0000 0202 0000";

/// The answers to a frame whose class isn't permitted, by type and reason.
const DEAUTHENTICATED_6: &str = "c0000000 S P P 0000 0600";

const DEAUTHENTICATED_7: &str = "c0000000 S P P 0000 0700";

const DISASSOCIATED_7: &str = "a0000000 S P P 0000 0700";

const DECLINED: &str = "d0000000 S P P 0000 0301 07 2500 0200 0000";

/// A DELBA for TID 0: the station is the originator, or it isn't.
const ENDS_OWN: &str = "d0000000 P S P 7000 0302 0008 2500";

const ENDS_OTHER: &str = "d0000000 P S P 7000 0302 0000 2500";

/// A line of a transcript: an event, or an output of the last event above.
#[derive(Clone, Copy)]
enum Line<'a> {
    /// A frame is received.
    Frame(&'a str),
    /// The same frame from the station whose address has these last octets.
    From(u8, u8, &'a str),
    /// QoS data for TID 0 with this number is received.
    Qos(u16, &'a str),
    /// A BlockAckReq for TID 0 with this start is received.
    Request(u16),
    /// Time passes.
    Tick(u32),
    /// The operator deauthenticates station `02000000000a`.
    Kick(u16),
    /// The operator ends its agreement for a TID.
    Close(u8),
    /// A frame is sent.
    Sends(&'a str),
    /// Data from that station to `0200000000ff` is passed up: its TID, number, mark and bytes.
    PassesUp(Option<u8>, u16, u8, &'a str),
    Notes(u8),
}

use Line::{Close, Frame, From, Kick, Notes, PassesUp, Qos, Request, Sends, Tick};

/// What a transcript shows, how it begins, the answers of queries, and its further lines.
type Transcript = (
    &'static str,
    &'static [Line<'static>],
    &'static [u64],
    &'static [Line<'static>],
);

/// A station authenticates and associates.
const JOINS: &[Line<'static>] = &[
    Frame(AUTHENTICATION),
    Sends(AUTHENTICATED),
    Frame(ASSOCIATION),
    Sends(ASSOCIATED),
];

fn station() -> Address {
    Address::new([2, 0, 0, 0, 0, 10])
}

/// The frame that hex digits spell.
fn frame(rt: &impl Abort, alloc: Global, digits: &str) -> Event {
    Event::Frame(Octets::new(spelled(rt, alloc, digits)))
}

/// A frame, from the station whose address has these last octets.
fn from(rt: &impl Abort, alloc: Global, digits: &str, fifth: u8, last: u8) -> Event {
    let mut bytes = spelled(rt, alloc, digits);
    if bytes.len() > 15 {
        bytes[14] = fifth;
        bytes[15] = last;
    }
    Event::Frame(Octets::new(bytes))
}

/// The bytes before a sequence number, the number, and the bytes after it, in two parts.
fn numbered(
    rt: &impl Abort,
    alloc: Global,
    before: &str,
    number: u16,
    after: (&str, &str),
) -> Event {
    let mut bytes = spelled(rt, alloc, before);
    let number = (number << 4).to_le_bytes();
    bytes.extend_from_slice(&number).expect(rt, "memory");
    append(rt, &mut bytes, after.0);
    append(rt, &mut bytes, after.1);
    Event::Frame(Octets::new(bytes))
}

/// The event of a line, if it is one.
fn event(rt: &impl Abort, alloc: Global, line: Line<'_>) -> Option<Event> {
    let station = station();
    match line {
        Frame(digits) => Some(frame(rt, alloc, digits)),
        From(fifth, last, digits) => Some(from(rt, alloc, digits, fifth, last)),
        Qos(number, body) => {
            let head = "88010000 P S 0200000000ff";
            Some(numbered(rt, alloc, head, number, ("0000", body)))
        }
        Request(start) => {
            let head = "84000000 P S 0400";
            Some(numbered(rt, alloc, head, start, ("", "")))
        }
        Tick(units) => Some(Event::Tick(units)),
        Kick(reason) => {
            let reason = Reason::new(reason);
            Some(Event::Kick { station, reason })
        }
        Close(tid) => {
            let tid = Tid::new(tid).expect(rt, "a TID");
            Some(Event::Close { station, tid })
        }
        Sends(_) | PassesUp(..) | Notes(_) => None,
    }
}

/// All lines of a transcript.
fn lines_of(rt: &impl Abort, alloc: Global, transcript: &Transcript) -> Vec<Line<'static>> {
    let (_, begun, _, further) = *transcript;
    let mut lines = Vec::new(alloc);
    lines.extend_from_slice(begun).expect(rt, "memory");
    lines.extend_from_slice(further).expect(rt, "memory");
    lines
}

/// The events of a transcript.
fn events(rt: &impl Abort, alloc: Global, transcript: &[Line<'_>]) -> Vec<Event> {
    let mut events = Vec::new(alloc);
    for line in transcript {
        if let Some(event) = event(rt, alloc, *line) {
            events.push(event).expect(rt, "memory");
        }
    }
    events
}

/// The bytes of an output.
fn digits_of<'a>(line: Line<'a>) -> &'a str {
    match line {
        Sends(digits) | PassesUp(_, _, _, digits) => digits,
        _ => "",
    }
}

/// Whether this is data from the station to `0200000000ff` with this TID, number and mark, and these bytes.
fn is_up(up: &Up, wanted: (Option<u8>, u16, u8), bytes: &[u8]) -> bool {
    let addresses = (station(), Address::new([2, 0, 0, 0, 0, 255]));
    let marked = (up.tid.map(Tid::number), up.number.number(), up.mark);
    let found = ((up.source, up.destination), marked, up.body.bytes());
    found == (addresses, wanted, bytes)
}

/// Whether a line with these bytes describes an output.
fn tells(line: Line<'_>, bytes: &[u8], out: &Out) -> bool {
    match (line, out) {
        (Sends(_), Out::Send(sent)) => return sent.bytes() == bytes,
        (PassesUp(tid, number, mark, _), Out::Up(up)) => {
            return is_up(up, (tid, number, mark), bytes);
        }
        (Notes(number), Out::Note(noted)) => return *noted == number,
        _ => return false,
    }
}

/// Exactly these lines describe the outputs of an event.
fn are_told(rt: &impl Abort, alloc: Global, lines: &[Line<'_>], outs: &[Out], what: &str) {
    counts(rt, outs.len(), lines.len(), what);
    for at in 0..outs.len() {
        let bytes = spelled(rt, alloc, digits_of(lines[at]));
        holds(rt, tells(lines[at], &bytes, &outs[at]), what);
        drop(bytes);
    }
}

/// Whether a line is an event.
fn is_event(line: Line<'_>) -> bool {
    match line {
        Frame(_) | From(..) | Qos(..) | Request(_) | Tick(_) | Kick(_) | Close(_) => true,
        Sends(_) | PassesUp(..) | Notes(_) => false,
    }
}

/// These are the results of a transcript: each event was handled, and the lines below it describe its outputs.
fn is_told(
    rt: &impl Abort,
    alloc: Global,
    transcript: &[Line<'_>],
    results: &[Option<Vec<Out>>],
    what: &str,
) {
    let mut at = 0usize;
    for result in results {
        let outs = result.as_ref().expect(rt, what);
        let line = transcript.get(at).copied().expect(rt, what);
        holds(rt, is_event(line), what);
        let below = at.saturating_add(1);
        at = below.saturating_add(outs.len());
        let told = transcript.get(below..at).expect(rt, what);
        are_told(rt, alloc, told, outs, what);
    }
    counts(rt, at, transcript.len(), what);
}

/// Access point `020000000001`, network `lab`.
fn config(rt: &impl Abort, alloc: Global) -> LinkConfig {
    let ssid = Octets::copy(alloc, b"lab").expect(rt, "memory");
    let rates = Octets::copy(alloc, &[0x82, 0x84, 0x8b, 0x96]).expect(rt, "memory");
    let bssid = Address::new([2, 0, 0, 0, 0, 1]);
    LinkConfig::new(bssid, ssid, rates).expect(rt, "a configuration")
}

/// A shard of it.
fn shard(rt: &impl Abort, alloc: Global, number: u16) -> Shard
    requires { number < 8 }
{
    let config = config(rt, alloc);
    Shard::new(alloc, number, &config).expect(rt, "memory")
}

/// All its shards.
fn shards(rt: &impl Abort, alloc: Global) -> [Shard; 8]
    ensures { InPlace (rules_of result) }
{
    let config = config(rt, alloc);
    new_shards(alloc, &config).expect(rt, "memory")
}

/// A shard handles the event of a line, without verdicts but those of the tables.
fn comes(rt: &impl Abort, alloc: Global, shard: &mut Shard, line: Line<'_>) {
    let event = event(rt, alloc, line).expect(rt, "an event");
    let mut judge = ListJudge::new(&[]);
    drop(shard.handle(alloc, &event, &mut judge).expect(rt, "memory"));
}

/// The outputs of each event of a list, or None if it was refused.
type Results = Vec<Option<Vec<Out>>>;

/// The results of these events at a new access point.
fn handled(rt: &impl Abort, alloc: Global, answers: &[u64], events: &[Event]) -> Results {
    let mut shards = shards(rt, alloc);
    let mut judge = ListJudge::new(answers);
    let results = handle_all(alloc, &mut shards, events, &mut judge);
    // Freed by a call, since eight shards have many parts.
    drop(shards);
    results.expect(rt, "memory")
}
