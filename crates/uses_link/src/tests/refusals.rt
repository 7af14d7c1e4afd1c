//! Events that are refused for lack of memory, and retried. The gate refuses each request for memory of these tests in
//! turn.

ghost use Rattle.ap_model.specs.AccessPoint.{InPlace};
ghost use Rattle.ap_core.specs.AccessPoints.{rules_of};

use super::Line::{Close, Frame, Kick, Notes, PassesUp, Qos, Request, Sends, Tick};
use super::{
    ASSOCIATED, ASSOCIATION, AUTHENTICATED, AUTHENTICATION, DATA, DEAUTHENTICATED_6,
    DEAUTHENTICATED_7, DISASSOCIATED_7, ENDS_OWN, JOINS, Results, SET_UP, SETUP, Transcript,
    events, is_told, lines_of, shard, shards,
};
use ap_core::{Event, ListJudge, Out, Shard, handle_all};
use std::alloc::Global;
use std::process::Abort;

/// For TID 0 and for TID 5, with timeout 10.
const SETUP_0: &str = "d0000000 P S P 4000 0300 07 0202 0a00 4006";

const SET_UP_0: &str = "d0000000 S P P 0000 0301 07 0000 0202 0a00";

const SETUP_5: &str = "d0000000 P S P 4000 0300 07 1602 0a00 4006";

const SET_UP_5: &str = "d0000000 S P P 0000 0301 07 0000 1602 0a00";

/// Data for TID 5, with number 102.
const QOS_5: &str = "88010000 P S 0200000000ff 6006 0500 61";

/// What the access point sends when it ends one of them: on the operator's command, and on
/// timeouts.
const CLOSED: &str = "d0000000 S P P 0000 0302 0000 2500";

const TIMED_OUT_0: &str = "d0000000 S P P 0000 0302 0000 2700";

const TIMED_OUT_5: &str = "d0000000 S P P 0000 0302 0050 2700";

const KICKED: &str = "c0000000 S P P 0000 0300";

// In the transcripts below each data frame has its own mark, so that each verdict shows. If any one allocation of an
// event fails, the event is handled when it is retried, and so are those after it.

/// Stations come and go.
static EXCHANGES: Transcript = (
    "refused exchanges may come again",
    &[],
    &[5, 0, 258, 0, 0, 514, 0, 770],
    &[
        Frame("b0"),
        Notes(50),
        Frame("b0000000 030000000001 S P 1000 0000 0100 0000"),
        Notes(56),
        Kick(3),
        Notes(63),
        Close(0),
        Notes(63),
        Frame(DATA),
        Sends(DEAUTHENTICATED_7),
        Frame("b0000000 P S P 1000 0100 0100 0000"),
        Sends("b0000000 S P P 0000 0100 0200 0d00"),
        Frame(AUTHENTICATION),
        Sends(AUTHENTICATED),
        Frame(DATA),
        Sends(DISASSOCIATED_7),
        // Another network; a verdict that refuses, and one that accepts.
        Frame("00000000 P S P 2000 0100 0a00 0003 6c6163 R"),
        Sends("10000000 S P P 0000 0100 0c00 0000 R"),
        Frame(ASSOCIATION),
        Sends("10000000 S P P 0000 0100 0100 0000 R"),
        Frame(ASSOCIATION),
        Sends(ASSOCIATED),
        Frame(DATA),
        PassesUp(None, 3, 1, "68656c6c6f"),
        // It authenticates again, reassociates, disassociates, and deauthenticates.
        Frame(AUTHENTICATION),
        Sends(AUTHENTICATED),
        Frame(ASSOCIATION),
        Sends(ASSOCIATED),
        Frame("20000000 P S P 2000 0100 0a00 P N R"),
        Sends("30000000 S P P 0000 0100 0000 02c0 R"),
        Qos(7, "61"),
        PassesUp(Some(0), 7, 2, "61"),
        Frame("a0000000 P S P 5000 0800"),
        Frame(DATA),
        Sends(DISASSOCIATED_7),
        Frame("c0000000 P S P 6000 0300"),
        Frame(ASSOCIATION),
        Sends(DEAUTHENTICATED_6),
        // The operator deauthenticates it.
        Frame(AUTHENTICATION),
        Sends(AUTHENTICATED),
        Frame(ASSOCIATION),
        Sends(ASSOCIATED),
        Frame(DATA),
        PassesUp(None, 3, 3, "68656c6c6f"),
        Kick(3),
        Sends(KICKED),
    ],
);

/// Windows move, and agreements end.
static AGREEMENTS: Transcript = (
    "refused events of agreements may come again",
    JOINS,
    &[
        0, 0, 8, 258, 514, 770, 1, 1026, 8, 1282, 1538, 8, 1794, 0, 8, 2050,
    ],
    &[
        // A delayed policy; declined, and then granted.
        Frame("d0000000 P S P 4000 0300 07 0002 0000 4006"),
        Sends("d0000000 S P P 0000 0301 07 2500 0200 0000"),
        Frame(SETUP),
        Sends("d0000000 S P P 0000 0301 07 2500 0200 0000"),
        Frame(SETUP),
        Sends(SET_UP),
        Qos(101, "61"),
        Qos(100, "62"),
        PassesUp(Some(0), 100, 2, "62"),
        PassesUp(Some(0), 101, 1, "61"),
        // A request moves the window past 102, and past 103, which is held.
        Qos(103, "63"),
        Request(104),
        PassesUp(Some(0), 103, 3, "63"),
        Sends("94000000 S P 0400 8006 0000000000000000"),
        // One is dropped and one held, and another agreement replaces this one.
        Qos(105, "64"),
        Qos(106, "65"),
        Frame(SETUP),
        PassesUp(Some(0), 106, 4, "65"),
        Sends(SET_UP),
        // A number beyond the window moves it, and the originator ends the agreement.
        Qos(102, "66"),
        Qos(110, "67"),
        PassesUp(Some(0), 102, 5, "66"),
        Frame(ENDS_OWN),
        PassesUp(Some(0), 110, 6, "67"),
        // The operator ends it.
        Frame(SETUP),
        Sends(SET_UP),
        Qos(102, "68"),
        Close(0),
        PassesUp(Some(0), 102, 7, "68"),
        Sends(CLOSED),
        // It is discarded with the frames that it holds.
        Frame(ASSOCIATION),
        Sends(ASSOCIATED),
        Frame(SETUP),
        Sends(SET_UP),
        Qos(102, "69"),
        Kick(3),
        Sends(KICKED),
    ],
);

/// Agreements time out.
static TICKS: Transcript = (
    "refused ticks may come again",
    JOINS,
    &[0, 8, 8, 258, 514],
    &[
        Frame(SETUP_0),
        Sends(SET_UP_0),
        Frame(SETUP_5),
        Sends(SET_UP_5),
        Qos(102, "61"),
        Frame(QOS_5),
        Tick(9),
        Tick(1),
        PassesUp(Some(0), 102, 1, "61"),
        Sends(TIMED_OUT_0),
        PassesUp(Some(5), 102, 2, "61"),
        Sends(TIMED_OUT_5),
        Tick(10),
    ],
);

/// The outputs of an event, which is retried if an allocation fails.
fn again(
    rt: &impl Abort,
    alloc: Global,
    shard: &mut Shard,
    event: &Event,
    judge: &mut ListJudge<'_>,
) -> Vec<Out> {
    if let Ok(outs) = shard.handle(alloc, event, judge) {
        return outs;
    }
    shard.handle(alloc, event, judge).expect(rt, "memory")
}

/// The results of these events, each retried if it is refused.
fn results_again(
    rt: &impl Abort,
    alloc: Global,
    shard: &mut Shard,
    events: &[Event],
    judge: &mut ListJudge<'_>,
) -> Results {
    let mut results = Vec::new(alloc);
    for event in events {
        let outs = again(rt, alloc, shard, event, judge);
        results.push(Some(outs)).expect(rt, "memory");
    }
    results
}

/// At a new shard, the events of a transcript lead to the outputs that it describes, if each that is refused for lack
/// of memory is retried.
fn leads_again(rt: &impl Abort, alloc: Global, transcript: &Transcript) {
    let (what, _, answers, _) = transcript;
    let lines = lines_of(rt, alloc, transcript);
    let events = events(rt, alloc, &lines);
    let mut shard = shard(rt, alloc, 2);
    let results = results_again(rt, alloc, &mut shard, &events, &mut ListJudge::new(answers));
    // Freed by a call, since a shard has many parts.
    drop(shard);
    drop(events);
    is_told(rt, alloc, &lines, &results, what);
    drop(lines);
    drop(results);
}

#[test]
fn refused_exchanges_may_come_again(rt: HostRuntime) {
    leads_again(&rt, rt.alloc(), &EXCHANGES);
}

#[test]
fn refused_events_of_agreements_may_come_again(rt: HostRuntime) {
    leads_again(&rt, rt.alloc(), &AGREEMENTS);
}

#[test]
fn refused_ticks_may_come_again(rt: HostRuntime) {
    leads_again(&rt, rt.alloc(), &TICKS);
}

/// Agreements of two shards time out in one tick.
static REFUSED_AT_ALL: Transcript = (
    "refused events at all shards may come again",
    &[],
    &[0, 8, 258, 0, 8, 8, 514],
    &[
        Frame("b0"),
        Notes(50),
        Frame(AUTHENTICATION),
        Sends(AUTHENTICATED),
        Frame(ASSOCIATION),
        Sends(ASSOCIATED),
        Frame(SETUP_0),
        Sends(SET_UP_0),
        Qos(102, "61"),
        // Another station, of shard 3.
        Frame("b0000000 P 02000000000b P 1000 0000 0100 0000"),
        Sends("b0000000 02000000000b P P 0000 0000 0200 0000"),
        Frame("00000000 P 02000000000b P 2000 0100 0a00 N R"),
        Sends("10000000 02000000000b P P 0000 0100 0000 03c0 R"),
        Frame("d0000000 P 02000000000b P 4000 0300 07 0202 0a00 4006"),
        Sends("d0000000 02000000000b P P 0000 0301 07 0000 0202 0a00"),
        Tick(10),
        PassesUp(Some(0), 102, 1, "61"),
        Sends(TIMED_OUT_0),
        Sends("d0000000 02000000000b P P 0000 0302 0000 2700"),
        Frame(SETUP),
        Sends(SET_UP),
        Qos(103, "62"),
        Close(0),
        PassesUp(Some(0), 103, 2, "62"),
        Sends(CLOSED),
        Kick(3),
        Sends(KICKED),
    ],
);

/// The outputs of one event at all shards, which is retried if an allocation fails; none if one fails again.
fn again_at_all(
    alloc: Global,
    shards: &mut [Shard; 8],
    event: &[Event],
    judge: &mut ListJudge<'_>,
) -> Option<Vec<Out>>
    requires { InPlace (rules_of shards.old) }
    ensures { InPlace (rules_of shards.new) }
{
    if let Ok(mut results) = handle_all(alloc, shards, event, judge) {
        if let Some(Some(outs)) = results.pop() {
            return Some(outs);
        }
    }
    let Ok(mut results) = handle_all(alloc, shards, event, judge) else {
        return None;
    };
    results.pop().unwrap_or(None)
}

/// The results of these events at all shards, each retried if it is refused.
fn results_at_all(
    rt: &impl Abort,
    alloc: Global,
    shards: &mut [Shard; 8],
    events: &[Event],
    judge: &mut ListJudge<'_>,
) -> Results
    requires { InPlace (rules_of shards.old) }
{
    let mut results = Vec::new(alloc);
    for event in events.chunks(1) {
        let outs = again_at_all(alloc, shards, event, judge);
        results.push(outs).expect(rt, "memory");
    }
    results
}

#[test]
fn refused_events_at_all_shards_may_come_again(rt: HostRuntime) {
    let (what, _, answers, _) = REFUSED_AT_ALL;
    let lines = lines_of(&rt, rt.alloc(), &REFUSED_AT_ALL);
    let events = events(&rt, rt.alloc(), &lines);
    let mut shards = shards(&rt, rt.alloc());
    let mut judge = ListJudge::new(answers);
    let results = results_at_all(&rt, rt.alloc(), &mut shards, &events, &mut judge);
    // Freed by a call, since eight shards have many parts.
    drop(shards);
    is_told(&rt, rt.alloc(), &lines, &results, what);
}
