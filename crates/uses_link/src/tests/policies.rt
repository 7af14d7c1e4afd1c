//! Results of events under programs: rows by `serve`, and by `decide` if something happens between two events.

ghost use Rattle.std.specs.Prelude.{◌≡◌};
ghost use Rattle.bpf_helpers.specs.Hooked.{IsFitting};

use crate::same::same;
use crate::tests::Line::{self, Frame, PassesUp, Sends};
use crate::tests::seats::{NO_TEXTS, Seated, Texts, admitted, end, entered, two_seats};
use crate::tests::{
    ASSOCIATED, ASSOCIATION, AUTHENTICATION, DATA, DECLINED, Results, SET_UP, SETUP, are_told,
    comes, config, events, frame, shard,
};
use ap_core::{Event, Out, Shard};
use bpf_helpers::{MapTables, WorkerState, WorkerView, run_hook};
use bpf_regions::{Context, Frame as Received, Hook};
use hook_judge::CountedState;
use std::alloc::Global;
use std::process::Abort;
use std::sync::Wait;
use uses_policies::{Policies, decide, serve};

/// The results of these events under a worker's policies.
fn served(
    rt: &impl Abort,
    alloc: Global,
    events: &[Event],
    policies: Policies<'_, '_>,
    state: &mut CountedState,
) -> Results
    requires seats { IsFitting policies.maps.now policies.worker state.old.seats }
{
    let config = config(rt, alloc);
    serve(alloc, &config, events, policies, state).expect(rt, "memory")
}

/// The results of these events under the programs of these texts.
fn led<R: Wait + Abort>(rt: &R, alloc: Global, texts: Texts<'_>, events: &[Event]) -> Results {
    let Seated {
        maps: tables,
        mut state,
        other: _other,
    } = two_seats(rt, alloc);
    let maps = tables.as_slice();
    let (publisher, held) = entered(rt, alloc, texts, maps);
    let policies = Policies {
        set: held.set(),
        maps,
        worker: 0,
    };
    let results = served(rt, alloc, events, policies, &mut state);
    end(rt, publisher, held);
    results
}

/// A hook, the text of its only program, if there is one, and the outputs of the last event that its program judges.
type Policy = (Hook, Option<&'static str>, &'static [Line<'static>]);

static POLICIES: &[Policy] = &[
    // Without programs the tables decide.
    (Hook::Association, None, &[Sends(ASSOCIATED)]),
    (Hook::Addba, None, &[Sends(SET_UP)]),
    (Hook::Data, None, &[PassesUp(None, 3, 0, "68656c6c6f")]),
    // Association programs give statuses.
    (
        Hook::Association,
        Some("mov r0, 0\nexit"),
        &[Sends(ASSOCIATED)],
    ),
    (
        Hook::Association,
        Some("mov r0, 1\nexit"),
        &[Sends("10000000 S P P 0000 0100 0100 0000 R")],
    ),
    (
        Hook::Association,
        Some("mov r0, 10\nexit"),
        &[Sends("10000000 S P P 0000 0100 0a00 0000 R")],
    ),
    (
        Hook::Association,
        Some("mov r0, 12\nexit"),
        &[Sends("10000000 S P P 0000 0100 0c00 0000 R")],
    ),
    (
        Hook::Association,
        Some("mov r0, 17\nexit"),
        &[Sends("10000000 S P P 0000 0100 1100 0000 R")],
    ),
    (
        Hook::Association,
        Some("mov r0, 37\nexit"),
        &[Sends("10000000 S P P 0000 0100 2500 0000 R")],
    ),
    (
        Hook::Association,
        Some("mov r0, 5\nexit"),
        &[Sends("10000000 S P P 0000 0100 0100 0000 R")],
    ),
    // ADDBA programs give sizes.
    (Hook::Addba, Some("mov r0, 0\nexit"), &[Sends(DECLINED)]),
    (
        Hook::Addba,
        Some("mov r0, 3\nexit"),
        &[Sends("d0000000 S P P 0000 0301 07 0000 c200 0000")],
    ),
    (Hook::Addba, Some("mov r0, 200\nexit"), &[Sends(SET_UP)]),
    // Data programs mark and drop.
    (
        Hook::Data,
        Some("mov r0, 0\nexit"),
        &[PassesUp(None, 3, 0, "68656c6c6f")],
    ),
    (
        Hook::Data,
        Some("mov r0, 1280\nexit"),
        &[PassesUp(None, 3, 0, "68656c6c6f")],
    ),
    (
        Hook::Data,
        Some("mov r0, 1282\nexit"),
        &[PassesUp(None, 3, 5, "68656c6c6f")],
    ),
    (Hook::Data, Some("mov r0, 1281\nexit"), &[]),
    (Hook::Data, Some("mov r0, 1283\nexit"), &[]),
];

/// The station authenticates and associates, sets up an agreement, and sends data.
static EVENTS: &[Line<'static>] = &[
    Frame(AUTHENTICATION),
    Frame(ASSOCIATION),
    Frame(SETUP),
    Frame(DATA),
];

/// The program of a text for a hook, and how many of those events come.
fn texts_for(hook: Hook, text: Option<&str>) -> (Texts<'_>, usize) {
    let [association, addba, frames] = match hook {
        Hook::Association => [text, None, None],
        Hook::Addba => [None, text, None],
        Hook::Data => [None, None, text],
    };
    let texts = Texts {
        association,
        addba,
        frames,
    };
    let count = match hook {
        Hook::Association => 2,
        Hook::Addba => 3,
        Hook::Data => 4,
    };
    (texts, count)
}

/// The last of the events leads to these outputs.
fn decides<R: Wait + Abort>(rt: &R, alloc: Global, policy: &Policy) {
    let (hook, text, wanted) = policy;
    let what = text.unwrap_or("no program");
    let (texts, count) = texts_for(*hook, *text);
    let lines = EVENTS.get(..count).expect(rt, what);
    let events = events(rt, alloc, lines);
    let mut results = led(rt, alloc, texts, &events);
    let last = results.pop().unwrap_or(None).expect(rt, what);
    are_told(rt, alloc, wanted, &last, what);
}

#[test]
fn programs_decide_as_their_tables_say(rt: HostRuntime) {
    for policy in POLICIES {
        decides(&rt, rt.alloc(), policy);
    }
}

/// Returns the number in word 0 of map 0.
const LOAD: &str = "lddw r1, value 0 0\nldxdw r0, [r1+0]\nexit";

/// Adds 1 to word 0 of map 0.
const COUNT: &str = "lddw r1, value 0 0\nmov r2, 1\natomic_add [r1+0], r2\nmov r0, 0\nexit";

/// A shard at which the station is associated.
fn joined(rt: &impl Abort, alloc: Global) -> Shard {
    let mut shard = shard(rt, alloc, 2);
    comes(rt, alloc, &mut shard, Frame(AUTHENTICATION));
    comes(rt, alloc, &mut shard, Frame(ASSOCIATION));
    shard
}

/// The mark of the only frame that is passed up.
fn mark_of(outs: &[Out]) -> Option<u8> {
    match outs {
        [Out::Up(up)] => Some(up.mark),
        _ => None,
    }
}

/// The mark of a data frame that is passed up under a worker's policies.
fn mark_by(
    rt: &impl Abort,
    alloc: Global,
    shard: &mut Shard,
    policies: Policies<'_, '_>,
    state: &mut CountedState,
) -> Option<u8>
    requires seats { IsFitting policies.maps.now policies.worker state.old.seats }
    ensures seats { IsFitting policies.entry.maps.now policies.entry.worker state.new.seats }
{
    let data = frame(rt, alloc, DATA);
    let outs = decide(alloc, shard, &data, policies, state).expect(rt, "memory");
    mark_of(&outs)
}

/// Adds 1 to word 0 of map 0.
fn count(rt: &impl Abort, alloc: Global, maps: &[MapTables], state: &mut WorkerState)
    requires seats { IsFitting maps.now 0 state.old.seats }
{
    let count = admitted(rt, alloc, COUNT, Hook::Data, maps);
    let received = Received::new(&[]).expect(rt, "a frame");
    let view = WorkerView {
        maps,
        worker: 0,
        clock: 0,
        stations: 0,
    };
    run_hook(&count, &received, &Context::new([0; 32]), view, state);
}

/// The marks of two data frames under a set with this data program alone. Between them, a second seat adds 1 to word 0
/// of map 0.
fn marks<R: Wait + Abort>(
    rt: &R,
    alloc: Global,
    shard: &mut Shard,
    text: Option<&str>,
) -> [Option<u8>; 2] {
    let Seated {
        maps: tables,
        mut state,
        mut other,
    } = two_seats(rt, alloc);
    let maps = tables.as_slice();
    let texts = Texts {
        frames: text,
        ..NO_TEXTS
    };
    let (publisher, held) = entered(rt, alloc, texts, maps);
    let policies = Policies {
        set: held.set(),
        maps,
        worker: 0,
    };
    let first = mark_by(rt, alloc, shard, policies, &mut state);
    count(rt, alloc, maps, &mut other);
    let second = mark_by(rt, alloc, shard, policies, &mut state);
    end(rt, publisher, held);
    [first, second]
}

/// Data programs, or none, one after the other at one shard, and the marks that each leads to.
static MARKS: &[(Option<&str>, [Option<u8>; 2])] = &[
    // A store between two events changes the verdict.
    (Some(LOAD), [Some(0), None]),
    // The shard goes on under another set, and under one without programs.
    (Some("mov r0, 1282\nexit"), [Some(5); 2]),
    (None, [Some(0); 2]),
];

/// A program leads to these marks.
fn marks_so<R: Wait + Abort>(
    rt: &R,
    alloc: Global,
    shard: &mut Shard,
    text: Option<&str>,
    wanted: [Option<u8>; 2],
) {
    let found = marks(rt, alloc, shard, text);
    same(rt, found, wanted, text.unwrap_or("no program"));
}

#[test]
fn a_shard_goes_on_under_changing_maps_and_sets(rt: HostRuntime) {
    let mut shard = joined(&rt, rt.alloc());
    for (text, wanted) in MARKS {
        marks_so(&rt, rt.alloc(), &mut shard, *text, *wanted);
    }
    // Freed by a call, since a shard has many parts.
    drop(shard);
}
