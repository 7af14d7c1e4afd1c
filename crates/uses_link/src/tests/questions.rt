//! The queries to a judge: the hook, the frame's bytes and the context of each.

ghost use Rattle.std.specs.Prelude.{◌≡◌};

use crate::digits::spelled;
use crate::same::{holds, same};
use crate::tests::{ASSOCIATION, AUTHENTICATION, DATA, SETUP, frame, shard};
use ap_core::{AskLog, Event, Judge, Octets, Shard, shard_of};
use bpf_regions::{Context, Frame, Hook};
use mac_frame::{Address, Reason};
use std::alloc::Global;
use std::process::Abort;

/// Expects at most one query about a frame, and records whether it is as expected.
#[derive(Drop)]
struct Watching<'a> {
    frame: &'a [u8],
    /// Bytes 6 to 17 of the context, which begins with the station and ends with zeros; empty if no query is to come.
    expected: &'a [u8],
    answer: u64,
    alike: bool,
    asked: AskLog,
}

impl Watching<'_> {
    /// The answer to the expected query, which is to be this one.
    fn answer(&mut self, hook: Hook, frame: &[u8], context: &[u8; 32]) -> u64
        ensures { self.new.asked ≡ self.old.asked }
    {
        let is_station = &context[..6] == [2, 0, 0, 0, 0, 10].as_slice();
        let is_told = &context[6..18] == self.expected;
        let is_rest = &context[18..] == [0; 14].as_slice();
        let is_about = hook.number() == context[6] && frame == self.frame;
        self.alike = self.alike && is_station && is_told && is_rest && is_about;
        self.expected = &[];
        self.answer
    }
}

impl Judge for Watching<'_> {
    ghost use Rattle.std.specs.Prelude.{◌≡◌, ◌∷◌, [], ◌++◌};

    ghost asks = { λ p. p.asked.asks };

    ghost gives = { λ p q a p2. p2.asked.asks ≡ p.asked.asks ++ (q, a) ∷ [] };

    ghost lists = { λ p p2 q a h. h };

    fn judge(&mut self, hook: Hook, frame: &Frame<'_>, context: &Context) -> u64 {
        let answer = self.answer(hook, frame.bytes(), context.bytes());
        self.asked.note(hook, frame, context, answer);
        answer
    }
}

/// Frames of station `02000000000a` to shard 2; what the query about each tells: the hook's number, the state, the
/// identifier, the TID, a zero, and the hook's three numbers, low byte first, or nothing if there is no query; and the
/// answer.
static ASKED: &[(&str, &str, u64)] = &[
    (AUTHENTICATION, "", 0),
    (ASSOCIATION, "01 02 0000 ff 00 0100 0a00 0000", 5),
    (REASSOCIATION, "01 02 0000 ff 00 0104 0b01 0100", 0),
    (ASSOCIATION, "01 03 0200 ff 00 0100 0a00 0000", 0),
    (DATA, "03 03 0200 ff 00 0300 0000 0000", 0),
    (SETUP, "02 03 0200 00 00 0800 0000 6400", 64),
    // Number 102, which is held; a duplicate; and a request for 103, which moves the window.
    (QOS_102, "03 03 0200 00 00 6600 6400 0100", 0),
    (QOS_102, "", 0),
    (REQUEST_103, "", 0),
    (QOS_103, "03 03 0200 00 00 6700 6700 0100", 0),
    // Another TID, without an agreement; and a frame for another access point.
    (QOS_OF_5, "03 03 0200 05 00 6600 0000 0000", 0),
    (FOREIGN, "", 0),
];

const REASSOCIATION: &str = "20000000 P S P 2000 0104 0b01 P N R";

const QOS_102: &str = "88010000 P S 0200000000ff 6006 0000 61";

const QOS_103: &str = "88010000 P S 0200000000ff 7006 0000 61";

const QOS_OF_5: &str = "88010000 P S 0200000000ff 6006 0500 61";

const REQUEST_103: &str = "84000000 P S 0400 7006";

const FOREIGN: &str = "08010000 030000000001 S 0200000000ff 3000 68656c6c6f";

/// A frame to a shard leads to the expected query, or to none.
fn asks(rt: &impl Abort, alloc: Global, shard: &mut Shard, row: &(&str, &str, u64)) {
    let (digits, told, answer) = *row;
    let bytes = spelled(rt, alloc, digits);
    let expected = spelled(rt, alloc, told);
    let event = frame(rt, alloc, digits);
    let mut judge = Watching {
        frame: &bytes,
        expected: &expected,
        answer,
        alike: true,
        asked: AskLog::new(),
    };
    drop(shard.handle(alloc, &event, &mut judge).expect(rt, "memory"));
    holds(rt, judge.alike && judge.expected.is_empty(), digits);
}

#[test]
fn judges_are_asked_about_each_frame(rt: HostRuntime) {
    let alloc = rt.alloc();
    let mut shard = shard(&rt, alloc, 2);
    for row in ASKED {
        asks(&rt, alloc, &mut shard, row);
    }
    // Freed by a call, since a shard has many parts.
    drop(shard);
}

/// The shard that an event concerns: the last octet of its station modulo 8, 0 if the bytes name none, and all for a
/// tick.
#[test]
fn events_concern_shards(rt: HostRuntime) {
    let alloc = rt.alloc();
    let station = Address::new([2, 0, 0, 0, 0, 15]);
    let reason = Reason::new(1);
    let whole = frame(&rt, alloc, DATA);
    let cut = frame(&rt, alloc, "08010000 P 0200000000");
    let kick = Event::Kick { station, reason };
    let found = [
        shard_of(&whole),
        shard_of(&cut),
        shard_of(&Event::Tick(3)),
        shard_of(&kick),
    ];
    let wanted = [Some(2), Some(0), None, Some(7)];
    same(&rt, found, wanted, "data, cut data, a tick, a command");
}

fn is_sent<T: Send>(_value: &T) {}

/// A shard may go to another thread.
#[test]
fn shards_are_sent(rt: HostRuntime) {
    let shard = shard(&rt, rt.alloc(), 0);
    is_sent(&shard);
    same(&rt, shard.stations(), 0, "stations");
    // Freed by a call, since a shard has many parts.
    drop(shard);
}
