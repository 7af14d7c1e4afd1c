//! How long a run takes, by a clock that shows what a test says.

use crate::tests::same::same;
use crate::tests::shelf::CAPTURE;
use ap_model::{LinkConfig, Octets};
use apd_eval::{Replay, Rounds, repeated_text};
use bpf_decode::{Program, decode};
use bpf_regions::{Hook, Shapes};
use bpf_verifier::verify;
use capture::Recording;
use mac_types::Address;
use std::alloc::Global;
use std::io::{self, ErrorKind};
use std::process::Abort;
use std::sync::atomic::{AtomicUsize, Ordering};
use std::time::{Clock, Duration};

/// A clock that shows these nanoseconds, one after the other; after the last it can't be read.
#[derive(Drop)]
struct Shown<'a> {
    nanos: &'a [u64],
    readings: AtomicUsize,
}

impl Clock for Shown<'_> {
    fn monotonic(&self) -> io::Result<Duration> {
        let reading = self.readings.fetch_add(1, Ordering::SeqCst);
        match self.nanos.get(reading) {
            Some(nanos) => Ok(Duration::from_nanos(*nanos)),
            None => Err(io::Error::from(ErrorKind::Unsupported)),
        }
    }

    fn since_1970(&self) -> io::Result<Duration> {
        self.monotonic()
    }
}

/// A program that drops all data.
fn dropping(rt: &impl Abort, alloc: Global) -> Program {
    let code = [0xb7, 0, 0, 0, 1, 0, 0, 0, 0x95, 0, 0, 0, 0, 0, 0, 0];
    let shapes = Shapes::new(Vec::new(alloc)).expect(rt, "no maps");
    decode(alloc, &code, shapes).ok().expect(rt, "a program")
}

/// The access point of the capture.
fn link(rt: &impl Abort, alloc: Global) -> LinkConfig {
    let ssid = Octets::copy(alloc, b"lab").expect(rt, "memory");
    let rates = Octets::copy(alloc, &[0x82, 0x84, 0x8b, 0x96]).expect(rt, "memory");
    LinkConfig::new(Address::new([2, 0, 0, 0, 0, 1]), ssid, rates).expect(rt, "a link")
}

/// The verdicts of that program, with times of so many rounds by this clock.
fn timed(rt: &impl Abort, alloc: Global, clock: &Shown<'_>, count: u32, json: bool) -> String {
    let program = dropping(rt, alloc);
    let accepted = verify(alloc, program, Hook::Data).ok();
    let recording = Recording::new(alloc, CAPTURE).ok();
    let link = link(rt, alloc);
    let replay = Replay {
        link: &link,
        draw: 1,
        recording: recording.expect(rt, "a capture"),
    };
    let rounds = Rounds { clock, count };
    let accepted = accepted.expect(rt, "accepted");
    let text = repeated_text(alloc, accepted, replay, &rounds, json);
    drop(link);
    text.expect(rt, "memory")
}

/// The table of that program's verdicts.
static TABLE: &[u8] = b"packet  station            verdict       steps\n\
    3       02:00:00:00:00:0a  drop          2\n\
    4       02:00:00:00:00:0a  drop          2\n\
    5       02:00:00:00:00:0a  drop          2\n\
    6       02:00:00:00:00:0a  drop          2\n\
    judged 4 of 6 packets: pass 0 (0 marked), drop 4; steps at most 2 of budget 2\n\
    not judged: 2 not data\n";

/// What a clock shows, the number of rounds of four runs each, whether the text is JSON, and its end, which is below
/// the table if it is none.
static TIMES: &[(&[u64], u32, bool, &[u8])] = &[
    (
        &[0, 400, 1000, 1800, 2000, 2603, 3000, 3500],
        4,
        false,
        b"repeated 4 times: 100 ns a run at least, 125 ns in the median\n",
    ),
    (
        &[7, 407, 1000, 1800, 2000, 2600],
        3,
        false,
        b"repeated 3 times: 100 ns a run at least, 150 ns in the median\n",
    ),
    (
        &[18446744073709551615, 18446744073709551615],
        1,
        false,
        b"repeated 1 times: 0 ns a run at least, 0 ns in the median\n",
    ),
    (
        &[500, 100],
        1,
        false,
        b"repeated 1 times: 0 ns a run at least, 0 ns in the median\n",
    ),
    (
        &[0, 400, 1000],
        2,
        false,
        b"repeated 2 times: no clock tells how long a run takes\n",
    ),
    (
        &[0, 400, 1000, 1800],
        2,
        true,
        b"\n{\"repeats\":2,\"least\":100,\"median\":100}\n",
    ),
    (
        &[],
        2,
        true,
        b"\n{\"repeats\":2,\"least\":null,\"median\":null}\n",
    ),
];

/// Fails if a text is more than the table and a line, or, as JSON, ends otherwise.
fn ends(rt: &impl Abort, text: &[u8], json: bool, line: &[u8]) {
    let (table, end) = text.split_at(text.len().saturating_sub(line.len()));
    let wanted = if json { table } else { TABLE };
    same(rt, (table, end), (wanted, line), "the table and the line");
}

#[test]
fn the_least_and_the_median_are_told(rt: HostRuntime) {
    for (nanos, count, json, line) in TIMES {
        let clock = Shown {
            nanos,
            readings: AtomicUsize::new(0),
        };
        let text = timed(&rt, rt.alloc(), &clock, *count, *json);
        ends(&rt, text.as_bytes(), *json, line);
    }
}
