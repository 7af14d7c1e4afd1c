//! How long a shard takes for a QoS data frame of 100 bytes of one associated station that programs judge: without a
//! program, under a port filter, and under a program that counts in a map. Beside these, the verdict by itself. Each is
//! the least of 500 rounds of 1000, all by one judge.

use crate::asked::Asked;
use crate::clock::{Work, least, print_each};
use crate::link::ups;
use crate::policies::{POLICIES, Seated, one_seat, set_of};
use crate::stations::{config, data, event, joining};
use ap_core::{Event, Judge, ListJudge, Shard};
use bpf_helpers::WorkerView;
use bpf_regions::{Context, Frame, Hook};
use hook_judge::SetJudge;
use std::alloc::Global;
use std::rt::Clock;
use std::sync::Wait;

/// How often a round does each.
const TIMES: u64 = 1000;

/// A shard that handles a frame, in which it asks a judge. The number is how many frames are passed up.
#[derive(Drop)]
struct Handling<'a, J: Judge> {
    alloc: Global,
    shard: &'a mut Shard,
    event: &'a Event,
    judge: &'a mut J,
}

impl<J: Judge> Work for Handling<'_, J> {
    #[inline(never)]
    fn once(&mut self) -> u64 {
        match self.shard.handle(self.alloc, self.event, self.judge) {
            Ok(outs) => ups(&outs),
            Err(_) => 0,
        }
    }
}

/// A judge that is asked about a frame. The number is its verdict.
#[derive(Drop)]
struct Judging<'a, J: Judge> {
    judge: &'a mut J,
    frame: &'a Frame<'a>,
}

impl<J: Judge> Work for Judging<'_, J> {
    #[inline(never)]
    fn once(&mut self) -> u64 {
        self.judge
            .judge(Hook::Data, self.frame, &Context::new([0; 32]))
    }
}

/// Station 0 authenticates and associates.
fn associate(alloc: Global, shard: &mut Shard) -> Option<()> {
    for step in 0..2u8 {
        let event = event(joining(alloc, 0, step).ok()?);
        let _outs = shard.handle(alloc, &event, &mut ListJudge::new(&[])).ok()?;
    }
    Some(())
}

/// Prints how long a data frame takes in the shard under a judge, and its verdict by itself.
fn report_judge<R: Clock + Eprint, J: Judge>(
    rt: &R,
    alloc: Global,
    shard: &mut Shard,
    judge: &mut J,
    rounds: u64,
) -> Option<()> {
    let event = &event(data(alloc, 0, 3, 100).ok()?);
    let mut handling = Handling {
        alloc,
        shard,
        event,
        judge,
    };
    let (nanos, sum) = least(rt, &mut handling, TIMES, rounds);
    print_each(rt, "  a frame in the shard", nanos, TIMES, sum);
    let Event::Frame(octets) = event else {
        return None;
    };
    let frame = &Frame::new(octets.bytes())?;
    let mut judging = Judging { judge, frame };
    let (nanos, sum) = least(rt, &mut judging, TIMES, rounds);
    print_each(rt, "  a verdict by itself", nanos, TIMES, sum);
    Some(())
}

/// The same under a program of a text, or under none.
fn report<R: Clock + Eprint + Wait>(
    rt: &R,
    alloc: Global,
    shard: &mut Shard,
    text: Option<&str>,
    rounds: u64,
) -> Option<()> {
    let Seated { maps, mut state } = one_seat(alloc)?;
    let set = set_of(rt, alloc, text, maps.as_slice())?;
    let view = WorkerView {
        maps: maps.as_slice(),
        worker: 0,
        clock: 0,
        stations: 1,
    };
    let mut judge = SetJudge::new(&set, view, &mut state);
    report_judge(rt, alloc, shard, &mut judge, rounds)
}

/// The same under each program.
fn report_all<R: Clock + Eprint + Wait>(
    rt: &R,
    alloc: Global,
    shard: &mut Shard,
    rounds: u64,
) -> Option<()> {
    associate(alloc, shard)?;
    for (name, text) in &POLICIES {
        let _ = eprintln!(rt; "{name}");
        report(rt, alloc, shard, *text, rounds)?;
    }
    Some(())
}

/// Prints how long each takes without a program, under the filter, and under the counter. None if an allocation fails.
pub fn print_times<R: Clock + Eprint + Wait>(
    rt: &R,
    alloc: Global,
    asked: Asked<'_>,
) -> Option<()> {
    let config = config(alloc)?;
    let mut shard = Shard::new(alloc, 0, &config).ok()?;
    report_all(rt, alloc, &mut shard, asked.choose(500, 2))
}
