//! How long a shard takes for a data frame of 100 bytes and of 1500: of one associated station in an agreement, and of
//! 500 stations in agreements alternating, 250 in each of two shards; and how long a copy of the frame takes.

use crate::asked::Asked;
use crate::clock::{now, print_since};
use crate::stations::{config, data, event, joining};
use ap_core::{Event, ListJudge, Octets, Out, Shard};
use std::alloc::Global;
use std::rt::Clock;

/// How many stations are associated: each of two shards has identifiers for 250.
const STATIONS: u16 = 500;

/// How many frames are passed up.
pub fn ups(outs: &[Out]) -> u64 {
    let mut passed = 0u64;
    for out in outs {
        if let Out::Up(_) = out {
            passed = passed.wrapping_add(1);
        }
    }
    passed
}

/// Two shards of one access point: that of the stations with even numbers, and that of the others.
fn halves(alloc: Global) -> Option<[Shard; 2]> {
    let config = config(alloc)?;
    let even = Shard::new(alloc, 0, &config).ok()?;
    let odd = Shard::new(alloc, 1, &config).ok()?;
    Some([even, odd])
}

/// Handles an event of a station in its shard. How many frames are passed up.
fn handle(
    alloc: Global,
    shards: &mut [Shard; 2],
    station: u16,
    event: &Event,
    answers: &[u64],
) -> Option<u64> {
    let shard = &mut shards[usize::from(station % 2)];
    let outs = shard
        .handle(alloc, event, &mut ListJudge::new(answers))
        .ok()?;
    Some(ups(&outs))
}

/// A step of each of the first stations towards an agreement, about which the judge answers this.
fn join(
    alloc: Global,
    shards: &mut [Shard; 2],
    stations: u16,
    step: u8,
    answers: &[u64],
) -> Option<()> {
    for station in 0..stations {
        let event = event(joining(alloc, station, step).ok()?);
        handle(alloc, shards, station, &event, answers)?;
    }
    Some(())
}

/// What is measured: data of how many stations alternating, each with numbers of its own; how many frames; and how many
/// bytes each has.
#[derive(Clone, Copy)]
struct Load {
    stations: u16,
    frames: u64,
    size: u16,
}

impl Load {
    /// The number of the station that sends a frame.
    fn station(self, frame: u64) -> u16 {
        u16::try_from(frame % u64::from(self.stations.max(1))).unwrap_or(0)
    }

    /// The number of a frame.
    fn number(self, frame: u64) -> u16 {
        (frame / u64::from(self.stations.max(1)) % 4096) as u16
    }

    /// The events of the frames.
    fn events(self, alloc: Global) -> Option<Vec<Event>> {
        let mut events = Vec::new(alloc);
        for frame in 0..self.frames {
            let bytes = data(alloc, self.station(frame), self.number(frame), self.size).ok()?;
            events.push(event(bytes)).ok()?;
        }
        Some(events)
    }
}

/// Handles the events of a load. How many frames are passed up.
fn handle_all(alloc: Global, shards: &mut [Shard; 2], load: Load, events: &[Event]) -> Option<u64> {
    let mut passed = 0u64;
    for at in 0..events.len() {
        let station = load.station(at as u64);
        passed = passed.wrapping_add(handle(alloc, shards, station, &events[at], &[])?);
    }
    Some(passed)
}

/// Copies the bytes of each frame, and counts them.
fn copied(alloc: Global, events: &[Event]) -> Option<u64> {
    let mut bytes = 0u64;
    for event in events {
        if let Event::Frame(frame) = event {
            let copy = Octets::copy(alloc, frame.bytes()).ok()?;
            bytes = bytes.wrapping_add(copy.bytes().len() as u64);
        }
    }
    Some(bytes)
}

/// Prints how long a load takes, in new agreements, and how long copies of its frames take. The sums are how many
/// frames are passed up, and how many bytes are copied.
fn report<R: Clock + Eprint>(
    rt: &R,
    alloc: Global,
    shards: &mut [Shard; 2],
    load: Load,
) -> Option<()> {
    let _ = eprintln!(rt; "stations {}, {} bytes", load.stations, load.size);
    join(alloc, shards, load.stations, 2, &[64])?;
    let events = load.events(alloc)?;
    let start = now(rt);
    let passed = handle_all(alloc, shards, load, events.as_slice())?;
    print_since(rt, "  a frame", start, load.frames, passed);
    let start = now(rt);
    let bytes = copied(alloc, events.as_slice())?;
    print_since(rt, "  a copy", start, load.frames, bytes);
    Some(())
}

/// Associates all stations, and prints how long each load of `frames` frames takes.
fn report_all<R: Clock + Eprint>(
    rt: &R,
    alloc: Global,
    shards: &mut [Shard; 2],
    frames: u64,
) -> Option<()> {
    join(alloc, shards, STATIONS, 0, &[])?;
    join(alloc, shards, STATIONS, 1, &[])?;
    for (stations, size) in [(1, 100), (STATIONS, 100), (1, 1500), (STATIONS, 1500)] {
        let load = Load {
            stations,
            frames,
            size,
        };
        report(rt, alloc, shards, load)?;
    }
    Some(())
}

/// Prints how long each load takes, of as many frames as the first number says. None if an allocation fails.
pub fn print_times<R: Clock + Eprint>(rt: &R, alloc: Global, asked: Asked<'_>) -> Option<()> {
    let mut shards = halves(alloc)?;
    report_all(rt, alloc, &mut shards, asked.number(0, 20_000, 1000))
}
