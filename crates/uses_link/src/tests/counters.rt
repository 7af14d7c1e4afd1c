//! What a shard counts.

use super::Line::{Frame, Kick, Tick};
use super::{ASSOCIATION, AUTHENTICATION, Line, comes, shard};
use crate::same::same;

/// Events at a shard, and how many stations are associated after each, and its clock.
static COUNTED: &[(Line<'static>, u16, u64)] = &[
    (Frame(AUTHENTICATION), 0, 0),
    (Frame(ASSOCIATION), 1, 0),
    (Tick(7), 1, 7),
    (Tick(5), 1, 12),
    (Kick(1), 0, 12),
];

#[test]
fn a_shard_counts_its_stations_and_its_time(rt: HostRuntime) {
    let mut shard = shard(&rt, rt.alloc(), 2);
    for (line, stations, clock) in COUNTED {
        comes(&rt, rt.alloc(), &mut shard, *line);
        let found = (shard.stations(), shard.clock());
        same(&rt, found, (*stations, *clock), "stations, clock");
    }
    // Freed by a call, since a shard has many parts.
    drop(shard);
}
