//! Tables that threads share by reference, while each has its own seat.

ghost use Rattle.uses_live.specs.Loads.{IsSeatAt, Loaded};

use bpf_regions::MapOp;
use shared_maps::{MapSeat, MapTable};
use std::thread::{Threads, join};

/// The tables of a running access point.
#[derive(Drop)]
pub struct Live {
    pub maps: Vec<MapTable>,
}

impl Live {
    /// One load by a seat, which is returned.
    pub fn load(&self, map: usize, word: u32, mut seat: MapSeat) -> (u64, MapSeat)
        requires own { IsSeatAt self.now.maps.items map word seat }
        ensures loaded { Loaded self.now.maps.items map word seat result.0 result.1 }
    {
        let answer = self.maps[map].access(&mut seat, word, MapOp::Load);
        (answer, seat)
    }
}

/// Two threads load one word. The tables are shared, so they are `Sync`; each seat moves to its thread and back, so it is `Send`.
pub fn load_both<R: Threads + Sync>(
    rt: &R,
    live: &Live,
    map: usize,
    word: u32,
    one: MapSeat,
    other: MapSeat,
) -> ((u64, MapSeat), (u64, MapSeat))
    requires one { IsSeatAt live.now.maps.items map word one }
    requires other { IsSeatAt live.now.maps.items map word other }
    ensures one { Loaded live.now.maps.items map word one result.0.0 result.0.1 }
    ensures other { Loaded live.now.maps.items map word other result.1.0 result.1.1 }
{
    join(
        rt,
        || live.load(map, word, one),
        || live.load(map, word, other),
    )
}
