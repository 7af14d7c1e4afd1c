//! How long an access point of one caller, without a program, takes for a data frame of 100 bytes of an associated
//! station: what `apd_link_frame` does inside. The least of 500 rounds of 1000.

ghost use Rattle.std.specs.Prelude.{◌≡◌, []};
ghost use Rattle.bpf_helpers.specs.Hooked.{IsFitting};

use crate::asked::Asked;
use crate::clock::{Work, least, print_each};
use crate::link::ups;
use crate::stations::{config, joining, plain};
use ap_single::AccessPoint;
use bpf_helpers::WorkerState;
use bpf_regions::Shapes;
use std::alloc::Global;
use std::rt::Clock;

/// How often a round does it.
const TIMES: u64 = 1000;

/// An access point without maps, and what its programs would change.
#[derive(Drop)]
struct Single {
    access_point: AccessPoint,
    state: WorkerState,
    ghost shapes: { access_point.programs.shapes ≡ [] },
    ghost fitting: { IsFitting [] 0 state.seats },
}

impl Single {
    /// One that has handled nothing. None if an allocation fails.
    fn new(alloc: Global) -> Option<Self> {
        let config = config(alloc)?;
        let shapes = Shapes::new(Vec::new(alloc))?;
        let access_point = AccessPoint::new(alloc, &config, shapes).ok()?;
        let state = WorkerState::new(Vec::new(alloc), 0);
        Some(Single {
            access_point,
            state,
        })
    }

    /// Receives a frame. How many frames are passed up; 0 if an allocation fails.
    fn receive(&mut self, alloc: Global, bytes: &[u8]) -> u64 {
        let received = self
            .access_point
            .receive(alloc, bytes, &[], &mut self.state);
        match received {
            Some(outs) => ups(&outs),
            None => 0,
        }
    }
}

/// An access point that receives a frame. The number is how many frames are passed up.
#[derive(Drop)]
struct Receiving<'a> {
    alloc: Global,
    single: &'a mut Single,
    bytes: &'a [u8],
}

impl Work for Receiving<'_> {
    #[inline(never)]
    fn once(&mut self) -> u64 {
        self.single.receive(self.alloc, self.bytes)
    }
}

/// Prints how long a data frame of station 0 takes, which associates first. None if an allocation fails.
pub fn print_times<R: Clock + Eprint>(rt: &R, alloc: Global, asked: Asked<'_>) -> Option<()> {
    let mut single = Single::new(alloc)?;
    for step in 0..2u8 {
        let bytes = joining(alloc, 0, step).ok()?;
        let _ups = single.receive(alloc, bytes.as_slice());
    }
    let bytes = plain(alloc, 0).ok()?;
    let mut receiving = Receiving {
        alloc,
        single: &mut single,
        bytes: bytes.as_slice(),
    };
    let (nanos, sum) = least(rt, &mut receiving, TIMES, asked.choose(500, 2));
    print_each(rt, "  a frame received", nanos, TIMES, sum);
    Some(())
}
