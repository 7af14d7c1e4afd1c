//! Why an event was not put, or no handle was given.

ghost use Rattle.std.specs.Prelude.{◌≡◌};
ghost use Rattle.ap_queues.specs.Faults.{number_of};
ghost use Rattle.ap_queues.specs.declared.lines.fault.LineFault.TheVariants.{NoMemory};

use ap_model::Event;
use std::alloc::AllocError;
use std::fmt;

/// 61: a queue was full. Returns the event, with the first shard that did not get it.
#[derive(Drop)]
pub struct Unserved {
    pub event: Event,
    pub shard: u16,
}

impl Unserved {
    /// 61.
    pub fn number(&self) -> u8
        ensures is { result ≡ 61 }
    {
        61
    }
}

impl fmt::Display for Unserved {
    fn fmt<W: fmt::Write>(&self, f: &mut fmt::Formatter<W>) -> fmt::Result {
        f.write_str("the queue of the shard's worker is full")
    }
}

/// Why no handles were given.
#[derive(Clone, Copy, Debug, PartialEq, Eq)]
pub enum LineFault {
    NoMemory,
    /// All were given already.
    NoPass,
}

impl LineFault {
    /// 40 for lack of memory, 62 if all were given already.
    pub fn number(self) -> u8
        ensures is { result ≡ number_of self }
    {
        match self {
            LineFault::NoMemory => 40,
            LineFault::NoPass => 62,
        }
    }
}

impl fmt::Display for LineFault {
    fn fmt<W: fmt::Write>(&self, f: &mut fmt::Formatter<W>) -> fmt::Result {
        f.write_str(match self {
            LineFault::NoMemory => "no memory for the passes of a queue",
            LineFault::NoPass => "all passes of the queues are given out",
        })
    }
}

impl From<AllocError> for LineFault {
    ghost from_gives = { λ _ fault. fault ≡ NoMemory };

    fn from(_: AllocError) -> LineFault {
        LineFault::NoMemory
    }
}
