//! Why a table or a seat is refused.

ghost use Rattle.std.specs.Prelude.{◌≡◌};
ghost use Rattle.shared_maps.specs.Faults.{number_of};
ghost use Rattle.shared_maps.specs.declared.fault.MapFault.TheVariants.{NoMemory};

use std::alloc::AllocError;
use std::fmt;

#[derive(Clone, Copy, Debug, PartialEq, Eq)]
pub enum MapFault {
    NoMemory,
    /// All seats are handed out, or their number isn't 1 to 16.
    NoSeat,
}

impl MapFault {
    /// 40 for lack of memory, 62 for lack of a seat.
    pub fn number(self) -> u8
        ensures is { result ≡ number_of self }
    {
        match self {
            MapFault::NoMemory => 40,
            MapFault::NoSeat => 62,
        }
    }
}

impl fmt::Display for MapFault {
    fn fmt<W: fmt::Write>(&self, f: &mut fmt::Formatter<W>) -> fmt::Result {
        f.write_str(match self {
            MapFault::NoMemory => "no memory for a table of map words",
            MapFault::NoSeat => "no seat at the table of map words",
        })
    }
}

impl From<AllocError> for MapFault {
    ghost from_gives = { λ _ fault. fault ≡ NoMemory };

    fn from(_: AllocError) -> MapFault {
        MapFault::NoMemory
    }
}
