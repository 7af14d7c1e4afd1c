//! What a run takes its lines and its time from.

ghost use Rattle.std.specs.Prelude.{◌≡◌, Option};
ghost use Rattle.apd_driver.specs.Units.{Passes, Since};

use apd_files::FileFault;
use std::alloc::Global;

/// What comes of an input.
#[derive(Drop)]
pub enum Arrival {
    /// The next bytes; none at the end of the input.
    Bytes(Vec<u8>),
    /// Nothing came for a while, in which time may have passed.
    Nothing,
}

/// An input that comes while a program runs, and the time that passes meanwhile.
pub trait Source {
    // The first value of the clock by which time passes, and what was told since; none until it could be read.
    ghost clock: { Self → Option Since };

    /// Waits for what comes next, but for a while at most if time passes meanwhile.
    fn next(&mut self, alloc: Global) -> Result<Arrival, FileFault>
        ensures clock { clock self.new ≡ clock self.old };

    /// How many units of 1024 microseconds have passed that weren't told before, by one look at the clock, whatever it shows.
    fn passed(&mut self) -> u32
        ensures passes { Passes (clock self.old) (clock self.new) result };

    /// Ends what runs beside it, unless that waits for input.
    fn end(self);
}
