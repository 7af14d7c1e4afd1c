//! What can be read from an agreement.
ghost use Rattle.std.specs.Prelude.{◌≡◌, ◌^◌, ◌<◌, ◌≤◌};
ghost use Rattle.blockack.specs.Reading.{numbers_held};

use super::Agreement;

impl<F: Drop> Agreement<F> {
    /// The first sequence number of the window, modulo 4096.
    pub fn start(&self) -> u16
        ensures is { result ≡ self.now.start }
        ensures fits { result < 4096 }
    {
        self.start
    }

    /// How many numbers the window has.
    pub fn size(&self) -> u16
        ensures is { result ≡ self.now.size }
        ensures some { 1 ≤ result }
        ensures fits { result ≤ 64 }
    {
        self.size
    }

    /// How many numbers are held, including those of dropped frames. No BlockAckReq or end passes up more frames.
    pub fn held(&self) -> usize
        ensures is { result ≡ numbers_held self.now }
        ensures fits { result ≤ 64 }
    {
        usize::from(self.ring.count)
    }

    /// What a BlockAck says (10.24.7.5): the scoreboard's first number modulo 4096, and a bit for each
    /// number from there on. Bit 0 is the first number; no bit beyond the last is set.
    pub fn bitmap(&self) -> (u16, u64)
        ensures start { result.0 ≡ self.now.scoreboard_start }
        ensures start_fits { result.0 < 4096 }
        ensures bits { result.1 ≡ self.now.scoreboard_bits }
        ensures bits_fit { result.1 < 2 ^ self.now.size }
    {
        (self.scoreboard.start, self.scoreboard.bits)
    }
}
