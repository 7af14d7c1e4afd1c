//! The scoreboard of an agreement: which numbers came, as a bitmap over its own window.
ghost use Rattle.std.specs.Prelude.{◌≡◌, ℕ, ◌+◌, ◌^◌, ◌<◌, ◌≤◌, ◌==◌, cond};
ghost use Rattle.std.specs.Int.{bit_at};
ghost use Rattle.blockack.specs.Scoreboard.{ReadsScoreboard, DataMarks, RequestMarks, IsSoundBitmap, blank};

use crate::ring::{HALF, NUMBERS, distance};

/// The full-state scoreboard of IEEE 802.11-2016, 10.24.7.3: bit i says whether number `start` + i came.
#[derive(Clone, Copy)]
pub(crate) struct Bitmap {
    pub(crate) start: u16,
    pub(crate) bits: u64,
}

impl Bitmap {
    /// A scoreboard to which nothing came.
    pub(crate) fn new(start: u16, size: u16) -> Self
        requires start_fits { start < 4096 }
        requires some_size { 1 ≤ size }
        ensures sound { IsSoundBitmap size result.start result.bits }
        ensures blank { ReadsScoreboard (blank start size) size result.start result.bits }
    {
        Bitmap { start, bits: 0 }
    }

    /// Data with this number came.
    pub(crate) fn on_data(&mut self, size: u16, number: u16)
        requires sound { IsSoundBitmap size self.old.start self.old.bits }
        requires number_fits { number < 4096 }
        requires some_size { 1 ≤ size }
        requires size_fits { size ≤ 64 }
        ensures sound { IsSoundBitmap size self.new.start self.new.bits }
        ensures step { DataMarks size number self.old.start self.old.bits self.new.start
            self.new.bits }
    {
        let ahead = distance(self.start, number);
        if ahead >= HALF {
            return;
        }
        let by = (ahead + 1).saturating_sub(size);
        self.start = (self.start + by) % NUMBERS;
        self.bits = marked(shifted(self.bits, by), ahead - by);
    }

    /// A BlockAckReq with this starting sequence number came.
    pub(crate) fn on_request(&mut self, size: u16, number: u16)
        requires sound { IsSoundBitmap size self.old.start self.old.bits }
        requires number_fits { number < 4096 }
        requires some_size { 1 ≤ size }
        requires size_fits { size ≤ 64 }
        ensures sound { IsSoundBitmap size self.new.start self.new.bits }
        ensures step { RequestMarks size number self.old.start self.old.bits self.new.start
            self.new.bits }
    {
        let ahead = distance(self.start, number);
        if ahead >= HALF || ahead == 0 {
            return;
        }
        self.start = number;
        self.bits = shifted(self.bits, ahead);
    }
}

/// The bits from bit `by` on.
fn shifted(bits: u64, by: u16) -> u64
    ensures fits { (size : ℕ) → bits < 2 ^ size → result < 2 ^ size }
    ensures bits { (i : ℕ) → bit_at result i ≡ bit_at bits (by + i) }
{
    if by < 64 { bits >> by } else { 0 }
}

/// The bits, with bit `at` set.
fn marked(bits: u64, at: u16) -> u64
    requires { at < 64 }
    ensures fits { (size : ℕ) → bits < 2 ^ size → at < size → result < 2 ^ size }
    ensures bits { (i : ℕ) → bit_at result i ≡ cond (i == at) 1 (bit_at bits i) }
{
    bits | (1 << at)
}
