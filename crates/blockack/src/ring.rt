//! The ring of 64 slots for what the window holds.
ghost use Rattle.std.specs.Prelude.{◌≡◌, ℕ, ◌+◌, ◌-◌, ◌%◌, ◌<◌, ◌≤◌, ◌↔◌, IsTrue, None, Some, length, slice_index_or, slice_set};
ghost use Rattle.arrayvec.specs.ArrayVec.{array_vec_len};
ghost use Rattle.blockack.specs.Window.{IsNextFree};
ghost use Rattle.blockack.specs.Ring.{IsSoundRing, ring_at, held_count, gathered, ahead, stored, Shifts};
ghost use Rattle.blockack.specs.Sinks.{ReceivesAll};

use crate::sink::Sink;
use arrayvec::ArrayVec;
use std::array;

/// How many sequence numbers there are (IEEE 802.11-2016, 9.2.4.4.2: they count modulo 4096).
pub(crate) const NUMBERS: u16 = 4096;

/// A number this far ahead, or further, is old (10.24.7.6.2 and 10.24.7.6.3).
pub(crate) const HALF: u16 = 2048;

/// How far `number` is ahead of `start`, modulo 4096.
pub(crate) fn distance(start: u16, number: u16) -> u16
    requires start_fits { start < 4096 }
    requires number_fits { number < 4096 }
    ensures { result ≡ ahead start number }
{
    (number + NUMBERS - start) % NUMBERS
}

/// What is held for a number: nothing, or its item, which is `None` if its verdict dropped the frame.
pub(crate) type Slot<F> = Option<Option<F>>;

/// The slot of each number modulo 64, and how many of them are held.
#[derive(Drop)]
pub(crate) struct Ring<F> {
    pub(crate) slots: [Slot<F>; 64],
    pub(crate) count: u16,
}

impl<F> Ring<F> {
    /// A ring that holds nothing.
    pub(crate) fn new() -> Self
        ensures slots { (i : ℕ) → slice_index_or result.slots i None ≡ None }
        ensures long { length result.slots ≡ 64 }
        ensures count { result.count ≡ 0 }
    {
        Ring {
            slots: array::from_fn(|_| None),
            count: 0,
        }
    }

    /// Whether nothing is held for `number`.
    pub(crate) fn is_free(&self, number: u16) -> bool
        ensures { IsTrue result ↔ slice_index_or self.now.slots (number % 64) None ≡ None }
    {
        self.slots[(number % 64) as usize].is_none()
    }
}

impl<F: Drop> Ring<F> {
    /// Stores `item` for `number`, whose slot is empty.
    pub(crate) fn put(&mut self, number: u16, item: Option<F>)
        requires free { slice_index_or self.old.slots (number % 64) None ≡ None }
        requires held { self.old.count ≡ held_count self.old.slots }
        ensures slots { self.new.slots ≡ slice_set self.old.slots (number % 64) (Some item) }
        ensures held { self.new.count ≡ held_count self.new.slots }
        ensures more { held_count self.new.slots ≡ held_count self.old.slots + 1 }
    {
        self.slots[(number % 64) as usize] = Some(item);
        self.count += 1;
    }

    /// Empties the first `least` slots from `start` on, and then the slots up to the first empty one.
    /// Passes their frames to `out`, and returns how many slots it passed.
    pub(crate) fn advance<S: Sink<F>>(&mut self, start: u16, least: u16, out: &mut S) -> u16
        requires start_fits { start < 4096 }
        requires least_fits { least < 4096 }
        requires held { self.old.count ≡ held_count self.old.slots }
        requires room { held_count self.old.slots ≤ S.room out.old }
        ensures next { IsNextFree (ring_at self.old.slots start) least result }
        ensures rest { Shifts result (ring_at self.old.slots start)
            (ring_at self.new.slots ((start + result) % 4096)) }
        ensures frames { ReceivesAll S.receives out.old (gathered (ring_at self.old.slots start)
            start result) out.new }
        ensures held { self.new.count ≡ held_count self.new.slots }
        ensures room { held_count self.new.slots + S.room out.old ≤ S.room out.new + held_count
            self.old.slots }
        ensures few { length (gathered (ring_at self.old.slots start) start result) + held_count
            self.new.slots ≤ held_count self.old.slots }
        ensures long { length self.new.slots ≡ 64 }
    {
        let mut moved = 0;
        let mut at = start;
        while moved < least || self.slots[(at % 64) as usize].is_some() {
            let slot = &mut self.slots[(at % 64) as usize];
            match slot.take() {
                Some(Some(frame)) => {
                    self.count -= 1;
                    out.receive(at, frame);
                }
                Some(None) => self.count -= 1,
                None => {}
            }
            at = (at + 1) % NUMBERS;
            moved += 1;
        }
        moved
    }

    /// As `advance`, into an empty list.
    pub(crate) fn skip<A>(
        &mut self,
        start: u16,
        least: u16,
        out: &mut ArrayVec<(u16, F), 64, A>,
    ) -> u16
        requires start_fits { start < 4096 }
        requires least_fits { least < 4096 }
        requires held { self.old.count ≡ held_count self.old.slots }
        requires empty { array_vec_len out.old ≡ 0 }
        ensures next { IsNextFree (ring_at self.old.slots start) least result }
        ensures rest { Shifts result (ring_at self.old.slots start)
            (ring_at self.new.slots ((start + result) % 4096)) }
        ensures frames { out.new.items ≡ gathered (ring_at self.old.slots start) start result }
        ensures held { self.new.count ≡ held_count self.new.slots }
        ensures long { length self.new.slots ≡ 64 }
        ensures few { array_vec_len out.new ≤ held_count self.old.slots }
    {
        self.advance(start, least, out)
    }

    /// Stores `item` for `number`, moves the window as far as that needs, and then to the first missing
    /// number. Returns how many slots it passed.
    pub(crate) fn store<S: Sink<F>>(
        &mut self,
        start: u16,
        size: u16,
        number: u16,
        item: Option<F>,
        out: &mut S,
    ) -> u16
        requires number_fits { number < 4096 }
        requires sound { IsSoundRing self.old.slots start size }
        requires near { ahead start number < 2048 }
        requires free { ring_at self.old.slots start (ahead start number) ≡ None }
        requires held { self.old.count ≡ held_count self.old.slots }
        requires room { held_count self.old.slots + 1 ≤ S.room out.old }
        ensures next { IsNextFree (stored self.old.slots start number item)
            (ahead start number + 1 - size) result }
        ensures rest { Shifts result (stored self.old.slots start number item)
            (ring_at self.new.slots ((start + result) % 4096)) }
        ensures frames { ReceivesAll S.receives out.old (gathered
            (stored self.old.slots start number item) start result) out.new }
        ensures held { self.new.count ≡ held_count self.new.slots }
        ensures long { length self.new.slots ≡ 64 }
        ensures few { length (gathered (stored self.old.slots start number item) start result) ≤
            held_count self.old.slots + 1 }
    {
        let least = (distance(start, number) + 1).saturating_sub(size);
        let passed = self.advance(start, least, out);
        self.put(number, item);
        passed + self.advance((start + passed) % NUMBERS, 0, out)
    }
}
