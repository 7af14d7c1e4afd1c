//! A block acknowledgement agreement: its reorder window and its scoreboard.
ghost use Rattle.std.specs.Prelude.{◌≡◌, ◌+◌, ◌<◌, ◌≤◌, ◌↔◌, IsTrue, true, Some, Option, []};
ghost use Rattle.arrayvec.specs.ArrayVec.{array_vec_len};
ghost use Rattle.blockack.specs.Window.{opening};
ghost use Rattle.blockack.specs.Scoreboard.{ReadsScoreboard, blank};
ghost use Rattle.blockack.specs.Passed.{frame_of};
ghost use Rattle.blockack.specs.Reading.{Reads, IsWanted, IsWaiting, IsAlone, TellsWanted, DataMovesWindow, RequestMovesWindow, EndPassesUp};
ghost use Rattle.blockack.specs.Reading.{numbers_held, most_passed};
ghost use Rattle.blockack.specs.Reading.{DataMarksScoreboard, RequestMovesScoreboard};
ghost use Rattle.blockack.specs.Placed.{is_taken, HandsBack};
ghost use Rattle.blockack.specs.Sinks.{DataPassesTo};

mod readings;

use crate::ring::{HALF, NUMBERS, Ring, distance};
use crate::scoreboard::Bitmap;
use crate::sink::Sink;
use arrayvec::ArrayVec;
use std::marker::Model;

/// What happened to an item: the window took it, or it is returned, since its number is old or
/// already taken.
#[derive(Debug, Drop, PartialEq, Eq)]
pub enum Placed<F> {
    Taken,
    Back(Option<F>),
}

/// A block acknowledgement agreement at its recipient (IEEE 802.11-2016, 10.24.7): the window with
/// the items held in it, and the scoreboard. The two move independently.
///
/// Sequence numbers count modulo 4096. The window has 1 to 64 numbers, and nothing is allocated.
/// A contract sees the readings of an agreement: the window's start and size, what is held from the
/// start on, and the scoreboard. What it says of them holds for every window and scoreboard over
/// whole numbers with these readings.
#[derive(Drop)]
pub struct Agreement<F> {
    ring: Ring<F>,
    start: u16,
    size: u16,
    scoreboard: Bitmap,
}

impl<F> Model for Agreement<F> {
    ghost use Rattle.std.specs.Prelude.{◌≡◌, map};
    ghost use Rattle.std.specs.List.{range_with_len};
    ghost use Rattle.blockack.specs.Reading.{Reading};
    ghost use Rattle.blockack.specs.Ring.{ring_at, held_count, IsSoundRing};
    ghost use Rattle.blockack.specs.Scoreboard.{IsSoundBitmap};

    ghost Value = { Reading F };

    ghost view = { λ a. record {
      start = a.start;
      size = a.size;
      held = map (ring_at a.ring.slots a.start) (range_with_len 0 64);
      scoreboard_start = a.scoreboard.start;
      scoreboard_bits = a.scoreboard.bits;
    } };

    ghost invariant = { λ a. IsSoundRing a.ring.slots a.start a.size × IsSoundBitmap a.size a.scoreboard.start a.scoreboard.bits × (a.ring.count ≡ held_count a.ring.slots) };
}

impl<F: Drop> Agreement<F> {
    /// An agreement that has taken nothing, with the agreed starting sequence number and buffer size (10.24.2).
    pub fn open(start: u16, size: u16) -> Self
        requires start_fits { start < 4096 }
        requires some_size { 1 ≤ size }
        requires size_fits { size ≤ 64 }
        ensures size { result.size ≡ size }
        ensures window { Reads (opening start) result }
        ensures scoreboard { ReadsScoreboard (blank start size) size result.scoreboard_start
            result.scoreboard_bits }
    {
        let ring = Ring::new();
        Agreement {
            ring,
            start,
            size,
            scoreboard: Bitmap::new(start, size),
        }
    }

    /// Whether data with this sequence number would be taken: it is neither old nor already taken.
    pub fn wants(&self, number: u16) -> bool
        requires { number < 4096 }
        ensures reading { IsTrue result ↔ IsWanted self.now number }
        ensures window { TellsWanted result self.now number }
    {
        let ahead = distance(self.start, number);
        if ahead >= HALF {
            return false;
        }
        if ahead >= self.size {
            return true;
        }
        self.ring.is_free(number)
    }

    /// A bound on the frames that data with this sequence number passes up: 0 if it waits for an earlier number,
    /// otherwise one more than are held.
    pub fn most_passed(&self, number: u16) -> usize
        requires { number < 4096 }
        ensures { result ≡ most_passed self.now number }
    {
        let ahead = distance(self.start, number);
        if 0 < ahead && ahead < self.size {
            return 0;
        }
        self.held() + 1
    }

    /// Whether data with this sequence number would be passed up at once and alone: it is the window's first number,
    /// and nothing is held for the next one.
    pub fn passes_alone(&self, number: u16) -> bool
        requires { number < 4096 }
        ensures { IsTrue result ↔ IsAlone self.now number }
    {
        number == self.start && (self.ring.count == 0 || self.ring.is_free(number + 1))
    }

    /// Data came (10.24.7.6.2) that is passed up at once and alone. The window doesn't store its item: the caller
    /// passes it up. The scoreboard (10.24.7.3) marks its number, unless that is before the scoreboard's window.
    pub fn pass_alone(&mut self, number: u16)
        requires number_fits { number < 4096 }
        requires alone { IsAlone self.old number }
        ensures size { self.new.size ≡ self.old.size }
        ensures window { (item : Option F) →
            DataMovesWindow true number item self.old self.new (frame_of number (Some item)) }
        ensures scoreboard { DataMarksScoreboard number self.old self.new }
    {
        let size = self.size;
        self.scoreboard.on_data(size, number);
        self.start = (number + 1) % NUMBERS;
    }

    /// Data came (10.24.7.6.2) that waits for an earlier number: the window holds `item`, and passes nothing up. An item
    /// `None`, a dropped frame, occupies its number. The scoreboard (10.24.7.3) marks the number, unless that is before
    /// the scoreboard's window.
    pub fn hold(&mut self, number: u16, item: Option<F>)
        requires number_fits { number < 4096 }
        requires waits { IsWaiting self.old number }
        ensures size { self.new.size ≡ self.old.size }
        ensures window { DataMovesWindow true number item self.old self.new [] }
        ensures scoreboard { DataMarksScoreboard number self.old self.new }
    {
        let size = self.size;
        self.scoreboard.on_data(size, number);
        self.ring.put(number, item);
    }

    /// Wanted data came (10.24.7.6.2): takes `item` at `number`, and passes to `out` the frames that the window then
    /// passes up, each with its sequence number. An item `None`, a dropped frame, occupies its number and is never
    /// passed up. The scoreboard (10.24.7.3) marks the number, unless that is before the scoreboard's window.
    pub fn pass_to<S: Sink<F>>(&mut self, number: u16, item: Option<F>, out: &mut S)
        requires number_fits { number < 4096 }
        requires wanted { IsWanted self.old number }
        requires room { numbers_held self.old + 1 ≤ S.room out.old }
        ensures size { self.new.size ≡ self.old.size }
        ensures window { DataPassesTo S.receives number item self.old self.new out.old out.new }
        ensures scoreboard { DataMarksScoreboard number self.old self.new }
    {
        let (start, size) = (self.start, self.size);
        self.scoreboard.on_data(size, number);
        let passed = self.ring.store(start, size, number, item, out);
        self.start = (start + passed) % NUMBERS;
    }

    /// Data came (10.24.7.6.2): takes `item` at `number` if it is wanted, and puts into `out` the frames
    /// that the window then passes up, each with its sequence number. An item `None`, a dropped frame,
    /// occupies its number and is never passed up. An unwanted item is returned. Wanted or not, the
    /// scoreboard (10.24.7.3) marks the number, unless that is before the scoreboard's window.
    pub fn on_data<A>(
        &mut self,
        number: u16,
        item: Option<F>,
        out: &mut ArrayVec<(u16, F), 64, A>,
    ) -> Placed<F>
        requires number_fits { number < 4096 }
        requires empty { array_vec_len out.old ≡ 0 }
        ensures wanted { IsTrue (is_taken result) ↔ IsWanted self.old number }
        ensures back { HandsBack item result }
        ensures size { self.new.size ≡ self.old.size }
        ensures window { DataMovesWindow (is_taken result) number item self.old self.new
            out.new.items }
        ensures scoreboard { DataMarksScoreboard number self.old self.new }
        ensures few { array_vec_len out.new ≤ most_passed self.old number }
    {
        if !self.wants(number) {
            self.scoreboard.on_data(self.size, number);
            return Placed::Back(item);
        }
        self.pass_to(number, item, out);
        Placed::Taken
    }

    /// A BlockAckReq came (10.24.7.6.3): moves the window to `start` if that is ahead, and passes up in
    /// `out` what is older, then what follows in order. The scoreboard (10.24.7.3) moves likewise.
    pub fn on_bar<A>(&mut self, start: u16, out: &mut ArrayVec<(u16, F), 64, A>)
        requires start_fits { start < 4096 }
        requires empty { array_vec_len out.old ≡ 0 }
        ensures size { self.new.size ≡ self.old.size }
        ensures window { RequestMovesWindow start self.old self.new out.new.items }
        ensures scoreboard { RequestMovesScoreboard start self.old self.new }
        ensures few { array_vec_len out.new ≤ numbers_held self.old }
    {
        self.scoreboard.on_request(self.size, start);
        let ahead = distance(self.start, start);
        if ahead >= HALF {
            return;
        }
        let passed = self.ring.skip(self.start, ahead, out);
        self.start = (self.start + passed) % NUMBERS;
    }

    /// The agreement ends (10.24.5): passes up in `out` all that is held, in order, which moves the window past the
    /// last held number. The standard has the recipient release its buffer; that it first passes up what it held is
    /// this access point's own rule.
    pub fn close<A>(self, out: &mut ArrayVec<(u16, F), 64, A>)
        requires empty { array_vec_len out.old ≡ 0 }
        ensures passes { EndPassesUp self out.new.items }
        ensures few { array_vec_len out.new ≤ numbers_held self }
    {
        let Agreement {
            mut ring,
            start,
            size,
            scoreboard: _,
        } = self;
        let _passed = ring.skip(start, size, out);
    }
}
