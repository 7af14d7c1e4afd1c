//! One agreement.

ghost use Rattle.std.specs.Prelude.{◌≡◌, ◌+◌, ◌<◌, ◌≤◌, ◌↔◌, ℕ, IsTrue, IfOk, None, [], true, false, All};
ghost use Rattle.arrayvec.specs.ArrayVec.{array_vec_len};
ghost use Rattle.blockack.specs.Reading.{IsWanted, IsWaiting, IsAlone, EndPassesUp, numbers_held, most_passed};
ghost use Rattle.ap_agreements.specs.Tables.{key_cmp, key_of, is_late};
ghost use Rattle.ap_agreements.specs.Uses.{Opens, DataUse, PassingUse, AloneUse, RequestUse};
ghost use Rattle.ap_agreements.specs.Listing.{row_of};

use crate::in_force::AgreementInForce;
use crate::key::Key;
use ap_model::Held;
use arrayvec::ArrayVec;
use blockack::{Agreement, Placed, Sink};
use mac_types::{Address, SequenceNumber, Tid};
use std::alloc::{AllocError, Global};
use std::cmp::Ordering;
use std::marker::Model;

/// What a window releases at once: frames with their sequence numbers, in order.
pub type Released = ArrayVec<(u16, Held), 64>;

/// The agreement of a station for a TID: its window, its timeout, and when it was last used.
#[derive(Drop)]
pub struct Entry {
    key: Key,
    timeout: u16,
    last_use: u64,
    window: Box<Agreement<Held>>,
}

impl Model for Entry {
    ghost use Rattle.ap_agreements.specs.Tables.{Kept};

    ghost Value = { Kept };

    ghost view = { λ e. record {
      station = e.key.0;
      tid = e.key.1;
      using = record { window = e.window.value; timeout = e.timeout; last_use = e.last_use };
    } };
}

impl Entry {
    /// Allocates the agreement of a station for a TID, which is yet to be opened.
    pub fn new(alloc: Global, station: Address, tid: Tid) -> Result<Self, AllocError>
        ensures { IfOk result (λ e. key_of e ≡ (station, tid)) }
    {
        let window = Box::new(alloc, Agreement::open(0, 1))?;
        Ok(Entry {
            key: Key::new(station, tid),
            timeout: 0,
            last_use: 0,
            window,
        })
    }

    /// The same agreement, opened anew at this time: its window starts at this number and has this
    /// size.
    pub fn opened(mut self, start: SequenceNumber, size: u8, timeout: u16, clock: u64) -> Self
        requires some { 1 ≤ size }
        requires fits { size ≤ 64 }
        ensures key { key_of result ≡ key_of self }
        ensures opens { Opens start size timeout clock result.using }
    {
        *self.window = Agreement::open(start.number(), u16::from(size));
        self.timeout = timeout;
        self.last_use = clock;
        self
    }

    pub fn station(&self) -> Address
        ensures { result ≡ self.now.station }
    {
        self.key.station()
    }

    pub fn tid(&self) -> Tid
        ensures { result ≡ self.now.tid }
    {
        self.key.tid()
    }

    /// How its station and TID compare with these.
    #[inline(always)]
    pub(crate) fn compare(&self, key: &Key) -> Ordering
        ensures { result ≡ key_cmp (key_of self.now) key.now }
    {
        self.key.compare(key)
    }

    /// The first sequence number of the window.
    pub fn start(&self) -> SequenceNumber
        ensures { result ≡ self.now.using.window.start }
    {
        match SequenceNumber::new(self.window.start()) {
            Some(start) => start,
            None => unreachable!(),
        }
    }

    /// What is listed of it.
    pub fn in_force(&self) -> AgreementInForce
        ensures { result ≡ row_of self.now }
    {
        AgreementInForce {
            station: self.station(),
            tid: self.tid(),
            start: self.start(),
            size: self.window.size(),
            held: self.held(),
            timeout: self.timeout,
        }
    }

    /// Whether the window would take data with this number.
    pub fn wants(&self, number: SequenceNumber) -> bool
        ensures { IsTrue result ↔ IsWanted self.now.using.window number }
    {
        self.window.wants(number.number())
    }

    /// The most frames that data with this number can pass up.
    pub fn most_passed(&self, number: SequenceNumber) -> usize
        ensures { result ≡ most_passed self.now.using.window number }
    {
        self.window.most_passed(number.number())
    }

    /// How many numbers the window holds, dropped ones included: the most frames that a BlockAckReq or
    /// the end can pass up.
    pub fn held(&self) -> usize
        ensures is { result ≡ numbers_held self.now.using.window }
        ensures fits { result ≤ 64 }
    {
        self.window.held()
    }

    /// Whether data with this number would be passed up at once, and nothing after it.
    pub fn passes_alone(&self, number: SequenceNumber) -> bool
        ensures { IsTrue result ↔ IsAlone self.now.using.window number }
    {
        self.window.passes_alone(number.number())
    }

    /// Whether it has a timeout, and was unused for at least that long.
    pub fn is_late(&self, clock: u64) -> bool
        ensures { result ≡ is_late clock self.now.using }
    {
        self.timeout > 0 && clock.saturating_sub(self.last_use) >= u64::from(self.timeout)
    }

    /// Data came at this time that is passed up at once, and nothing after it. The window doesn't hold
    /// it; the caller passes it up.
    pub fn pass_alone(&mut self, number: SequenceNumber, clock: u64)
        requires { IsAlone self.old.using.window number }
        ensures key { key_of self.new ≡ key_of self.old }
        ensures uses { AloneUse number clock self.old.using self.new.using }
    {
        self.last_use = clock;
        self.window.pass_alone(number.number());
    }

    /// Data came at this time that waits for an earlier number. The window holds its item, `None` if it
    /// was dropped.
    pub fn hold(&mut self, number: SequenceNumber, item: Option<Held>, clock: u64)
        requires { IsWaiting self.old.using.window number }
        ensures key { key_of self.new ≡ key_of self.old }
        ensures uses { DataUse true number item clock self.old.using self.new.using [] }
    {
        self.last_use = clock;
        self.window.hold(number.number(), item);
    }

    /// Wanted data came at this time. The window takes its item, `None` if it was dropped, and passes
    /// to `out` what it then passes up.
    pub fn pass_to<S: Sink<Held>>(
        &mut self,
        number: SequenceNumber,
        item: Option<Held>,
        clock: u64,
        out: &mut S,
    )
        requires wanted { IsWanted self.old.using.window number }
        requires room { numbers_held self.old.using.window + 1 ≤ S.room out.old }
        ensures key { key_of self.new ≡ key_of self.old }
        ensures uses { PassingUse S.receives number item clock self.old.using self.new.using out.old
            out.new }
    {
        self.last_use = clock;
        self.window.pass_to(number.number(), item, out);
    }

    /// Unwanted data came at this time.
    #[inline(never)]
    pub fn leave(&mut self, number: SequenceNumber, clock: u64)
        requires { IsWanted self.old.using.window number → ⊥ }
        ensures key { key_of self.new ≡ key_of self.old }
        ensures uses { DataUse false number None clock self.old.using self.new.using [] }
    {
        self.last_use = clock;
        let mut none = Released::new();
        match self.window.on_data(number.number(), None, &mut none) {
            Placed::Taken => unreachable!(),
            Placed::Back(_) => {}
        }
    }

    /// A BlockAckReq with this start came at this time.
    pub fn request(&mut self, start: SequenceNumber, clock: u64, out: &mut Released)
        requires empty { array_vec_len out.old ≡ 0 }
        ensures key { key_of self.new ≡ key_of self.old }
        ensures uses { RequestUse start clock self.old.using self.new.using out.new.items }
        ensures few { array_vec_len out.new ≤ numbers_held self.old.using.window }
        ensures numbers { All (λ p. p.0 < 4096) out.new.items }
    {
        self.last_use = clock;
        let _start = self.window.start();
        self.window.on_bar(start.number(), out);
    }

    /// The content of a BlockAck: the scoreboard's first number, and a bit for each number from there
    /// on.
    pub fn scoreboard(&self) -> (SequenceNumber, u64)
        ensures start { result.0 ≡ self.now.using.window.scoreboard_start }
        ensures bits { result.1 ≡ self.now.using.window.scoreboard_bits }
    {
        let (start, bits) = self.window.bitmap();
        match SequenceNumber::new(start) {
            Some(start) => (start, bits),
            None => unreachable!(),
        }
    }

    /// The agreement ends, and releases all that it holds.
    pub fn close(self, out: &mut Released)
        requires empty { array_vec_len out.old ≡ 0 }
        ensures passes { EndPassesUp self.using.window out.new.items }
        ensures few { array_vec_len out.new ≤ numbers_held self.using.window }
        ensures numbers { All (λ p. p.0 < 4096) out.new.items }
    {
        let Entry {
            key: _,
            timeout: _,
            last_use: _,
            window,
        } = self;
        let agreement = Box::into_inner(window);
        let _start = agreement.start();
        agreement.close(out);
    }
}
