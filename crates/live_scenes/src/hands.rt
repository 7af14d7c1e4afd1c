//! The users of an access point, each with its token.

ghost use Rattle.std.specs.Prelude.{◌≡◌, ◌<◌};
ghost use Rattle.live_scenes.specs.Rights.{IsChief, IsHand};

use crate::frames::{address, joining};
use crate::purse::Purse;
use ap_books::Ledgers;
use ap_live::{Gate, LiveAp, OperatorToken, Tagged, WorkerToken};
use ap_locked::Journals;
use ap_model::{Event, Out};
use ap_queues::Unserved;
use bpf_regions::Scope;
use mac_types::{Address, Reason};
use std::alloc::{AllocError, Global};
use std::sync::Wait;
use std::thread::yield_now;

/// A worker of an access point, with its number.
#[derive(Drop)]
pub struct Hand<'a, B: Ledgers + Journals> {
    pub(crate) ap: &'a LiveAp<B>,
    pub(crate) token: Box<WorkerToken<B>>,
    pub number: u8,
    pub ghost is_hand: { IsHand ap.now token.value },
}

impl<'a, B: Ledgers + Journals> Hand<'a, B> {
    /// Serves the worker's queue, as `LiveAp::serve`.
    pub fn serve<R: Wait, G: Gate>(
        &mut self,
        rt: &R,
        alloc: Global,
        gate: &G,
        list: &mut Vec<Tagged>,
    ) -> Result<(), AllocError> {
        self.ap.serve(rt, alloc, &mut *self.token, gate, list)
    }

    /// Returns its part of each ledger.
    pub(crate) fn give_back(self, purse: &mut Purse<B>) {
        let Hand {
            ap: _,
            token,
            number: _,
        } = self;
        let (shares, pages) = Box::into_inner(token).into_parts();
        drop(pages);
        purse.take(shares);
    }
}

/// An operator of an access point, with a number of its own.
#[derive(Drop)]
pub struct Chief<'a, B: Ledgers + Journals> {
    pub(crate) ap: &'a LiveAp<B>,
    pub(crate) token: Box<OperatorToken<B>>,
    pub number: u8,
    pub ghost is_chief: { IsChief ap.now token.value },
}

impl<'a, B: Ledgers + Journals> Chief<'a, B> {
    /// Puts an event into the queue of its shard's worker, as `LiveAp::submit`.
    pub fn submit<R: Wait>(&mut self, rt: &R, call: u64, event: Event) -> Result<(), Unserved> {
        self.ap.submit(rt, &mut *self.token, call, event)
    }

    /// Continues with a tick at this shard, as `LiveAp::submit_at`.
    fn submit_at<R: Wait>(
        &mut self,
        rt: &R,
        call: u64,
        units: u32,
        shard: u16,
    ) -> Result<(), Unserved>
        requires { shard < 8 }
    {
        let event = Event::Tick(units);
        self.ap.submit_at(rt, &mut *self.token, call, event, shard)
    }

    /// Retries an event that was returned.
    fn go_on<R: Wait>(&mut self, rt: &R, call: u64, back: Unserved) -> Result<(), Unserved> {
        let Unserved { event, shard } = back;
        match event {
            Event::Tick(units) if shard < 8 => return self.submit_at(rt, call, units, shard),
            event => return self.submit(rt, call, event),
        }
    }

    /// Puts an event, and retries while a queue is full.
    pub fn put<R: Wait>(&mut self, rt: &R, call: u64, event: Event) {
        let mut back = match self.submit(rt, call, event) {
            Ok(()) => return,
            Err(back) => back,
        };
        for _ in rt.forever() {
            yield_now();
            back = match self.go_on(rt, call, back) {
                Ok(()) => return,
                Err(back) => back,
            };
        }
        unreachable!()
    }

    /// The stations of an owner, one of each shard, set up their agreements: puts 24 events, under call 15. False if an
    /// allocation fails.
    pub fn join<R: Wait>(&mut self, rt: &R, alloc: Global, owner: u8) -> bool {
        for place in 0..24u8 {
            match joining(alloc, address(owner, place / 3), place % 3) {
                Ok(event) => self.put(rt, 15, event),
                Err(_) => return false,
            }
        }
        true
    }

    /// Deauthenticates a station at once, as `LiveAp::act`.
    pub fn kick<R: Wait>(
        &mut self,
        rt: &R,
        alloc: Global,
        station: [u8; 6],
        reason: u16,
    ) -> Result<Vec<Out>, AllocError> {
        let event = Event::Kick {
            station: Address::new(station),
            reason: Reason::new(reason),
        };
        let outs = self.ap.act(rt, alloc, &mut *self.token, &event)?;
        Ok(outs)
    }

    /// Stores a number in a word of a shared map. False if there is no such word.
    pub fn store(&mut self, map: usize, word: u32, value: u64) -> bool {
        if !self.ap.has_word(Scope::Shared, map, word) {
            return false;
        }
        self.ap.store(&mut *self.token, map, word, value);
        true
    }

    /// The number in a word of a shared map, if there is such a word.
    pub fn read(&mut self, map: usize, word: u32) -> Option<u64> {
        if !self.ap.has_word(Scope::Shared, map, word) {
            return None;
        }
        Some(self.ap.read(&mut *self.token, map, word))
    }

    /// The sum of a word of a worker map over all workers, if there is such a word.
    pub fn sum(&mut self, map: usize, word: u32) -> Option<u64> {
        if !self.ap.has_word(Scope::Worker, map, word) {
            return None;
        }
        Some(self.ap.sum(&mut *self.token, map, word))
    }

    /// Returns its part of each ledger.
    pub(crate) fn give_back(self, purse: &mut Purse<B>) {
        let Chief {
            ap: _,
            token,
            number: _,
        } = self;
        let (shares, pages) = Box::into_inner(token).into_parts();
        drop(pages);
        purse.take(shares);
    }
}
