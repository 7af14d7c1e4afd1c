//! The agreements of a shard.

ghost use Rattle.std.specs.Prelude.{◌≡◌, ◌+◌, ◌-◌, ◌^◌, ◌≤◌, ◌<◌, ◌↔◌, ℕ, min, List, true, false, IfOk, IfErr, OnOk, OnErr, MatchOption, IsSome, None, Some, [], All, AllPairs, Contains, count_by, map, filter, not, length, slice_index_or, vec_len, vec_capacity};
ghost use Rattle.arrayvec.specs.ArrayVec.{array_vec_len};
ghost use Rattle.blockack.specs.Reading.{IsWanted, IsWaiting, IsAlone, numbers_held};
ghost use Rattle.ap_model.specs.Steps.{IsBefore};
ghost use Rattle.ap_model.specs.Readings.{Using};
ghost use Rattle.ap_agreements.specs.Listing.{ListsAgreements, row_of};
ghost use Rattle.ap_agreements.specs.Tables.{Kept, key_of, agreement_in, is_late, IsRising, IsPlaceOf, IsPlaceFor, IsLateIn, unless_late, all_held, late_held, held_under, Stands, Sets, Discards, UsesData, PassesData, UsesAlone, UsesRequest};

use crate::entry::{Entry, Released};
use crate::in_force::AgreementInForce;
use crate::key::Key;
use ap_model::Held;
use blockack::Sink;
use mac_types::{Address, SequenceNumber, Tid};
use std::alloc::{AllocError, Global};
use std::marker::Model;
use std::mem;

/// The agreements of a shard, ordered by address and then TID, each key once.
#[derive(Drop)]
pub struct Agreements {
    entries: Vec<Entry>,
}

impl Model for Agreements {
    ghost use Rattle.std.specs.Prelude.{◌-◌, vec_len, vec_capacity};
    ghost use Rattle.ap_agreements.specs.Tables.{Table, IsRising};

    ghost Value = { Table };

    ghost view = { λ a. record { kept = a.entries.items; room = vec_capacity a.entries - vec_len a.entries } };

    ghost invariant = { λ a. IsRising a.entries.items };
}

impl Agreements {
    pub fn new(alloc: Global) -> Self
        ensures { result.kept ≡ [] }
    {
        Agreements {
            entries: Vec::new(alloc),
        }
    }

    /// Makes room for one more. If it fails, nothing changes.
    pub fn reserve(&mut self) -> Result<(), AllocError>
        ensures kept { self.new.kept ≡ self.old.kept }
        ensures room { OnOk result (1 ≤ self.new.room) }
        ensures refused { OnErr result (self.new ≡ self.old) }
    {
        self.entries.reserve(1)?;
        Ok(())
    }

    /// The index of the agreement, or the one at which it would be inserted.
    fn find(&self, station: Address, tid: Tid) -> Result<usize, usize>
        ensures found { IfOk result (IsPlaceOf self.now.kept (station, tid)) }
        ensures absent { IfErr result (IsPlaceFor self.now.kept (station, tid)) }
        ensures rising { IsRising self.now.kept }
    {
        let key = Key::new(station, tid);
        self.entries.binary_search_by(|entry| entry.compare(&key))
    }

    /// The agreement of a station for a TID.
    pub fn get(&self, station: Address, tid: Tid) -> Option<&Entry>
        ensures { MatchOption result (agreement_in self.now.kept station tid ≡ None)
            (λ e. agreement_in self.now.kept station tid ≡ Some e.now.using) }
    {
        match self.find(station, tid) {
            Ok(at) => Some(&self.entries[at]),
            Err(_) => None,
        }
    }

    /// How many numbers the window of a station's agreement for a TID holds, dropped ones included; 0
    /// without an agreement.
    pub fn held(&self, station: Address, tid: Tid) -> usize
        ensures is { result ≡ held_under (agreement_in self.now.kept station tid) }
        ensures fits { result ≤ 64 }
    {
        match self.get(station, tid) {
            Some(entry) => entry.held(),
            None => 0,
        }
    }

    /// The agreement of a station for a TID, and its index, which is valid until an agreement is
    /// inserted or removed.
    pub fn get_placed(&self, station: Address, tid: Tid) -> Option<(usize, &Entry)>
        ensures { MatchOption result (agreement_in self.now.kept station tid ≡ None)
            (λ p. Stands self.now.kept station tid p.0 p.1.now) }
    {
        match self.find(station, tid) {
            Ok(at) => Some((at, &self.entries[at])),
            Err(_) => None,
        }
    }

    /// The agreements in force, each once, ordered by address and then TID.
    pub fn in_force(&self, alloc: Global) -> Result<Vec<AgreementInForce>, AllocError>
        ensures { IfOk result (λ rows. ListsAgreements (agreement_in self.now.kept) rows.items) }
    {
        rows_of(alloc, &self.entries)
    }

    /// Data that waits for an earlier number, in the window of the agreement at this index, came at
    /// this time. The window holds its item, `None` if it was dropped.
    pub fn hold(&mut self, at: usize, number: SequenceNumber, item: Option<Held>, clock: u64)
        requires inside { at < length self.old.kept }
        requires waits { (d : Kept) → IsWaiting (slice_index_or self.old.kept at d).using.window
            number }
        ensures { (a : List ℕ) (tid : ℕ) → IsPlaceOf self.old.kept (a, tid) at →
            UsesData true self.old.kept a tid number item clock self.new.kept [] }
    {
        let entry = &mut self.entries[at];
        entry.hold(number, item, clock);
    }

    /// Data that the window of the agreement at this index wants came at this time. The window takes
    /// its item, `None` if it was dropped, and passes to `out` what it then passes up.
    pub fn pass_to<S: Sink<Held>>(
        &mut self,
        at: usize,
        number: SequenceNumber,
        item: Option<Held>,
        clock: u64,
        out: &mut S,
    )
        requires inside { at < length self.old.kept }
        requires wanted { (d : Kept) → IsWanted (slice_index_or self.old.kept at d).using.window
            number }
        requires room { (d : Kept) →
            numbers_held (slice_index_or self.old.kept at d).using.window + 1 ≤ S.room out.old }
        ensures { (a : List ℕ) (tid : ℕ) → IsPlaceOf self.old.kept (a, tid) at →
            PassesData S.receives self.old.kept a tid number item clock self.new.kept out.old
            out.new }
    {
        let entry = &mut self.entries[at];
        entry.pass_to(number, item, clock, out);
    }

    /// Data came at this time that the window of the agreement at this index releases at once, and
    /// nothing after it. The caller passes it up.
    pub fn pass_alone(&mut self, at: usize, number: SequenceNumber, clock: u64)
        requires inside { at < length self.old.kept }
        requires alone { (d : Kept) → IsAlone (slice_index_or self.old.kept at d).using.window
            number }
        ensures { (a : List ℕ) (tid : ℕ) → IsPlaceOf self.old.kept (a, tid) at →
            UsesAlone self.old.kept a tid number clock self.new.kept }
    {
        let entry = &mut self.entries[at];
        entry.pass_alone(number, clock);
    }

    /// Data that the window of the agreement at this index doesn't want came at this time.
    pub fn leave(&mut self, at: usize, number: SequenceNumber, clock: u64)
        requires inside { at < length self.old.kept }
        requires unwanted { (d : Kept) → IsWanted (slice_index_or self.old.kept at d).using.window
            number → ⊥ }
        ensures { (a : List ℕ) (tid : ℕ) → IsPlaceOf self.old.kept (a, tid) at →
            UsesData false self.old.kept a tid number None clock self.new.kept [] }
    {
        let entry = &mut self.entries[at];
        entry.leave(number, clock);
    }

    /// A BlockAckReq with this start came at this time for the agreement at this index. Returns the
    /// scoreboard after it: its first number, and a bit for each number from there on.
    pub fn request(
        &mut self,
        at: usize,
        start: SequenceNumber,
        clock: u64,
        out: &mut Released,
    ) -> (SequenceNumber, u64)
        requires inside { at < length self.old.kept }
        requires empty { array_vec_len out.old ≡ 0 }
        ensures uses { (a : List ℕ) (tid : ℕ) → IsPlaceOf self.old.kept (a, tid) at
            → UsesRequest self.old.kept a tid start clock self.new.kept out.new.items result }
        ensures few { (d : Kept)
            → array_vec_len out.new ≤ numbers_held (slice_index_or self.old.kept at d).using.window }
        ensures numbers { All (λ p. p.0 < 4096) out.new.items }
    {
        let entry = &mut self.entries[at];
        entry.request(start, clock, out);
        entry.scoreboard()
    }

    /// Removes the agreement of a station for a TID, and returns it.
    pub fn remove(&mut self, station: Address, tid: Tid) -> Option<Entry>
        ensures was { MatchOption result (agreement_in self.old.kept station tid ≡ None)
            (λ e. (agreement_in self.old.kept station tid ≡ Some e.using)
            × (key_of e ≡ (station, tid))) }
        ensures sets { Sets self.old.kept station tid None self.new.kept }
    {
        match self.find(station, tid) {
            Ok(at) => Some(self.entries.remove(at)),
            Err(_) => None,
        }
    }

    /// Enters an agreement, for which there must be room, and returns the one that it replaces.
    pub fn put(&mut self, entry: Entry) -> Option<Entry>
        requires { 1 ≤ self.old.room }
        ensures was { MatchOption result (agreement_in self.old.kept entry.station entry.tid ≡ None)
            (λ e. (agreement_in self.old.kept entry.station entry.tid ≡ Some e.using)
            × (key_of e ≡ key_of entry)) }
        ensures sets { Sets self.old.kept entry.station entry.tid (Some entry.using) self.new.kept }
    {
        match self.find(entry.station(), entry.tid()) {
            Ok(at) => {
                let place = &mut self.entries[at];
                Some(mem::replace(place, entry))
            }
            Err(at) => match self.entries.insert(at, entry) {
                Ok(()) => None,
                Err(_) => unreachable!(),
            },
        }
    }

    /// Removes all agreements of a station, and frees what they hold.
    pub fn discard(&mut self, station: Address)
        ensures { Discards self.old.kept station self.new.kept }
    {
        self.entries.retain(|entry| entry.station() != station);
    }

    /// How many agreements have timed out: they have a timeout, and were unused for at least that long.
    pub fn late(&self, clock: u64) -> usize
        ensures { result ≡ count_by (λ k. is_late clock k.using) self.now.kept }
    {
        self.entries
            .iter()
            .filter(|entry| entry.is_late(clock))
            .count()
    }

    /// How many numbers the windows of the timed-out agreements hold in all, dropped ones included;
    /// `usize::MAX` if there are more.
    pub fn late_held(&self, clock: u64) -> usize
        ensures { result ≡ min (late_held clock self.now.kept) (2 ^ 64 - 1) }
    {
        let mut held = 0usize;
        for entry in &self.entries {
            if entry.is_late(clock) {
                held = held.saturating_add(entry.held());
            }
        }
        held
    }

    /// Moves the timed-out agreements to `ended`, ordered by address and then TID.
    pub fn take_late(&mut self, clock: u64, ended: &mut Vec<Entry>)
        requires empty { ended.old.items ≡ [] }
        requires room { count_by (λ k. is_late clock k.using) self.old.kept ≤ vec_capacity
            ended.old }
        ensures many { vec_len ended.new ≡ count_by (λ k. is_late clock k.using) self.old.kept }
        ensures held { all_held ended.new.items ≡ late_held clock self.old.kept }
        ensures rising { AllPairs IsBefore (map key_of ended.new.items) }
        ensures exact { (k : Kept) → Contains ended.new.items k ↔ IsLateIn clock self.old.kept k }
        ensures others { (a : List ℕ) (tid : ℕ) → agreement_in self.new.kept a tid
            ≡ unless_late clock (agreement_in self.old.kept a tid) }
    {
        split_late(&mut self.entries, clock, ended);
    }
}

/// What is listed of these agreements, in their order.
fn rows_of(alloc: Global, entries: &[Entry]) -> Result<Vec<AgreementInForce>, AllocError>
    ensures { IfOk result (λ rows. rows.items ≡ map row_of entries.now) }
{
    entries.iter().map(|entry| entry.in_force()).collect(alloc)
}

/// Moves the timed-out ones to `ended`.
fn split_late(entries: &mut Vec<Entry>, clock: u64, ended: &mut Vec<Entry>)
    requires empty { ended.old.items ≡ [] }
    requires room { count_by (λ k. is_late clock k.using) entries.old.items ≤ vec_capacity
        ended.old }
    ensures kept { entries.new.items ≡ filter (λ k. not (is_late clock k.using)) entries.old.items }
    ensures ended { ended.new.items ≡ filter (λ k. is_late clock k.using) entries.old.items }
{
    let mut at = 0;
    while at < entries.len() {
        if !entries[at].is_late(clock) {
            at += 1;
            continue;
        }
        let entry = entries.remove(at);
        ended.push_reserved(entry);
    }
}
