//! The newest 64 finished states of one slot, the oldest first.

ghost use Rattle.std.specs.Prelude.{◌≡◌, ◌+◌, ◌≤◌, [], OnOk, OnErr, OnSome, IfOk, IfSome, IfNone, true, false};
ghost use Rattle.bpf_absstate.specs.Inclusion.{state_included};
ghost use Rattle.bpf_prune.specs.Covering.{newest_covering, with_newest, Covers};
ghost use Rattle.bpf_prune.specs.Spending.{HasPassed, comparisons, parts};

use crate::work::{TooMuchWork, Work, parts_of};
use bpf_absstate::{AbsState, Difference};
use std::alloc::{AllocError, Global};
use std::cell::Cell;
use std::collections::VecDeque;
use std::marker::Model;

/// A finished state and its budget: how many steps a run from any member of it takes at most, as the caller promises.
#[derive(Drop)]
pub struct Entry {
    pub state: AbsState,
    pub budget: u32,
}

/// The four positions at which states were last found not included in another, the newest first.
#[derive(Clone, Copy)]
struct Places {
    first: Difference,
    second: Difference,
    third: Difference,
    fourth: Difference,
}

impl Places {
    /// One position; checking the other three costs nothing.
    fn new(place: Difference) -> Places {
        Places {
            first: place,
            second: Difference::Apart,
            third: Difference::Apart,
            fourth: Difference::Apart,
        }
    }

    /// These with a newer one, without the oldest.
    fn with(self, newest: Difference) -> Places {
        Places {
            first: newest,
            second: self.first,
            third: self.second,
            fourth: self.third,
        }
    }

    /// An older position at which a state isn't included in another one, if any; then the state isn't included.
    fn outside(self, state: &AbsState, other: &AbsState) -> Option<Difference>
        ensures outside { OnSome result (state_included state.now other.now ≡ false) }
    {
        if state.differs_at(other, self.second) {
            return Some(self.second);
        }
        if state.differs_at(other, self.third) {
            return Some(self.third);
        }
        if state.differs_at(other, self.fourth) {
            return Some(self.fourth);
        }
        None
    }
}

/// An entry, and where states were last found not included in it.
#[derive(Drop)]
struct Marked {
    entry: Entry,
    differed: Cell<Places>,
}

impl Model for Marked {
    ghost use Rattle.bpf_prune.specs.declared.kept.Entry.{Entry};

    ghost Value = { Entry };

    ghost view = { λ a. a.entry };
}

/// How many positions are compared after the latest one, before a state is compared whole.
const SOON: u64 = 5;

/// Where else to compare first: where this search last found its state not included, and where the last search did so
/// in the entry of the same age at its slot.
#[derive(Clone, Copy)]
struct Hints {
    recent: Difference,
    before: Difference,
}

/// Where a state isn't included in another one, if it isn't. The state is compared whole, so all its parts count.
fn whole_difference(
    state: &AbsState,
    other: &AbsState,
    work: &mut Work,
) -> Result<Option<Difference>, TooMuchWork>
    ensures none { IfOk result (λ o. IfNone o (state_included state.now other.now ≡ true)) }
    ensures some { IfOk result (λ o. OnSome o (state_included state.now other.now ≡ false)) }
    ensures most { work.new.most ≡ work.old.most }
    ensures examined { work.new.examined ≡ work.old.examined }
    ensures remade { work.new.remade ≡ work.old.remade }
    ensures compared { work.new.compared ≡ work.old.compared }
    ensures done { OnOk result (work.new.units ≡ work.old.units + parts state.now) }
    ensures few { work.new.units ≤ work.old.units + 563 }
    ensures passed { OnErr result (HasPassed work.new) }
{
    work.spend(parts_of(state))?;
    Ok(state.difference(other))
}

impl Marked {
    /// One of the first positions to compare at which a state isn't included in the entry's, if any; then it isn't
    /// included.
    fn outside_soon(&self, state: &AbsState, hints: Hints) -> Option<Difference>
        ensures outside { OnSome result (state_included state.now self.now.state ≡ false) }
    {
        let kept = &self.entry.state;
        if state.differs_at(kept, hints.recent) {
            return Some(hints.recent);
        }
        if state.differs_at(kept, hints.before) {
            return Some(hints.before);
        }
        self.differed.get().outside(state, kept)
    }

    /// Where a state isn't included in the entry's, if it isn't. Positions of earlier differences are compared first,
    /// beginning with the latest. Each of the six counts one unit of work, and then the whole state its parts.
    fn outside(
        &self,
        state: &AbsState,
        hints: Hints,
        work: &mut Work,
    ) -> Result<Option<Difference>, TooMuchWork>
        ensures none { IfOk result
            (λ o. IfNone o (state_included state.now self.now.state ≡ true)) }
        ensures some { IfOk result
            (λ o. OnSome o (state_included state.now self.now.state ≡ false)) }
        ensures most { work.new.most ≡ work.old.most }
        ensures examined { work.new.examined ≡ work.old.examined }
        ensures remade { work.new.remade ≡ work.old.remade }
        ensures compared { OnOk result (work.new.compared ≡ work.old.compared + 1) }
        ensures few { work.new.units ≤ work.old.units + 569 }
        ensures whole { IfOk result
            (λ o. IfNone o (work.new.units ≡ work.old.units + 6 + parts state.now)) }
        ensures passed { OnErr result (HasPassed work.new) }
    {
        let places = self.differed.get();
        let kept = &self.entry.state;
        work.compare()?;
        if state.differs_at(kept, places.first) {
            return Ok(Some(places.first));
        }
        work.spend(SOON)?;
        if let Some(place) = self.outside_soon(state, hints) {
            self.differed.set(places.with(place));
            return Ok(Some(place));
        }
        match whole_difference(state, kept, work)? {
            None => Ok(None),
            Some(place) => {
                self.differed.set(places.with(place));
                Ok(Some(place))
            }
        }
    }

    /// Whether the entry's state includes this one. If not, the difference is noted.
    fn covers(
        &self,
        state: &AbsState,
        recent: &mut Difference,
        before: &Cell<Difference>,
        work: &mut Work,
    ) -> Result<bool, TooMuchWork>
        ensures is { IfOk result (λ told. told ≡ state_included state.now self.now.state) }
        ensures most { work.new.most ≡ work.old.most }
        ensures examined { work.new.examined ≡ work.old.examined }
        ensures remade { work.new.remade ≡ work.old.remade }
        ensures compared { OnOk result (work.new.compared ≡ work.old.compared + 1) }
        ensures few { work.new.units ≤ work.old.units + 569 }
        ensures passed { OnErr result (HasPassed work.new) }
    {
        let hints = Hints {
            recent: *recent,
            before: before.get(),
        };
        match self.outside(state, hints, work)? {
            None => Ok(true),
            Some(place) => {
                *recent = place;
                before.set(place);
                Ok(false)
            }
        }
    }
}

/// The position for the entry of an age, from 1; `unknown` if there is none.
fn place_of<'a>(
    before: &'a [Cell<Difference>],
    age: usize,
    unknown: &'a Cell<Difference>,
) -> &'a Cell<Difference> {
    if age > 0 && age <= before.len() {
        return &before[age - 1];
    }
    unknown
}

/// The newest finished states of a slot, at most 64.
#[derive(Drop)]
pub struct Kept {
    entries: VecDeque<Marked>,
}

impl Model for Kept {
    ghost use Rattle.std.specs.Prelude.{List, length, ◌≤◌};
    ghost use Rattle.bpf_prune.specs.declared.kept.Entry.{Entry};

    ghost Value = { List Entry };

    ghost view = { λ a. a.entries.items };

    ghost invariant = { λ a. length a.entries.items ≤ 64 };
}

impl Kept {
    /// No states; allocates nothing.
    pub fn none(alloc: Global) -> Kept
        ensures is { result ≡ [] }
    {
        Kept {
            entries: VecDeque::new(alloc),
        }
    }

    /// Keeps a state, and drops the oldest of 64. If allocation fails, nothing changes.
    #[tactic(auto, unfolding(crate::specs::Covering::with_newest))]
    pub fn keep(&mut self, entry: Entry) -> Result<(), AllocError>
        ensures ok { OnOk result (self.new ≡ with_newest self.old entry) }
        ensures err { OnErr result (self.new ≡ self.old) }
    {
        let differed = Cell::new(Places::new(self.newest_difference()));
        if self.entries.len() == 64 {
            drop(self.entries.pop_front());
        }
        self.entries.push_back(Marked { entry, differed })?;
        Ok(())
    }

    /// Where a state was last found not included in the newest.
    fn newest_difference(&self) -> Difference {
        match self.entries.back() {
            Some(newest) => newest.differed.get().first,
            None => Difference::Apart,
        }
    }

    /// The budget of the newest state that includes this one. `before` says for each entry, by age from the newest,
    /// where to compare first: where the last search found its state not included. Each comparison is counted as work,
    /// before it is made.
    pub fn covering(
        &self,
        state: &AbsState,
        before: &[Cell<Difference>],
        work: &mut Work,
    ) -> Result<Option<u32>, TooMuchWork>
        ensures is { IfOk result (λ budget. budget ≡ newest_covering self.now state.now) }
        ensures covers { IfOk result (λ budget. IfSome budget (Covers self.now state.now)) }
        ensures most { work.new.most ≡ work.old.most }
        ensures examined { work.new.examined ≡ work.old.examined }
        ensures remade { work.new.remade ≡ work.old.remade }
        ensures compared { OnOk result
            (work.new.compared ≡ work.old.compared + comparisons self.now state.now) }
        ensures few { work.new.units ≤ work.old.units + 36416 }
        ensures passed { OnErr result (HasPassed work.new) }
    {
        let unknown = Cell::new(Difference::Apart);
        let mut recent = Difference::Apart;
        let mut k = self.entries.len();
        while k > 0 {
            k -= 1;
            let marked = &self.entries[k];
            let hint = place_of(before, self.entries.len() - k, &unknown);
            if marked.covers(state, &mut recent, hint, work)? {
                marked.entry.state.whole();
                return Ok(Some(marked.entry.budget));
            }
        }
        Ok(None)
    }
}
