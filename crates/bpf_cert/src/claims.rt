//! A list of claims, and the indexes of those of each slot.

ghost use Rattle.std.specs.Prelude.{◌≡◌, ◌↔◌, ◌<◌, ◌≤◌, ◌++◌, [], ◌∷◌, IfOk, IfErr, OnOk, OnSome, IsTrue, Some, length, slice_get};
ghost use Rattle.bpf_cert_format.specs.Unread.{entry_from};
ghost use Rattle.bpf_cert.specs.Covered.{IsIncluded};
ghost use Rattle.bpf_cert.specs.Limits.{CountsEach, IsStop};
ghost use Rattle.bpf_cert.specs.States.{claim_of};
ghost use Rattle.bpf_cert.specs.Steps.{Tells};

use crate::claim::Claim;
use crate::held::Held;
use crate::limit::{Meter, Stop};
use bpf_absstate::{AbsState, Difference};
use bpf_cert_format::Unread;
use std::alloc::{AllocError, Global};
use std::cell::Cell;
use std::marker::Model;

/// A claim's index in the list, and its budget.
#[derive(Clone, Copy)]
struct Spot {
    place: usize,
    budget: u32,
}

/// The claims of a slot, which only say where to look first.
#[derive(Drop)]
struct Row {
    spots: Vec<Spot>,
    /// The index of the claim that served last.
    served: Cell<usize>,
}

/// Claims in the order of insertion. Contracts see the list.
#[derive(Drop)]
pub struct Claims {
    alloc: Global,
    list: Vec<Held>,
    rows: Vec<Row>,
    /// Where a state was last found not included in a claim.
    recent: Cell<Difference>,
}

impl Model for Claims {
    ghost use Rattle.std.specs.Prelude.{List};
    ghost use Rattle.bpf_cert.specs.declared.claim.Claim.{Claim};

    ghost Value = { List Claim };

    ghost view = { λ a. a.list.items };
}

/// How many of these precede the first claim with a budget above what is left, if budgets don't fall; otherwise any
/// number of them.
fn count_within(spots: &[Spot], left: u32) -> usize
    ensures inside { result ≤ length spots.now }
{
    let mut low = 0;
    let mut high = spots.len();
    while low < high {
        let middle = low + (high - low) / 2;
        if spots[middle].budget <= left {
            low = middle + 1;
        } else {
            high = middle;
        }
    }
    low
}

/// Whether some claim includes a state, with a budget of at most what is left. Examines all claims before it returns
/// false.
fn some_includes<M: Meter>(
    list: &[Held],
    state: &AbsState,
    left: u32,
    recent: &Cell<Difference>,
    work: &mut M,
) -> Result<bool, Stop>
    ensures is { IfOk result (λ told. Tells told (IsIncluded list.now state.now left)) }
    ensures limit { M.limit work.new ≡ M.limit work.old }
    ensures examined { M.examined work.new ≡ M.examined work.old }
    ensures least { M.compared work.old ≤ M.compared work.new }
    ensures each { IfOk result
        (CountsEach list.now (M.limit work.old) (M.compared work.old) (M.compared work.new)) }
    ensures stop { IfErr result (IsStop (M.has_passed work.new)) }
{
    for held in list {
        let told = held.serves(state, left, recent, work)?;
        if told {
            return Ok(true);
        }
    }
    Ok(false)
}

impl Claims {
    /// An empty list, for that many slots.
    pub fn new(alloc: Global, slots: usize) -> Result<Claims, AllocError>
        ensures is { IfOk result (λ claims. claims ≡ []) }
    {
        let mut rows = Vec::with_capacity(alloc, slots)?;
        for _slot in 0..slots {
            rows.push(Row {
                spots: Vec::new(alloc),
                served: Cell::new(usize::MAX),
            })?;
        }
        Ok(Claims {
            alloc,
            list: Vec::new(alloc),
            rows,
            recent: Cell::new(Difference::Apart),
        })
    }

    /// The allocator of the list.
    pub(crate) fn alloc(&self) -> Global {
        self.alloc
    }

    /// The number of claims.
    pub fn len(&self) -> usize
        ensures is { result ≡ length self.now }
    {
        self.list.len()
    }

    /// Whether there are no claims.
    pub fn is_empty(&self) -> bool
        ensures is { IsTrue result ↔ (length self.now ≡ 0) }
    {
        self.list.is_empty()
    }

    /// A copy of the claim at an index.
    pub fn claim(&self, place: usize) -> Result<Claim, AllocError>
        requires { place < length self.now }
        ensures is { IfOk result (λ claim. slice_get self.now place ≡ Some claim) }
    {
        let held = &self.list[place];
        let claim = held.claim()?;
        Ok(claim)
    }

    /// Notes the index of the next claim.
    fn note(&mut self, pc: usize, budget: u32) -> Result<(), AllocError>
        ensures same { self.new ≡ self.old }
    {
        if pc < self.rows.len() {
            let place = self.list.len();
            self.rows[pc].spots.push(Spot { place, budget })?;
        }
        Ok(())
    }

    /// Adds a claim.
    pub fn push(&mut self, claim: Claim) -> Result<(), AllocError>
        ensures is { OnOk result (self.new ≡ self.old ++ claim ∷ []) }
    {
        self.note(claim.state.pc(), claim.budget)?;
        self.list.push(Held::built(claim))?;
        Ok(())
    }

    /// Adds the claim of an entry that is read on each use, and the units of work that this counts. The given claim's
    /// slot and budget only say where to look first.
    pub(crate) fn push_unread(
        &mut self,
        unread: Unread,
        claim: &Claim,
        units: u64,
    ) -> Result<(), AllocError>
        ensures is { OnOk result (self.new ≡ self.old ++ claim_of (entry_from unread) ∷ []) }
    {
        self.note(claim.state.pc(), claim.budget)?;
        self.list.push(Held::unread(self.alloc, unread, units))?;
        Ok(())
    }

    /// True only if some claim includes a state with a budget of at most what is left. Only the claim at an index is
    /// examined.
    fn serves<M: Meter>(
        &self,
        place: usize,
        state: &AbsState,
        left: u32,
        work: &mut M,
    ) -> Result<bool, Stop>
        ensures is { IfOk result (λ told. IsTrue told → IsIncluded self.now state.now left) }
        ensures limit { M.limit work.new ≡ M.limit work.old }
        ensures examined { M.examined work.new ≡ M.examined work.old }
        ensures least { M.compared work.old ≤ M.compared work.new }
        ensures stop { IfErr result (IsStop (M.has_passed work.new)) }
    {
        if place >= self.list.len() {
            return Ok(false);
        }
        let held = &self.list[place];
        let told = held.serves(state, left, &self.recent, work)?;
        Ok(told)
    }

    /// The index of one of these claims that does, searched from the last.
    fn one_serving<M: Meter>(
        &self,
        spots: &[Spot],
        state: &AbsState,
        left: u32,
        work: &mut M,
    ) -> Result<Option<usize>, Stop>
        ensures is { IfOk result (λ place. OnSome place (IsIncluded self.now state.now left)) }
        ensures limit { M.limit work.new ≡ M.limit work.old }
        ensures examined { M.examined work.new ≡ M.examined work.old }
        ensures least { M.compared work.old ≤ M.compared work.new }
        ensures stop { IfErr result (IsStop (M.has_passed work.new)) }
    {
        for spot in spots.iter().rev() {
            if self.serves(spot.place, state, left, work)? {
                return Ok(Some(spot.place));
            }
        }
        Ok(None)
    }

    /// True only if a claim includes a state, with a budget of at most what is left. Examines claims at its slot: the
    /// one that served last, and `most` of those whose budgets serve, from the greatest.
    pub(crate) fn soon_include<M: Meter>(
        &self,
        state: &AbsState,
        left: u32,
        most: usize,
        work: &mut M,
    ) -> Result<bool, Stop>
        ensures is { IfOk result (λ told. IsTrue told → IsIncluded self.now state.now left) }
        ensures limit { M.limit work.new ≡ M.limit work.old }
        ensures examined { M.examined work.new ≡ M.examined work.old }
        ensures least { M.compared work.old ≤ M.compared work.new }
        ensures stop { IfErr result (IsStop (M.has_passed work.new)) }
    {
        let pc = state.pc();
        if pc >= self.rows.len() {
            return Ok(false);
        }
        let row = &self.rows[pc];
        if self.serves(row.served.get(), state, left, work)? {
            return Ok(true);
        }
        let end = count_within(row.spots.as_slice(), left);
        let first = end.saturating_sub(most);
        match self.one_serving(&row.spots[first..end], state, left, work)? {
            None => Ok(false),
            Some(place) => {
                row.served.set(place);
                Ok(true)
            }
        }
    }

    /// Whether some claim includes a state, with a budget of at most what is left. The claim that served last at the
    /// slot is examined first, then, if claims were added by rising budgets, those with the greatest budgets that can
    /// serve. Before it returns false, it examines all, and counts a comparison for each.
    pub fn include<M: Meter>(&self, state: &AbsState, left: u32, work: &mut M) -> Result<bool, Stop>
        ensures is { IfOk result (λ told. Tells told (IsIncluded self.now state.now left)) }
        ensures limit { M.limit work.new ≡ M.limit work.old }
        ensures examined { M.examined work.new ≡ M.examined work.old }
        ensures least { M.compared work.old ≤ M.compared work.new }
        ensures each { IfOk result
            (CountsEach self.now (M.limit work.old) (M.compared work.old) (M.compared work.new)) }
        ensures stop { IfErr result (IsStop (M.has_passed work.new)) }
    {
        if self.soon_include(state, left, usize::MAX, work)? {
            return Ok(true);
        }
        let told = some_includes(self.list.as_slice(), state, left, &self.recent, work)?;
        Ok(told)
    }
}
