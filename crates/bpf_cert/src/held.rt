//! Claims, as values or by their entries, each with where a state was last found not included in it.

ghost use Rattle.std.specs.Prelude.{◌≡◌, ◌≤◌, IfOk, IfErr, OnOk};
ghost use Rattle.bpf_absstate.specs.Inclusion.{state_included};
ghost use Rattle.bpf_cert_format.specs.Unread.{entry_from};
ghost use Rattle.bpf_prune.specs.Spending.{parts};
ghost use Rattle.bpf_cert.specs.Covered.{Includes};
ghost use Rattle.bpf_cert.specs.Limits.{CountsOne, CountsParts, CountsUnits, IsStop};
ghost use Rattle.bpf_cert.specs.States.{claim_of};
ghost use Rattle.bpf_cert.specs.Steps.{Tells, Serves};

use crate::claim::Claim;
use crate::entry_claim::claim;
use crate::limit::{Meter, Stop, spend_all};
use crate::states::{blank, state_of};
use bpf_absstate::{AbsState, Difference};
use bpf_cert_format::Unread;
use bpf_prune::parts_of;
use std::alloc::{AllocError, Global};
use std::cell::Cell;
use std::marker::Model;

/// An entry that is read on each use.
#[derive(Drop)]
pub struct Spelled {
    alloc: Global,
    unread: Unread,
    /// The units of work that reading it counts.
    units: u64,
}

/// The form in which a claim is held.
#[derive(Drop)]
pub enum Form {
    /// Its value.
    Built(Claim),
    /// Its entry.
    Spelled(Spelled),
}

/// A claim, and where a state was last found not included in it. Contracts see the claim.
#[derive(Drop)]
pub struct Held {
    form: Form,
    differed: Cell<Difference>,
}

impl Model for Held {
    ghost use Rattle.bpf_cert.specs.Held.{claim_in};
    ghost use Rattle.bpf_cert.specs.declared.claim.Claim.{Claim};

    ghost Value = { Claim };

    ghost view = { λ a. claim_in a.form };
}

impl Spelled {
    /// Reads the entry, and returns its claim.
    fn claim(&self) -> Result<Claim, AllocError>
        ensures is { IfOk result (λ claim. claim ≡ claim_of (entry_from self.now.unread)) }
    {
        let maps = self.unread.maps();
        let blank = blank(self.alloc)?;
        let entry = self.unread.entry(self.alloc)?;
        let state = state_of(self.alloc, maps, &blank, &entry)?;
        Ok(claim(maps, state, &entry))
    }
}

/// Whether a claim includes a state.
pub(crate) fn includes(claim: &Claim, state: &AbsState) -> bool
    ensures is { Tells result (Includes claim.now state.now) }
{
    claim.is_open && state.is_included(&claim.state)
}

/// Where to compare first: where this claim, and where another one, last differed from a state.
#[derive(Clone, Copy)]
struct Places<'a> {
    differed: &'a Cell<Difference>,
    recent: &'a Cell<Difference>,
}

/// Whether a state is included in another one. Positions where this state and others differed are compared first; then
/// all parts of the state count as work, and are compared.
fn lies_in<M: Meter>(
    state: &AbsState,
    other: &AbsState,
    places: Places<'_>,
    work: &mut M,
) -> Result<bool, Stop>
    ensures is { IfOk result (λ told. told ≡ state_included state.now other.now) }
    ensures limit { M.limit work.new ≡ M.limit work.old }
    ensures examined { M.examined work.new ≡ M.examined work.old }
    ensures compared { M.compared work.new ≡ M.compared work.old }
    ensures parts { IfOk result
        (CountsParts (parts state.now) (M.limit work.old) (M.spent work.old) (M.spent work.new)) }
    ensures stop { IfErr result (IsStop (M.has_passed work.new)) }
{
    let Places { differed, recent } = places;
    if state.differs_at(other, differed.get()) {
        return Ok(false);
    }
    work.spends(1)?;
    if state.differs_at(other, recent.get()) {
        differed.set(recent.get());
        return Ok(false);
    }
    work.spends(parts_of(state))?;
    match state.difference(other) {
        None => Ok(true),
        Some(difference) => {
            differed.set(difference);
            recent.set(difference);
            Ok(false)
        }
    }
}

/// Like `includes`; positions of earlier differences are compared first.
fn includes_soon<M: Meter>(
    claim: &Claim,
    state: &AbsState,
    places: Places<'_>,
    work: &mut M,
) -> Result<bool, Stop>
    ensures is { IfOk result (λ told. Tells told (Includes claim.now state.now)) }
    ensures limit { M.limit work.new ≡ M.limit work.old }
    ensures examined { M.examined work.new ≡ M.examined work.old }
    ensures compared { M.compared work.new ≡ M.compared work.old }
    ensures parts { IfOk result
        (CountsParts (parts state.now) (M.limit work.old) (M.spent work.old) (M.spent work.new)) }
    ensures stop { IfErr result (IsStop (M.has_passed work.new)) }
{
    if !claim.is_open {
        return Ok(false);
    }
    let told = lies_in(state, &claim.state, places, work)?;
    Ok(told)
}

/// Whether a claim includes a state, with a budget of at most what is left. All parts of the state count as work.
fn serves<M: Meter>(claim: &Claim, state: &AbsState, left: u32, work: &mut M) -> Result<bool, Stop>
    ensures is { IfOk result (λ told. Tells told (Serves claim.now state.now left)) }
    ensures limit { M.limit work.new ≡ M.limit work.old }
    ensures examined { M.examined work.new ≡ M.examined work.old }
    ensures compared { M.compared work.new ≡ M.compared work.old }
    ensures spent { OnOk result
        (CountsUnits (M.limit work.old) (parts state.now) (M.spent work.old) (M.spent work.new)) }
    ensures stop { IfErr result (IsStop (M.has_passed work.new)) }
{
    work.spends(parts_of(state))?;
    Ok(claim.budget <= left && includes(claim, state))
}

impl Held {
    /// A claim as a value.
    pub(crate) fn built(claim: Claim) -> Held
        ensures is { result ≡ claim }
    {
        Held {
            form: Form::Built(claim),
            differed: Cell::new(Difference::Apart),
        }
    }

    /// The claim of an entry that is read on each use, and the units of work that this counts.
    pub(crate) fn unread(alloc: Global, unread: Unread, units: u64) -> Held
        ensures is { result ≡ claim_of (entry_from unread) }
    {
        Held {
            form: Form::Spelled(Spelled {
                alloc,
                unread,
                units,
            }),
            differed: Cell::new(Difference::Apart),
        }
    }

    /// A copy of the claim.
    pub(crate) fn claim(&self) -> Result<Claim, AllocError>
        ensures is { IfOk result (λ claim. claim ≡ self.now) }
    {
        match &self.form {
            Form::Spelled(spelled) => {
                let claim = spelled.claim()?;
                Ok(claim)
            }
            Form::Built(claim) => {
                let state = claim.state.clone()?;
                Ok(Claim {
                    state,
                    budget: claim.budget,
                    is_open: claim.is_open,
                })
            }
        }
    }

    /// Whether the claim includes a state, with a budget of at most what is left. It counts as work: a comparison, what
    /// reading the entry counts, and the parts of the state that are compared.
    pub(crate) fn serves<M: Meter>(
        &self,
        state: &AbsState,
        left: u32,
        recent: &Cell<Difference>,
        work: &mut M,
    ) -> Result<bool, Stop>
        ensures is { IfOk result (λ told. Tells told (Serves self.now state.now left)) }
        ensures limit { M.limit work.new ≡ M.limit work.old }
        ensures examined { M.examined work.new ≡ M.examined work.old }
        ensures counted { OnOk result
            (CountsOne (M.limit work.old) (M.compared work.old) (M.compared work.new)) }
        ensures least { M.compared work.old ≤ M.compared work.new }
        ensures parts { IfOk result
            (CountsParts (parts state.now) (M.limit work.old) (M.spent work.old) (M.spent work.new)) }
        ensures stop { IfErr result (IsStop (M.has_passed work.new)) }
    {
        work.compares()?;
        match &self.form {
            Form::Spelled(spelled) => {
                spend_all(work, spelled.units)?;
                let claim = spelled.claim()?;
                let told = serves(&claim, state, left, work)?;
                Ok(told)
            }
            Form::Built(claim) => {
                if claim.budget > left {
                    return Ok(false);
                }
                let places = Places {
                    differed: &self.differed,
                    recent,
                };
                let told = includes_soon(claim, state, places, work)?;
                Ok(told)
            }
        }
    }
}
