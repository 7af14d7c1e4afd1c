//! The states that an exploration finishes.

ghost use Rattle.std.specs.Prelude.{◌≡◌, ◌≤◌, ◌^◌, ℕ, length, slice_index, IfOk, IfErr, OnOk};
ghost use Rattle.bpf_verifier.specs.Admission.{IsSafeBudget, IsRefusal, IsRefusalAfter, IsRefusalWithin};
ghost use Rattle.bpf_verifier.specs.Causes.{IsDue};
ghost use Rattle.bpf_verifier.specs.Spent.{IsSpent, IsEarned, IsWithin};
ghost use Rattle.bpf_prune.specs.Spending.{CountsAll};

use crate::exploration::{Exploration, observed_budget};
use crate::limit::{Limits, StateLimit};
use crate::observer::{Heard, Observer};
use crate::refusal::Refusal;
use crate::slot_budgets::raises;
use bpf_absstate::AbsState;
use bpf_decode::Program;
use bpf_prune::{Entry, Work};
use bpf_regions::Hook;
use std::alloc::{AllocError, Global};

/// Returns the states that `verify` finishes at target slots (slot 0, a jump's target, a local function's start, the
/// slot after a local call), with their slots and budgets, in that order; or its refusal.
///
/// The contract says nothing about the list, only that the program is safe: whoever uses the list checks it.
pub fn explore(alloc: Global, program: &Program, _hook: Hook) -> Result<Vec<Entry>, Refusal>
    ensures budget { OnOk result ((b : ℕ) × IsSafeBudget program.now (2 ^ 22) b) }
    ensures refused { IfErr result (IsRefusal program.now (2 ^ 22)) }
{
    explore_within(alloc, program, StateLimit::MOST)
}

/// Like `explore`, within a limit of states as for `verify_within`.
pub fn explore_within(
    alloc: Global,
    program: &Program,
    limit: StateLimit,
) -> Result<Vec<Entry>, Refusal>
    ensures budget { OnOk result ((b : ℕ) × IsSafeBudget program.now limit b) }
    ensures refused { IfErr result (IsRefusal program.now limit) }
{
    explore_limited(alloc, program, limit.alone())
}

/// Like `explore_within`, with a limit on work as for `verify_limited`.
pub fn explore_limited(
    alloc: Global,
    program: &Program,
    limits: Limits,
) -> Result<Vec<Entry>, Refusal>
    ensures budget { OnOk result
        ((b : ℕ) × IsSafeBudget program.now limits.states b × IsWithin limits b) }
    ensures refused { IfErr result (IsRefusalWithin program.now limits) }
{
    let states = limits.states;
    let mut work = Work::within(limits.units());
    explore_counted(alloc, program, states, &mut work)
}

/// The states finished at target slots, in that order, or the refusal.
fn listed(
    alloc: Global,
    program: &Program,
    limit: StateLimit,
    work: &mut Work,
) -> Result<Vec<Entry>, Refusal>
    ensures budget { OnOk result
        ((b : ℕ) × IsSafeBudget program.now limit b × IsEarned b work.old work.new) }
    ensures refused { IfErr result (IsRefusalAfter program.now limit work.new) }
    ensures due { IfErr result (IsDue program.now limit work.old work.new) }
    ensures spent { IsSpent limit work.old work.new }
{
    let mut exploration = Exploration::new(alloc, program, Observer::listening(alloc))?;
    let found = observed_budget(alloc, program, &mut exploration, limit, work);
    let _budget = found?;
    match exploration.into_observer().into_heard() {
        Some(heard) => Ok(heard.finished),
        None => Ok(Vec::new(alloc)),
    }
}

/// Like `explore_limited`, but `work` has the limit on work, as for `verify_counted`.
pub fn explore_counted(
    alloc: Global,
    program: &Program,
    limit: StateLimit,
    work: &mut Work,
) -> Result<Vec<Entry>, Refusal>
    ensures budget { OnOk result
        ((b : ℕ) × IsSafeBudget program.now limit b × IsEarned b work.old work.new) }
    ensures refused { IfErr result (IsRefusalAfter program.now limit work.new) }
    ensures due { IfErr result (IsDue program.now limit work.old work.new) }
    ensures spent { IsSpent limit work.old work.new }
    ensures counted { CountsAll work.new }
{
    let found = listed(alloc, program, limit, work);
    work.known();
    found
}

/// What an exploration found, and how.
#[derive(Drop)]
pub struct Explanation {
    /// A budget within which the program is safe, or the refusal.
    pub verdict: Result<u32, Refusal>,
    /// The state examined last, unless an allocation failed for it.
    pub state: Option<AbsState>,
    /// The slots on the path to the state examined last, from slot 0 to its own.
    pub path: Vec<usize>,
    /// How many states were examined at each slot; it ends at the last slot examined.
    pub visits: Vec<u32>,
    /// The budget left at each slot: the most steps that a run may still make from a state examined there, as far as
    /// the exploration found it; 0 if it found none.
    pub budgets: Vec<u32>,
}

/// What `verify_within` finds of a program, and how. The contract describes the verdict; of `budgets` only that each slot
/// has one, and that slot 0 has no less than the verdict.
pub fn explain_within(
    alloc: Global,
    program: &Program,
    limit: StateLimit,
) -> Result<Explanation, AllocError>
    ensures budget { IfOk result (λ x. IfOk x.verdict (IsSafeBudget program.now limit)) }
    ensures refused { IfOk result (λ x. IfErr x.verdict (IsRefusal program.now limit)) }
    ensures slots { IfOk result (λ x. length x.budgets.items ≡ length program.now.slots) }
    ensures start { IfOk result
        (λ x. IfOk x.verdict (λ budget. budget ≤ slice_index x.budgets.items 0)) }
{
    explain_limited(alloc, program, limit.alone())
}

/// What `verify_limited` finds of a program, and how. The contract describes what that of `explain_within` does.
pub fn explain_limited(
    alloc: Global,
    program: &Program,
    limits: Limits,
) -> Result<Explanation, AllocError>
    ensures budget { IfOk result (λ x. IfOk x.verdict (IsSafeBudget program.now limits.states)) }
    ensures refused { IfOk result
        (λ x. IfErr x.verdict (IsRefusalWithin program.now limits)) }
    ensures earned { IfOk result (λ x. IfOk x.verdict (IsWithin limits)) }
    ensures slots { IfOk result (λ x. length x.budgets.items ≡ length program.now.slots) }
    ensures start { IfOk result
        (λ x. IfOk x.verdict (λ budget. budget ≤ slice_index x.budgets.items 0)) }
{
    let states = limits.states;
    let mut work = Work::within(limits.units());
    let mut exploration = Exploration::new(alloc, program, Observer::listening(alloc))?;
    let verdict = observed_budget(alloc, program, &mut exploration, states, &mut work);
    work.known();
    let observer = exploration.into_observer();
    let explanation = explained(alloc, program.len(), verdict, observer)?;
    Ok(explanation)
}

/// The budgets of so many slots; slot 0, where each run starts, has no less than the verdict.
fn by_slot(
    budgets: Vec<u32>,
    slots: usize,
    verdict: &Result<u32, Refusal>,
) -> Result<Vec<u32>, AllocError>
    requires some { 1 ≤ slots }
    ensures slots { IfOk result (λ found. length found.items ≡ slots) }
    ensures start { IfOk result
        (λ found. IfOk verdict.now (λ budget. budget ≤ slice_index found.items 0)) }
{
    let mut budgets = budgets;
    budgets.resize(slots, 0u32)?;
    if let Ok(budget) = verdict {
        raises(budgets.as_mut_slice(), 0, *budget);
    }
    Ok(budgets)
}

/// A verdict on a program of so many slots, with the observer's records.
fn explained(
    alloc: Global,
    slots: usize,
    verdict: Result<u32, Refusal>,
    observer: Observer,
) -> Result<Explanation, AllocError>
    requires some { 1 ≤ slots }
    ensures verdict { IfOk result (λ x. x.verdict ≡ verdict) }
    ensures slots { IfOk result (λ x. length x.budgets.items ≡ slots) }
    ensures start { IfOk result
        (λ x. IfOk verdict (λ budget. budget ≤ slice_index x.budgets.items 0)) }
{
    let heard = match observer.into_heard() {
        Some(heard) => heard,
        None => Heard::new(alloc),
    };
    let Heard {
        examined,
        path,
        visits,
        budgets,
        ..
    } = heard;
    let budgets = by_slot(budgets, slots, &verdict)?;
    Ok(Explanation {
        verdict,
        state: examined,
        path,
        visits,
        budgets,
    })
}
