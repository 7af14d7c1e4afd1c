//! Whether claims show that a program is safe.

ghost use Rattle.std.specs.Prelude.{◌≡◌, ◌+◌, ◌<◌, ◌≤◌, ℕ, IfOk, IfErr, IsSome, IsTrue, MatchOption, Ok, false, length, min};
ghost use Rattle.std.specs.List.{All};
ghost use Rattle.std.specs.Option.{option_map_or};
ghost use Rattle.bpf_absstate.specs.View.{entry_view};
ghost use Rattle.bpf_decode.specs.Program.{Holds, IsTarget, Begins};
ghost use Rattle.bpf_insn.specs.declared.insn.Insn.{Insn};
ghost use Rattle.bpf_plain.specs.Standing.{EachWay};
ghost use Rattle.bpf_rules.specs.Examined.{examined};
ghost use Rattle.bpf_rules.specs.declared.fault.Fault.TheVariants.{NoMemory};
ghost use Rattle.bpf_cert.specs.declared.coverage.Step.TheVariants.{Decided};
ghost use Rattle.bpf_cert.specs.Covered.{Includes, IsIncluded, LeadsWithin, AreKept, BeginsWithin, AreCovered};
ghost use Rattle.bpf_cert.specs.Limits.{CountsMore, IsStop};
ghost use Rattle.bpf_cert.specs.Steps.{Tells, Arrives, Goes, SecondIsTarget};

use crate::claim::Claim;
use crate::claims::Claims;
use crate::held::includes;
use crate::limit::{Meter, Stop};
use bpf_absstate::AbsState;
use bpf_checks::examine_moved;
use bpf_decode::Program;
use bpf_rules::{Fault, Ways};
use std::alloc::AllocError;

/// The result of one step.
#[derive(Drop)]
pub(crate) enum Step {
    /// It is decided whether every path leads to EXIT or to a claim.
    Decided(bool),
    /// This is so if and only if it is so from this state.
    Onward(AbsState),
}

/// Whether an instruction begins at a slot.
pub(crate) fn begins(program: &Program, slot: usize) -> bool
    ensures is { Tells result (Begins program.now.slots slot) }
{
    match program.insn_at(slot) {
        Some(Some(_)) => true,
        _ => false,
    }
}

/// A successor.
fn arrive<M: Meter>(
    program: &Program,
    claims: &Claims,
    state: AbsState,
    left: u32,
    work: &mut M,
) -> Result<Step, Stop>
    ensures is { IfOk result
        (Goes program.now claims.now left (Arrives program.now claims.now left state)) }
    ensures limit { M.limit work.new ≡ M.limit work.old }
    ensures examined { M.examined work.new ≡ M.examined work.old }
    ensures least { M.compared work.old ≤ M.compared work.new }
    ensures stop { IfErr result (IsStop (M.has_passed work.new)) }
{
    if program.is_target(state.pc()) {
        let told = claims.include(&state, left, work)?;
        return Ok(Step::Decided(told));
    }
    Ok(Step::Onward(state))
}

/// The successors of a state.
fn follow<M: Meter>(
    program: &Program,
    claims: &Claims,
    ways: Ways,
    left: u32,
    work: &mut M,
) -> Result<Step, Stop>
    requires target { SecondIsTarget program.now ways }
    ensures is { IfOk result
        (Goes program.now claims.now left (EachWay ways (Arrives program.now claims.now left))) }
    ensures limit { M.limit work.new ≡ M.limit work.old }
    ensures examined { M.examined work.new ≡ M.examined work.old }
    ensures least { M.compared work.old ≤ M.compared work.new }
    ensures stop { IfErr result (IsStop (M.has_passed work.new)) }
{
    match ways {
        Ways::Nowhere => Ok(Step::Decided(true)),
        Ways::One(next) => {
            let step = arrive(program, claims, next, left, work)?;
            Ok(step)
        }
        Ways::Two(next, target) => {
            let told = claims.include(&target, left, work)?;
            if !told {
                return Ok(Step::Decided(false));
            }
            let step = arrive(program, claims, next, left, work)?;
            Ok(step)
        }
    }
}

/// On a fault the state leads nowhere; lack of memory is passed on.
fn refused(fault: Fault) -> Result<Step, Stop>
    ensures is { IfOk result (λ told. (told ≡ Decided false) × (fault ≡ NoMemory → ⊥)) }
    ensures stop { IfErr result (λ e. e ≡ Stop.NoMemory) }
{
    match fault {
        Fault::NoMemory => Err(Stop::NoMemory),
        _ => Ok(Step::Decided(false)),
    }
}

/// Examines the instruction at a state, which is consumed, with at most `left` instructions after it.
fn advance<M: Meter>(
    program: &Program,
    claims: &Claims,
    state: AbsState,
    left: u32,
    work: &mut M,
) -> Result<Step, Stop>
    ensures is { IfOk result
        (Goes program.now claims.now left (LeadsWithin program.now claims.now (left + 1) state)) }
    ensures limit { M.limit work.new ≡ M.limit work.old }
    ensures examined { M.examined work.new ≡ M.examined work.old }
    ensures least { M.compared work.old ≤ M.compared work.new }
    ensures stop { IfErr result (IsStop (M.has_passed work.new)) }
{
    program.whole();
    if !begins(program, state.pc()) {
        return Ok(Step::Decided(false));
    }
    match examine_moved(claims.alloc(), program, state) {
        Ok(ways) => {
            let step = follow(program, claims, ways, left, work)?;
            Ok(step)
        }
        Err(fault) => refused(fault),
    }
}

/// Whether from a claim, which is consumed, every path leads within its budget to EXIT or to a claim.
pub(crate) fn leads<M: Meter>(
    program: &Program,
    claims: &Claims,
    claim: Claim,
    work: &mut M,
) -> Result<bool, Stop>
    ensures is { IfOk result
        (λ told. Tells told (LeadsWithin program.now claims.now claim.budget claim.state)) }
    ensures limit { M.limit work.new ≡ M.limit work.old }
    ensures examined { IfOk result
        (λ told. IsTrue told → CountsMore (M.limit work.old) 1 (M.examined work.old) (M.examined work.new)) }
    ensures later { M.examined work.old ≤ M.examined work.new }
    ensures least { M.compared work.old ≤ M.compared work.new }
    ensures stop { IfErr result (IsStop (M.has_passed work.new)) }
{
    let mut state = claim.state;
    let mut left = claim.budget;
    while left > 0 {
        work.examines(&state)?;
        left -= 1;
        match advance(program, claims, state, left, work)? {
            Step::Decided(told) => return Ok(told),
            Step::Onward(next) => state = next,
        }
    }
    Ok(false)
}

/// Whether every claim does.
fn are_kept<M: Meter>(program: &Program, claims: &Claims, work: &mut M) -> Result<bool, Stop>
    ensures is { IfOk result (λ told. Tells told (AreKept program.now claims.now)) }
    ensures limit { M.limit work.new ≡ M.limit work.old }
    ensures examined { IfOk result
        (λ told. IsTrue told →
        CountsMore (M.limit work.old) (length claims.now) (M.examined work.old) (M.examined work.new)) }
    ensures later { M.examined work.old ≤ M.examined work.new }
    ensures least { M.compared work.old ≤ M.compared work.new }
    ensures stop { IfErr result (IsStop (M.has_passed work.new)) }
{
    for place in 0..claims.len() {
        let claim = claims.claim(place)?;
        if !leads(program, claims, claim, work)? {
            return Ok(false);
        }
    }
    Ok(true)
}

/// The lesser of a budget and the least known so far.
fn lesser(best: Option<u32>, budget: u32) -> u32
    ensures is { result ≡ option_map_or (λ b. min b budget) best budget }
{
    match best {
        None => budget,
        Some(best) => best.min(budget),
    }
}

/// The least budget of the claims that include the start.
fn start_budget(claims: &Claims, start: &AbsState) -> Result<Option<u32>, AllocError>
    requires start { start.now ≡ entry_view }
    ensures is { IfOk result
        (λ o. MatchOption o (All (λ e. Includes e entry_view → ⊥) claims.now)
        (BeginsWithin claims.now)) }
{
    let mut best = None;
    for place in 0..claims.len() {
        let claim = claims.claim(place)?;
        if includes(&claim, start) {
            best = Some(lesser(best, claim.budget));
        }
    }
    Ok(best)
}

/// The budget within which claims show that a program ends, if they do.
pub fn covered_budget<M: Meter>(
    program: &Program,
    claims: &Claims,
    work: &mut M,
) -> Result<Option<u32>, Stop>
    ensures is { IfOk result
        (λ o. MatchOption o ((b : ℕ) → AreCovered program.now claims.now b → ⊥)
        (AreCovered program.now claims.now)) }
    ensures limit { M.limit work.new ≡ M.limit work.old }
    ensures examined { IfOk result
        (λ o. IsSome o → CountsMore (M.limit work.old) (length claims.now) (M.examined work.old) (M.examined work.new)) }
    ensures least { M.compared work.old ≤ M.compared work.new }
    ensures stop { IfErr result (IsStop (M.has_passed work.new)) }
{
    let start = AbsState::entry(claims.alloc())?;
    if !are_kept(program, claims, work)? {
        return Ok(None);
    }
    let budget = start_budget(claims, &start)?;
    Ok(budget)
}
