//! Admits programs.

ghost use Rattle.std.specs.Prelude.{◌≡◌, ◌^◌, IfOk, IfErr};
ghost use Rattle.bpf_prune.specs.Spending.{CountsAll};
ghost use Rattle.bpf_verifier.specs.Admission.{IsSafeBudget, IsRefusal, IsRefusalAfter, IsRefusalWithin};
ghost use Rattle.bpf_verifier.specs.Causes.{IsDue};
ghost use Rattle.bpf_verifier.specs.Spent.{IsSpent, IsEarned, IsWithin};

use crate::exploration::find_budget;
use crate::limit::{Limits, StateLimit};
use crate::refusal::Refusal;
use bpf_decode::Program;
use bpf_machine::Accepted;
use bpf_prune::Work;
use bpf_regions::Hook;
use std::alloc::Global;

/// Admits a program for a hook, or says why not and where. An admitted program is safe within its budget, which is at
/// most 2^22.
///
/// A plain program is refused only for lack of memory, and its budget is at most the length of one of its walks. A
/// program whose states, each counted once for every path to it, are at most 2^22 and meet no fault is also refused
/// only for lack of memory.
pub fn verify(alloc: Global, program: Program, hook: Hook) -> Result<Accepted, Refusal>
    ensures code { IfOk result (λ accepted. accepted.code ≡ program) }
    ensures hook { IfOk result (λ accepted. accepted.hook ≡ hook) }
    ensures budget { IfOk result (λ accepted. IsSafeBudget program (2 ^ 22) accepted.budget) }
    ensures refused { IfErr result (IsRefusal program (2 ^ 22)) }
{
    verify_within(alloc, program, hook, StateLimit::MOST)
}

/// Like `verify`, but examines at most `limit` states: a program that needs more is refused with 36. An admitted
/// program is safe within its budget, which is at most the limit.
///
/// A program whose states, each counted once for every path to it, are at most the limit and meet no fault is refused
/// only for lack of memory; so is a plain one, if the limit is the greatest.
pub fn verify_within(
    alloc: Global,
    program: Program,
    hook: Hook,
    limit: StateLimit,
) -> Result<Accepted, Refusal>
    ensures code { IfOk result (λ accepted. accepted.code ≡ program) }
    ensures hook { IfOk result (λ accepted. accepted.hook ≡ hook) }
    ensures budget { IfOk result (λ accepted. IsSafeBudget program limit accepted.budget) }
    ensures refused { IfErr result (IsRefusal program limit) }
{
    verify_limited(alloc, program, hook, limit.alone())
}

/// Like `verify_within`, with a limit on work, too: a program that needs more is refused with 36. A budget is at most an
/// 80th of the limit.
pub fn verify_limited(
    alloc: Global,
    program: Program,
    hook: Hook,
    limits: Limits,
) -> Result<Accepted, Refusal>
    ensures code { IfOk result (λ accepted. accepted.code ≡ program) }
    ensures hook { IfOk result (λ accepted. accepted.hook ≡ hook) }
    ensures budget { IfOk result (λ accepted. IsSafeBudget program limits.states accepted.budget) }
    ensures refused { IfErr result (IsRefusalWithin program limits) }
    ensures earned { IfOk result (λ accepted. IsWithin limits accepted.budget) }
{
    let states = limits.states;
    let mut work = Work::within(limits.units());
    verify_counted(alloc, program, hook, states, &mut work)
}

/// Like `verify_limited`, but `work` has the limit on work, and counts each unit before it is done; what was counted
/// before stays. The states that are examined or made again, 80 units each at least, and the comparisons of a state with
/// a finished one are within the units that are allowed. As many states as a budget has steps are examined and counted.
pub fn verify_counted(
    alloc: Global,
    program: Program,
    hook: Hook,
    limit: StateLimit,
    work: &mut Work,
) -> Result<Accepted, Refusal>
    ensures code { IfOk result (λ accepted. accepted.code ≡ program) }
    ensures hook { IfOk result (λ accepted. accepted.hook ≡ hook) }
    ensures budget { IfOk result (λ accepted. IsSafeBudget program limit accepted.budget) }
    ensures refused { IfErr result (IsRefusalAfter program limit work.new) }
    ensures due { IfErr result (IsDue program limit work.old work.new) }
    ensures spent { IsSpent limit work.old work.new }
    ensures counted { CountsAll work.new }
    ensures earned { IfOk result (λ accepted. IsEarned accepted.budget work.old work.new) }
{
    let found = find_budget(alloc, &program, limit, work);
    work.known();
    let budget = found?;
    let accepted = Accepted::new(alloc, program, hook, budget)?;
    Ok(accepted)
}
