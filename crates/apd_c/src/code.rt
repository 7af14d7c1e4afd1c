//! Verification of programs.

ghost use Rattle.std.specs.Prelude.{◌≡◌, ◌≢◌, ◌⊎◌, ◌↔◌, ◌^◌, map, Some, None, IsSome, OnOk, IfOk, IfErr, IfSome};
ghost use Rattle.bpf_regions.specs.declared.hooks.Hook.{Hook as AHook};
ghost use Rattle.bpf_regions.specs.Hooks.{number_of};
ghost use Rattle.apd_c.specs.Held.{held};
ghost use Rattle.apd_c.specs.Given.{IsAskable, IsHook, shape_of};
ghost use Rattle.apd_c.specs.Code.{IsAdmitted, IsRefused, IsUnsafe, HoldsAdmitted, IsWithinWork, IsVerdict, budget_of, limit_of, work_limit};
ghost use Rattle.bpf_verifier.specs.Admission.{IsSafeBudget};

use crate::answer::{Answer, NO_MEMORY, NOT_EMPTY, OUT_OF_LIMITS};
use crate::handle::{Content, Handle};
use crate::shapes::{MapShape, shapes_from};
use bpf_decode::{Program, decode};
use bpf_machine::Accepted;
use bpf_regions::{Hook, Shapes};
use bpf_verifier::{Limits, Refusal, StateLimit, verify_limited, verify_within};
use std::alloc::Global;

pub(crate) fn hook_of(number: u32) -> Option<Hook>
    ensures is { IfSome result (λ hook. number ≡ number_of hook) }
    ensures limits { IsSome result ↔ IsHook number }
{
    match number {
        1 => Some(Hook::Association),
        2 => Some(Hook::Addba),
        3 => Some(Hook::Data),
        _ => None,
    }
}

/// The limit of states that C passes; 0 stands for the verifier's own.
pub(crate) fn limit_of(states: u32) -> StateLimit
    ensures { result ≡ limit_of states }
{
    if states == 0 {
        StateLimit::MOST
    } else {
        StateLimit::nearest(states)
    }
}

/// The limit of work that C passes; 0 stands for none.
pub(crate) fn work_limit(work: u64) -> Option<u64>
    ensures { result ≡ work_limit work }
{
    if work == 0 { None } else { Some(work) }
}

/// The program, admitted for a hook, or the verifier's refusal.
fn verified(
    alloc: Global,
    program: Program,
    hook: Hook,
    limits: Limits,
) -> Result<Accepted, Refusal>
    ensures code { IfOk result (λ accepted. accepted.code ≡ program) }
    ensures hook { IfOk result (λ accepted. accepted.hook ≡ hook) }
    ensures budget { IfOk result (λ accepted. IsSafeBudget program limits.states accepted.budget) }
    ensures refused { IfErr result (IsUnsafe program limits.states limits.work) }
    ensures earned { IfOk result (λ accepted. IsWithinWork limits.work accepted.budget) }
{
    match limits.work {
        None => verify_within(alloc, program, hook, limits.states),
        Some(_) => verify_limited(alloc, program, hook, limits),
    }
}

/// The program that the bytes spell, admitted for a hook.
fn admitted(
    alloc: Global,
    hook: Hook,
    bytes: &[u8],
    shapes: Shapes,
    limits: Limits,
) -> Result<Accepted, Answer>
    ensures ok { IfOk result (IsAdmitted hook bytes.now shapes limits.states) }
    ensures err { IfErr result (IsRefused bytes.now shapes limits.states limits.work) }
    ensures some { IfErr result (λ e. e.number ≢ 0) }
    ensures earned { IfOk result (λ accepted. IsWithinWork limits.work accepted.budget) }
{
    match decode(alloc, bytes, shapes) {
        Err(fault) => Err(Answer {
            number: u32::from(fault.number()),
            slot: fault.slot(),
        }),
        Ok(program) => match verified(alloc, program, hook, limits) {
            Err(refusal) => Err(Answer {
                number: u32::from(refusal.number()),
                slot: refusal.pc,
            }),
            Ok(accepted) => Ok(accepted),
        },
    }
}

/// The same for a hook and maps as C describes them.
fn asked(
    alloc: Global,
    hook: u32,
    bytes: &[u8],
    shapes: &[MapShape],
    limits: Limits,
) -> Result<Accepted, Answer>
    ensures ok { IfOk result (λ a. (h : AHook) × (hook ≡ number_of h)
        × IsAdmitted h bytes.now (map shape_of shapes.now) limits.states a) }
    ensures some { IfErr result (λ e. e.number ≢ 0) }
    ensures within { OnOk result (IsAskable hook shapes.now) }
    ensures err { IfErr result (IsVerdict hook bytes.now shapes.now limits.states limits.work None) }
    ensures earned { IfOk result (λ a. IsWithinWork limits.work a.budget) }
{
    let Some(hook) = hook_of(hook) else {
        return Err(Answer::of(OUT_OF_LIMITS));
    };
    match shapes_from(alloc, shapes) {
        Err(_) => Err(Answer::of(NO_MEMORY)),
        Ok(None) => Err(Answer::of(OUT_OF_LIMITS)),
        Ok(Some(shapes)) => admitted(alloc, hook, bytes, shapes, limits),
    }
}

/// Verifies code for a hook (1 association, 2 ADDBA, 3 data) and maps of these shapes, and fills an empty handle with
/// the program. The verifier examines at most `states` states, so the budget is at most that. 0 and larger numbers
/// stand for its own limit of 4194304. It does at most `work` units of work, as `bpf_verifier::verify_limited` counts
/// them, so the budget is at most an 80th of that; 0 is for no limit.
///
/// 0: the handle holds it. 1 to 3 and 10 to 19: the bytes aren't well-formed code. 30 to 38: the verifier refuses it,
/// with 36 if it has more states, or needs more work. 40: an allocation failed. 90: there is no such hook, or the
/// shapes are out of their limits. 92: the handle isn't empty. All but 0 leave the handle unchanged.
#[unsafe(no_mangle)]
pub extern "C" fn apd_c_verify_limited(
    alloc: Global,
    code: &mut Handle,
    hook: u32,
    bytes: &[u8],
    shapes: &[MapShape],
    states: u32,
    work: u64,
) -> Answer
    ensures admitted { result.number ≡ 0 →
        HoldsAdmitted hook bytes.now shapes.now (limit_of states) (held code.new) }
    ensures kept { result.number ≢ 0 → held code.new ≡ held code.old }
    ensures earned { result.number ≡ 0 → IsWithinWork (work_limit work) (budget_of (held code.new)) }
    ensures why { IsVerdict hook bytes.now shapes.now (limit_of states) (work_limit work)
        (held code.old) result }
{
    if !code.is_empty() {
        return Answer::of(NOT_EMPTY);
    }
    let limits = Limits {
        states: limit_of(states),
        work: work_limit(work),
    };
    match asked(alloc, hook, bytes, shapes, limits) {
        Err(answer) => answer,
        Ok(accepted) => code.fill_code(alloc, accepted),
    }
}

/// `apd_c_verify_limited` without a limit of work.
#[unsafe(no_mangle)]
pub extern "C" fn apd_c_verify_within(
    alloc: Global,
    code: &mut Handle,
    hook: u32,
    bytes: &[u8],
    shapes: &[MapShape],
    states: u32,
) -> Answer
    ensures admitted { result.number ≡ 0 →
        HoldsAdmitted hook bytes.now shapes.now (limit_of states) (held code.new) }
    ensures kept { result.number ≢ 0 → held code.new ≡ held code.old }
    ensures why { IsVerdict hook bytes.now shapes.now (limit_of states) None (held code.old) result }
{
    apd_c_verify_limited(alloc, code, hook, bytes, shapes, states, 0)
}

/// `apd_c_verify_within` with the verifier's own limit of states.
#[unsafe(no_mangle)]
pub extern "C" fn apd_c_verify(
    alloc: Global,
    code: &mut Handle,
    hook: u32,
    bytes: &[u8],
    shapes: &[MapShape],
) -> Answer
    ensures admitted { result.number ≡ 0 →
        HoldsAdmitted hook bytes.now shapes.now (2 ^ 22) (held code.new) }
    ensures kept { result.number ≢ 0 → held code.new ≡ held code.old }
    ensures why { IsVerdict hook bytes.now shapes.now (2 ^ 22) None (held code.old) result }
{
    apd_c_verify_within(alloc, code, hook, bytes, shapes, 0)
}

/// The budget of the program that a handle holds; 0 if it holds none.
#[unsafe(no_mangle)]
pub extern "C" fn apd_c_budget(code: &mut Handle) -> u32
    ensures is { result ≡ budget_of (held code.old) }
    ensures kept { held code.new ≡ held code.old }
{
    match code.lent() {
        None => 0,
        Some(content) => budget(content),
    }
}

fn budget(content: &Content) -> u32
    ensures { result ≡ budget_of (Some content.now) }
{
    match content {
        Content::Code(accepted) => accepted.budget(),
        _ => 0,
    }
}
