//! How long `verify` takes for a loop and for branches that join; and programs from code and from text.

ghost use Rattle.std.specs.Prelude.{◌≡◌, IfSome};
ghost use Rattle.bpf_regions.specs.declared.hooks.Hook.TheVariants.{Data};

use crate::asked::Asked;
use crate::clock::{nanos_since, now, print_since};
use bpf_decode::{Program, decode};
use bpf_machine::Accepted;
use bpf_regions::{Hook, Shapes};
use bpf_text::assemble;
use bpf_verifier::verify;
use std::alloc::{AllocError, Global};
use std::rt::Clock;

/// The program of a code without maps. None if it can't be decoded.
pub fn of_code(alloc: Global, code: &[u8]) -> Option<Program> {
    let shapes = Shapes::new(Vec::new(alloc))?;
    decode(alloc, code, shapes).ok()
}

/// The program, accepted for data, and the nanoseconds that took. None if it is refused.
pub fn verified<R: Clock>(rt: &R, alloc: Global, program: Program) -> Option<(Accepted, u64)>
    ensures { IfSome result (λ t. t.0.hook ≡ Data) }
{
    let start = now(rt);
    let accepted = verify(alloc, program, Hook::Data).ok()?;
    Some((accepted, nanos_since(rt, start)))
}

/// A loop of `turns` iterations of three instructions.
fn turns_of_a_loop(alloc: Global, turns: u64) -> Result<String, AllocError> {
    format!(in alloc; "mov r0, 0\nlddw r1, {turns}\nadd r0, 1\nsub r1, 1\njne r1, 0, -3\nexit\n")
}

/// `turns` pairs of branches that join again, one after another.
fn joins(alloc: Global, turns: u64) -> Result<String, AllocError> {
    let mut text = String::new(alloc);
    for _turn in 0..turns {
        text.push_str("call 4\njgt r0, 7, +1\nmov r0, 0\n")?;
    }
    text.push_str("mov r0, 0\nexit\n")?;
    Ok(text)
}

/// The code of a loop or of joins, and how many states of it are examined. R0 differs on the two branches that join, so
/// each pair but the first is examined twice. None if it has too many lines.
fn code_of(alloc: Global, name: &str, turns: u64) -> Option<(Vec<u8>, u64)> {
    let (text, states) = match name {
        "joins" => (
            joins(alloc, turns),
            turns.saturating_mul(8).saturating_sub(1),
        ),
        _ => (
            turns_of_a_loop(alloc, turns),
            turns.saturating_mul(3).saturating_add(3),
        ),
    };
    let code = assemble(alloc, text.ok()?.as_str()).ok()?;
    Some((code, states))
}

/// Verifies the program of a code, and prints how long each of its states took; the sum is the budget.
fn print_states<R: Clock + Eprint>(rt: &R, alloc: Global, code: &[u8], states: u64) -> Option<()> {
    let program = of_code(alloc, code)?;
    let start = now(rt);
    let accepted = verify(alloc, program, Hook::Data).ok()?;
    print_since(rt, "a state", start, states, u64::from(accepted.budget()));
    Some(())
}

/// Prints how long a state of a loop or of joins takes. The numbers: how many iterations the program has, and how many
/// times it is verified in turn. None if there is no such program.
pub fn print_times<R: Clock + Eprint>(
    rt: &R,
    alloc: Global,
    name: &str,
    asked: Asked<'_>,
) -> Option<()> {
    let (code, states) = code_of(alloc, name, asked.number(0, 5000, 1000))?;
    for _ in 0..asked.number(1, 1, 1) {
        print_states(rt, alloc, code.as_slice(), states)?;
    }
    Some(())
}
