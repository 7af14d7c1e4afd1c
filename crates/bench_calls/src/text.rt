//! How long it takes to assemble 16384 lines, decode them and write them as text again.

use crate::clock::{now, print_since};
use crate::programs::of_code;
use bpf_text::{assemble, disassemble};
use std::alloc::{AllocError, Global};
use std::rt::Clock;

/// Eight lines of different kinds, one slot each.
static LINES: &str = "mov r0, 1
add32 r1, -5
stxdw [r10-8], r2
ldxb r0, [r1+24]
jgt r3, r2, +1
movsx8 r0, r1
fetch_add [r10-8], r2
exit
";

/// The lines, repeated until they have 16384 slots.
fn text(alloc: Global) -> Result<String, AllocError> {
    let mut text = String::with_capacity(alloc, 2048 * LINES.len())?;
    for _ in 0..2048 {
        text.push_str(LINES)?;
    }
    Ok(text)
}

/// Prints how long decoding a code takes, and writing its program. The sums are how many slots and how many bytes come
/// out. None if an allocation fails.
fn print_back<R: Clock + Eprint>(rt: &R, alloc: Global, code: &[u8]) -> Option<()> {
    let start = now(rt);
    let program = of_code(alloc, code)?;
    print_since(rt, "decode", start, 1, program.len() as u64);
    let start = now(rt);
    let text = disassemble(alloc, &program).ok()?;
    print_since(rt, "disassemble", start, 1, text.len() as u64);
    Some(())
}

/// Prints how long each step takes. None if an allocation fails.
pub fn print_times<R: Clock + Eprint>(rt: &R, alloc: Global) -> Option<()> {
    let text = text(alloc).ok()?;
    let start = now(rt);
    let code = assemble(alloc, text.as_str()).ok()?;
    print_since(rt, "assemble", start, 1, code.len() as u64);
    print_back(rt, alloc, code.as_slice())
}
