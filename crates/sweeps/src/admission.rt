//! Code that is decoded, verified and run.

use crate::maps::{copied, some_shapes};
use crate::numbers::Numbers;
use crate::runs::{Inputs, Seen, judged_runs, look};
use crate::tally::Judged;
use crate::weight::weigh;
use bpf_cert::{certificate, check};
use bpf_decode::{DecodeFault, Program, decode, encode};
use bpf_machine::Accepted;
use bpf_regions::Hook;
use bpf_verifier::verify;
use std::alloc::{AllocError, Global};

/// The most steps that a run may have before its program is put aside: verification follows each iteration.
const LONG: u32 = 1024;

/// The most paths to slots, summed over the slots, before code counts as heavy.
const MOST: u64 = 16384;

fn hook(numbers: &mut Numbers) -> Hook {
    match numbers.below(3) {
        0 => Hook::Association,
        1 => Hook::Addba,
        _ => Hook::Data,
    }
}

/// The result for code that doesn't decode.
pub fn undecoded(fault: DecodeFault) -> Judged {
    match fault.number() {
        1..=3 | 10..=19 => Judged::Refused,
        _ => Judged::Wrong("an unknown fault of code"),
    }
}

/// The result for a program that is refused.
fn refused(number: u8) -> Judged {
    match number {
        30..=38 => Judged::Refused,
        _ => Judged::Wrong("an unknown refusal of a program"),
    }
}

/// Whether a program is encoded as these bytes.
fn is_spelled(alloc: Global, program: &Program, code: &[u8]) -> Result<bool, AllocError> {
    let again = encode(alloc, program)?;
    Ok(again.as_slice() == code)
}

/// Whether a certificate is accepted for a program.
fn is_checked(alloc: Global, program: Program, hook: Hook, bytes: &[u8]) -> bool {
    match check(alloc, program, hook, bytes) {
        Ok(_) => true,
        Err(_) => false,
    }
}

/// Whether a certificate is accepted for accepted code.
fn is_checked_code(
    alloc: Global,
    accepted: &Accepted,
    code: &[u8],
    bytes: &[u8],
) -> Result<bool, AllocError> {
    let shapes = copied(alloc, accepted.program().shapes())?;
    match decode(alloc, code, shapes) {
        Ok(program) => Ok(is_checked(alloc, program, accepted.hook(), bytes)),
        Err(_) => Ok(false),
    }
}

/// Whether the certificate of an accepted program, if it has one, is accepted.
fn is_certified(alloc: Global, accepted: &Accepted, code: &[u8]) -> Result<bool, AllocError> {
    match certificate(alloc, accepted) {
        Ok(bytes) => is_checked_code(alloc, accepted, code, &bytes),
        Err(_) => Ok(true),
    }
}

/// The result for an accepted program.
fn judged_accepted(
    alloc: Global,
    numbers: &mut Numbers,
    accepted: &Accepted,
    code: &[u8],
    inputs: &Inputs,
) -> Result<Judged, AllocError> {
    if numbers.is_one_in(16) && !is_certified(alloc, accepted, code)? {
        return Ok(Judged::Wrong("its certificate is refused"));
    }
    Ok(judged_runs(accepted, inputs))
}

/// Verifies a program for a hook, and runs it if it is accepted.
fn judged_program(
    alloc: Global,
    numbers: &mut Numbers,
    program: Program,
    code: &[u8],
    inputs: &Inputs,
) -> Result<Judged, AllocError> {
    match verify(alloc, program, hook(numbers)) {
        Ok(accepted) => judged_accepted(alloc, numbers, &accepted, code, inputs),
        Err(refusal) => Ok(refused(refusal.number())),
    }
}

/// The result for a program of which a run met a fault, once it is verified.
fn judged_faulty(judged: Judged) -> Judged {
    match judged {
        Judged::Admitted { .. } => Judged::Wrong("let in, and a run meets a fault"),
        other => other,
    }
}

/// Whether to verify code: always, but once in eight times if jumps lead back or there are too many paths, since that
/// may take long.
fn is_light(alloc: Global, numbers: &mut Numbers, code: &[u8]) -> Result<bool, AllocError> {
    let weight = weigh(alloc, code)?;
    if weight.turns || weight.states > MOST {
        return Ok(numbers.is_one_in(8));
    }
    Ok(true)
}

/// Runs a program, and verifies it, unless its code isn't light or a run is long.
fn judged_whole(
    alloc: Global,
    numbers: &mut Numbers,
    program: Program,
    code: &[u8],
) -> Result<Judged, AllocError> {
    if !is_light(alloc, numbers, code)? {
        return Ok(Judged::Long);
    }
    let inputs = Inputs::new(alloc, numbers.next())?;
    match look(&program, &inputs, LONG) {
        Seen::Long => Ok(Judged::Long),
        Seen::Ended => judged_program(alloc, numbers, program, code, &inputs),
        Seen::Faulted => {
            let judged = judged_program(alloc, numbers, program, code, &inputs)?;
            Ok(judged_faulty(judged))
        }
    }
}

/// Decodes code, writes it again, runs it, verifies it for a hook, and runs it on both machines if it is accepted.
pub fn judged(alloc: Global, numbers: &mut Numbers, code: &[u8]) -> Result<Judged, AllocError> {
    let shapes = some_shapes(alloc, numbers)?;
    match decode(alloc, code, shapes) {
        Ok(program) if is_spelled(alloc, &program, code)? => {
            judged_whole(alloc, numbers, program, code)
        }
        Ok(_) => Ok(Judged::Wrong("written again it is other code")),
        Err(fault) => Ok(undecoded(fault)),
    }
}
