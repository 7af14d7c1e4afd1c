//! What can be asked of certificates, and the results in words.
//!
//! - `check AT BYTE`: the budget that the given certificate shows, with another byte at a position, or its refusal's number;
//!   `check` as it is; `work MOST`: the same, within a limit of work;
//! - `certify`: the budgets that the program's own certificate shows for its hook, and for association requests; `shorter`:
//!   whether the given certificate is shorter than that; `hostile`: whether some of those with another byte are accepted, if
//!   no proper prefix is, and the runs of each accepted one end within its budget on three frames.

ghost use Rattle.std.specs.Prelude.{◌<◌, length};

use crate::examples::{Asked, hook_in, program_of};
use crate::rows::field;
use bpf_cert::{certificate, check, check_within};
use bpf_decode::Program;
use bpf_machine::limited_run::probe;
use bpf_machine::{Accepted, ListPort, Probe};
use bpf_regions::{Context, Frame, Hook};
use std::alloc::{AllocError, Global};

/// The budget that a certificate shows for code and a hook, or the number of its refusal.
fn shown(asked: &Asked<'_>, code: &[u8], hook: Hook, bytes: &[u8]) -> Result<u32, AllocError> {
    let Ok(program) = program_of(asked, code)? else {
        return Ok(0);
    };
    Ok(answer(asked.alloc, program, hook, bytes))
}

fn answer(alloc: Global, program: Program, hook: Hook, bytes: &[u8]) -> u32 {
    match check(alloc, program, hook, bytes) {
        Ok(accepted) => accepted.budget(),
        Err(fault) => u32::from(fault.number()),
    }
}

fn answer_within(asked: &Asked<'_>, program: Program, bytes: &[u8]) -> u32 {
    let most = asked.rest.parse::<u64>().ok();
    match check_within(asked.alloc, program, hook_in(asked.block), bytes, most) {
        Ok(accepted) => accepted.budget(),
        Err(fault) => u32::from(fault.number()),
    }
}

/// The certificate that is given.
fn given(asked: &Asked<'_>) -> Vec<u8> {
    let digits = field(asked.block, "certificate").unwrap_or("");
    hex::decode(asked.alloc, digits.as_bytes()).unwrap_or(Vec::new(asked.alloc))
}

/// Changes a byte, if a row says so.
fn change(bytes: &mut Vec<u8>, rest: &str) {
    if let Some((at, byte)) = rest.split_once(' ') {
        let at = at.parse::<usize>().unwrap_or(usize::MAX);
        if at < bytes.len() {
            bytes[at] = byte.parse::<u8>().unwrap_or(0);
        }
    }
}

/// What the given certificate shows.
pub fn told_of_check(asked: &Asked<'_>, program: Program) -> Result<String, AllocError> {
    let mut bytes = given(asked);
    let shown = match asked.word {
        "check" => {
            change(&mut bytes, asked.rest);
            answer(asked.alloc, program, hook_in(asked.block), &bytes)
        }
        _ => answer_within(asked, program, &bytes),
    };
    format!(in asked.alloc; "{shown}")
}

/// Whether a run on this frame ends within a budget.
fn ends_within(accepted: &Accepted, bytes: &[u8]) -> bool {
    let Some(frame) = Frame::new(bytes) else {
        return false;
    };
    let program = accepted.program();
    let mut port = ListPort::new(program.shapes(), &[]);
    match probe(
        program,
        &frame,
        &Context::new([0; 32]),
        &mut port,
        accepted.budget(),
    ) {
        Probe::Ended(_) => true,
        _ => false,
    }
}

/// Whether a certificate is accepted for code. None if a run then exceeds the budget on an empty frame, on a header alone,
/// or on a longer one.
fn accepts(asked: &Asked<'_>, code: &[u8], bytes: &[u8]) -> Result<Option<bool>, AllocError> {
    let Ok(program) = program_of(asked, code)? else {
        return Ok(None);
    };
    let Some(accepted) = check(asked.alloc, program, hook_in(asked.block), bytes).ok() else {
        return Ok(Some(false));
    };
    let ends = ends_within(&accepted, &[])
        && ends_within(&accepted, &[0xff; 26])
        && ends_within(&accepted, &[0x03; 64]);
    Ok(if ends { Some(true) } else { None })
}

/// How many certificates are accepted with another byte at a position. None if a run exceeds a budget.
fn accepted_at(
    asked: &Asked<'_>,
    code: &[u8],
    bytes: &mut [u8],
    at: usize,
) -> Result<Option<u64>, AllocError>
    requires { at < length bytes.old }
{
    let kept = bytes[at];
    let mut count = 0u64;
    for value in 0..=255u8 {
        bytes[at] = value;
        match accepts(asked, code, bytes)? {
            Some(true) => count = count.saturating_add(1),
            Some(false) => {}
            None => return Ok(None),
        }
    }
    bytes[at] = kept;
    Ok(Some(count))
}

/// How many certificates are accepted with another byte. None if a run exceeds a budget, or a proper prefix is accepted.
fn accepted_in_all(
    asked: &Asked<'_>,
    code: &[u8],
    bytes: &mut [u8],
) -> Result<Option<u64>, AllocError> {
    let mut count = 0u64;
    for at in 0..bytes.len() {
        if accepts(asked, code, &bytes[..at])? != Some(false) {
            return Ok(None);
        }
        let Some(more) = accepted_at(asked, code, bytes, at)? else {
            return Ok(None);
        };
        count = count.saturating_add(more);
    }
    Ok(Some(count))
}

/// What is said of the certificate of an accepted program.
pub fn told_of_own_certificate(
    asked: &Asked<'_>,
    code: &[u8],
    accepted: &Accepted,
) -> Result<String, AllocError> {
    let Some(mut bytes) = certificate(asked.alloc, accepted).ok() else {
        return Err(AllocError);
    };
    match asked.word {
        "certify" => {
            let own = shown(asked, code, accepted.hook(), &bytes)?;
            let other = shown(asked, code, Hook::Association, &bytes)?;
            format!(in asked.alloc; "{own}, {other}")
        }
        "shorter" => format!(in asked.alloc; "{}", given(asked).len() < bytes.len()),
        "hostile" => match accepted_in_all(asked, code, &mut bytes)? {
            Some(count) => format!(in asked.alloc; "{}", count > bytes.len() as u64),
            None => String::from_str(asked.alloc, "a run exceeds its budget"),
        },
        _ => String::from_str(asked.alloc, "an unknown word"),
    }
}
