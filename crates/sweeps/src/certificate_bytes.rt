//! Certificates with changes, for the code that they name.

ghost use Rattle.std.specs.Prelude.{◌≤◌, ◌+◌, length};

use crate::admission::undecoded;
use crate::maps::shapes;
use crate::numbers::Numbers;
use crate::runs::{Inputs, judged_runs};
use crate::tally::Judged;
use bpf_cert::{CertFault, certificate, check};
use bpf_decode::{Program, decode};
use bpf_regions::Hook;
use bpf_verifier::verify;
use std::alloc::{AllocError, Global};

/// The certificate of an accepted program, or nothing if it has none.
fn certificate_or_nothing(alloc: Global, program: Program) -> Vec<u8> {
    match verify(alloc, program, Hook::Data) {
        Ok(accepted) => certificate(alloc, &accepted).unwrap_or(Vec::new(alloc)),
        Err(_) => Vec::new(alloc),
    }
}

/// The certificate of code, or nothing if it has none.
pub fn certificate_of(alloc: Global, code: &[u8]) -> Result<Vec<u8>, AllocError> {
    match decode(alloc, code, shapes(alloc)?) {
        Ok(program) => Ok(certificate_or_nothing(alloc, program)),
        Err(_) => Ok(Vec::new(alloc)),
    }
}

/// The code in a certificate: after four letters and the hook comes the number of its slots, then the slots.
fn code_in(bytes: &[u8]) -> &[u8] {
    if bytes.len() < 7 {
        return &[];
    }
    let size = 8 * usize::from(u16::from_le_bytes([bytes[5], bytes[6]]));
    let rest = &bytes[7..];
    if rest.len() < size {
        return rest;
    }
    &rest[..size]
}

fn hook_in(bytes: &[u8]) -> Hook {
    match bytes.get(4) {
        Some(1) => Hook::Association,
        Some(2) => Hook::Addba,
        _ => Hook::Data,
    }
}

/// The result for a certificate that is refused.
fn refused(fault: CertFault) -> Judged {
    match fault.number() {
        70..=72 => Judged::Refused,
        _ => Judged::Wrong("an unknown refusal of a certificate"),
    }
}

/// Checks a certificate for a program, and runs it if it is accepted.
fn judged_program(
    alloc: Global,
    numbers: &mut Numbers,
    program: Program,
    bytes: &[u8],
) -> Result<Judged, AllocError> {
    let inputs = Inputs::new(alloc, numbers.next())?;
    match check(alloc, program, hook_in(bytes), bytes) {
        Ok(accepted) => Ok(judged_runs(&accepted, &inputs)),
        Err(fault) => Ok(refused(fault)),
    }
}

/// Checks a certificate for the code that it names, and runs that if it is accepted.
pub fn judged(alloc: Global, numbers: &mut Numbers, bytes: &[u8]) -> Result<Judged, AllocError> {
    match decode(alloc, code_in(bytes), shapes(alloc)?) {
        Ok(program) => judged_program(alloc, numbers, program, bytes),
        Err(fault) => Ok(undecoded(fault)),
    }
}
