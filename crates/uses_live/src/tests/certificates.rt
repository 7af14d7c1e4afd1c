//! Programs that are published with their certificates, and refused certificates.

ghost use Rattle.std.specs.Prelude.{◌≡◌};

use crate::tests::programs::program_of;
use crate::tests::rows::{opened, shows};
use crate::tests::same::same;
use bpf_cert::certificate;
use bpf_decode::Program;
use bpf_regions::{Hook, Scope, Shape, WordWidth};
use bpf_verifier::verify;
use std::alloc::Global;
use std::process::Abort;
use std::sync::Wait;
use versions::Publisher;
use versions_checked::{Offer, publish_checked};

/// R0 is 1.
const ONE: &str = "mov r0, 1\nexit";

/// R0 is 2.
const TWO: &str = "mov r0, 2\nexit";

/// R0 is 7, after a loop of 7 iterations.
const SEVEN: &str = "mov r0, 0\nmov r1, 7\nadd r0, 1\nsub r1, 1\njne r1, 0, -3\nexit";

/// A map of four entries.
const MAP: Shape = Shape {
    entries: 4,
    words: 1,
    width: WordWidth::Eight,
    scope: Scope::Shared,
};

/// The certificate for data of the program of a text, and the budget with which it is verified.
fn certified(rt: &impl Abort, alloc: Global, text: &str, maps: &[Shape]) -> (u32, Vec<u8>) {
    let program = program_of(rt, alloc, text, maps);
    let accepted = verify(alloc, program, Hook::Data).ok().expect(rt, text);
    let bytes = certificate(alloc, &accepted).ok().expect(rt, text);
    (accepted.budget(), bytes)
}

/// The budget of a program that is published for data with a certificate, or the number of the refusal.
fn offered<R: Wait>(
    rt: &R,
    alloc: Global,
    publisher: &mut Publisher,
    program: Program,
    certificate: &[u8],
) -> Result<u32, u8>
    ensures list { publisher.new.list ≡ publisher.old.list }
{
    let offer = Offer {
        program,
        hook: Hook::Data,
        certificate,
    };
    match publish_checked(rt, alloc, publisher, offer) {
        Ok(budget) => return Ok(budget),
        Err(fault) => return Err(fault.number()),
    }
}

/// A program is published with its certificate and its verified budget.
fn is_published<R: Wait + Abort>(rt: &R, alloc: Global, text: &str, answer: u64) {
    let (budget, bytes) = certified(rt, alloc, text, &[]);
    let program = program_of(rt, alloc, text, &[]);
    let (mut publisher, mut sets) = opened(rt, alloc, &[], 1);
    let reader = sets.reader().expect(rt, "a reader");
    let found = offered(rt, alloc, &mut publisher, program, &bytes);
    same(rt, found, Ok(budget), text);
    let wanted = [None, None, Some(answer)];
    let _reader = shows(rt, &mut publisher, &sets, reader, wanted);
    publisher.close(rt);
}

#[test]
fn a_certificate_publishes_its_program(rt: HostRuntime) {
    is_published(&rt, rt.alloc(), ONE, 1);
    is_published(&rt, rt.alloc(), SEVEN, 7);
}

/// After a program is published with its certificate, another with these bytes is refused with this number, and the
/// first one stays in force.
fn is_refused<R: Wait + Abort>(rt: &R, alloc: Global, other: Program, bytes: &[u8], number: u8) {
    let (_budget, own) = certified(rt, alloc, ONE, &[]);
    let first = program_of(rt, alloc, ONE, &[]);
    let (mut publisher, mut sets) = opened(rt, alloc, &[], 1);
    let reader = sets.reader().expect(rt, "a reader");
    let first = offered(rt, alloc, &mut publisher, first, &own);
    let second = offered(rt, alloc, &mut publisher, other, bytes);
    same(rt, (first, second), (Ok(2), Err(number)), "answers");
    let wanted = [None, None, Some(1)];
    let _reader = shows(rt, &mut publisher, &sets, reader, wanted);
    publisher.close(rt);
}

#[test]
fn a_damaged_certificate_is_refused(rt: HostRuntime) {
    let alloc = rt.alloc();
    let (_budget, mut bytes) = certified(&rt, alloc, TWO, &[]);
    let cut = &bytes[..bytes.len().saturating_sub(1)];
    is_refused(&rt, alloc, program_of(&rt, alloc, TWO, &[]), cut, 70);
    // The lowest byte of the only entry's budget: 1, for 2 instructions.
    if let Some(budget) = bytes.get_mut(29) {
        *budget = 1;
    }
    is_refused(&rt, alloc, program_of(&rt, alloc, TWO, &[]), &bytes, 72);
}

#[test]
fn a_certificate_of_another_program_is_refused(rt: HostRuntime) {
    let alloc = rt.alloc();
    let (_budget, bytes) = certified(&rt, alloc, ONE, &[]);
    is_refused(&rt, alloc, program_of(&rt, alloc, TWO, &[]), &bytes, 71);
}

#[test]
fn a_certified_program_for_other_maps_is_refused(rt: HostRuntime) {
    let alloc = rt.alloc();
    let (_budget, bytes) = certified(&rt, alloc, TWO, &[MAP]);
    is_refused(&rt, alloc, program_of(&rt, alloc, TWO, &[MAP]), &bytes, 60);
}
