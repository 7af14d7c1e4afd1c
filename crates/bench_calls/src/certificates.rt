//! How long `verify`, `certificate` and `check` take for the program in a file, and how long its certificate is.

use crate::asked::Asked;
use crate::clock::{nanos_since, now};
use crate::programs::verified;
use apd_config::read_configuration;
use bpf_cert::{certificate, check};
use bpf_decode::{Program, decode};
use bpf_machine::Accepted;
use bpf_regions::{Hook, Shape, Shapes};
use std::alloc::Global;
use std::fs;
use std::rt::{Clock, Files};

/// What was measured: the nanoseconds of each call, the certificate's length in bytes, and the budgets that `verify`
/// and `check` return.
#[derive(Clone, Copy)]
struct Measured {
    verify: u64,
    certificate: u64,
    check: u64,
    bytes: usize,
    budget: u32,
    checked: u32,
}

impl Measured {
    /// The same with the least times of both.
    fn least(self, other: Measured) -> Measured {
        Measured {
            verify: self.verify.min(other.verify),
            certificate: self.certificate.min(other.certificate),
            check: self.check.min(other.check),
            ..self
        }
    }
}

/// The bytes of a code, and the shapes of its maps.
#[derive(Drop)]
struct Code {
    bytes: Vec<u8>,
    shapes: Vec<Shape>,
}

/// The bytes in a file's hex digits, which white space may separate.
fn bytes_in<R: Files + AllocGlobal>(rt: &R, alloc: Global, path: &str) -> Option<Vec<u8>> {
    let mut digits = fs::read(rt, path).ok()?;
    digits.retain(|byte| !byte.is_ascii_whitespace());
    hex::decode(alloc, digits).ok()
}

/// The shapes of a configuration's maps.
fn shapes_in<R: Files + AllocGlobal>(rt: &R, alloc: Global, path: &str) -> Option<Vec<Shape>> {
    let text = fs::read(rt, path).ok()?;
    let configuration = read_configuration(alloc, text.as_slice()).ok()?;
    Vec::from_slice(alloc, configuration.maps.as_slice()).ok()
}

/// The program of a code.
fn program_of(alloc: Global, code: &Code) -> Option<Program> {
    let shapes = Shapes::new(code.shapes.clone().ok()?)?;
    decode(alloc, code.bytes.as_slice(), shapes).ok()
}

/// Checks a certificate. The budget, and the nanoseconds.
fn checked<R: Clock>(rt: &R, alloc: Global, code: &Code, bytes: &[u8]) -> Option<(u32, u64)> {
    let program = program_of(alloc, code)?;
    let start = now(rt);
    let accepted = check(alloc, program, Hook::Data, bytes).ok()?;
    Some((accepted.budget(), nanos_since(rt, start)))
}

/// Makes the certificate of a program that took `verify` nanoseconds to verify, and checks it.
fn certified<R: Clock>(
    rt: &R,
    alloc: Global,
    code: &Code,
    accepted: &Accepted,
    verify: u64,
) -> Option<Measured> {
    let start = now(rt);
    let bytes = certificate(alloc, accepted).ok()?;
    let certificate = nanos_since(rt, start);
    let (checked, check) = checked(rt, alloc, code, bytes.as_slice())?;
    Some(Measured {
        verify,
        certificate,
        check,
        bytes: bytes.len(),
        budget: accepted.budget(),
        checked,
    })
}

/// Verifies the program of a code, makes its certificate and checks that. None if one of them refuses it.
fn measure<R: Clock>(rt: &R, alloc: Global, code: &Code) -> Option<Measured> {
    let (accepted, verify) = verified(rt, alloc, program_of(alloc, code)?)?;
    certified(rt, alloc, code, &accepted, verify)
}

/// Measures a code `times` times, and keeps the least times.
fn measure_often<R: Clock>(rt: &R, alloc: Global, code: &Code, times: u64) -> Option<Measured> {
    let mut least = measure(rt, alloc, code)?;
    for _ in 1..times {
        least = least.least(measure(rt, alloc, code)?);
    }
    Some(least)
}

fn print_measured<R: Eprint>(rt: &R, found: &Measured) {
    let _ = eprintln!(rt;
        "budget {}, checked {}; {} bytes; verify {} ns, certificate {} ns, check {} ns",
        found.budget, found.checked, found.bytes, found.verify, found.certificate, found.check
    );
}

/// The code in a file of hex digits, with the maps of a configuration, if one is named.
fn code_in<R: Files + AllocGlobal>(
    rt: &R,
    alloc: Global,
    file: &str,
    configuration: Option<&str>,
) -> Option<Code> {
    let shapes = match configuration {
        Some(path) => shapes_in(rt, alloc, path)?,
        None => Vec::new(alloc),
    };
    let bytes = bytes_in(rt, alloc, file)?;
    Some(Code { bytes, shapes })
}

/// Prints the least times for a program of as many as the first number says. The words after it: the file of its hex
/// digits, and the configuration that has its maps. None if there is none that is accepted.
pub fn print_times<R: Clock + Eprint + Files + AllocGlobal>(
    rt: &R,
    alloc: Global,
    asked: Asked<'_>,
) -> Option<()> {
    let file = asked.word(1).unwrap_or("policy.hex");
    let code = code_in(rt, alloc, file, asked.word(2))?;
    let found = measure_often(rt, alloc, &code, asked.number(0, 1, 1))?;
    print_measured(rt, &found);
    Some(())
}
