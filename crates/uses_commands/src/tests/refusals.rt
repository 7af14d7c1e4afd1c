use crate::tests::same::same;
use apd_text::{Example, explain};
use bpf_decode::{DecodeFault, Program, decode};
use bpf_regions::{Hook, Scope, Shape, Shapes, WordWidth};
use bpf_text::{AsmFault, assemble};
use bpf_verifier::verify;
use std::alloc::Global;
use std::process::Abort;

/// The shapes of the pages' maps: one map of 4 entries of one word of 8 bytes.
fn shapes(rt: &impl Abort, alloc: Global) -> Shapes {
    let shape = Shape {
        entries: 4,
        words: 1,
        width: WordWidth::Eight,
        scope: Scope::Shared,
    };
    let shapes = [shape].to_vec(alloc).expect(rt, "memory");
    Shapes::new(shapes).expect(rt, "the shapes are valid")
}

/// The code of slots in hex digits with spaces between.
fn code_of_digits(rt: &impl Abort, alloc: Global, digits: &str) -> Vec<u8> {
    let mut code = Vec::new(alloc);
    for slot in digits.split_whitespace() {
        let bytes = hex::decode(alloc, slot).ok().expect(rt, "digits are hex");
        code.extend_from_slice(bytes.as_slice())
            .expect(rt, "memory");
    }
    code
}

/// The number of a fault of a text.
fn number_of_fault(fault: AsmFault) -> u8 {
    match fault {
        AsmFault::Line { line: _, number } => number,
        AsmFault::NoMemory => 40,
    }
}

/// The code of an example, or the number with which its text is refused.
fn code_of(rt: &impl Abort, alloc: Global, example: Example) -> Result<Vec<u8>, u8> {
    match example {
        Example::Code(digits) => Ok(code_of_digits(rt, alloc, digits)),
        Example::Text(text) => assemble(alloc, text).map_err(number_of_fault),
    }
}

/// The number with which decoded code is refused; 0 if it is admitted.
fn refused_as(alloc: Global, decoded: Result<Program, DecodeFault>) -> u8 {
    match decoded {
        Ok(program) => match verify(alloc, program, Hook::Data).err() {
            Some(refusal) => refusal.number(),
            None => 0,
        },
        Err(fault) => fault.number(),
    }
}

/// The number with which an example is refused; 0 if it is admitted.
fn number_of(rt: &impl Abort, alloc: Global, example: Example) -> u8 {
    match code_of(rt, alloc, example) {
        Ok(code) => refused_as(alloc, decode(alloc, code.as_slice(), shapes(rt, alloc))),
        Err(number) => number,
    }
}

/// The numbers whose pages have programs.
static WITH_PROGRAMS: &[u8] = &[
    1, 2, 10, 11, 12, 13, 14, 15, 16, 17, 18, 19, 20, 21, 30, 31, 32, 33, 34, 35, 36, 37, 38,
];

#[test]
fn programs_are_refused_with_their_number_and_admitted_once_cured(rt: HostRuntime) {
    let alloc = rt.alloc();
    for number in WITH_PROGRAMS {
        let page = explain(*number).expect(&rt, "the number has a page");
        let (refused, cured) = page.programs.expect(&rt, "the page has programs");
        let found = [number_of(&rt, alloc, refused), number_of(&rt, alloc, cured)];
        same(&rt, found, [*number, 0], "refused, and cured");
    }
}

/// The numbers that have a page.
static EXPLAINED: &[u8] = &[
    1, 2, 3, 10, 11, 12, 13, 14, 15, 16, 17, 18, 19, 20, 21, 22, 30, 31, 32, 33, 34, 35, 36, 37,
    38, 40, 50, 51, 52, 53, 54, 55, 56, 60, 61, 62, 63, 70, 71, 72,
];

#[test]
fn each_number_has_a_page(rt: HostRuntime) {
    for number in 0..=255u8 {
        let found = (number, explain(number).is_some());
        same(&rt, found, (number, EXPLAINED.contains(&number)), "a page");
    }
}
