//! Reading and writing of certificates.

use crate::tests::abstract_values::Val::{FrameEnd, FrameStart, Pointer, Unset};
use crate::tests::abstract_values::{Val, value};
use crate::tests::same::{holds, same};
use crate::tests::small::{CODE, SMALL, no_maps};
use bpf_absval::{AbsRegion, AbsVal};
use bpf_cert_format::{Certificate, Entry, Kind, ReadFault, read, write};
use bpf_regions::{Hook, Shapes};
use std::alloc::Global;
use std::process::Abort;

fn is_malformed(alloc: Global, shapes: &Shapes, bytes: &[u8]) -> bool {
    read(alloc, shapes, bytes).err() == Some(ReadFault::Malformed)
}

/// The first registers of a run.
static REGISTERS: &[Val] = &[Unset, FrameStart, FrameEnd, Pointer(AbsRegion::Context, 0)];

fn are_held(rt: &impl Abort, registers: &[AbsVal], wanted: &[Val]) {
    for (register, val) in wanted.iter().enumerate() {
        let found = registers.get(register).expect(rt, "a register");
        same(rt, (register, *found), (register, value(val)), "registers");
    }
}

/// The start states of a run, with a budget of 2.
fn is_start(rt: &impl Abort, entry: &Entry) {
    let found = (entry.pc(), entry.budget(), entry.least());
    same(rt, found, (0, 2, 0), "pc, budget, least");
    same(rt, entry.rooms().len(), 0, "rooms");
    same(rt, entry.frames().len(), 1, "frames");
    let frame = entry.frames().first().expect(rt, "a frame");
    are_held(rt, frame.registers.as_slice(), REGISTERS);
}

/// A certificate for data frames, of one entry: the start of a run of the code.
fn is_small(rt: &impl Abort, certificate: &Certificate) {
    same(rt, certificate.hook(), Hook::Data, "hook");
    same(rt, certificate.code(), CODE.as_slice(), "code");
    let entries = certificate.entries();
    same(rt, entries.len(), 1, "entries");
    match entries.first().expect(rt, "an entry").kind() {
        Kind::Read(entry) => is_start(rt, entry),
        Kind::Spelled(_) => holds(rt, false, "an entry that was read"),
    }
}

/// The certificate that these bytes are, which is written as the same bytes.
fn read_and_written(rt: &impl Abort, alloc: Global, shapes: &Shapes, bytes: &[u8]) -> Certificate {
    let read = read(alloc, shapes, bytes).ok();
    let certificate = read.expect(rt, "the bytes are a certificate");
    let written = write(alloc, &certificate).ok();
    let written = written.expect(rt, "it has a spelling");
    same(rt, written.as_slice(), bytes, "written");
    drop(written);
    certificate
}

/// Bytes at positions, and whether the certificate is malformed with them; otherwise it is read, and written unchanged.
static BYTES: &[(usize, u8, bool)] = &[
    // the magic, hook 0 and 4
    (0, 0x42, true),
    (4, 0, true),
    (4, 4, true),
    // a main function that returns, nine call frames, none
    (38, 1, true),
    (37, 9, true),
    (37, 0, true),
    // a stack frame and a map that don't exist
    (42, 17, true),
    (42, 32, true),
    // low above high, a distance without a label, an unknown tag
    (43, 1, true),
    (93, 1, true),
    (40, 7, true),
    // another budget, another slot, an existing stack frame
    (29, 7, false),
    (27, 1, false),
    (97, 16, false),
];

fn is_limited(rt: &impl Abort, alloc: Global, shapes: &Shapes, row: &(usize, u8, bool)) {
    let (at, byte, wanted) = row;
    let mut bytes = SMALL;
    bytes[*at % 216] = *byte;
    let malformed = is_malformed(alloc, shapes, &bytes);
    same(
        rt,
        (*at, *byte, malformed),
        (*at, *byte, *wanted),
        "malformed",
    );
    if !malformed {
        drop(read_and_written(rt, alloc, shapes, &bytes));
    }
}

#[test]
fn a_certificate_is_read_and_written(rt: HostRuntime) {
    let alloc = rt.alloc();
    let shapes = no_maps(&rt, alloc);
    let certificate = read_and_written(&rt, alloc, &shapes, &SMALL);
    is_small(&rt, &certificate);
    drop(certificate);
    // No beginning is a certificate, and no longer text.
    for end in 0..SMALL.len() {
        holds(
            &rt,
            is_malformed(alloc, &shapes, &SMALL[..end]),
            "malformed",
        );
    }
    let mut longer = [0; 217];
    longer[..216].copy_from_slice(&SMALL);
    holds(&rt, is_malformed(alloc, &shapes, &longer), "malformed");
    for row in BYTES {
        is_limited(&rt, alloc, &shapes, row);
    }
    drop(shapes);
}
