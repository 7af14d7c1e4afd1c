//! The tables, row by row, and the bytes of a context of each hook.

use crate::same::same;
use assoc::Known;
use bpf_regions::{Context, Hook};
use hooks::{
    Asker, DataVerdict, addba_context, addba_verdict, assoc_verdict, association_context,
    data_context, data_verdict, no_program,
};
use mac_types::{Address, BufferSize, Capability, SequenceNumber, Tid};
use std::process::Abort;

/// Station `02000000000a` in State 3 with identifier 258.
fn asker() -> Asker {
    Asker {
        station: Address::new([2, 0, 0, 0, 0, 10]),
        standing: Some(Known::Associated(258)),
    }
}

/// A hook, the answer of a program for it, none if there is no program, the requested size, and what the verdict gives.
type Row = (Hook, Option<u64>, u16, Option<u16>);

/// The verdicts, by hook: on an association the status; on an agreement the size, if one is granted; on data the mark,
/// if the data is passed up.
static VERDICTS: &[Row] = &[
    (Hook::Association, Some(0), 0, Some(0)),
    (Hook::Association, Some(1), 0, Some(1)),
    (Hook::Association, Some(10), 0, Some(10)),
    (Hook::Association, Some(12), 0, Some(12)),
    (Hook::Association, Some(17), 0, Some(17)),
    (Hook::Association, Some(37), 0, Some(37)),
    (Hook::Association, Some(5), 0, Some(1)),
    (Hook::Association, Some(u64::MAX), 0, Some(1)),
    (Hook::Association, None, 0, Some(0)),
    (Hook::Addba, Some(0), 64, None),
    (Hook::Addba, Some(200), 64, Some(64)),
    (Hook::Addba, Some(8), 4, Some(4)),
    (Hook::Addba, Some(3), 4, Some(3)),
    (Hook::Addba, Some(64), 0, Some(64)),
    (Hook::Addba, Some(u64::MAX), 1023, Some(64)),
    (Hook::Addba, None, 16, Some(16)),
    (Hook::Data, Some(1282), 0, Some(5)),
    (Hook::Data, Some(1280), 0, Some(0)),
    (Hook::Data, Some(1281), 0, None),
    (Hook::Data, Some(1283), 0, None),
    (Hook::Data, None, 0, Some(0)),
];

/// What the verdict of an answer gives.
fn given(hook: Hook, r0: u64, asked: BufferSize) -> Option<u16> {
    match hook {
        Hook::Association => Some(assoc_verdict(r0).code()),
        Hook::Addba => Some(u16::from(addba_verdict(r0, asked)?)),
        Hook::Data => match data_verdict(r0) {
            DataVerdict::Pass(mark) => Some(u16::from(mark)),
            DataVerdict::Discard => None,
        },
    }
}

#[test]
fn verdicts_are_statuses_sizes_and_marks(rt: HostRuntime) {
    for (hook, r0, asked, wanted) in VERDICTS {
        let asked = BufferSize::new(*asked).expect(&rt, "a size");
        let r0 = r0.unwrap_or(no_program(*hook));
        let found = (*hook, r0, given(*hook, r0, asked));
        same(&rt, found, (*hook, r0, *wanted), "hook, answer, verdict");
    }
}

/// A context begins with these 18 of its 32 bytes; the others are 0.
fn begins(rt: &impl Abort, told: Context, wanted: [u8; 18]) {
    let (first, rest) = told.bytes().split_at(18);
    let none = [0; 14];
    same(
        rt,
        (first, rest),
        (wanted.as_slice(), none.as_slice()),
        "bytes",
    );
}

#[test]
fn contexts_have_their_bytes(rt: HostRuntime) {
    let tid = Tid::new(5).expect(&rt, "a TID");
    let asked = BufferSize::new(64).expect(&rt, "a size");
    let start = SequenceNumber::new(4094).expect(&rt, "a number");
    let unknown = Asker {
        standing: None,
        ..asker()
    };
    let told = association_context(asker(), Capability::new(0x0421), 10, true);
    let wanted = [2, 0, 0, 0, 0, 10, 1, 3, 2, 1, 255, 0, 0x21, 4, 10, 0, 1, 0];
    begins(&rt, told, wanted);
    let told = addba_context(asker(), tid, asked, 300, start);
    let wanted = [2, 0, 0, 0, 0, 10, 2, 3, 2, 1, 5, 0, 64, 0, 44, 1, 254, 15];
    begins(&rt, told, wanted);
    let told = data_context(unknown, None, start, None);
    let wanted = [2, 0, 0, 0, 0, 10, 3, 1, 0, 0, 255, 0, 254, 15, 0, 0, 0, 0];
    begins(&rt, told, wanted);
    let told = data_context(asker(), Some(tid), SequenceNumber::ZERO, Some(start));
    let wanted = [2, 0, 0, 0, 0, 10, 3, 3, 2, 1, 5, 0, 0, 0, 254, 15, 1, 0];
    begins(&rt, told, wanted);
}
