//! Configurations, and a judge that answers from a list.

use crate::same::{holds, same};
use ap_model::{Held, Judge, LinkConfig, ListJudge, Octets};
use bpf_regions::{Context, Frame, Hook};
use mac_frame::{Address, SequenceNumber, Tid};
use std::alloc::Global;
use std::process::Abort;

fn bssid() -> Address {
    Address::new([2, 0, 0, 0, 0, 1])
}

fn octets(rt: &impl Abort, alloc: Global, bytes: &[u8]) -> Octets {
    Octets::copy(alloc, bytes).expect(rt, "memory")
}

/// Whether a configuration may have a name of this length, and this many rates.
fn is_configured(rt: &impl Abort, alloc: Global, name: usize, rates: usize) -> bool {
    let ssid = octets(rt, alloc, &[7; 33][..name.min(33)]);
    let rates = octets(rt, alloc, &[1; 9][..rates.min(9)]);
    LinkConfig::new(bssid(), ssid, rates).is_some()
}

/// The lengths of a name, the counts of rates, and whether a configuration may have them.
static LIMITS: &[(usize, usize, bool)] = &[
    (32, 1, true),
    (33, 1, false),
    (0, 8, true),
    (0, 9, false),
    (0, 0, false),
];

#[test]
fn configurations_have_limits(rt: HostRuntime) {
    for (name, rates, valid) in LIMITS {
        let found = is_configured(&rt, rt.alloc(), *name, *rates);
        let wanted = (*name, *rates, *valid);
        same(&rt, (*name, *rates, found), wanted, "octets, rates");
    }
}

#[test]
fn configurations_have_their_parts(rt: HostRuntime) {
    let name = octets(&rt, rt.alloc(), b"lab");
    let rates = octets(&rt, rt.alloc(), &[0x82, 0x84, 0x8b, 0x96]);
    let config = LinkConfig::new(bssid(), name, rates).expect(&rt, "a configuration");
    same(&rt, config.bssid(), bssid(), "bssid");
    same(&rt, config.ssid(), b"lab".as_slice(), "ssid");
    same(&rt, config.rates().len(), 4, "rates");
}

#[test]
fn list_judge_answers_in_order_and_then_0(rt: HostRuntime) {
    let answers = [5, 1282];
    let mut judge = ListJudge::new(&answers);
    let frame = Frame::new(&[1, 2, 3]).expect(&rt, "a frame");
    let context = Context::new([0; 32]);
    let first = judge.judge(Hook::Association, &frame, &context);
    let second = judge.judge(Hook::Data, &frame, &context);
    let third = judge.judge(Hook::Addba, &frame, &context);
    same(&rt, (first, second, third), (5, 1282, 0), "answers");
}

#[test]
fn held_frames_are_passed_up_with_their_bytes(rt: HostRuntime) {
    let source = Address::new([2, 0, 0, 0, 0, 10]);
    let destination = Address::new([2, 0, 0, 0, 0, 255]);
    let tid = Tid::new(5).expect(&rt, "a TID");
    let number = SequenceNumber::new(7).expect(&rt, "a number");
    let bytes = Vec::from_slice(rt.alloc(), b"abc").expect(&rt, "memory");
    let held = Held::new(destination, 3, Octets::new(bytes));
    let up = held.up(source, tid, number).expect(&rt, "a frame");
    let addresses = (up.source, up.destination);
    same(&rt, addresses, (source, destination), "addresses");
    let marked = (up.tid, up.number, up.mark);
    same(&rt, marked, (Some(tid), number, 3), "TID, number and mark");
    same(&rt, up.body.bytes(), b"abc".as_slice(), "bytes");
    holds(&rt, Held::default().up(source, tid, number).is_none(), "up");
}
