//! Configurations: each key, within its limits.

use crate::tests::same::same;
use apd_config::read_configuration;
use bpf_regions::{Scope, Shape, WordWidth};
use std::alloc::Global;
use std::process::Abort;

/// A text and how many maps of one word follow; the address and the draw, the name and the rates, and the maps that it
/// has.
type Known = (
    &'static [u8],
    usize,
    ([u8; 6], u64),
    [&'static [u8]; 2],
    &'static [Shape],
);

const ONE_WORD: Shape = Shape {
    entries: 1,
    words: 1,
    width: WordWidth::Four,
    scope: Scope::Shared,
};

static TEXTS: &[Known] = &[
    // each key
    (
        b"bssid = \"02000000000A\"\nssid = \"lab\"\nrates = \"82848b96\"\ndraw = 0\n\
        [[map]]\nentries = 4096\nwords = 8\nwidth = 4\nscope = \"worker\"\n\
        [[map]]\nentries = 1\nwords = 1\nwidth = 8\n",
        0,
        ([2, 0, 0, 0, 0, 10], 0),
        [b"lab", &[0x82, 0x84, 0x8b, 0x96]],
        &[
            Shape {
                entries: 4096,
                words: 8,
                width: WordWidth::Four,
                scope: Scope::Worker,
            },
            Shape {
                entries: 1,
                words: 1,
                width: WordWidth::Eight,
                scope: Scope::Shared,
            },
        ],
    ),
    // values at their limits: the largest, and the smallest
    (
        b"draw = 9223372036854775807\nrates = \"0102030405060708\"\n\
        ssid = \"0123456789abcdef0123456789abcdef\"\nbssid = 'ffFFffFFffFF'\n",
        0,
        ([255; 6], 9223372036854775807),
        [
            b"0123456789abcdef0123456789abcdef",
            &[1, 2, 3, 4, 5, 6, 7, 8],
        ],
        &[],
    ),
    (
        b"bssid = \"000000000000\"\nssid = \"\"\nrates = \"00\"\ndraw = 0\nmap = []\n",
        0,
        ([0; 6], 0),
        [b"", &[0]],
        &[],
    ),
    // as many maps as there may be
    (
        b"bssid = \"020000000001\"\nssid = \"\"\nrates = \"01\"\ndraw = 0\n",
        16,
        ([2, 0, 0, 0, 0, 1], 0),
        [b"", &[1]],
        &[ONE_WORD; 16],
    ),
];

/// Fails if a text is read as another configuration.
fn reads(rt: &impl Abort, alloc: Global, known: &Known) {
    let (text, times, numbers, [ssid, rates], maps) = *known;
    let map = b"[[map]]\nentries = 1\nwords = 1\nwidth = 4\n".as_slice();
    let mut whole = Vec::from_slice(alloc, text).expect(rt, "memory");
    for _ in 0..times {
        whole.extend_from_slice(map).expect(rt, "memory");
    }
    let read = read_configuration(alloc, whole.as_slice()).ok();
    let read = read.expect(rt, "a configuration");
    same(rt, (read.bssid, read.draw), numbers, "bssid and draw");
    same(rt, read.ssid.as_slice(), ssid, "ssid");
    same(rt, read.rates.as_slice(), rates, "rates");
    same(rt, read.maps.as_slice(), maps, "maps");
    drop(read);
}

#[test]
fn each_key_is_read_within_its_limits(rt: HostRuntime) {
    for known in TEXTS {
        reads(&rt, rt.alloc(), known);
    }
}
