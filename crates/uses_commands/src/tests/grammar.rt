//! A script with each command.

use crate::tests::same::same;
use apd_script::{Command, HexText, MapWord, Numbered, read_script};
use bpf_regions::{Hook, Scope, Shape, Shapes, WordWidth};
use mac_types::{Address, Reason, Tid};
use std::alloc::Global;
use std::process::Abort;

/// Map 0 is shared, with 2 entries of 3 words; map 1 is a worker map with one word.
static SHAPES: &[Shape] = &[
    Shape {
        entries: 2,
        words: 3,
        width: WordWidth::Eight,
        scope: Scope::Shared,
    },
    Shape {
        entries: 1,
        words: 1,
        width: WordWidth::Four,
        scope: Scope::Worker,
    },
];

/// These shapes.
fn shapes(rt: &impl Abort, alloc: Global) -> Shapes {
    let shapes = SHAPES.to_vec(alloc).expect(rt, "memory");
    Shapes::new(shapes).expect(rt, "maps within the limits")
}

/// Each command once, among comments, empty lines and spaces.
static SCRIPT: &[u8] =
    b"# a script\n\n  frame 0aFF  \ntick 4294967295\nkick 02000000000A 65535\nclose 02000000000a 007\nload data mark.hex\nadopt assoc a.hex a#cert\nunload addba\nstore  0 1 2 18446744073709551615\nread 0 1 0\nsum 1 0 0\n   # done\nwait";

/// Its commands for the link, each with its line.
fn at_the_link(rt: &impl Abort) -> [(u64, Command<'static>); 4] {
    let station = Address::new([2, 0, 0, 0, 0, 10]);
    let reason = Reason::new(65535);
    let tid = Tid::new(7).expect(rt, "a TID");
    let digits = HexText::new(b"0aFF").expect(rt, "hex digits");
    [
        (3, Command::Frame(digits)),
        (4, Command::Tick(4294967295)),
        (5, Command::Kick { station, reason }),
        (6, Command::Close { station, tid }),
    ]
}

/// Its commands for the hooks and the maps, which follow.
const AT_THE_HOOKS: [(u64, Command<'static>); 7] = [
    (
        7,
        Command::Load {
            hook: Hook::Data,
            path: "mark.hex",
        },
    ),
    (
        8,
        Command::Adopt {
            hook: Hook::Association,
            path: "a.hex",
            certificate: "a#cert",
        },
    ),
    (9, Command::Unload(Hook::Addba)),
    (
        10,
        Command::Store {
            word: MapWord { map: 0, word: 5 },
            value: u64::MAX,
        },
    ),
    (11, Command::Read(MapWord { map: 0, word: 3 })),
    (12, Command::Sum(MapWord { map: 1, word: 0 })),
    (14, Command::Wait),
];

/// Fails if other commands are read.
fn are_read(rt: &impl Abort, commands: &[Numbered<'_>], wanted: &[(u64, Command<'_>)]) {
    same(rt, commands.len(), wanted.len(), "commands");
    for (read, (line, command)) in commands.iter().zip(wanted) {
        let found = (read.line, read.command == *command);
        same(rt, found, (*line, true), "the line, and its command");
    }
}

#[test]
fn each_command_is_read(rt: HostRuntime) {
    let shapes = shapes(&rt, rt.alloc());
    let commands = read_script(rt.alloc(), SCRIPT, &shapes).expect(&rt, "a script");
    let (first, rest) = commands.split_at(commands.len().min(4));
    are_read(&rt, first, &at_the_link(&rt));
    are_read(&rt, rest, &AT_THE_HOOKS);
}
