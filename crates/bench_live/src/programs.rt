//! The programs under which events are measured.

use bpf_regions::WordWidth;
use live_scenes::publish;
use std::alloc::Global;
use std::sync::Wait;
use versions::Publisher;

/// A name and the text of a program for data, which is empty if there is no program. The filter: R0 is 0 for QoS data
/// with LLC/SNAP, IPv4 and UDP to port 53, as the events are, and else 1; it tests the frame's end first. The counters
/// add 1 to word 0 of a map that all workers share, or of one that each has for itself.
pub static POLICIES: [(&str, &str); 4] = [
    ("no program", ""),
    (
        "port filter",
        "mov r4, r1
add r4, 58
jgt r4, r2, +23
ldxb r2, [r1+26]
jne r2, 170, +21
ldxb r2, [r1+27]
jne r2, 170, +19
ldxh r2, [r1+32]
be16 r2
jne r2, 2048, +16
ldxb r3, [r1+34]
mov r4, r3
rsh r4, 4
jne r4, 4, +12
and r3, 15
jne r3, 5, +10
ldxb r2, [r1+43]
jne r2, 17, +8
ldxh r2, [r1+40]
and r2, 8191
jne r2, 0, +5
ldxh r2, [r1+56]
be16 r2
jne r2, 53, +2
mov r0, 0
exit
mov r0, 1
exit
",
    ),
    (
        "shared counter",
        "lddw r1, value 0 0
mov r2, 1
atomic_add [r1+0], r2
mov r0, 0
exit
",
    ),
    (
        "counter of each worker",
        "lddw r1, value 1 0
mov r2, 1
atomic_add [r1+0], r2
mov r0, 0
exit
",
    ),
];

/// How many workers serve how many events, or rounds of them, and under which program: its name and its text.
#[derive(Clone, Copy)]
pub struct Case {
    pub workers: u32,
    pub count: u64,
    pub name: &'static str,
    pub text: &'static str,
}

/// Publishes the program of a text, if there is one. False if it is refused.
pub fn put_in_force<R: Wait>(rt: &R, alloc: Global, publisher: &mut Publisher, text: &str) -> bool {
    text.is_empty() || publish(rt, alloc, publisher, text, WordWidth::Eight)
}
