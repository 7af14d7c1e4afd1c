//! Faults of code: `fault N at SLOT`.

use crate::refusals::page::{Example, Explanation};

const RETURNS_ONE: Example = Example::Code("b700000001000000 9500000000000000");

const RETURNS_ZERO: Example = Example::Code("b700000000000000 9500000000000000");

pub(crate) static EXPLANATIONS: [Explanation; 13] = [
    Explanation {
        number: 1,
        title: "the code is cut within a slot",
        meaning: "An instruction slot has 8 bytes, so the length of code is a multiple of 8.",
        habit: "The file was cut, or has digits that belong to no slot.",
        programs: Some((Example::Code("b7000000010000"), RETURNS_ONE)),
        cure: "Make the file anew; `apd asm` and `policies/policy-hex` write 16 digits a slot.",
    },
    Explanation {
        number: 2,
        title: "there is no code",
        meaning: "A program has at least one instruction.",
        habit: "The file is empty, or the compiler kept no function.",
        programs: Some((Example::Code(""), RETURNS_ZERO)),
        cure: "See that the policy is compiled: it must not be `static`.",
    },
    Explanation {
        number: 3,
        title: "the code is too long",
        meaning: "A program has at most 16384 slots.",
        habit: "A loop of many iterations was unrolled.",
        programs: None,
        cure: "Keep the loop: `#pragma clang loop unroll(disable)`.",
    },
    Explanation {
        number: 10,
        title: "no such operation",
        meaning: "The first byte of the slot is no operation of the groups base32, base64, divmul32, divmul64, \
atomic32 and atomic64 of RFC 9669. The old packet loads (ABS and IND) are not among them.",
        habit: "The file is no code of a policy, or a slot is damaged.",
        programs: Some((
            Example::Code("ff00000000000000 9500000000000000"),
            RETURNS_ZERO,
        )),
        cure: "Make the file from its source; `apd disasm` shows what code says.",
    },
    Explanation {
        number: 11,
        title: "no such register",
        meaning: "Registers are r0 to r10.",
        habit: "A slot is damaged, or was written by hand.",
        programs: Some((
            Example::Code("b70b000001000000 9500000000000000"),
            RETURNS_ONE,
        )),
        cure: "Make the file from its source.",
    },
    Explanation {
        number: 12,
        title: "a field that is not used is not zero",
        meaning: "Fields that an operation doesn't use are zero (RFC 9669, section 3.1).",
        habit: "A slot is damaged, or a relocation was left in the object that the code was taken from.",
        programs: Some((
            Example::Code("b700010000000000 9500000000000000"),
            RETURNS_ZERO,
        )),
        cure: "Take code by `policies/policy-hex`, which refuses objects with relocations.",
    },
    Explanation {
        number: 13,
        title: "a field has a value that means nothing",
        meaning: "A field that chooses a form of the operation (a width, a source, an atomic operation) has none \
of the values that are defined.",
        habit: "A slot is damaged, or was made for a later instruction set.",
        programs: Some((
            Example::Code("bf10070000000000 9500000000000000"),
            Example::Code("bf10000000000000 b700000000000000 9500000000000000"),
        )),
        cure: "Compile for `-mcpu=v3` or v4.",
    },
    Explanation {
        number: 14,
        title: "a wide instruction is not whole",
        meaning: "An instruction with a number of 64 bits takes two slots, and the first four bytes of the second \
are zero.",
        habit: "The code ends after the first of its slots, or a jump was counted in instructions instead of slots.",
        programs: Some((
            Example::Code("1800000001000000"),
            Example::Code("1800000001000000 0000000000000000 9500000000000000"),
        )),
        cure: "Make the file from its source.",
    },
    Explanation {
        number: 15,
        title: "a jump leads astray",
        meaning: "Jumps and local calls lead to a slot where an instruction starts.",
        habit: "An offset was counted by hand: it counts slots from the next one, and a wide instruction has two.",
        programs: Some((
            Example::Text("ja +1\nexit\n"),
            Example::Text("mov r0, 0\nja +0\nexit\n"),
        )),
        cure: "Count again, with `apd disasm` beside it.",
    },
    Explanation {
        number: 16,
        title: "the code can be left at its end",
        meaning: "The last instruction is an exit or a jump.",
        habit: "An exit was forgotten.",
        programs: Some((
            Example::Text("mov r0, 0\n"),
            Example::Text("mov r0, 0\nexit\n"),
        )),
        cure: "End with `exit`.",
    },
    Explanation {
        number: 17,
        title: "r10 is written",
        meaning: "r10 is the end of the stack frame, and only read.",
        habit: "Another register was meant.",
        programs: Some((
            Example::Text("mov r10, 0\nexit\n"),
            Example::Text("mov r6, r10\nmov r0, 0\nexit\n"),
        )),
        cure: "Copy r10 into another register, and change that.",
    },
    Explanation {
        number: 18,
        title: "no such helper",
        meaning: "Helpers are 1 lookup, 2 now, 3 stations, 4 draw and 5 note.",
        habit: "The policy calls a helper of an operating system.",
        programs: Some((
            Example::Text("call 9\nexit\n"),
            Example::Text("call 2\nexit\n"),
        )),
        cure: "Take the helpers of `policies/apd_policy.h`.",
    },
    Explanation {
        number: 19,
        title: "no such map, or no such byte in it",
        meaning: "The configuration has no map of that number, or its first entry has no byte at that offset.",
        habit: "`--config` was left out, maps were counted from 1, or an offset counts past the first entry.",
        programs: Some((
            Example::Text("lddw r1, map 7\nmov r0, 0\nexit\n"),
            Example::Text("lddw r1, map 0\nmov r0, 0\nexit\n"),
        )),
        cure: "Declare the map in the configuration; the first `[[map]]` is map 0. `apd_lookup` gives entries after \
the first.",
    },
];
