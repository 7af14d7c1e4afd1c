//! Faults of assembler text: `line L fault N`.

use crate::refusals::page::{Example, Explanation};

const MOVES: Example = Example::Text("mov r0, 0\nexit\n");

pub(crate) static EXPLANATIONS: [Explanation; 3] = [
    Explanation {
        number: 20,
        title: "the line is not in the grammar",
        meaning: "A line is one instruction: its name, then operands with commas between them. Names and registers \
are in lower case, and white space is spaces.",
        habit: "A comma is missing, a register is spelled otherwise, or a tab stands in the line.",
        programs: Some((Example::Text("mov r0 0\nexit\n"), MOVES)),
        cure: "Write it as `apd disasm` writes instructions.",
    },
    Explanation {
        number: 21,
        title: "a number is out of range",
        meaning: "An immediate is -2147483648 to 4294967295, an offset -32768 to 32767.",
        habit: "A number of 64 bits was given to an instruction that takes 32.",
        programs: Some((
            Example::Text("mov r0, 4294967296\nexit\n"),
            Example::Text("lddw r0, 4294967296\nexit\n"),
        )),
        cure: "Take `lddw` for numbers of 64 bits.",
    },
    Explanation {
        number: 22,
        title: "the text has too many instructions",
        meaning: "A program has at most 16384 slots; the line named is the first past them.",
        habit: "The text was made by a program.",
        programs: None,
        cure: "Write a loop.",
    },
];
