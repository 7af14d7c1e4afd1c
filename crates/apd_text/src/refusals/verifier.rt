//! Refusals of the verifier: `refused N at PC`.

use crate::refusals::page::{Example, Explanation};

const MOVES: Example = Example::Text("mov r0, 0\nexit\n");

pub(crate) static EXPLANATIONS: [Explanation; 10] = [
    Explanation {
        number: 30,
        title: "something unset is read",
        meaning: "The instruction reads a register or a byte of the stack that some path to it leaves unset. At the \
start only r1 (the frame), r2 (its end), r3 (the context) and r10 are set; after a call r1 to r5 are not.",
        habit: "A variable has no first value; a function returns nothing; a struct on the stack is read whole \
though its padding was never written.",
        programs: Some((Example::Text("exit\n"), MOVES)),
        cure: "Give the value first. A function of C returns a number.",
    },
    Explanation {
        number: 31,
        title: "the operation does not take such a value",
        meaning: "Pointers are moved, added to numbers, and numbers are subtracted from them; they are compared \
with the frame's end or with 0, spilled to the stack, and used for accesses. Everything else is for numbers. The \
frame and the context are only read.",
        habit: "Two pointers were subtracted (`end - frame`), `end` was moved (`end - 4`), a pointer was multiplied or \
masked, or the frame was written to.",
        programs: Some((
            Example::Text("mul r1, 2\nmov r0, 0\nexit\n"),
            Example::Text("mov r3, 2\nmul r3, 2\nadd r1, r3\nmov r0, 0\nexit\n"),
        )),
        cure: "Compute with numbers, and add the result to a pointer: `frame + 30 > end`, not `end - frame < 30`.",
    },
    Explanation {
        number: 32,
        title: "an access may leave its region",
        meaning: "Nothing shows that the bytes are there: in a frame, a test against its end must come first; in the \
context (32 bytes), a stack frame (512) and a map's entry, the offset must be in range whatever its value.",
        habit: "A byte of the frame is read without a test, or the test was of another pointer; or an array on the \
stack has a variable index.",
        programs: Some((
            Example::Text("ldxb r0, [r1+24]\nexit\n"),
            Example::Text(
                "mov r3, r1\nadd r3, 25\nmov r0, 0\njgt r3, r2, +1\nldxb r0, [r1+24]\nexit\n",
            ),
        )),
        cure: "Test what is read: byte 24 needs `if (frame + 25 > end) return APD_PASS;`. A variable offset is masked \
first (`at &= 63`). Take a map instead of an array on the stack.",
    },
    Explanation {
        number: 33,
        title: "the access has another width, or is not aligned",
        meaning: "A map's word is read and written whole, at a multiple of its width. Pointers are stored on the \
stack whole, at multiples of 8, and an atomic works at a multiple of its size.",
        habit: "A struct in a map has fields of 8, 16 or 32 bits where the map's words have 64.",
        programs: Some((
            Example::Text("lddw r1, value 0 0\nldxw r0, [r1+0]\nexit\n"),
            Example::Text("lddw r1, value 0 0\nldxdw r0, [r1+0]\nexit\n"),
        )),
        cure: "Make the fields as wide as the map's words.",
    },
    Explanation {
        number: 34,
        title: "a lookup was not tested",
        meaning: "A lookup gives 0 if the map has no such entry, so its result must be compared with 0 before it \
is used.",
        habit: "The test is missing, or (without optimisation) looks at a copy.",
        programs: Some((
            Example::Text("lddw r1, map 0\nmov r2, 3\ncall 1\nldxdw r0, [r0+0]\nexit\n"),
            Example::Text(
                "lddw r1, map 0\nmov r2, 3\ncall 1\njeq r0, 0, +1\nldxdw r0, [r0+0]\nexit\n",
            ),
        )),
        cure: "`if (!entry) return ..;`, and compile with -O1, -Os or -O2.",
    },
    Explanation {
        number: 35,
        title: "calls go too deep",
        meaning: "At most 8 functions are active, the main one included.",
        habit: "A function calls itself, or the compiler left a call of a function that is not there (`memcmp`).",
        programs: Some((
            Example::Text("call local -1\nexit\n"),
            Example::Text("call local +1\nexit\nmov r0, 0\nexit\n"),
        )),
        cure: "Write a loop, and `static inline` functions.",
    },
    Explanation {
        number: 36,
        title: "the verifier gives up",
        meaning: "It examined 4194304 states without an end, or as many as `--states` lets it, or did as much work as \
`--work` lets it: the program never ends, or it has too many paths. The slot says where it stood. A check of a \
certificate gives up only by `--work`.",
        habit: "A loop without a bound, or one that advances a pointer in each iteration, so that no two iterations \
are alike.",
        programs: Some((
            Example::Text("ja -1\nexit\n"),
            Example::Text("mov r1, 64\nsub r1, 1\njne r1, 0, -2\nmov r0, 0\nexit\n"),
        )),
        cure: "Bound the loop; keep a position in the frame as a masked number, and make the pointer anew in each \
iteration.",
    },
    Explanation {
        number: 37,
        title: "a pointer to the stack is stored elsewhere",
        meaning: "A pointer into a stack frame is stored in that frame alone, so that none is left when the \
function returns.",
        habit: "A function was handed the address of a local variable, and stored it (without optimisation each \
argument is stored).",
        programs: Some((
            Example::Text(
                "mov r1, r10\ncall local +2\nmov r0, 0\nexit\nstxdw [r10-8], r1\nmov r0, 0\nexit\n",
            ),
            Example::Text(
                "mov r1, r10\ncall local +2\nmov r0, 0\nexit\nmov r6, r1\nmov r0, 0\nexit\n",
            ),
        )),
        cure: "Keep it in a register: compile with -O1, -Os or -O2, and hand over values.",
    },
    Explanation {
        number: 38,
        title: "the verdict is no number",
        meaning: "At the exit r0 is a number: the verdict. Functions that the program calls return numbers too.",
        habit: "A pointer was returned, by the policy or by a function that was not inlined; without optimisation, \
functions such as `apd_body` are not inlined.",
        programs: Some((Example::Text("mov r0, r1\nexit\n"), MOVES)),
        cure: "Return a number, and compile with -O1, -Os or -O2.",
    },
    Explanation {
        number: 40,
        title: "memory ran out",
        meaning: "The machine that `apd` runs on had no memory left. It says nothing of the program.",
        habit: "A limit of memory is set low, or much else runs there.",
        programs: None,
        cure: "Try again with more memory.",
    },
];
