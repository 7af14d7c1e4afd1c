//! Tristate numbers.

use crate::tests::same::same;
use bpf_tnum::Tnum;
use std::process::Abort;

/// A value and a mask.
type Parts = (u64, u64);

/// The number with this value and mask.
fn of(parts: Parts) -> Tnum {
    Tnum::masked(parts.0, parts.1)
}

/// What is asked of a number and another one, or a count: the value of the other one.
enum Op {
    Add,
    Sub,
    And,
    Or,
    Xor,
    Mul,
    ShiftLeft,
    ShiftRight,
    /// To 32 bits, or to 64.
    Cut32,
    Cut64,
    Meet,
    /// The first number, if it is included in the other.
    Included,
    /// The first number, if the other's value is one of its words.
    Contains,
}

use Op::{
    Add, And, Contains, Cut32, Cut64, Included, Meet, Mul, Or, ShiftLeft, ShiftRight, Sub, Xor,
};

fn result_of(op: &Op, a: Tnum, b: Tnum) -> Option<Tnum> {
    match op {
        Add => Some(a.add(b)),
        Sub => Some(a.sub(b)),
        And => Some(a.and(b)),
        Or => Some(a.or(b)),
        Xor => Some(a.xor(b)),
        Mul => Some(a.mul(b)),
        ShiftLeft => Some(a.shift_left((b.value() % 64) as u32)),
        ShiftRight => Some(a.shift_right((b.value() % 64) as u32)),
        Cut32 => Some(a.cut(32)),
        Cut64 => Some(a.cut(64)),
        Meet => a.meet(b),
        Included => { if a.is_included(b) { Some(a) } else { None } }
        Contains => { if a.contains(b.value()) { Some(a) } else { None } }
    }
}

/// A number, what is asked, the other number, and the result, if there is one.
type Row = (Parts, Op, Parts, Option<Parts>);

fn are_found(rt: &impl Abort, rows: &[Row], what: &str) {
    for (a, op, b, wanted) in rows {
        let found = result_of(op, of(*a), of(*b));
        let wanted = match wanted {
            Some(parts) => Some(of(*parts)),
            None => None,
        };
        same(rt, (*a, *b, found), (*a, *b, wanted), what);
    }
}

const MOST: u64 = u64::MAX;

/// Nothing is known.
const FULL: Parts = (0, MOST);

/// The lowest 5 bits are 0; the lowest bit is 0; the lowest 40 bits are 0.
const LOW_5: Parts = (0, 0xffffffffffffffe0);

const LOW_1: Parts = (0, 0xfffffffffffffffe);

const LOW_40: Parts = (0, 0xffffff0000000000);

static ROWS: &[(&str, &[Row])] = &[
    (
        "sum with an unknown carry",
        &[
            ((0, 1), Add, (1, 0), Some((0, 3))),
            ((4, 1), Add, (8, 2), Some((12, 3))),
            ((MOST, 0), Add, (1, 0), Some((0, 0))),
            ((0xfffffffffffffffe, 1), Add, (0, 1), Some(FULL)),
        ],
    ),
    (
        "difference with an unknown borrow",
        &[
            ((2, 0), Sub, (0, 1), Some((0, 3))),
            ((12, 3), Sub, (8, 0), Some((4, 3))),
            ((0, 0), Sub, (1, 0), Some((MOST, 0))),
        ],
    ),
    (
        "bits of both",
        &[
            (
                (0b1000, 0b0011),
                And,
                (0b1010, 0b0100),
                Some((0b1000, 0b0010)),
            ),
            (
                (0b1000, 0b0011),
                Or,
                (0b0010, 0b0100),
                Some((0b1010, 0b0101)),
            ),
            (
                (0b1000, 0b0011),
                Xor,
                (0b1010, 0b0100),
                Some((0b0000, 0b0111)),
            ),
        ],
    ),
    (
        "low zeros",
        &[
            ((0, 0xf8), Mul, (4, 0), Some(LOW_5)),
            (LOW_40, Mul, LOW_40, Some((0, 0))),
            ((0, 0xf8), ShiftLeft, (2, 0), Some(LOW_5)),
            ((0, 0xf8), ShiftRight, (2, 0), Some(LOW_1)),
            ((0, 0xf8), ShiftRight, (3, 0), Some(FULL)),
        ],
    ),
    (
        "low bits",
        &[
            ((0x100000001, 0x1000000010), Cut32, FULL, Some((1, 0x10))),
            ((7, 8), Cut64, FULL, Some((7, 8))),
        ],
    ),
    (
        "meeting",
        &[
            (
                (0b0100, 0b0011),
                Meet,
                (0b0001, 0b0110),
                Some((0b0101, 0b0010)),
            ),
            ((1, 0), Meet, (0, 2), None),
        ],
    ),
    (
        "inclusion",
        &[
            ((5, 0), Included, (4, 3), Some((5, 0))),
            ((4, 3), Included, (5, 0), None),
            ((8, 1), Included, (4, 3), None),
        ],
    ),
    (
        "members",
        &[
            ((4, 3), Contains, (6, 0), Some((4, 3))),
            ((4, 3), Contains, (8, 0), None),
            ((8, 0), Contains, (8, 0), Some((8, 0))),
        ],
    ),
];

#[test]
fn operations_have_their_results(rt: HostRuntime) {
    for (what, rows) in ROWS {
        are_found(&rt, rows, what);
    }
    let made = [
        Tnum::low(5),
        Tnum::low(1),
        Tnum::low(40),
        Tnum::full(),
        Tnum::single(8),
    ];
    let wanted = [of(LOW_5), of(LOW_1), of(LOW_40), of(FULL), of((8, 0))];
    same(&rt, made, wanted, "low, full, single");
    let zeros = [of((0, 0xf8)).trailing_zeros(), of((0, 0)).trailing_zeros()];
    same(&rt, zeros, [3, 64], "trailing zeros");
    let four = Tnum::new(4, 3);
    same(&rt, (four.value(), four.mask()), (4, 3), "value, mask");
}
