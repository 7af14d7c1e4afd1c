//! Intervals of words, unsigned and signed.

use crate::tests::same::same;
use bpf_interval::{Interval, SignedInterval};
use std::process::Abort;

const MOST: u64 = u64::MAX;

/// The words of -2 and -4.
const MINUS_2: u64 = 0xfffffffffffffffe;

const MINUS_4: u64 = 0xfffffffffffffffc;

/// What is asked of an interval and another one, or a number: the low end of the other one.
enum Op {
    Add,
    Sub,
    And,
    Or,
    Mul,
    Div,
    Rem,
    ShiftLeft,
    ShiftRight,
    Cut,
    Meet,
    Without,
    /// The first interval, if it is included in the other.
    Included,
    /// The first interval, if the number is in it.
    Contains,
}

use Op::{
    Add, And, Contains, Cut, Div, Included, Meet, Mul, Or, Rem, ShiftLeft, ShiftRight, Sub, Without,
};

/// The ends of an interval.
type Ends = (u64, u64);

fn interval(ends: Ends) -> Interval {
    Interval::new(ends.0.min(ends.1), ends.1.max(ends.0))
}

fn result_of(op: &Op, a: Interval, b: Interval) -> Option<Interval> {
    match op {
        Add => Some(a.add(b)),
        Sub => Some(a.sub(b)),
        And => Some(a.and(b)),
        Or => Some(a.or(b)),
        Mul => Some(a.mul(b)),
        Div => Some(a.div(b)),
        Rem => Some(a.rem(b)),
        ShiftLeft => Some(a.shift_left((b.low() % 64) as u32)),
        ShiftRight => Some(a.shift_right((b.low() % 64) as u32)),
        Cut => Some(a.cut()),
        Meet => a.meet(b),
        Without => a.without(b.low()),
        Included => { if a.is_included(b) { Some(a) } else { None } }
        Contains => { if a.contains(b.low()) { Some(a) } else { None } }
    }
}

/// An interval, what is asked, the other interval, and the result, if there is one.
type Row = (Ends, Op, Ends, Option<Ends>);

fn are_found(rt: &impl Abort, rows: &[Row], what: &str) {
    for (a, op, b, wanted) in rows {
        let found = result_of(op, interval(*a), interval(*b));
        let wanted = match wanted {
            Some(ends) => Some(interval(*ends)),
            None => None,
        };
        same(rt, (*a, *b, found), (*a, *b, wanted), what);
    }
}

/// All words.
const FULL: Ends = (0, MOST);

static ROWS: &[(&str, &[Row])] = &[
    (
        "sums and differences",
        &[
            ((3, 10), Add, (20, 30), Some((23, 40))),
            ((3, 10), Add, (0, 0xfffffffffffffff5), Some((3, MOST))),
            ((3, 10), Add, (0, 0xfffffffffffffff6), Some(FULL)),
            ((20, 30), Sub, (3, 10), Some((10, 27))),
            ((10, 30), Sub, (3, 10), Some((0, 27))),
            ((9, 30), Sub, (3, 10), Some(FULL)),
        ],
    ),
    (
        "bits of both",
        &[
            ((3, 10), And, (5, 7), Some((0, 7))),
            ((3, 10), Or, (5, 7), Some((5, MOST))),
        ],
    ),
    (
        "products and quotients",
        &[
            ((30, 100), Mul, (3, 7), Some((90, 700))),
            ((30, 100), Mul, (0, 0x400000000000000), Some(FULL)),
            ((30, 100), Div, (3, 7), Some((4, 33))),
            ((30, 100), Div, (0, 7), Some((0, 100))),
            ((30, 100), Rem, (3, 7), Some((0, 6))),
            ((2, 4), Rem, (3, 7), Some((0, 4))),
            ((30, 100), Rem, (0, 7), Some((0, 100))),
        ],
    ),
    (
        "shifts",
        &[
            ((3, 10), ShiftLeft, (4, 4), Some((48, 160))),
            (
                (3, 10),
                ShiftLeft,
                (60, 60),
                Some((0x3000000000000000, 0xa000000000000000)),
            ),
            ((3, 10), ShiftLeft, (61, 61), Some(FULL)),
            ((3, 10), ShiftRight, (1, 1), Some((1, 5))),
        ],
    ),
    (
        "low bits",
        &[
            ((3, 0xffffffff), Cut, FULL, Some((3, 0xffffffff))),
            ((3, 0x100000000), Cut, FULL, Some((0, 0xffffffff))),
        ],
    ),
    (
        "refinements",
        &[
            ((3, 10), Meet, (5, 12), Some((5, 10))),
            ((3, 10), Meet, (11, 12), None),
            ((3, 10), Without, (3, 3), Some((4, 10))),
            ((3, 10), Without, (10, 10), Some((3, 9))),
            ((3, 10), Without, (5, 5), Some((3, 10))),
            ((3, 3), Without, (3, 3), None),
        ],
    ),
    (
        "inclusion and members",
        &[
            ((3, 9), Included, (3, 10), Some((3, 9))),
            ((2, 9), Included, (3, 10), None),
            ((4, 11), Included, (3, 10), None),
            ((3, 10), Contains, (10, 10), Some((3, 10))),
            ((3, 10), Contains, (11, 11), None),
            ((3, 10), Contains, (2, 2), None),
        ],
    ),
];

#[test]
fn operations_have_their_results(rt: HostRuntime) {
    for (what, rows) in ROWS {
        are_found(&rt, rows, what);
    }
    let a = Interval::new(3, 10);
    same(&rt, (a.low(), a.high()), (3, 10), "low, high");
    let bits = [Interval::of_bits(16), Interval::of_bits(64)];
    same(
        &rt,
        bits,
        [Interval::new(0, 0xffff), Interval::full()],
        "of bits",
    );
    same(&rt, Interval::full(), interval(FULL), "full");
}

#[test]
fn refinements_of_both(rt: HostRuntime) {
    let a = Interval::new(3, 10);
    let b = Interval::new(5, 12);
    let above = Interval::new(11, 12);
    let found = [
        a.greater(b),
        a.greater(Interval::new(10, 12)),
        Interval::full().greater(Interval::new(MOST, MOST)),
        b.at_most(a),
        above.at_most(a),
    ];
    let greater = (Interval::new(6, 10), Interval::new(5, 9));
    let met = Interval::new(5, 10);
    let wanted = [Some(greater), None, None, Some((met, met)), None];
    same(&rt, found, wanted, "refinements of both");
}

/// The ends of a signed interval.
type SignedEnds = (i64, i64);

fn signed(ends: SignedEnds) -> SignedInterval {
    SignedInterval::new(ends.0.min(ends.1), ends.1.max(ends.0))
}

/// The result; `None` also for what isn't asked of signed intervals.
fn signed_result_of(op: &Op, a: SignedInterval, b: SignedInterval) -> Option<SignedInterval> {
    let number = b.low().cast_unsigned();
    match op {
        Add => Some(a.add(b)),
        Sub => Some(a.sub(b)),
        ShiftRight => Some(a.shift_right(number)),
        Div => {
            if 1 <= number && number < 256 {
                Some(a.div(number))
            } else {
                None
            }
        }
        Rem => {
            if 1 <= number && number < 256 {
                Some(a.rem(number))
            } else {
                None
            }
        }
        Meet => a.meet(b),
        Without => a.without(number),
        Included => { if a.is_included(b) { Some(a) } else { None } }
        Contains => { if a.contains(number) { Some(a) } else { None } }
        _ => None,
    }
}

type SignedRow = (SignedEnds, Op, SignedEnds, Option<SignedEnds>);

fn signed_are_found(rt: &impl Abort, rows: &[SignedRow], what: &str) {
    for (a, op, b, wanted) in rows {
        let found = signed_result_of(op, signed(*a), signed(*b));
        let wanted = match wanted {
            Some(ends) => Some(signed(*ends)),
            None => None,
        };
        same(rt, (*a, *b, found), (*a, *b, wanted), what);
    }
}

/// All words.
const SIGNED_FULL: SignedEnds = (i64::MIN, i64::MAX);

static SIGNED_ROWS: &[(&str, &[SignedRow])] = &[
    (
        "signed sums and differences",
        &[
            ((-4, 3), Add, (-1, 5), Some((-5, 8))),
            ((-4, 3), Sub, (-1, 5), Some((-9, 4))),
            ((i64::MAX, i64::MAX), Add, (-1, 5), Some(SIGNED_FULL)),
            ((0, 0), Sub, SIGNED_FULL, Some(SIGNED_FULL)),
        ],
    ),
    (
        "signed shifts and divisions",
        &[
            ((-13, 13), ShiftRight, (2, 2), Some((-4, 3))),
            ((-13, 13), Div, (4, 4), Some((-3, 3))),
            ((-13, 13), Rem, (4, 4), Some((-3, 3))),
            ((0, 13), Rem, (4, 4), Some((0, 3))),
            ((-13, 0), Rem, (4, 4), Some((-3, 0))),
        ],
    ),
    (
        "signed refinements",
        &[
            ((-4, 3), Meet, (-1, 5), Some((-1, 3))),
            ((-4, 3), Without, (-4, -4), Some((-3, 3))),
        ],
    ),
    (
        "signed inclusion and members",
        &[
            ((-4, 2), Included, (-4, 3), Some((-4, 2))),
            ((-1, 5), Included, (-4, 3), None),
            ((-4, 3), Contains, (-4, -4), Some((-4, 3))),
            ((-4, 3), Contains, (-5, -5), None),
            ((-4, 3), Contains, (4, 4), None),
        ],
    ),
];

#[test]
fn signed_operations_have_their_results(rt: HostRuntime) {
    for (what, rows) in SIGNED_ROWS {
        signed_are_found(&rt, rows, what);
    }
    let a = SignedInterval::new(-4, 3);
    let b = SignedInterval::new(-1, 5);
    let met = SignedInterval::new(-1, 3);
    let above = (SignedInterval::new(0, 3), SignedInterval::new(-1, 2));
    let found = [a.greater(b), b.at_most(a)];
    same(
        &rt,
        found,
        [Some(above), Some((met, met))],
        "greater, at most",
    );
}

#[test]
fn signed_ends_and_readings(rt: HostRuntime) {
    let byte = SignedInterval::of_bits(8);
    same(&rt, [byte.low(), byte.high()], [-128, 127], "low, high");
    let full = SignedInterval::full();
    let made = [
        SignedInterval::of_bits(64),
        SignedInterval::single(MINUS_2),
        full,
    ];
    let wanted = [full, SignedInterval::new(-2, -2), signed(SIGNED_FULL)];
    same(&rt, made, wanted, "of bits, single, full");
    let negative = SignedInterval::new(-4, -1);
    let (low, above) = (Interval::new(3, 10), Interval::new(MINUS_4, MOST));
    let all = Interval::full();
    let found = [
        full.narrow(low),
        full.narrow(above),
        full.narrow(all),
        negative.narrow(low),
    ];
    let wanted = [
        Some(SignedInterval::new(3, 10)),
        Some(negative),
        Some(full),
        None,
    ];
    same(&rt, found, wanted, "from one reading to the other");
    let found = [all.narrow(negative), all.narrow(SignedInterval::new(-4, 1))];
    same(&rt, found, [Some(above), Some(all)], "narrow");
}
