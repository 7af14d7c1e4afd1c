//! Abstract numbers: tables of operands, with the result of each operation.

use crate::tests::same::same;
use bpf_absnum::AbsNum;
use bpf_insn::{AluOp, ByteOrder, Extension, OrderWidth};
use bpf_interval::{Interval, SignedInterval};
use bpf_tnum::Tnum;
use std::process::Abort;

const MOST: u64 = u64::MAX;

/// An abstract number, as in a table.
pub enum Known {
    One(u64),
    Full,
    /// Any word of 32 bits, and of 8.
    Word,
    Byte,
    /// A multiple of 8 up to 56.
    Offset,
    /// From -5 to 3.
    NearZero,
    /// From -20 to -4.
    Negative,
    /// Around 2^32.
    Large,
    /// From 3 to 9.
    Few,
    /// Its bounds, the same as signed numbers, and its value and mask.
    Small((u64, u64), (u64, u64)),
    /// Its signed bounds; no more is known.
    Signed(i64, i64),
    /// Its bounds, its value and mask, and its signed bounds.
    Within((u64, u64), (u64, u64), (i64, i64)),
}

use Known::{Byte, Few, Full, Large, NearZero, Negative, Offset, One, Signed, Small, Within, Word};

fn parts_of(range: (u64, u64), bits: (u64, u64), signed: (i64, i64)) -> AbsNum {
    AbsNum::new(
        Interval::new(range.0.min(range.1), range.1.max(range.0)),
        SignedInterval::new(signed.0.min(signed.1), signed.1.max(signed.0)),
        Tnum::masked(bits.0, bits.1),
    )
}

fn small_of(range: (u64, u64), bits: (u64, u64)) -> AbsNum {
    parts_of(range, bits, (range.0.cast_signed(), range.1.cast_signed()))
}

fn signed_of(low: i64, high: i64) -> AbsNum {
    parts_of((0, MOST), (0, MOST), (low, high))
}

/// The abstract number of a table.
pub fn number(known: &Known) -> AbsNum {
    match known {
        One(number) => AbsNum::single(*number),
        Full => signed_of(i64::MIN, i64::MAX),
        Word => small_of((0, 0xffffffff), (0, 0xffffffff)),
        Byte => small_of((0, 255), (0, 255)),
        Offset => small_of((0, 56), (0, 56)),
        NearZero => signed_of(-5, 3),
        Negative => parts_of(
            (0xffffffffffffffec, 0xfffffffffffffffc),
            (0xffffffffffffffe0, 31),
            (-20, -4),
        ),
        Large => small_of((0xfffffffe, 0x100000005), (0, 0x1ffffffff)),
        Few => small_of((3, 9), (0, 15)),
        Small(range, bits) => small_of(*range, *bits),
        Signed(low, high) => signed_of(*low, *high),
        Within(range, bits, signed) => parts_of(*range, *bits, *signed),
    }
}

/// An operand, an operation, whether on 64 bits, the other operand, and the result.
type Row = (Known, AluOp, bool, Known, Known);

static ROWS: &[Row] = &[
    // sums
    (Byte, AluOp::Add, true, Offset, Small((0, 311), (0, 511))),
    (NearZero, AluOp::Add, true, One(4), Signed(-1, 7)),
    (Negative, AluOp::Add, true, Few, Signed(-17, 5)),
    (
        Large,
        AluOp::Add,
        true,
        One(MOST),
        Small((0xfffffffd, 0x100000004), (0, 0x1ffffffff)),
    ),
    (Large, AluOp::Add, false, One(3), Word),
    (Few, AluOp::Add, false, Byte, Small((3, 264), (0, 511))),
    (One(0xffffffff), AluOp::Add, false, One(1), One(0)),
    // differences
    (Byte, AluOp::Sub, true, Few, Signed(-9, 252)),
    (
        Offset,
        AluOp::Sub,
        true,
        One(8),
        Within((0, 0xfffffffffffffff8), (0, 0xfffffffffffffff8), (-8, 48)),
    ),
    (NearZero, AluOp::Sub, true, Few, Signed(-14, 0)),
    (Few, AluOp::Sub, false, One(2), Small((1, 7), (0, 7))),
    (Byte, AluOp::Sub, false, Few, Word),
    // products
    (
        Byte,
        AluOp::Mul,
        true,
        Offset,
        Small((0, 0x37c8), (0, 0x3ff8)),
    ),
    (Large, AluOp::Mul, true, Large, Full),
    (Offset, AluOp::Mul, true, One(6), Small((0, 336), (0, 496))),
    (Large, AluOp::Mul, false, One(3), Word),
    (
        Offset,
        AluOp::Mul,
        false,
        Offset,
        Small((0, 3136), (0, 4032)),
    ),
    // quotients
    (Byte, AluOp::Div, true, Few, Small((0, 85), (0, 127))),
    (Few, AluOp::Div, true, Byte, Small((0, 9), (0, 15))),
    (
        Large,
        AluOp::Div,
        false,
        One(16),
        Small((0, 0xfffffff), (0, 0xfffffff)),
    ),
    (One(7), AluOp::Div, true, One(0), One(0)),
    // remainders
    (Large, AluOp::Mod, true, Few, Small((0, 8), (0, 15))),
    (Few, AluOp::Mod, true, Byte, Small((0, 9), (0, 15))),
    (Large, AluOp::Mod, false, One(16), Small((0, 15), (0, 15))),
    (One(7), AluOp::Mod, false, One(0), One(7)),
    // bits of both
    (Large, AluOp::And, true, One(56), Offset),
    (
        NearZero,
        AluOp::And,
        false,
        One(240),
        Small((0, 240), (0, 240)),
    ),
    (Offset, AluOp::Or, true, One(3), Small((3, 59), (3, 56))),
    (Offset, AluOp::Or, false, Byte, Byte),
    (Offset, AluOp::Xor, true, One(7), Small((7, 63), (7, 56))),
    (Large, AluOp::Xor, false, Few, Word),
    // moves
    (Few, AluOp::Mov, true, Large, Large),
    (Few, AluOp::Mov, false, Large, Word),
    (Few, AluOp::Mov, false, Offset, Offset),
    (Byte, AluOp::Mov, false, One(0x100000005), One(5)),
    (Few, AluOp::Mov, false, NearZero, Word),
    // shifts
    (Few, AluOp::Lsh, true, One(3), Small((24, 72), (0, 120))),
    (Few, AluOp::Lsh, true, One(67), Small((24, 72), (0, 120))),
    (Few, AluOp::Lsh, true, Byte, Full),
    (
        Few,
        AluOp::Lsh,
        false,
        One(29),
        Small((0, 0xe0000000), (0, 0xe0000000)),
    ),
    (Offset, AluOp::Rsh, true, One(2), Small((0, 14), (0, 14))),
    (NearZero, AluOp::Rsh, true, One(60), Small((0, 15), (0, 15))),
    (
        Large,
        AluOp::Rsh,
        false,
        One(33),
        Small((0, 0x7fffffff), (0, 0x7fffffff)),
    ),
    (One(3), AluOp::Lsh, false, One(33), One(6)),
    // shifts that copy the sign
    (Offset, AluOp::Arsh, true, One(2), Small((0, 14), (0, 14))),
    (
        Negative,
        AluOp::Arsh,
        true,
        One(2),
        Within(
            (0xfffffffffffffffb, MOST),
            (0xfffffffffffffff8, 7),
            (-5, -1),
        ),
    ),
    (NearZero, AluOp::Arsh, true, One(1), Signed(-3, 1)),
    (Byte, AluOp::Arsh, false, One(33), Small((0, 127), (0, 127))),
    (Large, AluOp::Arsh, false, One(1), Word),
    (Negative, AluOp::Arsh, false, One(1), Word),
    // signed division
    (
        Negative,
        AluOp::Sdiv,
        true,
        One(4),
        Within(
            (0xfffffffffffffffb, MOST),
            (0xfffffffffffffff8, 7),
            (-5, -1),
        ),
    ),
    (NearZero, AluOp::Sdiv, true, One(2), Signed(-2, 1)),
    (NearZero, AluOp::Sdiv, true, One(MOST), Full),
    (Few, AluOp::Sdiv, false, One(2), Word),
    (
        One(0x8000000000000000),
        AluOp::Sdiv,
        true,
        One(MOST),
        One(0x8000000000000000),
    ),
    (Negative, AluOp::Smod, true, One(4), Signed(-3, 0)),
    (NearZero, AluOp::Smod, true, One(4), Signed(-3, 3)),
    (Byte, AluOp::Smod, true, One(10), Small((0, 9), (0, 15))),
    (Byte, AluOp::Smod, false, One(10), Word),
    (
        One(0x8000000000000000),
        AluOp::Smod,
        true,
        One(MOST),
        One(0),
    ),
];

/// A change of one number; the flag is whether on 64 bits.
enum Change {
    Negated(bool),
    SignExtended(Extension, bool),
    Ordered(ByteOrder, OrderWidth),
    /// The low half.
    Cut,
    Tightened,
}

use Change::{Cut, Negated, Ordered, SignExtended, Tightened};

fn changed(number: AbsNum, change: &Change) -> Option<AbsNum> {
    match change {
        Negated(wide) => Some(number.negated(*wide)),
        SignExtended(from, wide) => Some(number.sign_extended(*from, *wide)),
        Ordered(order, width) => Some(number.ordered(*order, *width)),
        Cut => Some(number.cut()),
        Tightened => number.tightened(),
    }
}

/// A number, its change, and the result, if there is one.
static CHANGES: &[(&str, &[(Known, Change, Option<Known>)])] = &[
    (
        "negated",
        &[
            (
                Few,
                Negated(true),
                Some(Within(
                    (0xfffffffffffffff7, 0xfffffffffffffffd),
                    (0xfffffffffffffff0, 15),
                    (-9, -3),
                )),
            ),
            (NearZero, Negated(true), Some(Signed(-3, 5))),
            (Few, Negated(false), Some(Word)),
            (One(1), Negated(true), Some(One(MOST))),
        ],
    ),
    (
        "moved",
        &[
            (Few, SignExtended(Extension::Byte, true), Some(Few)),
            (
                Byte,
                SignExtended(Extension::Byte, true),
                Some(Signed(-128, 127)),
            ),
            (
                Negative,
                SignExtended(Extension::Byte, true),
                Some(Negative),
            ),
            (Byte, SignExtended(Extension::Half, true), Some(Byte)),
            (
                Large,
                SignExtended(Extension::Word, true),
                Some(Signed(-0x8000_0000, 0x7fffffff)),
            ),
            (Few, SignExtended(Extension::Byte, false), Some(Few)),
            (Byte, SignExtended(Extension::Byte, false), Some(Word)),
            (Negative, SignExtended(Extension::Half, false), Some(Word)),
            (
                One(384),
                SignExtended(Extension::Byte, true),
                Some(One(0xffffffffffffff80)),
            ),
            (
                One(384),
                SignExtended(Extension::Byte, false),
                Some(One(0xffffff80)),
            ),
        ],
    ),
    (
        "ordered",
        &[
            (
                NearZero,
                Ordered(ByteOrder::Little, OrderWidth::Double),
                Some(Full),
            ),
            (
                Offset,
                Ordered(ByteOrder::Little, OrderWidth::Word),
                Some(Offset),
            ),
            (
                Large,
                Ordered(ByteOrder::Little, OrderWidth::Half),
                Some(Small((0, 0xffff), (0, 0xffff))),
            ),
            (
                Offset,
                Ordered(ByteOrder::Big, OrderWidth::Half),
                Some(Small((0, 0xffff), (0, 0xffff))),
            ),
            (
                Few,
                Ordered(ByteOrder::Swap, OrderWidth::Double),
                Some(Full),
            ),
            (
                One(0x1122334455667788),
                Ordered(ByteOrder::Big, OrderWidth::Half),
                Some(One(0x8877)),
            ),
            (
                One(0x1122334455667788),
                Ordered(ByteOrder::Little, OrderWidth::Word),
                Some(One(0x55667788)),
            ),
        ],
    ),
    (
        "low half",
        &[
            (Offset, Cut, Some(Offset)),
            (Large, Cut, Some(Word)),
            (NearZero, Cut, Some(Word)),
        ],
    ),
    (
        "tightened",
        &[
            (
                Within((3, MOST), (0, 12), (i64::MIN, i64::MAX)),
                Tightened,
                Some(Small((3, 12), (0, 12))),
            ),
            (
                Signed(-5, -2),
                Tightened,
                Some(Within(
                    (0xfffffffffffffffb, 0xfffffffffffffffe),
                    (0xfffffffffffffff8, 7),
                    (-5, -2),
                )),
            ),
            (Within((1, 3), (4, 8), (0, 9)), Tightened, None),
        ],
    ),
];

fn is_computed(rt: &impl Abort, row: &Row) {
    let (a, op, wide, b, wanted) = row;
    let found = number(a).alu(*op, *wide, number(b));
    same(rt, (*op, *wide, found), (*op, *wide, number(wanted)), "row");
}

fn are_changed(rt: &impl Abort, rows: &[(Known, Change, Option<Known>)], what: &str) {
    for (known, change, wanted) in rows {
        let before = number(known);
        let after = match wanted {
            Some(known) => Some(number(known)),
            None => None,
        };
        same(rt, (before, changed(before, change)), (before, after), what);
    }
}

#[test]
fn operations_are_computed(rt: HostRuntime) {
    for row in ROWS {
        is_computed(&rt, row);
    }
    for (what, rows) in CHANGES {
        are_changed(&rt, rows, what);
    }
}

#[test]
fn loads_members_and_parts(rt: HostRuntime) {
    let loaded = [
        AbsNum::loaded(8),
        AbsNum::loaded(64),
        AbsNum::loaded_signed(16),
        AbsNum::within(Interval::new(0, 2007)),
    ];
    let stations = small_of((0, 2007), (0, 2047));
    let (byte, near_zero) = (number(&Byte), number(&NearZero));
    let wanted = [byte, AbsNum::full(), signed_of(-0x8000, 0x7fff), stations];
    same(&rt, loaded, wanted, "loaded, loaded signed, within");
    let offset = number(&Offset);
    let found = [
        offset.is_included(byte),
        byte.is_included(offset),
        number(&Negative).is_included(near_zero),
        offset.contains(24),
        offset.contains(25),
        near_zero.contains(MOST),
        near_zero.contains(4),
        AbsNum::single(4).is_single(),
        byte.is_single(),
    ];
    let wanted = [true, false, false, true, false, true, false, true, false];
    same(&rt, found, wanted, "inclusion and members");
    let few = number(&Few);
    let parts = (few.range(), few.signed(), few.bits());
    let (low, high) = (Interval::new(3, 9), SignedInterval::new(3, 9));
    same(
        &rt,
        parts,
        (low, high, Tnum::masked(0, 15)),
        "range, signed, bits",
    );
}
