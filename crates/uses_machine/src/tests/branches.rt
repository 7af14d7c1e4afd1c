//! Refinements of abstract numbers: what remains of both operands if a comparison holds, and if it doesn't.

use crate::tests::numbers::Known::{
    Byte, Few, Full, Large, NearZero, Offset, One, Signed, Small, Within,
};
use crate::tests::numbers::{Known, number};
use crate::tests::same::same;
use bpf_insn::Compare;
use std::process::Abort;

/// A number, a comparison, whether on 64 bits, whether it holds, the other number, and what remains of both.
type Way = (Known, Compare, bool, bool, Known, Option<(Known, Known)>);

fn is_refined(rt: &impl Abort, way: &Way) {
    let (a, compare, wide, taken, b, wanted) = way;
    let left = number(a).branch(*compare, *wide, *taken, number(b));
    let wanted = match wanted {
        Some((a, b)) => Some((number(a), number(b))),
        None => None,
    };
    same(
        rt,
        (*compare, *wide, *taken, left),
        (*compare, *wide, *taken, wanted),
        "way",
    );
}

static WAYS: &[Way] = &[
    // equal and not
    (Byte, Compare::Eq, true, true, Large, None),
    (
        Byte,
        Compare::Eq,
        true,
        true,
        NearZero,
        Some((Small((0, 3), (0, 3)), Small((0, 3), (0, 3)))),
    ),
    (
        Few,
        Compare::Eq,
        true,
        false,
        One(3),
        Some((Small((4, 9), (0, 15)), One(3))),
    ),
    (
        One(9),
        Compare::Ne,
        true,
        true,
        Few,
        Some((One(9), Small((3, 8), (0, 15)))),
    ),
    (
        NearZero,
        Compare::Ne,
        true,
        true,
        One(0xfffffffffffffffb),
        Some((Signed(-4, 3), One(0xfffffffffffffffb))),
    ),
    (Few, Compare::Ne, true, true, One(5), Some((Few, One(5)))),
    (
        Offset,
        Compare::Ne,
        true,
        false,
        One(8),
        Some((One(8), One(8))),
    ),
    (Few, Compare::Eq, false, true, Byte, Some((Few, Few))),
    (Large, Compare::Eq, false, true, Byte, Some((Large, Byte))),
    (
        Few,
        Compare::Ne,
        false,
        true,
        One(3),
        Some((Small((4, 9), (0, 15)), One(3))),
    ),
    // unsigned order
    (
        Few,
        Compare::Gt,
        true,
        true,
        One(5),
        Some((Small((6, 9), (0, 15)), One(5))),
    ),
    (
        Few,
        Compare::Gt,
        true,
        false,
        One(5),
        Some((Small((3, 5), (0, 7)), One(5))),
    ),
    (
        Byte,
        Compare::Ge,
        true,
        true,
        Few,
        Some((Small((3, 255), (0, 255)), Few)),
    ),
    (
        Full,
        Compare::Lt,
        true,
        true,
        One(8),
        Some((Small((0, 7), (0, 7)), One(8))),
    ),
    (
        Offset,
        Compare::Lt,
        true,
        false,
        Few,
        Some((Small((3, 56), (0, 56)), Few)),
    ),
    (
        Byte,
        Compare::Le,
        true,
        true,
        Few,
        Some((Small((0, 9), (0, 15)), Few)),
    ),
    (Few, Compare::Gt, true, true, One(9), None),
    (
        Few,
        Compare::Gt,
        false,
        true,
        One(5),
        Some((Small((6, 9), (0, 15)), One(5))),
    ),
    (Large, Compare::Le, false, true, Few, Some((Large, Few))),
    (One(5), Compare::Gt, true, true, One(5), None),
    (
        One(5),
        Compare::Ge,
        true,
        true,
        One(5),
        Some((One(5), One(5))),
    ),
    // signed order
    (
        NearZero,
        Compare::Sgt,
        true,
        true,
        One(0xfffffffffffffffe),
        Some((Signed(-1, 3), One(0xfffffffffffffffe))),
    ),
    (
        Full,
        Compare::Sgt,
        true,
        false,
        One(3),
        Some((Signed(i64::MIN, 3), One(3))),
    ),
    (
        Full,
        Compare::Sge,
        true,
        true,
        One(0xfffffffffffffffc),
        Some((Signed(-4, i64::MAX), One(0xfffffffffffffffc))),
    ),
    (
        Full,
        Compare::Slt,
        true,
        true,
        One(0xfffffffffffffffc),
        Some((
            Within(
                (0x8000000000000000, 0xfffffffffffffffb),
                (0x8000000000000000, 0x7fffffffffffffff),
                (i64::MIN, -5),
            ),
            One(0xfffffffffffffffc),
        )),
    ),
    (
        Full,
        Compare::Slt,
        true,
        false,
        One(0xfffffffffffffffc),
        Some((Signed(-4, i64::MAX), One(0xfffffffffffffffc))),
    ),
    (
        Byte,
        Compare::Sle,
        true,
        true,
        Few,
        Some((Small((0, 9), (0, 15)), Few)),
    ),
    (
        Few,
        Compare::Sgt,
        false,
        true,
        One(5),
        Some((Small((6, 9), (0, 15)), One(5))),
    ),
    (
        Few,
        Compare::Sgt,
        false,
        true,
        One(0x80000000),
        Some((Few, One(0x80000000))),
    ),
    (
        One(0xffffffff),
        Compare::Slt,
        false,
        true,
        One(0),
        Some((One(0xffffffff), One(0))),
    ),
    // bits set
    (
        Offset,
        Compare::Set,
        true,
        true,
        One(8),
        Some((Small((8, 56), (8, 48)), One(8))),
    ),
    (
        Offset,
        Compare::Set,
        true,
        false,
        One(24),
        Some((Small((0, 32), (0, 32)), One(24))),
    ),
    (
        Offset,
        Compare::Set,
        true,
        true,
        One(24),
        Some((Offset, One(24))),
    ),
    (Offset, Compare::Set, true, true, One(7), None),
    (
        Few,
        Compare::Set,
        true,
        false,
        One(2),
        Some((Small((3, 9), (0, 13)), One(2))),
    ),
    (
        One(4),
        Compare::Set,
        true,
        true,
        Few,
        Some((One(4), Small((4, 9), (4, 11)))),
    ),
    (
        Byte,
        Compare::Set,
        false,
        true,
        One(128),
        Some((Small((128, 255), (128, 127)), One(128))),
    ),
    (
        Small((9, 11), (8, 3)),
        Compare::Set,
        true,
        false,
        One(8),
        None,
    ),
];

#[test]
fn comparisons_refine_both_sides(rt: HostRuntime) {
    for way in WAYS {
        is_refined(&rt, way);
    }
}
