//! Operations on words, at their limits.

use crate::tests::same::same;
use bpf_words::*;

const MINUS_ONE: u64 = u64::MAX;

const LEAST: u64 = 1 << 63;

/// The words of -4, -8, -13 and -128.
const MINUS_4: u64 = 0xfffffffffffffffc;

const MINUS_8: u64 = 0xfffffffffffffff8;

const MINUS_13: u64 = 0xfffffffffffffff3;

const MINUS_128: u64 = 0xffffffffffffff80;

/// Those of 32 bits.
const SHORT_4: u32 = 0xfffffffc;

const SHORT_8: u32 = 0xfffffff8;

const SHORT_13: u32 = 0xfffffff3;

#[test]
fn words_of_64_bits(rt: HostRuntime) {
    let words = [
        word_of_int(-1),
        word_of_int(-4),
        word_of_int(-8),
        word_of_int(-13),
    ];
    same(
        &rt,
        words,
        [MINUS_ONE, MINUS_4, MINUS_8, MINUS_13],
        "word of int",
    );
    let words = [word_of_int(-128), negated_64(1)];
    same(
        &rt,
        words,
        [MINUS_128, MINUS_ONE],
        "word of int, negated 64",
    );
    let found = [
        quotient_64(7, 0),
        remainder_64(7, 0),
        signed_quotient_64(7, 0),
        signed_remainder_64(7, 0),
    ];
    same(&rt, found, [0, 7, 0, 7], "division by zero");
    let found = [
        signed_quotient_64(LEAST, MINUS_ONE),
        signed_remainder_64(LEAST, MINUS_ONE),
        signed_remainder_64(MINUS_13, 3),
    ];
    same(
        &rt,
        found,
        [LEAST, 0, MINUS_ONE],
        "signed division truncates",
    );
    let found = [
        arithmetic_shift_right_64(MINUS_8, 65),
        sign_extended_64(8, 0xff80),
    ];
    same(
        &rt,
        found,
        [MINUS_4, MINUS_128],
        "arithmetic shift right 64, sign extended 64",
    );
    let in_order = signed_order_64(MINUS_ONE) < signed_order_64(0);
    same(&rt, in_order, true, "signed order 64");
    let found = [
        bytes_swapped(16, 0x1122_3344_5566_7788),
        bytes_swapped(32, 0x0000_0000_5566_7788),
        bytes_swapped(64, 0x1122_3344_5566_7788),
    ];
    same(
        &rt,
        found,
        [34935, 0x8877_6655, 0x8877_6655_4433_2211],
        "bytes swapped",
    );
}

#[test]
fn words_of_32_bits(rt: HostRuntime) {
    let found = [
        low_half(0x1_2345_6789),
        quotient_32(7, 2),
        remainder_32(7, 2),
    ];
    same(
        &rt,
        found,
        [0x2345_6789, 3, 1],
        "low half, quotient 32, remainder 32",
    );
    let found = [negated_32(1), negated_32(4), negated_32(8), negated_32(13)];
    same(
        &rt,
        found,
        [u32::MAX, SHORT_4, SHORT_8, SHORT_13],
        "negated 32",
    );
    let found = [
        signed_quotient_32(SHORT_13, 3),
        signed_remainder_32(SHORT_13, 3),
    ];
    same(
        &rt,
        found,
        [SHORT_4, u32::MAX],
        "signed quotient 32, signed remainder 32",
    );
    let found = [
        arithmetic_shift_right_32(SHORT_8, 33),
        sign_extended_32(16, 0x1_8000),
    ];
    same(
        &rt,
        found,
        [SHORT_4, 0xffff_8000],
        "arithmetic shift right 32, sign extended 32",
    );
    let in_order = signed_order_32(u32::MAX) < signed_order_32(0);
    same(&rt, in_order, true, "signed order 32");
}
