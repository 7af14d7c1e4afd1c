//! The machine's operations on words of 64 and of 32 bits (RFC 9669, section 4).
//!
//! There is a function for each operation that Rust doesn't provide directly, such as `quotient_64`
//! and `sign_extended_32`. The crate depends only on std. Each function returns exactly its
//! definition in `specs/Word.antt`, where a word is a whole number and results wrap; a signed
//! number is its two's complement word. `proofs/` has lemmas on the bits of words, which higher
//! crates cite.
#![tactic(auto)]

ghost use Rattle.std.specs.Prelude.{◌≡◌, ◌<◌, ◌≤◌, ◌^◌, ◌%◌, ◌*◌, ℕ};
ghost use Rattle.bpf_words.specs.Word.{word_of, negated, magnitude, quotient, remainder, with_sign, signed_quotient, signed_remainder, shifted_right_signed, sign_extended, signed_place, swapped};

/// A signed 32-bit immediate, sign-extended to 64 bits (RFC 9669, section 4.1).
pub fn word_of_int(number: i32) -> u64
    ensures { result ≡ word_of number }
{
    i64::from(number).cast_unsigned()
}

/// The low 32 bits, as ALU and JMP32 instructions take them (RFC 9669, sections 4.1 and 4.3).
pub fn low_half(x: u64) -> u32
    ensures { result ≡ x % 2 ^ 32 }
{
    (x % 0x1_0000_0000) as u32
}

/// DIV on 64 bits: the unsigned quotient, or 0 if `y` is 0 (RFC 9669, section 4.1).
pub fn quotient_64(x: u64, y: u64) -> u64
    ensures { result ≡ quotient x y }
{
    if y == 0 { 0 } else { x / y }
}

/// MOD on 64 bits: the unsigned remainder, or `x` if `y` is 0 (RFC 9669, section 4.1).
pub fn remainder_64(x: u64, y: u64) -> u64
    ensures { result ≡ remainder x y }
{
    if y == 0 { x } else { x % y }
}

/// DIV on 32 bits: the unsigned quotient, or 0 if `y` is 0 (RFC 9669, section 4.1).
pub fn quotient_32(x: u32, y: u32) -> u32
    ensures { result ≡ quotient x y }
{
    match y {
        0 => 0,
        _ => x / y,
    }
}

/// MOD on 32 bits: the unsigned remainder, or `x` if `y` is 0 (RFC 9669, section 4.1).
pub fn remainder_32(x: u32, y: u32) -> u32
    ensures { result ≡ remainder x y }
{
    match y {
        0 => x,
        _ => x % y,
    }
}

/// NEG on 64 bits (RFC 9669, section 4.1).
pub fn negated_64(x: u64) -> u64
    ensures { result ≡ negated 64 x }
{
    0u64.wrapping_sub(x)
}

/// NEG on 32 bits (RFC 9669, section 4.1).
pub fn negated_32(x: u32) -> u32
    ensures { result ≡ negated 32 x }
{
    0u32.wrapping_sub(x)
}

fn magnitude_64(x: u64) -> u64
    ensures { result ≡ magnitude 64 x }
{
    if x < 1 << 63 { x } else { negated_64(x) }
}

fn magnitude_32(x: u32) -> u32
    ensures { result ≡ magnitude 32 x }
{
    if x < 1 << 31 { x } else { negated_32(x) }
}

/// SDIV on 64 bits: truncates toward zero, and is 0 if `y` is 0 (RFC 9669, section 4.1).
/// The least signed number divided by -1 is itself.
pub fn signed_quotient_64(x: u64, y: u64) -> u64
    ensures { result ≡ signed_quotient 64 x y }
{
    let sizes = quotient_64(magnitude_64(x), magnitude_64(y));
    if (x < 1 << 63) == (y < 1 << 63) {
        sizes
    } else {
        negated_64(sizes)
    }
}

/// SDIV on 32 bits: truncates toward zero, and is 0 if `y` is 0 (RFC 9669, section 4.1).
/// The least signed number divided by -1 is itself.
pub fn signed_quotient_32(x: u32, y: u32) -> u32
    ensures { result ≡ signed_quotient 32 x y }
{
    let sizes = quotient_32(magnitude_32(x), magnitude_32(y));
    if (x < 1 << 31) == (y < 1 << 31) {
        sizes
    } else {
        negated_32(sizes)
    }
}

/// SMOD on 64 bits: has the sign of `x`, and is `x` if `y` is 0 (RFC 9669, section 4.1).
pub fn signed_remainder_64(x: u64, y: u64) -> u64
    ensures { result ≡ signed_remainder 64 x y }
{
    let sizes = remainder_64(magnitude_64(x), magnitude_64(y));
    if x < 1 << 63 {
        sizes
    } else {
        negated_64(sizes)
    }
}

/// SMOD on 32 bits: has the sign of `x`, and is `x` if `y` is 0 (RFC 9669, section 4.1).
pub fn signed_remainder_32(x: u32, y: u32) -> u32
    ensures { result ≡ signed_remainder 32 x y }
{
    let sizes = remainder_32(magnitude_32(x), magnitude_32(y));
    if x < 1 << 31 {
        sizes
    } else {
        negated_32(sizes)
    }
}

/// ARSH on 64 bits by `count` mod 64, copying the sign bit (RFC 9669, section 4.1).
pub fn arithmetic_shift_right_64(x: u64, count: u64) -> u64
    ensures { result ≡ shifted_right_signed 64 x count }
{
    let by = (count % 64) as u32;
    if x < 1 << 63 { x >> by } else { !(!x >> by) }
}

/// ARSH on 32 bits by `count` mod 32, copying the sign bit (RFC 9669, section 4.1).
pub fn arithmetic_shift_right_32(x: u32, count: u32) -> u32
    ensures { result ≡ shifted_right_signed 32 x count }
{
    let by = count % 32;
    if x < 1 << 31 { x >> by } else { !(!x >> by) }
}

/// MOVSX into 64 bits: the low `bits` bits, 1 to 32, as a signed number (RFC 9669, section 4.1).
pub fn sign_extended_64(bits: u8, x: u64) -> u64
    requires low { 0 < bits }
    requires high { bits ≤ 32 }
    ensures { result ≡ sign_extended 64 bits x }
{
    let modulus = 1u64 << bits;
    let low = x % modulus;
    if low < modulus / 2 {
        low
    } else {
        low + (u64::MAX - modulus + 1)
    }
}

/// MOVSX into 32 bits: the low `bits` bits, 1 to 16, as a signed number (RFC 9669, section 4.1).
pub fn sign_extended_32(bits: u8, x: u32) -> u32
    requires low { 0 < bits }
    requires high { bits ≤ 16 }
    ensures { result ≡ sign_extended 32 bits x }
{
    let modulus = 1u32 << bits;
    let low = x % modulus;
    if low < modulus / 2 {
        low
    } else {
        low + (u32::MAX - modulus + 1)
    }
}

/// The word with its sign bit flipped. Comparing these unsigned compares the words as signed 64-bit numbers, as signed
/// jumps do (RFC 9669, section 4.3).
pub fn signed_order_64(x: u64) -> u64
    ensures { result ≡ signed_place 64 x }
{
    x.wrapping_add(1 << 63)
}

/// The word with its sign bit flipped. Comparing these unsigned compares the words as signed 32-bit numbers, as signed
/// jumps do (RFC 9669, section 4.3).
pub fn signed_order_32(x: u32) -> u32
    ensures { result ≡ signed_place 32 x }
{
    x.wrapping_add(1 << 31)
}

/// The low `bits` bits with their bytes reversed if `bits` is 16 or 32; otherwise all 64 (RFC 9669, section 4.2).
pub fn bytes_swapped(bits: u8, x: u64) -> u64
    ensures { result ≡ swapped bits x }
{
    if bits == 16 {
        u64::from(((x % 0x1_0000) as u16).swap_bytes())
    } else if bits == 32 {
        u64::from(low_half(x).swap_bytes())
    } else {
        x.swap_bytes()
    }
}
