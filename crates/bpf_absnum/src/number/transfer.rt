//! Abstract results of instructions (RFC 9669, sections 4.1, 4.2 and 5). If all operands are single, the result is the
//! machine's. Otherwise each operation has a row, whose result is tightened, and is all words if no word remains.

ghost use Rattle.std.specs.Prelude.{ℕ, ◌≡◌, ◌^◌, ◌<◌, ◌≤◌, IfSome};
ghost use Rattle.bpf_insn.specs.Widths.{extension_bits};
ghost use Rattle.bpf_interval.specs.Interval.{Bounds};
ghost use Rattle.bpf_absnum.specs.Number.{Num, num_single};
ghost use Rattle.bpf_absnum.specs.Transfer.{in_wide, row_add, row_sub, row_mul, row_div, row_mod, row_and, row_or, row_xor, masked, count_of, num_by, row_lsh, row_rsh, row_arsh, divisor_of, row_sdiv, row_smod, num_row, is_move, all_single, num_alu, num_negated, row_extended, row_extended_32, num_extended, row_ordered, num_ordered, num_within, num_loaded, num_loaded_signed};

use crate::number::AbsNum;
use bpf_insn::{AluOp, ByteOrder, Extension, OrderWidth};
use bpf_interval::{Interval, SignedInterval};
use bpf_tnum::Tnum;
use bpf_values::arithmetic::{bits_ordered, compute, extend, in_order};

/// The signed interval of a row: only ALU64 has one.
fn signed_in(wide: bool, signed: SignedInterval) -> SignedInterval
    ensures { result ≡ in_wide wide signed }
{
    if wide { signed } else { SignedInterval::full() }
}

/// How many low bits MOVSX reads.
fn bits_read(from: Extension) -> u32
    ensures { result ≡ extension_bits from }
{
    match from {
        Extension::Byte => 8,
        Extension::Half => 16,
        Extension::Word => 32,
    }
}

fn moves(op: AluOp) -> bool
    ensures { result ≡ is_move op }
{
    matches!(op, AluOp::Mov)
}

/// Rows, whose operands are cut to 32 bits unless `wide`.
impl AbsNum {
    #[tactic(auto, unfolding(crate::specs::Transfer::row_add))]
    fn sum(self, other: AbsNum, wide: bool) -> AbsNum
        ensures { result ≡ row_add wide self other }
    {
        AbsNum::tight(
            self.range.add(other.range),
            signed_in(wide, self.signed.add(other.signed)),
            self.bits.add(other.bits),
        )
    }

    #[tactic(auto, unfolding(crate::specs::Transfer::row_sub))]
    fn difference(self, other: AbsNum, wide: bool) -> AbsNum
        ensures { result ≡ row_sub wide self other }
    {
        AbsNum::tight(
            self.range.sub(other.range),
            signed_in(wide, self.signed.sub(other.signed)),
            self.bits.sub(other.bits),
        )
    }

    #[tactic(auto, unfolding(crate::specs::Transfer::row_mul))]
    fn product(self, other: AbsNum) -> AbsNum
        ensures { result ≡ row_mul self other }
    {
        let range = self.range.mul(other.range);
        AbsNum::tight(range, SignedInterval::full(), self.bits.mul(other.bits))
    }

    #[tactic(auto, unfolding(crate::specs::Transfer::row_div))]
    fn quotient(self, other: AbsNum) -> AbsNum
        ensures { result ≡ row_div self other }
    {
        let range = self.range.div(other.range);
        AbsNum::tight(range, SignedInterval::full(), Tnum::full())
    }

    #[tactic(auto, unfolding(crate::specs::Transfer::row_mod))]
    fn remainder(self, other: AbsNum) -> AbsNum
        ensures { result ≡ row_mod self other }
    {
        let range = self.range.rem(other.range);
        AbsNum::tight(range, SignedInterval::full(), Tnum::full())
    }

    #[tactic(auto, unfolding(crate::specs::Transfer::row_and))]
    fn and(self, other: AbsNum) -> AbsNum
        ensures { result ≡ row_and self other }
    {
        let range = self.range.and(other.range);
        AbsNum::tight(range, SignedInterval::full(), self.bits.and(other.bits))
    }

    #[tactic(auto, unfolding(crate::specs::Transfer::row_or))]
    fn or(self, other: AbsNum) -> AbsNum
        ensures { result ≡ row_or self other }
    {
        let range = self.range.or(other.range);
        AbsNum::tight(range, SignedInterval::full(), self.bits.or(other.bits))
    }

    #[tactic(auto, unfolding(crate::specs::Transfer::row_xor))]
    fn xor(self, other: AbsNum) -> AbsNum
        ensures { result ≡ row_xor self other }
    {
        let bits = self.bits.xor(other.bits);
        AbsNum::tight(Interval::full(), SignedInterval::full(), bits)
    }

    #[tactic(auto, unfolding(crate::specs::Transfer::masked))]
    fn masked(self, wide: bool) -> AbsNum
        ensures { result ≡ masked wide self }
    {
        let mask = if wide { 63 } else { 31 };
        if self.is_single() {
            AbsNum::single(self.range.low() & mask)
        } else {
            self.and(AbsNum::single(mask))
        }
    }

    /// The count of a shift, masked, if it is single.
    #[tactic(auto, unfolding(crate::specs::Transfer::count_of))]
    fn shift_count(self, wide: bool) -> Option<u32>
        ensures count { result ≡ count_of wide self }
        ensures small { IfSome result (λ c. c < 64) }
    {
        let count = self.masked(wide);
        if count.is_single() {
            Some(count.range.low() as u32)
        } else {
            None
        }
    }

    #[tactic(auto, unfolding(crate::specs::Transfer::row_lsh))]
    fn shifted_left(self, count: u32) -> AbsNum
        requires { count < 64 }
        ensures { result ≡ row_lsh self count }
    {
        let range = self.range.shift_left(count);
        AbsNum::tight(range, SignedInterval::full(), self.bits.shift_left(count))
    }

    #[tactic(auto, unfolding(crate::specs::Transfer::row_rsh))]
    fn shifted_right(self, count: u32) -> AbsNum
        requires { count < 64 }
        ensures { result ≡ row_rsh self count }
    {
        let range = self.range.shift_right(count);
        AbsNum::tight(range, SignedInterval::full(), self.bits.shift_right(count))
    }

    #[tactic(auto, unfolding(crate::specs::Transfer::row_arsh))]
    fn sign_shifted_right(self, count: u32, wide: bool) -> AbsNum
        requires { count < 64 }
        ensures { result ≡ row_arsh wide self count }
    {
        let signed = signed_in(wide, self.signed.shift_right(u64::from(count)));
        let half = if wide { 1 << 63 } else { 1 << 31 };
        if self.range.high() < half {
            let bits = self.bits.shift_right(count);
            AbsNum::tight(self.range.shift_right(count), signed, bits)
        } else {
            AbsNum::tight(Interval::full(), signed, Tnum::full())
        }
    }

    /// The divisor of SDIV and SMOD in ALU64, if it is single and at least 1 as signed.
    #[tactic(auto, unfolding(crate::specs::Transfer::divisor_of))]
    fn divisor(self, wide: bool) -> Option<u64>
        ensures divisor { result ≡ divisor_of wide self }
        ensures positive { IfSome result (λ c. 1 ≤ c) }
        ensures signed { IfSome result (λ c. c < 2 ^ 63) }
    {
        let low = self.range.low();
        if wide && self.is_single() && low >= 1 && low < 1 << 63 {
            Some(low)
        } else {
            None
        }
    }

    #[tactic(auto, unfolding(crate::specs::Transfer::row_sdiv))]
    fn signed_quotient(self, divisor: u64) -> AbsNum
        requires positive { 1 ≤ divisor }
        requires signed { divisor < 2 ^ 63 }
        ensures { result ≡ row_sdiv self divisor }
    {
        AbsNum::tight(Interval::full(), self.signed.div(divisor), Tnum::full())
    }

    #[tactic(auto, unfolding(crate::specs::Transfer::row_smod))]
    fn signed_remainder(self, divisor: u64) -> AbsNum
        requires positive { 1 ≤ divisor }
        requires signed { divisor < 2 ^ 63 }
        ensures { result ≡ row_smod self divisor }
    {
        AbsNum::tight(Interval::full(), self.signed.rem(divisor), Tnum::full())
    }

    /// LSH, all words unless the count is single.
    fn lsh(self, other: AbsNum, wide: bool) -> AbsNum
        ensures { result ≡ num_by (count_of wide other) (row_lsh self) }
    {
        match other.shift_count(wide) {
            Some(count) => self.shifted_left(count),
            None => AbsNum::full(),
        }
    }

    /// RSH, all words unless the count is single.
    fn rsh(self, other: AbsNum, wide: bool) -> AbsNum
        ensures { result ≡ num_by (count_of wide other) (row_rsh self) }
    {
        match other.shift_count(wide) {
            Some(count) => self.shifted_right(count),
            None => AbsNum::full(),
        }
    }

    /// ARSH, all words unless the count is single.
    fn arsh(self, other: AbsNum, wide: bool) -> AbsNum
        ensures { result ≡ num_by (count_of wide other) (row_arsh wide self) }
    {
        match other.shift_count(wide) {
            Some(count) => self.sign_shifted_right(count, wide),
            None => AbsNum::full(),
        }
    }

    /// SDIV, all words in ALU, and unless the divisor is single and, as signed, at least 1.
    fn sdiv(self, other: AbsNum, wide: bool) -> AbsNum
        ensures { result ≡ num_by (divisor_of wide other) (row_sdiv self) }
    {
        match other.divisor(wide) {
            Some(divisor) => self.signed_quotient(divisor),
            None => AbsNum::full(),
        }
    }

    /// SMOD, all words in ALU, and unless the divisor is single and, as signed, at least 1.
    fn smod(self, other: AbsNum, wide: bool) -> AbsNum
        ensures { result ≡ num_by (divisor_of wide other) (row_smod self) }
    {
        match other.divisor(wide) {
            Some(divisor) => self.signed_remainder(divisor),
            None => AbsNum::full(),
        }
    }

    #[tactic(auto, unfolding(crate::specs::Transfer::num_row))]
    fn row(self, op: AluOp, wide: bool, other: AbsNum) -> AbsNum
        ensures { result ≡ num_row wide op self other }
    {
        match op {
            AluOp::Add => self.sum(other, wide),
            AluOp::Sub => self.difference(other, wide),
            AluOp::Mul => self.product(other),
            AluOp::Div => self.quotient(other),
            AluOp::Or => self.or(other),
            AluOp::And => self.and(other),
            AluOp::Lsh => self.lsh(other, wide),
            AluOp::Rsh => self.rsh(other, wide),
            AluOp::Mod => self.remainder(other),
            AluOp::Xor => self.xor(other),
            AluOp::Mov => other.kept(),
            AluOp::Arsh => self.arsh(other, wide),
            AluOp::Sdiv => self.sdiv(other, wide),
            AluOp::Smod => self.smod(other, wide),
        }
    }

    /// MOVSX of `bits` bits in ALU64.
    #[tactic(auto, unfolding(crate::specs::Transfer::row_extended))]
    fn extended(self, bits: u32) -> AbsNum
        requires positive { 0 < bits }
        requires within { bits ≤ 64 }
        ensures { result ≡ row_extended bits self }
    {
        let signed = SignedInterval::of_bits(bits);
        if self.signed.is_included(signed) {
            self.kept()
        } else if self.range.high() < 1 << (bits - 1) {
            AbsNum::tight(self.range, signed, self.bits)
        } else {
            AbsNum::tight(Interval::full(), signed, Tnum::full())
        }
    }

    /// MOVSX of `bits` bits in ALU.
    #[tactic(auto, unfolding(crate::specs::Transfer::row_extended_32))]
    fn extended_32(self, bits: u32) -> AbsNum
        requires positive { 0 < bits }
        requires within { bits ≤ 64 }
        ensures { result ≡ row_extended_32 bits self }
    {
        if self.range.high() < 1 << (bits - 1) {
            self.kept()
        } else {
            AbsNum::full()
        }
    }

    /// END of a number that isn't single.
    #[tactic(auto, unfolding(crate::specs::Transfer::row_ordered))]
    fn reordered(self, order: ByteOrder, width: OrderWidth) -> AbsNum
        ensures { result ≡ row_ordered order width self }
    {
        let bits = u32::from(bits_ordered(width));
        let full = SignedInterval::full();
        match (order, width) {
            (ByteOrder::Little, OrderWidth::Double) => AbsNum::tight(self.range, full, self.bits),
            (ByteOrder::Little, _) => {
                AbsNum::tight(Interval::of_bits(bits), full, self.bits.cut(bits))
            }
            _ => AbsNum::tight(Interval::of_bits(bits), full, Tnum::full()),
        }
    }
}

/// Instructions.
impl AbsNum {
    /// ALU64, or ALU unless `wide`. MOV has `other` alone as its operand.
    #[tactic(auto, unfolding(crate::specs::Transfer::num_alu))]
    pub fn alu(self, op: AluOp, wide: bool, other: AbsNum) -> AbsNum
        ensures { result ≡ num_alu wide op self other }
    {
        if wide && moves(op) {
            return other;
        }
        if other.is_single() && (moves(op) || self.is_single()) {
            return AbsNum::single(compute(wide, op, self.range.low(), other.range.low()));
        }
        if wide {
            self.row(op, wide, other)
        } else {
            self.cut().row(op, wide, other.cut()).cut()
        }
    }

    /// NEG in ALU64, or in ALU unless `wide`.
    #[tactic(auto, unfolding(crate::specs::Transfer::num_negated))]
    pub fn negated(self, wide: bool) -> AbsNum
        ensures { result ≡ num_negated wide self }
    {
        AbsNum::single(0).alu(AluOp::Sub, wide, self)
    }

    /// MOVSX in ALU64, or in ALU unless `wide`.
    #[tactic(auto, unfolding(crate::specs::Transfer::num_extended))]
    pub fn sign_extended(self, from: Extension, wide: bool) -> AbsNum
        ensures { result ≡ num_extended from wide self }
    {
        if self.is_single() {
            return AbsNum::single(extend(from, wide, self.range.low()));
        }
        let bits = bits_read(from);
        if wide {
            self.extended(bits)
        } else {
            self.cut().extended_32(bits).cut()
        }
    }

    /// END.
    #[tactic(auto, unfolding(crate::specs::Transfer::num_ordered))]
    pub fn ordered(self, order: ByteOrder, width: OrderWidth) -> AbsNum
        ensures { result ≡ num_ordered order width self }
    {
        if self.is_single() {
            return AbsNum::single(in_order(order, width, self.range.low()));
        }
        self.reordered(order, width)
    }

    /// The words of an interval, as a helper may return them.
    #[tactic(auto, unfolding(crate::specs::Transfer::num_within))]
    pub fn within(words: Interval) -> AbsNum
        ensures { result ≡ num_within words }
    {
        AbsNum::tight(words, SignedInterval::full(), Tnum::full())
    }

    /// What a load of `bits` bits may return, 1 to 64, or an atomic operation of that width.
    #[tactic(auto, unfolding(crate::specs::Transfer::num_loaded))]
    pub fn loaded(bits: u32) -> AbsNum
        requires positive { 0 < bits }
        requires within { bits ≤ 64 }
        ensures { result ≡ num_loaded bits }
    {
        AbsNum::within(Interval::of_bits(bits))
    }

    /// What a sign-extending load of `bits` bits may return, 1 to 64.
    #[tactic(auto, unfolding(crate::specs::Transfer::num_loaded_signed))]
    pub fn loaded_signed(bits: u32) -> AbsNum
        requires positive { 0 < bits }
        requires within { bits ≤ 64 }
        ensures { result ≡ num_loaded_signed bits }
    {
        AbsNum::tight(
            Interval::full(),
            SignedInterval::of_bits(bits),
            Tnum::full(),
        )
    }
}
