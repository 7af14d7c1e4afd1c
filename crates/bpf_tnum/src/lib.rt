//! Tristate numbers: 64-bit words of which some bits are known.
//!
//! Main calls: `Tnum::new`, `add`, `and`, `mul`, `meet`, `is_included`. It depends on `bpf_words`.
//! Each operation returns what its definition in `specs/Tnum.antt` says. `laws::tnum_law` says that
//! it contains every result of the machine's operation. No call allocates.
#![tactic(auto)]

pub mod laws;

ghost use Rattle.std.specs.Prelude.{ℕ, ◌≡◌, ◌<◌, ◌≤◌, ◌↔◌, IsTrue, bit_and};
ghost use Rattle.bpf_tnum.specs.Tnum.{Bits, tnum_of, tnum_add, tnum_sub, tnum_and, tnum_or, tnum_xor, tnum_full, tnum_single, tnum_low, tnum_zeros, tnum_mul, tnum_shl, tnum_shr, tnum_cut, tnum_meet, tnum_included, InTnum};
ghost use Rattle.bpf_words.specs.Word.{word_not};

use std::marker::Model;

/// The words that agree with `value` at each bit that is 0 in `mask`. The bits that are 1 in `mask` are unknown, and
/// are 0 in `value`.
#[derive(Clone, Copy, Debug, PartialEq, Eq)]
pub struct Tnum {
    value: u64,
    mask: u64,
}

impl Model for Tnum {
    ghost Value = { Bits };

    ghost view = { λ s. record { value = s.value; mask = s.mask } };

    ghost invariant = { λ s. bit_and s.value s.mask ≡ 0 };

    ghost inverse = { λ b. record { value = b.value; mask = b.mask } };
}

impl Tnum {
    /// The words with `value` at the bits that are 0 in `mask`; `value` is 0 at the others.
    pub fn new(value: u64, mask: u64) -> Tnum
        requires apart { bit_and value mask ≡ 0 }
        ensures { result ≡ tnum_of value mask }
    {
        Tnum { value, mask }
    }

    /// The sums (ADD): a bit is known if both operands know it and the least and the greatest sum agree on it.
    #[tactic(auto, using(bpf_words::proofs::Bits::apart), unfolding(crate::specs::Tnum::tnum_add))]
    pub fn add(self, other: Tnum) -> Tnum
        ensures { result ≡ tnum_add self other }
    {
        let sum = self.value.wrapping_add(other.value);
        let most = self.mask.wrapping_add(other.mask).wrapping_add(sum);
        let mask = (most ^ sum) | self.mask | other.mask;
        Tnum {
            value: sum & !mask,
            mask,
        }
    }

    /// The differences (SUB): a bit is known if both operands know it and the least and the greatest difference agree
    /// on it.
    #[tactic(auto, using(bpf_words::proofs::Bits::apart), unfolding(crate::specs::Tnum::tnum_sub))]
    pub fn sub(self, other: Tnum) -> Tnum
        ensures { result ≡ tnum_sub self other }
    {
        let difference = self.value.wrapping_sub(other.value);
        let most = difference.wrapping_add(self.mask);
        let least = difference.wrapping_sub(other.mask);
        let mask = (most ^ least) | self.mask | other.mask;
        Tnum {
            value: difference & !mask,
            mask,
        }
    }

    /// AND: a bit is known if both operands know it, or one knows that it is 0.
    #[tactic(auto, using(bpf_words::proofs::Bits::apart), unfolding(crate::specs::Tnum::tnum_and))]
    pub fn and(self, other: Tnum) -> Tnum
        ensures { result ≡ tnum_and self other }
    {
        let value = self.value & other.value;
        Tnum {
            value,
            mask: (self.value | self.mask) & (other.value | other.mask) & !value,
        }
    }

    /// OR: a bit is known if both operands know it, or one knows that it is 1.
    #[tactic(auto, using(bpf_words::proofs::Bits::apart), unfolding(crate::specs::Tnum::tnum_or))]
    pub fn or(self, other: Tnum) -> Tnum
        ensures { result ≡ tnum_or self other }
    {
        let value = self.value | other.value;
        Tnum {
            value,
            mask: (self.mask | other.mask) & !value,
        }
    }

    /// XOR: a bit is known if both operands know it.
    #[tactic(auto, using(bpf_words::proofs::Bits::apart), unfolding(crate::specs::Tnum::tnum_xor))]
    pub fn xor(self, other: Tnum) -> Tnum
        ensures { result ≡ tnum_xor self other }
    {
        let mask = self.mask | other.mask;
        Tnum {
            value: (self.value ^ other.value) & !mask,
            mask,
        }
    }

    /// The known bits; the others are 0.
    pub fn value(self) -> u64
        ensures value { result ≡ self.value }
        ensures apart { bit_and self.value self.mask ≡ 0 }
    {
        self.value
    }

    /// The unknown bits.
    pub fn mask(self) -> u64
        ensures value { result ≡ self.mask }
        ensures apart { bit_and self.value self.mask ≡ 0 }
    {
        self.mask
    }

    /// The words that agree with `number` at the bits that are 0 in `mask`.
    #[tactic(auto, using(bpf_words::proofs::Bits::apart))]
    pub fn masked(number: u64, mask: u64) -> Tnum
        ensures { result ≡ tnum_of (bit_and number (word_not mask)) mask }
    {
        Tnum {
            value: number & !mask,
            mask,
        }
    }

    /// All words.
    pub fn full() -> Tnum
        ensures { result ≡ tnum_full }
    {
        Tnum {
            value: 0,
            mask: u64::MAX,
        }
    }

    /// `number` alone.
    pub fn single(number: u64) -> Tnum
        ensures { result ≡ tnum_single number }
    {
        Tnum {
            value: number,
            mask: 0,
        }
    }

    /// The words whose lowest `zeros` bits are 0; `zeros` is at most 64.
    #[tactic(auto, unfolding(crate::specs::Tnum::tnum_low))]
    pub fn low(zeros: u32) -> Tnum
        requires { zeros ≤ 64 }
        ensures { result ≡ tnum_low zeros }
    {
        let mask = if zeros == 64 { 0 } else { u64::MAX << zeros };
        Tnum { value: 0, mask }
    }

    /// How many lowest bits are known to be 0: 0 to 64.
    pub fn trailing_zeros(self) -> u32
        ensures { result ≡ tnum_zeros self }
    {
        (self.value | self.mask).trailing_zeros()
    }

    /// The products (MUL): the known low zeros of both add up.
    #[tactic(auto, unfolding(crate::specs::Tnum::tnum_mul))]
    pub fn mul(self, other: Tnum) -> Tnum
        ensures { result ≡ tnum_mul self other }
    {
        let zeros = self.trailing_zeros() + other.trailing_zeros();
        Tnum::low(zeros.min(64))
    }

    /// LSH by `count`, below 64: `count` more known low zeros, at most 64.
    #[tactic(auto, unfolding(crate::specs::Tnum::tnum_shl))]
    pub fn shift_left(self, count: u32) -> Tnum
        requires { count < 64 }
        ensures { result ≡ tnum_shl self count }
    {
        let zeros = self.trailing_zeros() + count;
        Tnum::low(zeros.min(64))
    }

    /// RSH by `count`, below 64: `count` fewer known low zeros.
    #[tactic(auto, unfolding(crate::specs::Tnum::tnum_shr))]
    pub fn shift_right(self, count: u32) -> Tnum
        requires { count < 64 }
        ensures { result ≡ tnum_shr self count }
    {
        let zeros = self.trailing_zeros();
        if zeros > count {
            Tnum::low(zeros - count)
        } else {
            Tnum::full()
        }
    }

    /// The low `width` bits, 1 to 64; those above become 0.
    #[tactic(auto, unfolding(crate::specs::Tnum::tnum_cut))]
    pub fn cut(self, width: u32) -> Tnum
        requires positive { 0 < width }
        requires within { width ≤ 64 }
        ensures { result ≡ tnum_cut width self }
    {
        let ones = u64::MAX >> (64 - width);
        Tnum {
            value: self.value & ones,
            mask: self.mask & ones,
        }
    }

    /// The intersection, or `None` if a bit that both know differs.
    #[tactic(auto, using(bpf_words::proofs::Bits::apart), unfolding(crate::specs::Tnum::tnum_meet))]
    pub fn meet(self, other: Tnum) -> Option<Tnum>
        ensures { result ≡ tnum_meet self other }
    {
        if (self.value ^ other.value) & !self.mask & !other.mask != 0 {
            return None;
        }
        let mask = self.mask & other.mask;
        Some(Tnum {
            value: (self.value | other.value) & !mask,
            mask,
        })
    }

    /// Whether each word of `self` is one of `other`.
    #[tactic(auto, unfolding(crate::specs::Tnum::tnum_included))]
    pub fn is_included(self, other: Tnum) -> bool
        ensures { result ≡ tnum_included self other }
    {
        (self.value ^ other.value) & !other.mask == 0 && self.mask & !other.mask == 0
    }

    /// Whether `number` is one of the words.
    pub fn contains(self, number: u64) -> bool
        ensures { IsTrue result ↔ InTnum self number }
    {
        number & !self.mask == self.value
    }
}
