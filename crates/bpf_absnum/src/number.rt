//! Abstract numbers.

pub mod branch;
pub mod laws;
pub mod transfer;

ghost use Rattle.std.specs.Prelude.{ℕ, ◌≡◌, ◌<◌, ◌↔◌, IsTrue};
ghost use Rattle.bpf_absnum.specs.Number.{Num, InNum, num_of, ones_up_to, tightened, num_tighten, num_again, num_full, num_single, is_single, num_included, num_cut, or_full};
ghost use Rattle.bpf_absnum.specs.Laws.{IsNum};

use bpf_interval::{Interval, SignedInterval};
use bpf_tnum::Tnum;
use std::marker::Model;

/// The words that are in `range` and in `bits`, and whose signed readings are in `signed`.
#[derive(Clone, Copy, Debug, PartialEq, Eq)]
pub struct AbsNum {
    range: Interval,
    signed: SignedInterval,
    bits: Tnum,
}

impl Model for AbsNum {
    ghost Value = { Num };

    ghost view = { λ s. record { range = s.range; signed = s.signed; bits = s.bits } };

    ghost inverse = { λ b. record { range = b.range; signed = b.signed; bits = b.bits } };
}

/// All ones up to the highest 1 of `number`.
fn mask_up_to(number: u64) -> u64
    ensures { result ≡ ones_up_to number }
{
    if number == 0 {
        0
    } else {
        u64::MAX >> number.leading_zeros()
    }
}

/// An interval and a tristate number, each refined by the other; `None` if no word remains.
#[tactic(auto, unfolding(crate::specs::Number::tightened_between))]
fn tighten_bits(range: Interval, bits: Tnum) -> Option<(Interval, Tnum)>
    ensures { result ≡ tightened range bits }
{
    let low = range.low().max(bits.value());
    let high = range.high().min(bits.value() | bits.mask());
    if low > high {
        return None;
    }
    let mask = mask_up_to(low ^ high);
    let bits = bits.meet(Tnum::masked(low, mask))?;
    Some((Interval::new(low, high), bits))
}

impl AbsNum {
    /// The words in all three, as given: the parts aren't tightened.
    pub fn new(range: Interval, signed: SignedInterval, bits: Tnum) -> AbsNum
        ensures { result ≡ num_of range signed bits }
    {
        AbsNum {
            range,
            signed,
            bits,
        }
    }

    /// The interval of the words.
    pub fn range(self) -> Interval
        ensures { result ≡ self.range }
    {
        self.range
    }

    /// The interval of their signed readings.
    pub fn signed(self) -> SignedInterval
        ensures { result ≡ self.signed }
    {
        self.signed
    }

    /// Their known bits.
    pub fn bits(self) -> Tnum
        ensures { result ≡ self.bits }
    {
        self.bits
    }

    /// Each part refined by the others, once each way; `None` if no word remains.
    #[tactic(auto, unfolding(crate::specs::Number::num_tighten))]
    pub fn tightened(self) -> Option<AbsNum>
        ensures { result ≡ num_again self }
    {
        let signed = self.signed.narrow(self.range)?;
        let range = self.range.narrow(signed)?;
        let (range, bits) = tighten_bits(range, self.bits)?;
        let signed = signed.narrow(range)?;
        let range = range.narrow(signed)?;
        Some(AbsNum::new(range, signed, bits))
    }

    /// `tightened`, or all words if no word remains.
    fn kept(self) -> AbsNum
        ensures { result ≡ or_full (num_again self) }
    {
        self.tightened().unwrap_or(AbsNum::full())
    }

    /// The words in all three, each part refined by the others; all words if no word remains.
    fn tight(range: Interval, signed: SignedInterval, bits: Tnum) -> AbsNum
        ensures { result ≡ or_full (num_tighten range signed bits) }
    {
        AbsNum::new(range, signed, bits).kept()
    }

    /// All words.
    pub fn full() -> AbsNum
        ensures { result ≡ num_full }
    {
        AbsNum {
            range: Interval::full(),
            signed: SignedInterval::full(),
            bits: Tnum::full(),
        }
    }

    /// `number` alone.
    pub fn single(number: u64) -> AbsNum
        ensures { result ≡ num_single number }
    {
        AbsNum {
            range: Interval::new(number, number),
            signed: SignedInterval::single(number),
            bits: Tnum::single(number),
        }
    }

    /// Whether the interval has exactly one word.
    pub fn is_single(self) -> bool
        ensures { result ≡ is_single self }
    {
        self.range.low() == self.range.high()
    }

    /// Whether `number` is one of the words.
    pub fn contains(self, number: u64) -> bool
        ensures { IsTrue result ↔ InNum self number }
    {
        self.range.contains(number) && self.signed.contains(number) && self.bits.contains(number)
    }

    /// Whether each part of `self` is included in that of `other`.
    #[tactic(auto, unfolding(crate::specs::Number::num_included))]
    pub fn is_included(self, other: AbsNum) -> bool
        ensures included { result ≡ num_included self other }
        ensures number { IsNum other }
    {
        self.range.is_included(other.range)
            && self.signed.is_included(other.signed)
            && self.bits.is_included(other.bits)
    }

    /// The low 32 bits.
    #[tactic(auto, unfolding(crate::specs::Number::num_cut))]
    pub fn cut(self) -> AbsNum
        ensures { result ≡ num_cut self }
    {
        if self.range.high() < 1 << 32 {
            self.kept()
        } else {
            let range = Interval::new(0, 0xffff_ffff);
            AbsNum::tight(range, SignedInterval::full(), self.bits.cut(32))
        }
    }
}
