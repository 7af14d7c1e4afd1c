//! Intervals of signed words.

ghost use Rattle.std.specs.Prelude.{ℕ, ◌≡◌, ◌^◌, ◌<◌, ◌≤◌, ◌↔◌, ◌≤ℤ◌, IsTrue};
ghost use Rattle.bpf_words.specs.Word.{word_of};
ghost use Rattle.bpf_interval.specs.Interval.{Bounds, bounds, bounds_full, bounds_meet, after_greater, after_at_most, without_end, bounds_included};
ghost use Rattle.bpf_interval.specs.Signed.{place, InSigned, signed_bounds, narrowed, signed_sum, signed_difference, signed_add, signed_sub, signed_sar, signed_div, signed_rem, signed_of_bits};

use crate::Interval;
use bpf_words::{arithmetic_shift_right_64, signed_order_64, signed_quotient_64};
use std::marker::Model;

/// The place of 0.
const HALF: u64 = 1 << 63;

/// The words between two ends, both included, read as signed. They are kept as places: a word's place is the word with
/// its sign bit flipped, so places are in signed order.
#[derive(Clone, Copy, Debug, PartialEq, Eq)]
pub struct SignedInterval {
    places: Interval,
}

impl Model for SignedInterval {
    ghost Value = { Bounds };

    ghost view = { λ s. s.places };

    ghost inverse = { λ b. record { places = b } };
}

/// Intersects `other` with `range`, which has the other signedness. If `range` has both signs, it returns `other`.
fn narrowed_by(range: Interval, other: Interval) -> Option<Interval>
    ensures { result ≡ narrowed range other }
{
    if range.high() < HALF || range.low() >= HALF {
        other.meet(Interval::new(signed_order_64(range.low()), signed_order_64(range.high())))
    } else {
        Some(other)
    }
}

fn sum(one: u64, other: u64) -> Option<u64>
    ensures { result ≡ signed_sum one other }
{
    let sum = u128::from(one) + u128::from(other);
    if sum >= u128::from(HALF) && sum - u128::from(HALF) < 1 << 64 {
        Some((sum - u128::from(HALF)) as u64)
    } else {
        None
    }
}

fn difference(one: u64, other: u64) -> Option<u64>
    ensures { result ≡ signed_difference one other }
{
    let raised = u128::from(one) + u128::from(HALF);
    if raised >= u128::from(other) && raised - u128::from(other) < 1 << 64 {
        Some((raised - u128::from(other)) as u64)
    } else {
        None
    }
}

impl SignedInterval {
    /// The words from `low` to `high`, read as signed.
    pub fn new(low: i64, high: i64) -> SignedInterval
        requires { low ≤ℤ high }
        ensures { result ≡ signed_bounds low high }
    {
        SignedInterval::between(low.cast_unsigned(), high.cast_unsigned())
    }

    fn between(low: u64, high: u64) -> SignedInterval
        requires { place low ≤ place high }
        ensures { result ≡ bounds (place low) (place high) }
    {
        SignedInterval {
            places: Interval::new(signed_order_64(low), signed_order_64(high)),
        }
    }

    /// The least signed number.
    pub fn low(self) -> i64
        ensures { place (word_of result) ≡ self.low }
    {
        signed_order_64(self.places.low()).cast_signed()
    }

    /// The greatest signed number.
    pub fn high(self) -> i64
        ensures { place (word_of result) ≡ self.high }
    {
        signed_order_64(self.places.high()).cast_signed()
    }

    /// All words.
    pub fn full() -> SignedInterval
        ensures { result ≡ bounds_full }
    {
        SignedInterval {
            places: Interval::full(),
        }
    }

    /// `number` alone.
    pub fn single(number: u64) -> SignedInterval
        ensures { result ≡ bounds (place number) (place number) }
    {
        SignedInterval::between(number, number)
    }

    /// The signed numbers of `bits` bits, 1 to 64: from -2^(bits - 1) to 2^(bits - 1) - 1.
    #[tactic(auto, unfolding(crate::specs::Signed::signed_of_bits))]
    pub fn of_bits(bits: u32) -> SignedInterval
        requires positive { 0 < bits }
        requires within { bits ≤ 64 }
        ensures { result ≡ signed_of_bits bits }
    {
        let half = 1u64 << (bits - 1);
        SignedInterval {
            places: Interval::new(HALF - half, HALF + (half - 1)),
        }
    }

    /// Whether `number` is one of the words.
    pub fn contains(self, number: u64) -> bool
        ensures { IsTrue result ↔ InSigned self number }
    {
        self.places.contains(signed_order_64(number))
    }

    /// The sums (ADD), or all words if an end is out of range.
    #[tactic(auto, unfolding(crate::specs::Signed::signed_add))]
    pub fn add(self, other: SignedInterval) -> SignedInterval
        ensures { result ≡ signed_add self other }
    {
        let Some(low) = sum(self.places.low(), other.places.low()) else {
            return SignedInterval::full();
        };
        let Some(high) = sum(self.places.high(), other.places.high()) else {
            return SignedInterval::full();
        };
        SignedInterval {
            places: Interval::new(low, high),
        }
    }

    /// The differences (SUB), or all words if an end is out of range.
    #[tactic(auto, unfolding(crate::specs::Signed::signed_sub))]
    pub fn sub(self, other: SignedInterval) -> SignedInterval
        ensures { result ≡ signed_sub self other }
    {
        let Some(low) = difference(self.places.low(), other.places.high()) else {
            return SignedInterval::full();
        };
        let Some(high) = difference(self.places.high(), other.places.low()) else {
            return SignedInterval::full();
        };
        SignedInterval {
            places: Interval::new(low, high),
        }
    }

    /// ARSH by `count` mod 64.
    #[tactic(auto, unfolding(crate::specs::Signed::signed_sar))]
    pub fn shift_right(self, count: u64) -> SignedInterval
        ensures { result ≡ signed_sar self count }
    {
        let low = signed_order_64(self.places.low());
        let high = signed_order_64(self.places.high());
        SignedInterval::between(
            arithmetic_shift_right_64(low, count),
            arithmetic_shift_right_64(high, count),
        )
    }

    /// SDIV by `divisor`, 1 to 2^63 - 1.
    #[tactic(auto, unfolding(crate::specs::Signed::signed_div))]
    pub fn div(self, divisor: u64) -> SignedInterval
        requires positive { 1 ≤ divisor }
        requires signed { divisor < 2 ^ 63 }
        ensures { result ≡ signed_div self divisor }
    {
        let low = signed_order_64(self.places.low());
        let high = signed_order_64(self.places.high());
        SignedInterval::between(
            signed_quotient_64(low, divisor),
            signed_quotient_64(high, divisor),
        )
    }

    /// SMOD by `divisor`, 1 to 2^63 - 1.
    #[tactic(auto, unfolding(crate::specs::Signed::signed_rem))]
    pub fn rem(self, divisor: u64) -> SignedInterval
        requires positive { 1 ≤ divisor }
        requires signed { divisor < 2 ^ 63 }
        ensures { result ≡ signed_rem self divisor }
    {
        let most = divisor - 1;
        let low = if self.places.low() >= HALF {
            HALF
        } else {
            HALF - most
        };
        let high = if self.places.high() <= HALF {
            HALF
        } else {
            HALF + most
        };
        SignedInterval {
            places: Interval::new(low, high),
        }
    }

    /// The intersection, or `None` if it is empty.
    pub fn meet(self, other: SignedInterval) -> Option<SignedInterval>
        ensures { result ≡ bounds_meet self other }
    {
        let places = self.places.meet(other.places)?;
        Some(SignedInterval { places })
    }

    /// Refines both by the first, read as signed, being greater than the second; `None` if it can't be.
    pub fn greater(self, other: SignedInterval) -> Option<(SignedInterval, SignedInterval)>
        ensures { result ≡ after_greater self other }
    {
        let (one, two) = self.places.greater(other.places)?;
        Some((
            SignedInterval { places: one },
            SignedInterval { places: two },
        ))
    }

    /// Refines both by the first, read as signed, being at most the second; `None` if it can't be.
    pub fn at_most(self, other: SignedInterval) -> Option<(SignedInterval, SignedInterval)>
        ensures { result ≡ after_at_most self other }
    {
        let (one, two) = self.places.at_most(other.places)?;
        Some((
            SignedInterval { places: one },
            SignedInterval { places: two },
        ))
    }

    /// Refines by the word not being `number`: an end that equals it moves by one. `None` if no word remains.
    pub fn without(self, number: u64) -> Option<SignedInterval>
        ensures { result ≡ without_end self (place number) }
    {
        let places = self.places.without(signed_order_64(number))?;
        Some(SignedInterval { places })
    }

    /// Whether each word of `self` is one of `other`.
    pub fn is_included(self, other: SignedInterval) -> bool
        ensures { result ≡ bounds_included self other }
    {
        self.places.is_included(other.places)
    }

    /// Intersects `self` with `range`, read as signed. `None` if that is empty; `self` if `range` has both signs.
    pub fn narrow(self, range: Interval) -> Option<SignedInterval>
        ensures { result ≡ narrowed range self }
    {
        let places = narrowed_by(range, self.places)?;
        Some(SignedInterval { places })
    }
}

impl Interval {
    /// Intersects `self` with `signed`, read as unsigned. `None` if that is empty; `self` if `signed` has both signs.
    pub fn narrow(self, signed: SignedInterval) -> Option<Interval>
        ensures { result ≡ narrowed signed self }
    {
        narrowed_by(signed.places, self)
    }
}
