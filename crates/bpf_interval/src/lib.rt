//! Intervals of 64-bit words, unsigned and signed.
//!
//! Main calls: the operations of `Interval` and `SignedInterval`, and their refinements `greater`,
//! `at_most`, `without`. It depends on `bpf_tnum` and `bpf_words`. Each operation returns what its
//! definition in `specs/` says. `laws::interval_law` says that it contains every result of the machine's
//! operation, and that a refinement keeps every word that takes its branch. No call allocates.
#![tactic(auto)]

pub mod laws;
pub mod signed;

ghost use Rattle.std.specs.Prelude.{ℕ, ◌≡◌, ◌<◌, ◌≤◌, ◌↔◌, IsTrue};
ghost use Rattle.bpf_interval.specs.Interval.{Bounds, InBounds, bounds, bounds_full, bounds_add, bounds_sub, bounds_and, bounds_or, bounds_mul, bounds_div, bounds_rem, bounds_shl, bounds_shr, bounds_cut, bounds_of_bits, bounds_meet, after_greater, after_at_most, without_end, bounds_included};

pub use signed::SignedInterval;
use std::marker::Model;

/// The words from `low` to `high`, both included.
#[derive(Clone, Copy, Debug, PartialEq, Eq)]
pub struct Interval {
    low: u64,
    high: u64,
}

impl Model for Interval {
    ghost Value = { Bounds };

    ghost view = { λ s. record { low = s.low; high = s.high } };

    ghost invariant = { λ s. s.low ≤ s.high };

    ghost inverse = { λ b. record { low = b.low; high = b.high } };
}

impl Interval {
    /// The words from `low` to `high`.
    pub fn new(low: u64, high: u64) -> Interval
        requires { low ≤ high }
        ensures { result ≡ bounds low high }
    {
        Interval { low, high }
    }

    /// The least word.
    pub fn low(self) -> u64
        ensures value { result ≡ self.low }
        ensures ordered { result ≤ self.high }
    {
        self.low
    }

    /// The greatest word.
    pub fn high(self) -> u64
        ensures value { result ≡ self.high }
        ensures ordered { self.low ≤ result }
    {
        self.high
    }

    /// All words.
    pub fn full() -> Interval
        ensures { result ≡ bounds_full }
    {
        Interval {
            low: 0,
            high: u64::MAX,
        }
    }

    /// Whether `number` is one of the words.
    pub fn contains(self, number: u64) -> bool
        ensures { IsTrue result ↔ InBounds self number }
    {
        self.low <= number && number <= self.high
    }

    /// The sums (ADD), or all words if one may wrap.
    pub fn add(self, other: Interval) -> Interval
        ensures { result ≡ bounds_add self other }
    {
        match self.high.checked_add(other.high) {
            Some(high) => Interval {
                low: self.low + other.low,
                high,
            },
            None => Interval::full(),
        }
    }

    /// The differences (SUB), or all words if one may wrap.
    pub fn sub(self, other: Interval) -> Interval
        ensures { result ≡ bounds_sub self other }
    {
        if other.high <= self.low {
            Interval {
                low: self.low - other.high,
                high: self.high - other.low,
            }
        } else {
            Interval::full()
        }
    }

    /// AND: from 0 to the lesser upper end.
    pub fn and(self, other: Interval) -> Interval
        ensures { result ≡ bounds_and self other }
    {
        Interval::new(0, self.high.min(other.high))
    }

    /// OR: at least the greater lower end.
    pub fn or(self, other: Interval) -> Interval
        ensures { result ≡ bounds_or self other }
    {
        Interval::new(self.low.max(other.low), u64::MAX)
    }

    /// The products (MUL), or all words if one may wrap.
    pub fn mul(self, other: Interval) -> Interval
        ensures { result ≡ bounds_mul self other }
    {
        match self.high.checked_mul(other.high) {
            Some(high) => Interval {
                low: self.low * other.low,
                high,
            },
            None => Interval::full(),
        }
    }

    /// The quotients (DIV); a quotient by 0 is 0.
    pub fn div(self, other: Interval) -> Interval
        ensures { result ≡ bounds_div self other }
    {
        if other.low >= 1 {
            Interval {
                low: self.low / other.high,
                high: self.high / other.low,
            }
        } else {
            Interval {
                low: 0,
                high: self.high,
            }
        }
    }

    /// The remainders (MOD); a remainder by 0 is the dividend.
    pub fn rem(self, other: Interval) -> Interval
        ensures { result ≡ bounds_rem self other }
    {
        let high = if other.low >= 1 {
            self.high.min(other.high - 1)
        } else {
            self.high
        };
        Interval { low: 0, high }
    }

    /// LSH by `count`, below 64; all words if a bit may be lost.
    pub fn shift_left(self, count: u32) -> Interval
        requires { count < 64 }
        ensures { result ≡ bounds_shl self count }
    {
        if self.high <= u64::MAX >> count {
            Interval {
                low: self.low << count,
                high: self.high << count,
            }
        } else {
            Interval::full()
        }
    }

    /// RSH by `count`, below 64.
    pub fn shift_right(self, count: u32) -> Interval
        requires { count < 64 }
        ensures { result ≡ bounds_shr self count }
    {
        Interval {
            low: self.low >> count,
            high: self.high >> count,
        }
    }

    /// The low 32 bits; all 32-bit words if a word is greater.
    pub fn cut(self) -> Interval
        ensures { result ≡ bounds_cut self }
    {
        if self.high < 1 << 32 {
            self
        } else {
            Interval {
                low: 0,
                high: 0xffff_ffff,
            }
        }
    }

    /// The words of `bits` bits, 1 to 64.
    pub fn of_bits(bits: u32) -> Interval
        requires positive { 0 < bits }
        requires within { bits ≤ 64 }
        ensures { result ≡ bounds_of_bits bits }
    {
        Interval {
            low: 0,
            high: u64::MAX >> (64 - bits),
        }
    }

    /// The intersection, or `None` if it is empty.
    pub fn meet(self, other: Interval) -> Option<Interval>
        ensures { result ≡ bounds_meet self other }
    {
        let low = self.low.max(other.low);
        let high = self.high.min(other.high);
        if low <= high {
            Some(Interval { low, high })
        } else {
            None
        }
    }

    /// Refines both by the first being greater than the second; `None` if it can't be.
    pub fn greater(self, other: Interval) -> Option<(Interval, Interval)>
        ensures { result ≡ after_greater self other }
    {
        if other.low < self.high {
            Some((
                Interval {
                    low: self.low.max(other.low + 1),
                    high: self.high,
                },
                Interval {
                    low: other.low,
                    high: other.high.min(self.high - 1),
                },
            ))
        } else {
            None
        }
    }

    /// Refines both by the first being at most the second; `None` if it can't be.
    pub fn at_most(self, other: Interval) -> Option<(Interval, Interval)>
        ensures { result ≡ after_at_most self other }
    {
        if self.low <= other.high {
            Some((
                Interval {
                    low: self.low,
                    high: self.high.min(other.high),
                },
                Interval {
                    low: other.low.max(self.low),
                    high: other.high,
                },
            ))
        } else {
            None
        }
    }

    /// Refines by the word not being `number`: an end that equals it moves by one. `None` if no word remains.
    pub fn without(self, number: u64) -> Option<Interval>
        ensures { result ≡ without_end self number }
    {
        if self.low == number {
            if self.low < self.high {
                Some(Interval {
                    low: self.low + 1,
                    high: self.high,
                })
            } else {
                None
            }
        } else if self.high == number {
            Some(Interval {
                low: self.low,
                high: self.high - 1,
            })
        } else {
            Some(self)
        }
    }

    /// Whether each word of `self` is one of `other`.
    pub fn is_included(self, other: Interval) -> bool
        ensures { result ≡ bounds_included self other }
    {
        other.low <= self.low && self.high <= other.high
    }
}
