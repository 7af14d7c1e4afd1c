//! What the branches of a conditional jump tell of the numbers that it compares (RFC 9669, section 4.3).

ghost use Rattle.std.specs.Prelude.{ℕ, ◌≡◌};
ghost use Rattle.bpf_absnum.specs.Number.{Num};
ghost use Rattle.bpf_absnum.specs.Branch.{NumPair, compares, pair_of, turned, with_range, with_signed, num_greater, num_at_most, num_signed_greater, num_signed_at_most, num_equal, num_without, num_met, num_some_set, num_none_set, by_single, num_holds, num_fails, is_signed, tells, goes, num_branch};

use crate::number::AbsNum;
use bpf_insn::Compare;
use bpf_interval::{Interval, SignedInterval};
use bpf_tnum::Tnum;
use bpf_values::comparisons::{compares_32, compares_64};
use bpf_words::low_half;

/// What remains of both numbers on a branch, or `None` if no pair of words takes it.
pub type Pair = Option<(AbsNum, AbsNum)>;

fn turned_pair(pair: Pair) -> Pair
    ensures { result ≡ turned pair }
{
    let (one, two) = pair?;
    Some((two, one))
}

/// Whether a comparison of JMP (`wide`) or JMP32 holds.
fn compares(wide: bool, compare: Compare, x: u64, y: u64) -> bool
    ensures { result ≡ compares wide compare x y }
{
    if wide {
        compares_64(compare, x, y)
    } else {
        compares_32(compare, low_half(x), low_half(y))
    }
}

fn reads_signed(compare: Compare) -> bool
    ensures { result ≡ is_signed compare }
{
    matches!(
        compare,
        Compare::Sgt | Compare::Sge | Compare::Slt | Compare::Sle
    )
}

impl AbsNum {
    fn with_range(self, range: Interval) -> AbsNum
        ensures { result ≡ with_range self range }
    {
        AbsNum { range, ..self }
    }

    fn with_signed(self, signed: SignedInterval) -> AbsNum
        ensures { result ≡ with_signed self signed }
    {
        AbsNum { signed, ..self }
    }

    /// Both, each tightened.
    #[tactic(auto, unfolding(crate::specs::Branch::pair_of))]
    fn paired(self, other: AbsNum) -> Pair
        ensures { result ≡ pair_of self other }
    {
        let one = self.tightened()?;
        let two = other.tightened()?;
        Some((one, two))
    }

    #[tactic(auto, unfolding(crate::specs::Branch::num_greater))]
    fn greater(self, other: AbsNum) -> Pair
        ensures { result ≡ num_greater self other }
    {
        let (one, two) = self.range.greater(other.range)?;
        self.with_range(one).paired(other.with_range(two))
    }

    #[tactic(auto, unfolding(crate::specs::Branch::num_at_most))]
    fn at_most(self, other: AbsNum) -> Pair
        ensures { result ≡ num_at_most self other }
    {
        let (one, two) = self.range.at_most(other.range)?;
        self.with_range(one).paired(other.with_range(two))
    }

    #[tactic(auto, unfolding(crate::specs::Branch::num_signed_greater))]
    fn signed_greater(self, other: AbsNum, wide: bool) -> Pair
        ensures { result ≡ num_signed_greater wide self other }
    {
        if !wide {
            return self.greater(other);
        }
        let (one, two) = self.signed.greater(other.signed)?;
        self.with_signed(one).paired(other.with_signed(two))
    }

    #[tactic(auto, unfolding(crate::specs::Branch::num_signed_at_most))]
    fn signed_at_most(self, other: AbsNum, wide: bool) -> Pair
        ensures { result ≡ num_signed_at_most wide self other }
    {
        if !wide {
            return self.at_most(other);
        }
        let (one, two) = self.signed.at_most(other.signed)?;
        self.with_signed(one).paired(other.with_signed(two))
    }

    #[tactic(auto, unfolding(crate::specs::Branch::num_equal))]
    fn equal(self, other: AbsNum, wide: bool) -> Pair
        ensures { result ≡ num_equal wide self other }
    {
        let range = self.range.meet(other.range)?;
        let bits = self.bits.meet(other.bits)?;
        if wide {
            let signed = self.signed.meet(other.signed)?;
            let both = AbsNum::new(range, signed, bits);
            return both.paired(both);
        }
        let one = AbsNum::new(range, self.signed, bits);
        one.paired(AbsNum::new(range, other.signed, bits))
    }

    /// What remains if `self != constant`.
    #[tactic(auto, unfolding(crate::specs::Branch::num_without))]
    fn without(self, constant: u64, wide: bool) -> Option<AbsNum>
        ensures { result ≡ num_without wide self constant }
    {
        let range = self.range.without(constant)?;
        if !wide {
            return Some(self.with_range(range));
        }
        let signed = self.signed.without(constant)?;
        Some(AbsNum::new(range, signed, self.bits))
    }

    /// The words that are also in `bits`.
    #[tactic(auto, unfolding(crate::specs::Branch::num_met))]
    fn met(self, bits: Tnum) -> Option<AbsNum>
        ensures { result ≡ num_met self bits }
    {
        let bits = self.bits.meet(bits)?;
        Some(AbsNum::new(self.range, self.signed, bits))
    }

    /// What remains if `self & constant != 0`.
    #[tactic(auto, unfolding(crate::specs::Branch::num_some_set))]
    fn some_set(self, constant: u64) -> Option<AbsNum>
        ensures { result ≡ num_some_set self constant }
    {
        if (self.bits.value() | self.bits.mask()) & constant == 0 {
            None
        } else if constant.is_power_of_two() {
            self.met(Tnum::masked(constant, !constant))
        } else {
            Some(self)
        }
    }

    /// What remains if `self & constant == 0`.
    #[tactic(auto, unfolding(crate::specs::Branch::num_none_set))]
    fn none_set(self, constant: u64) -> Option<AbsNum>
        ensures { result ≡ num_none_set self constant }
    {
        self.met(Tnum::masked(0, !constant))
    }

    /// What remains if `self != other`, refined if one side is single.
    #[tactic(auto, unfolding(crate::specs::Branch::by_single))]
    fn unequal(self, other: AbsNum, wide: bool) -> Pair
        ensures { result ≡ by_single (num_without wide) self other }
    {
        if other.is_single() {
            let one = self.without(other.range.low(), wide)?;
            return one.paired(other);
        }
        if self.is_single() {
            let two = other.without(self.range.low(), wide)?;
            return self.paired(two);
        }
        Some((self, other))
    }

    /// What remains if `self & other != 0`, refined if one side is single.
    #[tactic(auto, unfolding(crate::specs::Branch::by_single))]
    fn sharing(self, other: AbsNum) -> Pair
        ensures { result ≡ by_single num_some_set self other }
    {
        if other.is_single() {
            let one = self.some_set(other.range.low())?;
            return one.paired(other);
        }
        if self.is_single() {
            let two = other.some_set(self.range.low())?;
            return self.paired(two);
        }
        Some((self, other))
    }

    /// What remains if `self & other == 0`, refined if one side is single.
    #[tactic(auto, unfolding(crate::specs::Branch::by_single))]
    fn sharing_none(self, other: AbsNum) -> Pair
        ensures { result ≡ by_single num_none_set self other }
    {
        if other.is_single() {
            let one = self.none_set(other.range.low())?;
            return one.paired(other);
        }
        if self.is_single() {
            let two = other.none_set(self.range.low())?;
            return self.paired(two);
        }
        Some((self, other))
    }

    #[tactic(auto, unfolding(crate::specs::Branch::num_holds))]
    fn holding(self, compare: Compare, wide: bool, other: AbsNum) -> Pair
        ensures { result ≡ num_holds wide compare self other }
    {
        match compare {
            Compare::Eq => self.equal(other, wide),
            Compare::Ne => self.unequal(other, wide),
            Compare::Gt => self.greater(other),
            Compare::Ge => turned_pair(other.at_most(self)),
            Compare::Lt => turned_pair(other.greater(self)),
            Compare::Le => self.at_most(other),
            Compare::Set => self.sharing(other),
            Compare::Sgt => self.signed_greater(other, wide),
            Compare::Sge => turned_pair(other.signed_at_most(self, wide)),
            Compare::Slt => turned_pair(other.signed_greater(self, wide)),
            Compare::Sle => self.signed_at_most(other, wide),
        }
    }

    #[tactic(auto, unfolding(crate::specs::Branch::num_fails))]
    fn failing(self, compare: Compare, wide: bool, other: AbsNum) -> Pair
        ensures { result ≡ num_fails wide compare self other }
    {
        match compare {
            Compare::Eq => self.holding(Compare::Ne, wide, other),
            Compare::Ne => self.holding(Compare::Eq, wide, other),
            Compare::Gt => self.holding(Compare::Le, wide, other),
            Compare::Ge => self.holding(Compare::Lt, wide, other),
            Compare::Lt => self.holding(Compare::Ge, wide, other),
            Compare::Le => self.holding(Compare::Gt, wide, other),
            Compare::Set => self.sharing_none(other),
            Compare::Sgt => self.holding(Compare::Sle, wide, other),
            Compare::Sge => self.holding(Compare::Slt, wide, other),
            Compare::Slt => self.holding(Compare::Sge, wide, other),
            Compare::Sle => self.holding(Compare::Sgt, wide, other),
        }
    }

    /// Whether a comparison refines both: in JMP32 only if all words are below 2^32, and below 2^31 if it is signed.
    fn tells(self, compare: Compare, wide: bool, other: AbsNum) -> bool
        ensures { result ≡ tells wide compare self other }
    {
        let limit = if reads_signed(compare) {
            1 << 31
        } else {
            1 << 32
        };
        wide || self.range.high() < limit && other.range.high() < limit
    }

    /// What remains of both on one branch of a conditional jump in JMP, or in JMP32 unless `wide`: the branch on which
    /// the comparison holds if `taken`, else the other one. If both are single, the comparison is decided. For an
    /// immediate, `other` is that number alone; in JMP32 its low 32 bits.
    #[tactic(auto, unfolding(crate::specs::Branch::num_branch))]
    pub fn branch(self, compare: Compare, wide: bool, taken: bool, other: AbsNum) -> Pair
        ensures { result ≡ num_branch wide compare taken self other }
    {
        if self.is_single() && other.is_single() {
            let holds = compares(wide, compare, self.range.low(), other.range.low());
            return if holds == taken {
                Some((self, other))
            } else {
                None
            };
        }
        if !self.tells(compare, wide, other) {
            return Some((self, other));
        }
        if taken {
            self.holding(compare, wide, other)
        } else {
            self.failing(compare, wide, other)
        }
    }
}
