//! The law of intervals, unsigned and signed.

ghost use Rattle.std.specs.Prelude.{ℕ, ◌*◌, ◌/◌, ◌%◌, ◌^◌, ◌<◌, ◌≤◌, bit_and, bit_or};
ghost use Rattle.bpf_words.specs.Word.{word_add, word_sub, quotient, remainder};
ghost use Rattle.bpf_interval.specs.Interval.{Bounds, InBounds, bounds_add, bounds_sub, bounds_and, bounds_or, bounds_mul, bounds_div, bounds_rem, bounds_shl, bounds_shr, after_greater, after_at_most};
ghost use Rattle.bpf_interval.specs.Signed.{signed_add, signed_sub};
ghost use Rattle.bpf_interval.specs.Laws.{ContainsResults, ContainsSigned, CutContains, WidthContains, MeetKeeps, KeepsPairs, WithoutKeeps, IncludedKeeps, PlacesOrder, PlaceTwice, SignedReads, SignedNarrowKeeps, UnsignedNarrowKeeps, SarContains, DivContains, RemContains, ExtensionContains, ExtensionKeeps};

/// Intervals are sound. Each operation contains every result of the machine's operation on members, and an interval of
/// words of n bits each of these. Each refinement returns `Some` if anything takes its branch, and keeps all that does.
/// Each member of an included interval is a member of the other.
///
/// So are signed intervals. `place` is its own inverse, and orders words as signed numbers. So the words of a signed
/// interval are those that read as numbers between its ends. Narrowing by an interval of the other signedness loses no
/// common member. The signed numbers of n bits are exactly the sign extensions of n bits.
pub fn interval_law()
    ensures add { ContainsResults bounds_add word_add }
    ensures sub { ContainsResults bounds_sub word_sub }
    ensures and { ContainsResults bounds_and bit_and }
    ensures or { ContainsResults bounds_or bit_or }
    ensures mul { ContainsResults bounds_mul (λ x y. (x * y) % 2 ^ 64) }
    ensures div { ContainsResults bounds_div quotient }
    ensures rem { ContainsResults bounds_rem remainder }
    ensures shl { (a : Bounds) (c x : ℕ) → InBounds a x →
        InBounds (bounds_shl a c) ((x * 2 ^ c) % 2 ^ 64) }
    ensures shr { (a : Bounds) (c x : ℕ) → InBounds a x → InBounds (bounds_shr a c) (x / 2 ^ c) }
    ensures cut { CutContains }
    ensures width { WidthContains }
    ensures meet { MeetKeeps }
    ensures greater { KeepsPairs after_greater (λ x y. y < x) }
    ensures at_most { KeepsPairs after_at_most (λ x y. x ≤ y) }
    ensures without { WithoutKeeps }
    ensures included { IncludedKeeps }
    ensures place_orders { PlacesOrder }
    ensures place_twice { PlaceTwice }
    ensures signed_reads { SignedReads }
    ensures signed_add { ContainsSigned signed_add word_add }
    ensures signed_sub { ContainsSigned signed_sub word_sub }
    ensures signed_sar { SarContains }
    ensures signed_div { DivContains }
    ensures signed_rem { RemContains }
    ensures extension { ExtensionContains }
    ensures extension_kept { ExtensionKeeps }
    ensures narrow_signed { SignedNarrowKeeps }
    ensures narrow_unsigned { UnsignedNarrowKeeps }
{}
