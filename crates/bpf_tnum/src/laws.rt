//! The law of tnums. Its function does nothing.

ghost use Rattle.std.specs.Prelude.{ℕ, ◌*◌, ◌/◌, ◌%◌, ◌^◌, ◌<◌, ◌≤◌, bit_and, bit_or, bit_xor};
ghost use Rattle.bpf_words.specs.Word.{word_add, word_sub};
ghost use Rattle.bpf_tnum.specs.Tnum.{tnum_add, tnum_sub, tnum_and, tnum_or, tnum_xor, tnum_mul, tnum_shl, tnum_shr, tnum_cut};
ghost use Rattle.bpf_tnum.specs.Laws.{ContainsResults, ContainsImages, FullContains, SingleContains, MeetKeeps, IncludedKeeps};

/// Tnums are sound. `full` contains every word, `single` its word, and each operation every result of the machine's
/// operation on members: shifts by any count, and `cut` to at most 64 bits. If a word is in both operands of `meet`, it
/// returns `Some`, which contains the word. Each member of an included tnum is a member of the other.
pub fn tnum_law()
    ensures full { FullContains }
    ensures single { SingleContains }
    ensures add { ContainsResults tnum_add word_add }
    ensures sub { ContainsResults tnum_sub word_sub }
    ensures and { ContainsResults tnum_and bit_and }
    ensures or { ContainsResults tnum_or bit_or }
    ensures xor { ContainsResults tnum_xor bit_xor }
    ensures mul { ContainsResults tnum_mul (λ x y. (x * y) % 2 ^ 64) }
    ensures shl { (c : ℕ) → ContainsImages (λ a. tnum_shl a c) (λ x. (x * 2 ^ c) % 2 ^ 64) }
    ensures shr { (c : ℕ) → ContainsImages (λ a. tnum_shr a c) (λ x. x / 2 ^ c) }
    ensures cut { (w : ℕ) → w ≤ 64 → ContainsImages (tnum_cut w) (λ x. x % 2 ^ w) }
    ensures meet { MeetKeeps }
    ensures included { IncludedKeeps }
{}
