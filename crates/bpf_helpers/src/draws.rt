//! The sequence of the words that programs draw.

ghost use Rattle.std.specs.Prelude.{◌≡◌};
ghost use Rattle.bpf_helpers.specs.Draws.{next_draw};

/// The word drawn after this one.
pub(crate) fn drawn_after(word: u64) -> u64
    ensures is { result ≡ next_draw word }
{
    word.wrapping_mul(6364136223846793005)
        .wrapping_add(1442695040888963407)
}
