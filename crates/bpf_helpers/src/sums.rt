//! The sum of one word over several tables.

ghost use Rattle.std.specs.Prelude.{◌≡◌, ◌%◌, ◌^◌, ℕ, List, sum};
ghost use Rattle.shared_maps.specs.History.{modulus};
ghost use Rattle.bpf_helpers.specs.Sums.{HaveWord, Loads};

use bpf_regions::{MapOp, WordWidth};
use shared_maps::{MapSeat, MapTable};

/// Loads the word once from each table, in order, and returns the sum, mod 2^(8 * width).
pub(crate) fn sum_of_word(
    tables: &[MapTable],
    seats: &mut [MapSeat],
    word: u32,
    width: WordWidth,
) -> u64
    requires seated { HaveWord word tables.now seats.old }
    ensures is { (answers : List ℕ) × Loads word tables.now seats.old answers seats.new
        × (result ≡ sum answers % modulus width) }
{
    let total = wide_sum(tables, seats, word);
    match width {
        WordWidth::Four => total & 0xffff_ffff,
        WordWidth::Eight => total,
    }
}

/// The sum mod 2^64.
fn wide_sum(tables: &[MapTable], seats: &mut [MapSeat], word: u32) -> u64
    requires seated { HaveWord word tables.now seats.old }
    ensures is { (answers : List ℕ) × Loads word tables.now seats.old answers seats.new
        × (result ≡ sum answers % 2 ^ 64) }
{
    let Some((table, more_tables)) = tables.split_first() else {
        return 0;
    };
    let Some((seat, more_seats)) = seats.split_first_mut() else {
        unreachable!()
    };
    let answer = table.access(seat, word, MapOp::Load);
    answer.wrapping_add(wide_sum(more_tables, more_seats, word))
}
