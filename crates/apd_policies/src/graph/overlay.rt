//! What a graph tells of its blocks, besides their instructions.

ghost use Rattle.std.specs.Prelude.{◌≡◌, ◌++◌, IfOk, slice_index};
ghost use Rattle.std.specs.String.{string_bytes};
ghost use Rattle.apd_policies.specs.Overlays.{level_of, fill, left, found, overlay_of, fill_of, note_of};

use std::alloc::AllocError;
use std::fmt::Write;

/// What a graph tells of each block, besides its instructions: the numbers of the slot at which the block begins.
#[derive(Clone, Copy)]
pub enum Overlay<'a> {
    /// Nothing.
    Plain,
    /// How many steps were made at each slot, and the most at any. A block is the darker the more were made at its
    /// first slot; one with none is white.
    Steps {
        counts: &'a [u64],
        most: u64,
    },
    /// How many states the verifier examined at each slot, and the budget left there, 0 if it found none. A block
    /// without a state is grey.
    States {
        visits: &'a [u32],
        budgets: &'a [u32],
    },
}

/// A level of darkness, 1 to 5; or 0 for a block at which no step was made.
fn level(count: u64, most: u64) -> u64
    ensures is { result ≡ level_of count most }
{
    if count == 0 {
        return 0;
    }
    1 + (count.saturating_mul(4) / most.max(1)).min(4)
}

/// The number at a slot; 0 past the end.
fn steps_at(counts: &[u64], slot: usize) -> u64
    ensures is { result ≡ slice_index counts.now slot }
{
    match counts.get(slot) {
        Some(count) => *count,
        None => 0,
    }
}

/// The number at a slot; 0 past the end.
fn states_at(visits: &[u32], slot: usize) -> u32
    ensures is { result ≡ slice_index visits.now slot }
{
    match visits.get(slot) {
        Some(count) => *count,
        None => 0,
    }
}

/// Appends the colour of a level.
fn append_level(text: &mut String, level: u64) -> Result<(), AllocError>
    ensures ok { IfOk result
        (λ _. string_bytes text.new ≡ string_bytes text.old ++ fill level) }
{
    if level == 0 {
        text.push_str("style=filled, fillcolor=\"white\", ")?;
        return Ok(());
    }
    write!(text, "style=filled, fillcolor=\"/oranges9/{level}\", ")?;
    Ok(())
}

/// Appends the colour of the block that begins at a slot.
pub(crate) fn append_fill(
    text: &mut String,
    overlay: Overlay<'_>,
    slot: usize,
) -> Result<(), AllocError>
    ensures ok { IfOk result (λ _. string_bytes text.new
        ≡ string_bytes text.old ++ fill_of (overlay_of overlay.entry) slot) }
{
    match overlay {
        Overlay::Plain => Ok(()),
        Overlay::Steps { counts, most } => append_level(text, level(steps_at(counts, slot), most)),
        Overlay::States { visits, .. } => {
            if states_at(visits, slot) == 0 {
                text.push_str("style=filled, fillcolor=\"lightgrey\", ")?;
            }
            Ok(())
        }
    }
}

/// Appends the line of a budget, unless it is 0.
fn append_left(text: &mut String, budget: u32) -> Result<(), AllocError>
    ensures ok { IfOk result
        (λ _. string_bytes text.new ≡ string_bytes text.old ++ left budget) }
{
    if budget == 0 {
        return Ok(());
    }
    write!(text, "budget left {budget}\\l")?;
    Ok(())
}

/// Appends the lines of what the verifier found at a slot.
fn append_found(text: &mut String, states: u32, budget: u32) -> Result<(), AllocError>
    ensures ok { IfOk result
        (λ _. string_bytes text.new ≡ string_bytes text.old ++ found states budget) }
{
    write!(text, "states: {states}\\l")?;
    append_left(text, budget)
}

/// Appends the first lines of the block that begins at a slot.
pub(crate) fn append_note(
    text: &mut String,
    overlay: Overlay<'_>,
    slot: usize,
) -> Result<(), AllocError>
    ensures ok { IfOk result (λ _. string_bytes text.new
        ≡ string_bytes text.old ++ note_of (overlay_of overlay.entry) slot) }
{
    match overlay {
        Overlay::Plain => Ok(()),
        Overlay::Steps { counts, .. } => {
            let count = steps_at(counts, slot);
            write!(text, "runs: {count}\\l")?;
            Ok(())
        }
        Overlay::States { visits, budgets } => {
            append_found(text, states_at(visits, slot), states_at(budgets, slot))
        }
    }
}
