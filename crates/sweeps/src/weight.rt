//! An estimate of how long a program's verification may take, from its code alone.

use std::alloc::{AllocError, Global};

/// The distances to the slots to which control goes, if any. They count from the next slot, and are 2^31 or more if they
/// lead back.
type Next = [Option<u32>; 2];

/// An offset as a distance.
fn distance(low: u8, high: u8) -> u32 {
    let offset = u32::from(u16::from_le_bytes([low, high]));
    if offset < 0x8000 {
        offset
    } else {
        offset | 0xffff_0000
    }
}

/// Where control goes from a slot.
fn next_of(slot: [u8; 8]) -> Next {
    let [code, registers, low, high, a, b, c, d] = slot;
    let far = u32::from_le_bytes([a, b, c, d]);
    match code {
        0x95 => [None, None],
        0x05 => [Some(distance(low, high)), None],
        0x06 => [Some(far), None],
        0x85 if registers & 0xf0 == 0x10 => [Some(0), Some(far)],
        0x85 => [Some(0), None],
        0x18 => [Some(1), None],
        _ if code & 7 == 5 || code & 7 == 6 => [Some(0), Some(distance(low, high))],
        _ => [Some(0), None],
    }
}

/// An estimate from the code.
#[derive(Clone, Copy)]
pub struct Weight {
    /// How many forward paths lead to its slots, summed over the slots.
    pub states: u64,
    /// Whether a jump, branch or local call leads back.
    pub turns: bool,
}

/// Extends as many paths by a distance, if there is one. True if they lead back.
fn lead(ways: &mut [u64], next: usize, distance: Option<u32>, more: u64) -> bool {
    let Some(distance) = distance else {
        return false;
    };
    if 0x8000_0000 <= distance {
        return true;
    }
    let to = next.saturating_add(distance as usize);
    if to < ways.len() {
        ways[to] = ways[to].saturating_add(more);
    }
    false
}

/// The weight of code.
pub fn weigh(alloc: Global, code: &[u8]) -> Result<Weight, AllocError> {
    let (slots, _rest) = code.as_chunks::<8>();
    let mut weight = Weight {
        states: 0,
        turns: false,
    };
    // How many forward paths lead to each slot: one to the first.
    let mut ways = vec![in alloc; 0u64; slots.len()]?;
    if let Some(first) = ways.first_mut() {
        *first = 1;
    }
    for (at, slot) in slots.iter().enumerate() {
        let more = ways.get(at).copied().unwrap_or(0);
        weight.states = weight.states.saturating_add(more);
        let next = at.saturating_add(1);
        let [near, far] = next_of(*slot);
        weight.turns |= lead(&mut ways, next, near, more);
        weight.turns |= lead(&mut ways, next, far, more);
    }
    Ok(weight)
}
