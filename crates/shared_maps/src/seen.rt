//! What the proofs know of a seat. None of it exists at run time.

use bpf_regions::MapOp;
use std::collections::LinkedList;

/// One access, with the number of its seat. Never constructed.
pub struct Entry {
    pub seat: u32,
    pub word: u32,
    pub operation: MapOp,
    pub answer: u64,
}

/// What a seat knows. Never constructed.
/// `number` is 0 in a note, and in the view that numbers the seats; only the latter has a `following` other than 0.
pub struct View {
    pub number: u32,
    pub following: u32,
    pub seen: LinkedList<Entry>,
    pub own: LinkedList<Entry>,
    pub told: LinkedList<Entry>,
}
