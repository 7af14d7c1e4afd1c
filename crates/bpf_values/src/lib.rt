//! Operations on the machine's values: arithmetic, comparisons, stack bytes, and the locations of
//! accesses.
//!
//! Main calls: `arithmetic::arithmetic`, `comparisons::is_taken`, `places::place_of`,
//! `bytes::load_in`. The crate depends on `bpf_model`. Each function returns exactly its definition
//! there (`specs/Alu`, `specs/Memory`), including its faults. They keep no state; the step of
//! `bpf_tagged`, the machine of `bpf_bare` and the ports of `bpf_helpers` use them.
#![tactic(auto)]

pub mod arithmetic;
pub mod bytes;
pub mod causes;
pub mod comparisons;
pub mod map_words;
pub mod places;
