//! Laws: the verifier's rules for arithmetic, wide loads, jumps, conditional jumps, calls and EXIT
//! are sound.
//!
//! Main call: `laws::flow_law`, which has all of them and does nothing. It depends on `bpf_rules`.
//! If the rules give the successors of an abstract state, the machine meets no fault in any state
//! that the abstract one contains, and each next state is in a successor (`InsnCovers`).
#![tactic(auto)]

pub mod laws;
