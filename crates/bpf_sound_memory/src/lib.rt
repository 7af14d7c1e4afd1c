//! Laws: the verifier's rules for loads, stores and atomics are sound.
//!
//! Main call: `memory_law`, which has all of them and does nothing. It depends on `bpf_rules`. If a
//! rule admits an access, the machine's access meets no fault, and each state that may come next,
//! whatever a map returns, is in the abstract state after it. The law states this for values, and
//! for instructions.
#![tactic(auto)]

ghost use Rattle.bpf_sound_memory.specs.Laws.{LoadHolds, LoadCovers, StoreHolds, StoreCovers, AtomicHolds, AtomicCovers};

/// A load that the rules admit meets no fault, and the value that it loads is in the abstract value that they give. A
/// store or an atomic that they admit meets no fault, and the state after it, with an atomic's old number in its
/// register, if any, is in the abstract state that they give. The successors that the rules give each such instruction
/// cover what it does next.
pub fn memory_law()
    ensures load { LoadHolds }
    ensures store { StoreHolds }
    ensures atomic { AtomicHolds }
    ensures load_covered { LoadCovers }
    ensures store_covered { StoreCovers }
    ensures atomic_covered { AtomicCovers }
{}
