//! What is left of states that are kept one after another. The function does nothing; its contract is a law.

ghost use Rattle.bpf_prune.specs.Keeping.{KeepsNewest, LeavesOut};

/// Keeping states one by one leaves the newest 64 of each slot. So a state that at least 64 later ones of its slot push
/// out may as well be left out.
pub fn keeping_law()
    ensures newest { KeepsNewest }
    ensures left_out { LeavesOut }
{}
