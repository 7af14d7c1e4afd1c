//! What inclusion keeps. The law's function does nothing.

ghost use Rattle.bpf_absval.specs.Laws.{ValueKeeps, SlotKeeps};

/// If a value or a slot is included in another, the other contains whatever it contains.
pub fn inclusion_law()
    ensures value { ValueKeeps }
    ensures slot { SlotKeeps }
{}
