//! What abstract states contain.

ghost use Rattle.bpf_absstate.specs.Laws.{InclusionKeeps, EntryContains};

/// If an abstract state is included in another, the other contains each of its states. The entry contains the state in
/// which every run begins.
pub fn state_law()
    ensures included { InclusionKeeps }
    ensures entry { EntryContains }
{}
