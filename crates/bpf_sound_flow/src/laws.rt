//! The successors that an instruction's examination gives cover whatever comes next.

ghost use Rattle.bpf_sound_flow.specs.Laws.{FlowCovers};

/// Arithmetic (RFC 9669 sections 4.1 and 4.2), wide loads (section 5.4), jumps, conditional jumps, calls of helpers,
/// local calls and EXIT (section 4.3): every instruction except loads, stores and atomics.
pub fn flow_law()
    ensures { FlowCovers }
{}
