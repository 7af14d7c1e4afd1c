//! A state whose successors are being explored, and the examination that computes them.

ghost use Rattle.std.specs.Prelude.{◌≡◌, ◌⊎◌, Ok, Err, Some, IfOk, IfErr, IfSome};
ghost use Rattle.bpf_insn.specs.declared.insn.Insn.{Insn};
ghost use Rattle.bpf_decode.specs.Program.{Begins, Holds, IsTarget};
ghost use Rattle.bpf_rules.specs.declared.fault.Fault.TheVariants.{NoMemory};
ghost use Rattle.bpf_rules.specs.Examined.{examined};

use bpf_absstate::AbsState;
use bpf_checks::{examine, examine_moved};
use bpf_decode::Program;
use bpf_rules::{Fault, Ways};
use std::alloc::Global;

/// A state whose successors are being explored: one at a target slot, or with two successors.
#[derive(Drop)]
pub(crate) struct Frame {
    /// How many states with one successor precede it, since the frame below.
    pub(crate) before: u32,
    /// The state, if it is at a target slot.
    pub(crate) state: Option<AbsState>,
    /// The successor still to be explored.
    pub(crate) pending: Option<AbsState>,
    /// The greatest budget of the finished successors.
    pub(crate) best: u32,
}

impl Frame {
    /// How many call frames its states have; 1 if it has no state.
    fn depth(&self) -> u32 {
        if let Some(state) = &self.state {
            return state.depth() as u32;
        }
        if let Some(state) = &self.pending {
            return state.depth() as u32;
        }
        1
    }

    /// A bound on the memory it adds to that of the frames below, in units that a state of one call frame may add:
    /// four, and one for each preceding state, times its call frames.
    pub(crate) fn weight(&self) -> u32 {
        self.before.saturating_add(4).saturating_mul(self.depth())
    }
}

/// The result of examining a state.
#[derive(Drop)]
pub(crate) struct Outcome {
    pub(crate) ways: Ways,
    /// The state itself, if it is at a target slot.
    pub(crate) kept: Option<AbsState>,
}

/// Examines a state. One that isn't at a target slot is consumed: what no other state shares is changed in place.
pub(crate) fn examine_state(
    alloc: Global,
    program: &Program,
    state: AbsState,
) -> Result<Outcome, Fault>
    requires begins { Begins program.now.slots state.pc }
    ensures ways { IfOk result
        (λ o. (i : Insn) → Holds program.now.slots state.pc i →
        examined program.now.shapes i state ≡ Ok o.ways) }
    ensures there { IfOk result (λ o. IsTarget program.now.slots state.pc → o.kept ≡ Some state) }
    ensures elsewhere { IfOk result
        (λ o. IfSome o.kept (λ a. (a ≡ state) × IsTarget program.now.slots a.pc)) }
    ensures refuses { IfErr result
        (λ e. (i : Insn) → Holds program.now.slots state.pc i →
        (e ≡ NoMemory) ⊎ (examined program.now.shapes i state ≡ Err e)) }
{
    let slot = state.pc();
    if program.is_target(slot) {
        let ways = examine(alloc, program, &state)?;
        return Ok(Outcome {
            ways,
            kept: Some(state),
        });
    }
    let ways = examine_moved(alloc, program, state)?;
    Ok(Outcome { ways, kept: None })
}
