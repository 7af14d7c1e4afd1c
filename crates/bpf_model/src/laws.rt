//! Safety state by state implies the safety of whole runs.

ghost use Rattle.std.specs.Prelude.{ℕ, List, Option};
ghost use Rattle.bpf_insn.specs.declared.insn.Insn.{Insn};
ghost use Rattle.bpf_regions.specs.declared.maps.Shape.{Shape};
ghost use Rattle.bpf_model.specs.Run.{Safe, IsSafeWithin};

/// Code whose entry states are all safe within a budget, state by state, is `Safe` within that budget.
pub fn within_law()
    ensures { (code : List (Option Insn)) (shapes : List Shape) (b : ℕ) →
        IsSafeWithin code shapes b → Safe code shapes b }
{}
