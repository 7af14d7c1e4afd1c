//! How reading and writing slots relate.

ghost use Rattle.std.specs.Prelude.{◌≡◌, ℕ, List, Option, IsSome};
ghost use Rattle.bpf_insn.specs.declared.insn.Insn.{Insn};
ghost use Rattle.bpf_insn.specs.Slot.{slot_of};
ghost use Rattle.bpf_insn.specs.Spelled.{IsInsn, Spelled, fields_of, second_of, second_slot_of};

/// `Insn::from_slots` and `Insn::to_slots` are inverse. What `to_slots` writes is read as the same instruction; what
/// `from_slots` reads is written as the same slots, the second only if the instruction has one. No slots spell two
/// instructions.
pub fn slots_law()
    ensures again { (i : Insn) → IsInsn i →
        Spelled (slot_of (fields_of i)) (second_slot_of (second_of i)) i }
    ensures first { (a : List ℕ) (b : Option (List ℕ)) (i : Insn) → Spelled a b i →
        slot_of (fields_of i) ≡ a }
    ensures second { (a : List ℕ) (b : Option (List ℕ)) (i : Insn) → Spelled a b i →
        IsSome (second_of i) → second_slot_of (second_of i) ≡ b }
    ensures one { (a : List ℕ) (b : Option (List ℕ)) (i j : Insn) →
        Spelled a b i → Spelled a b j → i ≡ j }
{}
