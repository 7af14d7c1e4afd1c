//! What words in their usual order ask for. The law's function does nothing.

ghost use Rattle.std.specs.Prelude.{◌≡◌, ◌∷◌, [], Some, None, List, ℕ, codes, false};
ghost use Rattle.bpf_regions.specs.Hooks.{name_of};
ghost use Rattle.bpf_regions.specs.declared.hooks.Hook.{Hook};
ghost use Rattle.apd_words.specs.Asked.{Verify, Assemble, Disassemble, Trace, Answer, states_named};
ghost use Rattle.apd_words.specs.CommandLine.{most_states};
ghost use Rattle.apd_words.specs.Spells.{IsOperand, Spells};

/// The law of the commands' words in their usual order: they ask for what they say, if no FILE, FRAME, C or N begins
/// with a hyphen, and N is 1 to 4194304.
///
/// - `apd verify HOOK FILE`, with `--config C` or `--states N`
/// - `apd asm FILE`
/// - `apd disasm FILE [--config C]`
/// - `apd trace HOOK FILE FRAME`, with `--config C` or `--states N`
pub fn usage_law()
    ensures verify { (program file : List ℕ) (hook : Hook) → IsOperand file
        → Spells (program ∷ codes "verify" ∷ name_of hook ∷ file ∷ [])
        (Answer (Verify hook file None most_states None) None) }
    ensures verify_configured { (program file config : List ℕ) (hook : Hook) →
        IsOperand file → IsOperand config
        → Spells (program ∷ codes "verify" ∷ name_of hook ∷ file ∷ codes "--config" ∷ config ∷ [])
        (Answer (Verify hook file (Some config) most_states None) None) }
    ensures verify_limited { (program file number : List ℕ) (hook : Hook) (states : ℕ) →
        IsOperand file → IsOperand number → states_named number ≡ Some states
        → Spells (program ∷ codes "verify" ∷ name_of hook ∷ file ∷ codes "--states" ∷ number ∷ [])
        (Answer (Verify hook file None states None) None) }
    ensures assemble { (program file : List ℕ) → IsOperand file
        → Spells (program ∷ codes "asm" ∷ file ∷ []) (Answer (Assemble file) None) }
    ensures disassemble { (program file : List ℕ) → IsOperand file
        → Spells (program ∷ codes "disasm" ∷ file ∷ []) (Answer (Disassemble file None false) None) }
    ensures disassemble_configured { (program file config : List ℕ) → IsOperand file → IsOperand config
        → Spells (program ∷ codes "disasm" ∷ file ∷ codes "--config" ∷ config ∷ [])
        (Answer (Disassemble file (Some config) false) None) }
    ensures trace { (program file frame : List ℕ) (hook : Hook) → IsOperand file → IsOperand frame
        → Spells (program ∷ codes "trace" ∷ name_of hook ∷ file ∷ frame ∷ [])
        (Answer (Trace hook file frame None most_states None None false) None) }
    ensures trace_configured { (program file frame config : List ℕ) (hook : Hook) →
        IsOperand file → IsOperand frame → IsOperand config
        → Spells (program ∷ codes "trace" ∷ name_of hook ∷ file ∷ frame ∷ codes "--config"
        ∷ config ∷ []) (Answer (Trace hook file frame (Some config) most_states None None false) None) }
    ensures trace_limited { (program file frame number : List ℕ) (hook : Hook) (states : ℕ) →
        IsOperand file → IsOperand frame → IsOperand number → states_named number ≡ Some states
        → Spells (program ∷ codes "trace" ∷ name_of hook ∷ file ∷ frame ∷ codes "--states"
        ∷ number ∷ []) (Answer (Trace hook file frame None states None None false) None) }
{}
