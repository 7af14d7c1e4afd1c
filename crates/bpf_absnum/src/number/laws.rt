//! The law of abstract numbers.

ghost use Rattle.bpf_absnum.specs.Laws.{TightenKeeps, IncludedKeeps, FullContains, SingleContains, CutContains, AluContains, NegatedContains, ExtendedContains, OrderedContains, WithinContains, LoadedContains, LoadedSignedContains, BranchKeeps};

/// Abstract numbers are sound. `full` contains all words, `single` its word, and `cut` the members' low halves. The
/// abstract result of each instruction contains its result on members, and that of a load each word that may be loaded.
/// Each branch of a conditional jump keeps the members that take it. So `branch` returns `None` only if none takes it.
/// Tightening loses no member. Each member of an included number is a member of the other.
pub fn number_law()
    ensures full { FullContains }
    ensures single { SingleContains }
    ensures cut { CutContains }
    ensures alu { AluContains }
    ensures negated { NegatedContains }
    ensures extended { ExtendedContains }
    ensures ordered { OrderedContains }
    ensures within { WithinContains }
    ensures loaded { LoadedContains }
    ensures loaded_signed { LoadedSignedContains }
    ensures branch { BranchKeeps }
    ensures tighten { TightenKeeps }
    ensures included { IncludedKeeps }
{}
