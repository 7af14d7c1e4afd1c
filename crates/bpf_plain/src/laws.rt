//! What the rules say of plain programs, whatever the values are. The law's function does nothing.

ghost use Rattle.bpf_plain.specs.Laws.{WaysStand, EntryStands, WaysFollow, PlainReaches, PathsWalk, PlainIsClear};

/// Plain programs are clear, with at most 2^22 states. The entry is at an instruction, and so is each successor of a
/// state at an instruction. In a plain program each successor is one step of a walk, and from each instruction a path
/// leads to an EXIT. A path from slot 0 is a walk.
pub fn plain_law()
    ensures clear { PlainIsClear }
    ensures entry { EntryStands }
    ensures ways { WaysStand }
    ensures follows { WaysFollow }
    ensures reaches { PlainReaches }
    ensures walks { PathsWalk }
{}
