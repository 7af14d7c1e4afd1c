//! What a comparison of two stacks needs besides their slots.

ghost use Rattle.std.specs.Prelude.{◌≡◌, ◌<◌};
ghost use Rattle.bpf_absval.specs.Inclusion.{slot_included};
ghost use Rattle.bpf_absval.specs.Marked.{seen_at};
ghost use Rattle.bpf_absval.specs.Unlabelled.{slot_bare};

use bpf_absval::{AbsSlot, Marks, Rooms};

/// The rooms of a state and of another one, and which slots of a stack of each have lost their label.
#[derive(Clone, Copy)]
pub struct Comparison<'a> {
    pub rooms: &'a Rooms,
    pub others: &'a Rooms,
    pub bare: Marks,
    pub others_bare: Marks,
}

/// The slot at `index`, without its label if it has a mark.
fn marked(slot: AbsSlot, marks: Marks, index: usize) -> AbsSlot
    requires { index < 64 }
    ensures { result ≡ seen_at slot_bare marks.bits index slot }
{
    if marks.has(index) {
        return slot.bare();
    }
    slot
}

impl Comparison<'_> {
    /// Whether the slot at `index` of the first stack is included in that of the other.
    pub fn include(&self, slot: &AbsSlot, other: &AbsSlot, index: usize) -> bool
        requires { index < 64 }
        ensures { result
            ≡ slot_included self.now.rooms.now self.now.others.now
            (seen_at slot_bare self.now.bare.bits index slot.now)
            (seen_at slot_bare self.now.others_bare.bits index other.now) }
    {
        if self.bare.has(index) || self.others_bare.has(index) {
            let slot = marked(*slot, self.bare, index);
            let other = marked(*other, self.others_bare, index);
            return slot.is_included(&other, self.rooms, self.others);
        }
        slot.is_included(other, self.rooms, self.others)
    }
}
