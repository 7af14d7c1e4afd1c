//! What a register may hold.

ghost use Rattle.std.specs.Prelude.{◌≡◌};
ghost use Rattle.bpf_absval.specs.Unlabelled.{drop_label, is_label, unlabelled, has_label, bare};

use bpf_absnum::AbsNum;

/// A region of memory other than the received frame.
#[derive(Clone, Copy, Debug, PartialEq, Eq)]
pub enum AbsRegion {
    /// The hook's context of 32 bytes.
    Context,
    /// The 512 bytes of the stack frame with that number; the main function's is number 0.
    Stack(u8),
    /// Some entry of the map with that number.
    Entry(u32),
}

/// What is known of a frame pointer with a variable part: it points `distance` bytes past the position that the label
/// names.
#[derive(Clone, Copy, Debug, PartialEq, Eq)]
pub struct Label {
    /// The slot of the addition that made the position, plus 1.
    pub label: u16,
    /// 0 to 2400 bytes.
    pub distance: u16,
}

/// What a register may hold.
#[derive(Clone, Copy, Debug, PartialEq, Eq)]
pub enum AbsVal {
    /// Anything, even unset.
    Unset,
    /// One of these numbers.
    Number(AbsNum),
    /// A pointer into the received frame.
    Frame {
        offset: AbsNum,
        label: Option<Label>,
    },
    /// A pointer into another region.
    Pointer {
        region: AbsRegion,
        offset: AbsNum,
    },
    /// The end of the received frame.
    FrameEnd,
    /// The map with that number.
    MapReference(u32),
    /// The untested result of helper 1 for that map: 0, or a pointer to the start of an entry.
    Lookup(u32),
}

fn bears(known: Option<Label>, label: u16) -> bool
    ensures { result ≡ is_label label known }
{
    match known {
        None => false,
        Some(known) => known.label == label,
    }
}

fn dropped(known: Option<Label>, label: u16) -> Option<Label>
    ensures { result ≡ drop_label label known }
{
    match known {
        None => None,
        Some(known) => {
            if known.label == label {
                None
            } else {
                Some(known)
            }
        }
    }
}

impl AbsVal {
    /// Whether it is a frame pointer with that label.
    pub fn has_label(&self, label: u16) -> bool
        ensures { result ≡ has_label label self.now }
    {
        match self {
            AbsVal::Frame { label: known, .. } => bears(*known, label),
            _ => false,
        }
    }

    /// The value without the label; unchanged if it has another one or none.
    pub fn without_label(self, label: u16) -> AbsVal
        ensures { result ≡ unlabelled label self }
    {
        match self {
            AbsVal::Frame {
                offset,
                label: known,
            } => AbsVal::Frame {
                offset,
                label: dropped(known, label),
            },
            other => other,
        }
    }

    /// The value without a label, whichever it has.
    pub fn bare(self) -> AbsVal
        ensures { result ≡ bare self }
    {
        match self {
            AbsVal::Frame { offset, .. } => AbsVal::Frame {
                offset,
                label: None,
            },
            other => other,
        }
    }
}
