//! Fixes for refusals, if the verifier's state tells more than the page on the number.

use std::fmt;

/// What an author can do about a refusal.
#[derive(Clone, Copy)]
pub(crate) enum Cure {
    /// It doesn't depend on the state.
    Advice(&'static str),
    /// Nothing shows that the frame has this many bytes.
    TestFrame { bytes: u64 },
    /// Nothing shows that this many bytes follow the pointer that the slot makes.
    TestPointer { slot: u16, bytes: u64 },
    /// An access through a variable index must begin at this byte at most.
    BoundIndex { last: u32 },
    /// An entry of the map has only this many bytes.
    ShortEntry { map: u32, bytes: u32 },
    /// A word of the map has this many bytes.
    WordWidth { map: u32, bytes: u32 },
    /// The map with this number is the configuration's last.
    DeclareMap { last: usize },
    /// The map's first entry has only this many bytes.
    FirstEntry { map: u32, bytes: u32 },
}

pub(crate) static LONGEST_FRAME: Cure = Cure::Advice(
    "No frame has more than 2400 bytes: read less far.",
);

pub(crate) static NOT_BEFORE: Cure = Cure::Advice(
    "Nothing lies before the first byte: add a number that is not negative.",
);

pub(crate) static BOUND_NUMBER: Cure = Cure::Advice(
    "Bound the number that is added (`at &= 1023`), make the pointer anew from it, and test that one.",
);

pub(crate) static SHORT_CONTEXT: Cure = Cure::Advice(
    "The context has 32 bytes: read below byte 32.",
);

pub(crate) static NO_STACK_ARRAY: Cure = Cure::Advice(
    "The stack takes fixed offsets alone. Keep the array in a map: its entries, or the words of one entry, are the \
elements.",
);

pub(crate) static STACK_FRAME: Cure = Cure::Advice(
    "A stack frame has the 512 bytes from r10-512 to r10-1.",
);

pub(crate) static READ_ONLY: Cure = Cure::Advice(
    "The frame and the context are only read: compute in variables, and answer by the verdict.",
);

pub(crate) static LENGTH: Cure = Cure::Advice(
    "Pointers are not subtracted. To test a length, write `frame + 30 > end`; to compute it, take `length_of` of \
policies/counters.c.",
);

pub(crate) static DISTANCE: Cure = Cure::Advice(
    "Pointers are not subtracted. Keep the place as a number, and make the pointer from it: `p = frame + at`.",
);

pub(crate) static FIXED_END: Cure = Cure::Advice(
    "Nothing is added to `end`: move the other side, as in `frame + 30 > end`.",
);

pub(crate) static COMPARE_WITH_END: Cure = Cure::Advice(
    "A pointer is compared with `end` or with 0 alone: compare the numbers that were added to it.",
);

pub(crate) static NUMBERS_IN_MAPS: Cure = Cure::Advice(
    "A map takes numbers alone: store what the pointer leads to.",
);

pub(crate) static NO_ADDRESS: Cure = Cure::Advice(
    "The address is a number. Where a variable outside of functions was meant, take a map; policies/policy-hex \
refuses such a file.",
);

pub(crate) static INLINE_FUNCTION: Cure = Cure::Advice(
    "A function returns a number: make it `static inline`, and compile with -O1, -Os or -O2.",
);

pub(crate) static DECLARE_MAPS: Cure = Cure::Advice(
    "There are no maps: declare them in a configuration, and name it by `--config`; the first is map 0.",
);

impl fmt::Display for Cure {
    fn fmt<W: fmt::Write>(&self, f: &mut fmt::Formatter<W>) -> fmt::Result {
        match self {
            Cure::Advice(text) => f.write_str(text),
            Cure::TestFrame { bytes } => write!(
                f,
                "Test the length first: `if (frame + {bytes} > end) return ..;`."
            ),
            Cure::TestPointer { slot, bytes } => write!(
                f,
                "Test the pointer that is read: `if (p + {bytes} > end) return ..;`, where slot {slot} makes p."
            ),
            Cure::BoundIndex { last } => write!(
                f,
                "Bound the index first, so that the access begins at byte {last} at most."
            ),
            Cure::ShortEntry { map, bytes } => write!(
                f,
                "An entry of map {map} has {bytes} bytes: stay below byte {bytes}, or declare more words an entry."
            ),
            Cure::WordWidth { map, bytes } => write!(
                f,
                "Map {map} has words of {bytes} bytes: read and write them whole, at multiples of {bytes}."
            ),
            Cure::DeclareMap { last } => write!(
                f,
                "The last map of the configuration is map {last}: declare more, or take one of those."
            ),
            Cure::FirstEntry { map, bytes } => write!(
                f,
                "An entry of map {map} has {bytes} bytes: take an offset below {bytes}; `apd_lookup` gives the others."
            ),
        }
    }
}
