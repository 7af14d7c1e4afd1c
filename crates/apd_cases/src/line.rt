//! The lines of a file of cases.

ghost use Rattle.std.specs.Prelude.{◌≡◌, ◌≤◌, ◌↔◌, IsSome, IfSome};

use apd_script::HexText;
use bpf_regions::Hook;

/// How many stations are associated, at most 2007.
#[derive(Clone, Copy, Debug, PartialEq, Eq)]
pub struct StationCount {
    pub count: u16,
    ghost few: { count ≤ 2007 },
}

impl StationCount {
    pub const NONE: StationCount = StationCount { count: 0 };

    /// `None` if there are more than 2007.
    pub fn new(count: u16) -> Option<Self>
        ensures few { IsSome result ↔ (count ≤ 2007) }
        ensures same { IfSome result (λ stations. stations.count ≡ count) }
    {
        if count <= 2007 {
            Some(StationCount { count })
        } else {
            None
        }
    }
}

/// A place in the maps, which need not have it: a map's number, an entry's index, and a word's index in the entry.
#[derive(Clone, Copy, Debug, PartialEq, Eq)]
pub struct Place {
    /// Below 16.
    pub map: u32,
    /// Below 4096.
    pub entry: u32,
    /// Below 8.
    pub word: u32,
}

/// What the access point does by a policy's result.
#[derive(Clone, Copy, Debug, PartialEq, Eq)]
pub enum Verdict {
    /// The station is admitted.
    Admit,
    /// The station is refused with this status.
    Refuse(u16),
    /// The agreement gets a window of this size.
    Size(u8),
    /// The agreement is declined.
    Decline,
    /// The data is passed up with this mark.
    Pass(u8),
    /// The data isn't passed up.
    Discard,
}

/// What a case expects.
#[derive(Clone, Copy, Debug, PartialEq, Eq)]
pub enum Expectation {
    /// A run on the frame ends with this verdict.
    Verdict(Verdict),
    /// The policy isn't admitted, for the reason with this number.
    Refused(u8),
    /// The policy is admitted with at most this budget.
    Budget(u32),
    /// A run on the frame executes at most this many instructions.
    Steps(u32),
    /// This is one of the first 16 numbers that a run on the frame notes.
    Note(u64),
    /// After a run on the frame, a word of a map has this value.
    Word { place: Place, value: u64 },
}

/// What a line says. Paths, words and hex digits are slices of the file.
#[derive(Clone, Copy, Debug, PartialEq, Eq)]
pub enum Line<'a> {
    /// The code in a file is the policy, for a hook.
    Policy { hook: Hook, path: &'a str },
    /// The configuration in a file declares the maps and the first number drawn.
    Config(&'a str),
    /// What is given for the contexts of runs: words KEY=VALUE.
    Given(&'a str),
    /// The clock of runs.
    Clock(u64),
    /// How many stations are associated in runs.
    Stations(StationCount),
    /// A word of a map has this value before each run.
    Word { place: Place, value: u64 },
    /// The frame of runs.
    Frame(HexText<'a>),
    Expect(Expectation),
}

/// What a line says, and the line's number, counted from 1.
#[derive(Clone, Copy, Debug, PartialEq, Eq)]
pub struct Numbered<'a> {
    pub number: u64,
    pub line: Line<'a>,
}
