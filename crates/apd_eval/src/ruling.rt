//! Verdicts, as they are shown.

ghost use Rattle.std.specs.Prelude.{◌≤◌};

use bpf_regions::{Context, Hook};

/// A query to a judge with its verdict: R0 of the hook's program, after `steps` steps; without a program the number
/// of the verdict tables, after none.
#[derive(Clone, Copy)]
pub struct Ruling {
    pub hook: Hook,
    pub context: Context,
    /// The clock of the shard that asked, in units of 1024 microseconds.
    pub clock: u64,
    /// How many stations were associated in that shard.
    pub stations: u16,
    pub verdict: u64,
    pub steps: u32,
    pub ghost few: { stations ≤ 2007 },
}
