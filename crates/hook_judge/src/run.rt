//! Runs of programs, and numbers counted of them.

ghost use Rattle.std.specs.Prelude.{◌≤◌};

use arrayvec::ArrayVec;

/// A run of a hook's program: the number of the load that put the program in force, the program's budget, and what came
/// of the run.
#[derive(Clone, Copy)]
pub struct ProgramRun<'a> {
    pub load: u64,
    pub budget: u32,
    pub verdict: u64,
    pub steps: u32,
    pub notes: &'a ArrayVec<u64, 16>,
    pub ghost within: { steps ≤ budget },
}

/// The numbers that were counted of a program's runs: how many they were, the most steps of one, which is at most the
/// budget, the steps of all, and how many granted what was asked and how many denied it. All but the most are mod 2^64.
#[derive(Clone, Copy, PartialEq, Eq)]
pub struct Figures {
    pub budget: u32,
    pub runs: u64,
    pub most: u32,
    pub steps: u64,
    pub granted: u64,
    pub denied: u64,
    pub ghost within: { most ≤ budget },
}
