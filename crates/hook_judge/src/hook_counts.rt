//! What is counted of the runs of each hook's program.

ghost use Rattle.std.specs.Prelude.{◌≡◌};
ghost use Rattle.hook_judge.specs.Made.{made_of};
ghost use Rattle.hook_judge.specs.Sums.{counted, no_counts, sums};

use crate::counts::RunCounts;
use crate::run::ProgramRun;
use bpf_regions::Hook;

/// What was counted of the runs of each hook's program.
#[derive(Drop)]
pub struct HookCounts {
    pub association: RunCounts,
    pub addba: RunCounts,
    pub frames: RunCounts,
}

impl HookCounts {
    /// Nothing was counted.
    pub fn none() -> HookCounts
        ensures none { result ≡ no_counts }
    {
        HookCounts {
            association: RunCounts::none(0, 0),
            addba: RunCounts::none(0, 0),
            frames: RunCounts::none(0, 0),
        }
    }

    /// Counts a run of the hook's program.
    pub fn count(&mut self, hook: Hook, run: ProgramRun<'_>)
        ensures counted { self.new ≡ counted hook (made_of run.entry) self.old }
    {
        match hook {
            Hook::Association => self.association.count(hook, run),
            Hook::Addba => self.addba.count(hook, run),
            Hook::Data => self.frames.count(hook, run),
        }
    }

    /// Adds what another counted of the same loads' runs.
    pub fn add(&mut self, other: &HookCounts)
        ensures sums { self.new ≡ sums self.old other.now }
    {
        self.association.add(&other.association);
        self.addba.add(&other.addba);
        self.frames.add(&other.frames);
    }
}
