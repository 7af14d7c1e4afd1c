//! A judge by a set of programs.

ghost use Rattle.std.specs.Prelude.{◌≡◌, []};
ghost use Rattle.bpf_helpers.specs.Hooked.{IsFitting, shapes_of};

use crate::state::CountedState;
use ap_model::{AskLog, Judge};
use bpf_helpers::WorkerView;
use bpf_regions::{Context, Frame, Hook};
use hooks::no_program;
use versions::ProgramSet;

/// Judges by one set of programs, over one worker's tables: a hook's verdict is R0 of a run of the set's program for
/// that hook, or, if it has none, the number of the verdict tables. It is made anew for each event, only of borrowed
/// values, and allocates nothing. What programs note is counted with their runs.
#[derive(Drop)]
pub struct SetJudge<'p, 't, 's> {
    pub set: &'p ProgramSet,
    pub view: WorkerView<'t>,
    pub state: &'s mut CountedState,
    /// How many steps its runs executed, mod 2^64.
    pub steps: u64,
    pub asked: AskLog,
    pub ghost for_maps: { set.now.shapes ≡ shapes_of view.maps.now },
    pub ghost fitting: { IsFitting view.maps.now view.worker state.now.seats },
}

impl<'p, 't, 's> SetJudge<'p, 't, 's> {
    /// A judge by this set, which must be one for the maps in use. Nothing has been asked of it.
    pub fn new(set: &'p ProgramSet, view: WorkerView<'t>, state: &'s mut CountedState) -> Self
        requires for_maps { set.now.shapes ≡ shapes_of view.maps.now }
        requires fitting { IsFitting view.maps.now view.worker state.old.seats }
        ensures set { result.set ≡ set.entry }
        ensures view { result.view ≡ view.entry }
        ensures same_state { result.state.ghost_name ≡ state.entry.ghost_name }
        ensures state { result.state.now ≡ state.old }
        ensures no_steps { result.steps ≡ 0 }
        ensures unasked { result.asked.asks ≡ [] }
    {
        SetJudge {
            set,
            view,
            state,
            steps: 0,
            asked: AskLog::new(),
        }
    }
}

impl SetJudge<'_, '_, '_> {
    ghost use Rattle.bpf_helpers.specs.HookPorts.{given_by};
    ghost use Rattle.hook_judge.specs.Judges.{Keeps, loads_of};
    ghost use Rattle.hook_judge.specs.Verdicts.{GivesIn};

    /// The verdict on a query, which isn't listed, and the steps of the run.
    fn rule(&mut self, hook: Hook, frame: &Frame<'_>, context: &Context) -> (u64, u32)
        ensures keeps { Keeps self.old self.new }
        ensures given { GivesIn (given_by self.old.view) (loads_of self.old) self.old.state.now
            (record { hook = hook; frame = frame.now; context = context.now })
            result.0 result.1 self.new.state.now }
        ensures steps { self.new.steps ≡ self.old.steps }
        ensures asked { self.new.asked ≡ self.old.asked }
    {
        match self.set.program(hook) {
            None => return (no_program(hook), 0),
            Some(accepted) => {
                let _safe = accepted.program();
                let load = self.set.load_number(hook);
                let exit = self.state.run(accepted, load, self.view, frame, context);
                return (exit.r0, exit.steps);
            }
        }
    }
}

impl Judge for SetJudge<'_, '_, '_> {
    ghost use Rattle.hook_judge.specs.Judges.{Judges};

    ghost asks = { λ j. j.asked.asks };

    ghost gives = { Judges };

    ghost lists = { λ j k ask verdict h. h.listed };

    fn judge(&mut self, hook: Hook, frame: &Frame<'_>, context: &Context) -> u64 {
        let (verdict, steps) = self.rule(hook, frame, context);
        self.steps = self.steps.wrapping_add(u64::from(steps));
        self.asked.note(hook, frame, context, verdict);
        verdict
    }
}
