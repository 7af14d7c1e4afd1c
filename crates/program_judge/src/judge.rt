//! A judge by programs.

ghost use Rattle.std.specs.Prelude.{◌≡◌, []};
ghost use Rattle.bpf_helpers.specs.Hooked.{IsFitting, shapes_of};

use crate::programs::Programs;
use ap_model::{AskLog, Judge};
use bpf_helpers::{WorkerState, WorkerView, run_hook};
use bpf_regions::{Context, Frame, Hook};
use hooks::no_program;

/// Judges by borrowed programs, over one worker's tables: a hook's verdict is R0 of a run of that hook's program, or,
/// if there is none, the number of the verdict tables. It is made anew for each event, only of borrowed values, and
/// allocates nothing. What programs note is dropped.
#[derive(Drop)]
pub struct ProgramJudge<'p, 't, 's> {
    pub programs: &'p Programs,
    pub view: WorkerView<'t>,
    pub state: &'s mut WorkerState,
    /// How many steps its runs executed, mod 2^64.
    pub steps: u64,
    pub asked: AskLog,
    pub ghost for_maps: { programs.now.shapes ≡ shapes_of view.maps.now },
    pub ghost fitting: { IsFitting view.maps.now view.worker state.now.seats },
}

impl<'p, 't, 's> ProgramJudge<'p, 't, 's> {
    /// A judge by these programs, which must be for the maps in use. Nothing has been asked of it.
    pub fn new(programs: &'p Programs, view: WorkerView<'t>, state: &'s mut WorkerState) -> Self
        requires for_maps { programs.now.shapes ≡ shapes_of view.maps.now }
        requires fitting { IsFitting view.maps.now view.worker state.old.seats }
        ensures programs { result.programs ≡ programs.entry }
        ensures view { result.view ≡ view.entry }
        ensures same_state { result.state.ghost_name ≡ state.entry.ghost_name }
        ensures state { result.state.now ≡ state.old }
        ensures no_steps { result.steps ≡ 0 }
        ensures unasked { result.asked.asks ≡ [] }
    {
        ProgramJudge {
            programs,
            view,
            state,
            steps: 0,
            asked: AskLog::new(),
        }
    }
}

impl Judge for ProgramJudge<'_, '_, '_> {
    ghost use Rattle.program_judge.specs.Judges.{Judges};

    ghost asks = { λ j. j.asked.asks };

    ghost gives = { Judges };

    ghost lists = { λ j k ask verdict h. h.listed };

    fn judge(&mut self, hook: Hook, frame: &Frame<'_>, context: &Context) -> u64 {
        let (verdict, steps) = match self.programs.program(hook) {
            None => (no_program(hook), 0),
            Some(accepted) => {
                let _safe = accepted.program();
                let outcome = run_hook(accepted, frame, context, self.view, self.state);
                (outcome.r0, outcome.steps)
            }
        };
        self.steps = self.steps.wrapping_add(u64::from(steps));
        self.asked.note(hook, frame, context, verdict);
        verdict
    }
}
