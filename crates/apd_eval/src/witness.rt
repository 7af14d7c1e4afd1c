//! A judge that keeps its last query.

ghost use Rattle.std.specs.Prelude.{◌≡◌, None};
ghost use Rattle.bpf_helpers.specs.Hooked.{IsFitting, shapes_of};
ghost use Rattle.bpf_helpers.specs.HookPorts.{given_by};
ghost use Rattle.apd_eval.specs.Rulings.{IsRuling};

use crate::meter::Meter;
use crate::ruling::Ruling;
use ap_model::{AskLog, Judge};
use bpf_helpers::WorkerView;
use bpf_regions::{Context, Frame, Hook};
use hooks::no_program;
use program_judge::Programs;

/// Judges as a `ProgramJudge` does, and keeps the last query with its verdict and steps. It is made anew for each event.
#[derive(Drop)]
pub(crate) struct Witness<'p, 't, 's> {
    pub programs: &'p Programs,
    pub view: WorkerView<'t>,
    pub state: &'s mut Meter,
    /// The last query; `None` if nothing was asked.
    pub last: Option<Ruling>,
    pub asked: AskLog,
    pub ghost for_maps: { programs.now.shapes ≡ shapes_of view.maps.now },
    pub ghost fitting: { IsFitting view.maps.now view.worker state.now.held.seats },
}

impl<'p, 't, 's> Witness<'p, 't, 's> {
    ghost use Rattle.apd_eval.specs.Witnesses.{Keeps};

    /// A judge by these programs, which must be for the maps in use. Nothing has been asked of it.
    pub(crate) fn new(programs: &'p Programs, view: WorkerView<'t>, state: &'s mut Meter) -> Self
        requires for_maps { programs.now.shapes ≡ shapes_of view.maps.now }
        requires fitting { IsFitting view.maps.now view.worker state.old.held.seats }
        ensures programs { result.programs ≡ programs.entry }
        ensures view { result.view ≡ view.entry }
        ensures same_state { result.state.ghost_name ≡ state.entry.ghost_name }
        ensures state { result.state.now ≡ state.old }
        ensures unasked { result.last ≡ None }
    {
        Witness {
            programs,
            view,
            state,
            last: None,
            asked: AskLog::new(),
        }
    }

    /// Runs the hook's program, if there is one.
    pub(crate) fn rule(&mut self, hook: Hook, frame: &Frame<'_>, context: &Context) -> Ruling
        ensures ruling { IsRuling (given_by self.old.view) self.old.programs.now self.old.state.now
            (record { hook = hook; frame = frame.now; context = context.now })
            result self.new.state.now }
        ensures keeps { Keeps self.old self.new }
        ensures asked { self.new.asked ≡ self.old.asked }
    {
        match self.programs.program(hook) {
            None => {
                return Ruling {
                    hook,
                    context: *context,
                    clock: self.view.clock,
                    stations: self.view.stations,
                    verdict: no_program(hook),
                    steps: 0,
                };
            }
            Some(accepted) => {
                let _safe = accepted.program();
                let outcome = self.state.run(accepted, frame, context, self.view);
                return Ruling {
                    hook,
                    context: *context,
                    clock: self.view.clock,
                    stations: self.view.stations,
                    verdict: outcome.r0,
                    steps: outcome.steps,
                };
            }
        }
    }
}

impl Judge for Witness<'_, '_, '_> {
    ghost use Rattle.apd_eval.specs.Witnesses.{Witnesses};

    ghost asks = { λ j. j.asked.asks };

    ghost gives = { Witnesses };

    ghost lists = { λ j k ask verdict h. h.listed };

    fn judge(&mut self, hook: Hook, frame: &Frame<'_>, context: &Context) -> u64 {
        let ruling = self.rule(hook, frame, context);
        let verdict = ruling.verdict;
        self.last = Some(ruling);
        self.asked.note(hook, frame, context, verdict);
        verdict
    }
}
