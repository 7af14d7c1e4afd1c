//! A program that is tried, with maps of its own.

ghost use Rattle.std.specs.Prelude.{◌≡◌, IfOk, Some};
ghost use Rattle.bpf_helpers.specs.Hooked.{IsFitting, shapes_of};
ghost use Rattle.program_judge.specs.Programs.{no_programs, replaced};

use ap_tables::ApTables;
use bpf_helpers::{MapTables, WorkerState};
use bpf_machine::Accepted;
use bpf_regions::Hook;
use program_judge::Programs;
use std::alloc::{AllocError, Global};

/// Programs, the maps over which they run, and the hook whose verdicts are wanted.
#[derive(Clone, Copy)]
pub(crate) struct Policy<'a> {
    pub hook: Hook,
    pub programs: &'a Programs,
    pub maps: &'a [MapTables],
    pub ghost for_maps: { programs.now.shapes ≡ shapes_of maps.now },
}

/// A program that is tried, with maps and a draw word that nobody else has.
#[derive(Drop)]
pub(crate) struct Tried {
    pub programs: Programs,
    pub tables: ApTables,
    pub state: WorkerState,
    pub ghost for_maps: { programs.shapes ≡ shapes_of tables.maps },
    pub ghost fitting: { IsFitting tables.maps 0 state.seats },
}

/// The program alone, at its hook.
fn alone(accepted: Accepted) -> Result<Programs, AllocError>
    ensures programs { IfOk result (λ programs.
        programs ≡ replaced accepted.hook (no_programs accepted.code.shapes) (Some accepted)) }
{
    let hook = accepted.hook();
    let shapes = accepted.program().shapes().clone()?;
    let mut programs = Programs::none(shapes);
    programs.put(hook, Some(accepted));
    Ok(programs)
}

impl Tried {
    /// The program alone, at its hook, with maps of zeros and this draw word.
    #[tactic(auto, using(bpf_helpers::proofs::Keeping::shapes_kept, bpf_helpers::proofs::Keeping::fitting_kept))]
    pub(crate) fn new(alloc: Global, accepted: Accepted, draw: u64) -> Result<Tried, AllocError>
        ensures programs { IfOk result (λ tried. tried.programs
            ≡ replaced accepted.hook (no_programs accepted.code.shapes) (Some accepted)) }
        ensures draw { IfOk result (λ tried. tried.state.draw ≡ draw) }
    {
        let programs = alone(accepted)?;
        let mut tables = ApTables::new(alloc, programs.shapes(), 1)?;
        match tables.worker(alloc, 0, draw) {
            Ok(state) => Ok(Tried {
                programs,
                tables,
                state,
            }),
            Err(_) => Err(AllocError),
        }
    }
}
