//! The words of maps.

ghost use Rattle.std.specs.Prelude.{◌≡◌, ◌≢◌, ◌≤◌, ◌⊎◌, map, None, Some, IfOk, IfErr, IfSome};
ghost use Rattle.bpf_helpers.specs.Hooked.{IsFitting, shapes_of};

use ap_tables::ApTables;
use bpf_helpers::WorkerState;
use bpf_machine::Machine;
use bpf_regions::Shapes;
use shared_maps::MapFault;
use std::alloc::Global;

/// The words of maps, with a seat for the runs of programs and a seat for C, and the machine of these runs.
#[derive(Drop)]
pub struct Maps {
    pub shapes: Shapes,
    pub tables: ApTables,
    pub state: WorkerState,
    pub hand: WorkerState,
    pub machine: Machine,
    pub ghost for_maps: { shapes ≡ shapes_of tables.maps },
    pub ghost fitting: { IsFitting tables.maps 0 state.seats },
    pub ghost own: { IsFitting tables.maps 0 hand.seats },
}

impl Maps {
    /// Words that are all 0, and the first number that programs draw.
    pub(crate) fn new(alloc: Global, shapes: Shapes, draw: u64) -> Result<Maps, MapFault>
        ensures shapes { IfOk result (λ m. m.shapes ≡ shapes) }
        ensures draw { IfOk result (λ m. m.state.draw ≡ draw) }
    {
        let mut tables = ApTables::new(alloc, &shapes, 1)?;
        let hand = tables.worker(alloc, 0, 0)?;
        let state = tables.worker(alloc, 0, draw)?;
        Ok(Maps {
            shapes,
            tables,
            state,
            hand,
            machine: Machine::new(),
        })
    }
}
