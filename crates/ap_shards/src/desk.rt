//! What a worker needs for each event.

ghost use Rattle.std.specs.Prelude.{◌≡◌};
ghost use Rattle.bpf_helpers.specs.Hooked.{shapes_of};

use bpf_helpers::MapTables;
use std::alloc::Global;
use versions::ProgramSet;

/// What a worker decides with: a published set that it entered, and its tables of the maps.
#[derive(Clone, Copy)]
pub struct Desk<'p, 't> {
    pub alloc: Global,
    pub set: &'p ProgramSet,
    pub maps: &'t [MapTables],
    pub worker: usize,
    pub ghost for_maps: { set.now.shapes ≡ shapes_of maps.now },
}
