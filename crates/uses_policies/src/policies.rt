//! What a worker judges by.

ghost use Rattle.std.specs.Prelude.{◌≡◌};
ghost use Rattle.bpf_helpers.specs.Hooked.{shapes_of};

use bpf_helpers::MapTables;
use versions::ProgramSet;

/// What a worker judges by: a set of programs for the maps in use, the maps' tables, and the worker's number.
#[derive(Clone, Copy)]
pub struct Policies<'p, 't> {
    pub set: &'p ProgramSet,
    pub maps: &'t [MapTables],
    pub worker: usize,
    pub ghost for_maps: { set.now.shapes ≡ shapes_of maps.now },
}
