//! The rights to put and to take.

use crate::{OperatorPass, PassMaker, WorkerPass};

/// The right of one operator to put events: a handle on each queue, by worker number.
#[derive(Drop)]
pub struct OperatorLines {
    pub(crate) passes: Vec<OperatorPass>,
}

/// The handles not given yet: for each queue, the maker of its operators and the handle of its worker.
#[derive(Drop)]
pub struct LinePasses {
    pub(crate) makers: Vec<PassMaker>,
    pub(crate) workers: Vec<Option<WorkerPass>>,
}
