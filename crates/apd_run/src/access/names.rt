//! Naming the access point of a run, and the journal of its batches.

ghost use Rattle.ap_live.specs.Lives.{Live};
ghost use Rattle.logbook.specs.Pages.{Book};

use std::marker::Brand;

/// Names the access point of a run, with its queues and the list of programs published there, and the journal of the batches
/// that its operator takes over. Each run has its own type.
pub trait Names {
    ghost ap: { Live };

    ghost batches: { Book };
}

impl Names for Brand {
    ghost use Rattle.std.specs.Prelude.{[]};

    ghost ap = { record {
      queues = [];
      stock = record { maps = []; workers = 0 };
      list = record { list = record { number = 0; log_name = 0; cells_name = 0 }; shapes = []; loads = [] };
      draw = 0;
    } };

    ghost batches = { record { number = 0; log_name = 0; cells_name = 0 } };
}
