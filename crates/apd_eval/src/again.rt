//! The queries of rows, judged by another program.

ghost use Rattle.std.specs.Prelude.{◌↔◌, IsTrue};
ghost use Rattle.bpf_helpers.specs.Hooked.{IsFitting};
ghost use Rattle.apd_eval.specs.Again.{ask_of, read_at};
ghost use Rattle.apd_eval.specs.Changes.{Agrees};
ghost use Rattle.apd_eval.specs.Rulings.{IsRuling};

use crate::meter::Meter;
use crate::row::Row;
use crate::ruling::Ruling;
use crate::tried::Policy;
use crate::witness::Witness;
use bpf_helpers::WorkerView;
use bpf_regions::Frame;

/// A query of a packet, and what two programs say of it.
#[derive(Clone, Copy)]
pub struct Contrast {
    pub packet: usize,
    /// What the program in force says, whose verdict the link follows.
    pub in_force: Ruling,
    /// What the program says that is tried.
    pub tried: Ruling,
}

impl Contrast {
    /// Whether both verdicts mean the same to the link.
    pub(crate) fn agrees(&self) -> bool
        ensures is { IsTrue result ↔ Agrees self.now }
    {
        self.in_force.meaning() == self.tried.meaning()
    }
}

/// Judges the query of a row, about this frame, by these programs.
pub(crate) fn rule(policy: Policy<'_>, state: &mut Meter, row: &Row, frame: &Frame<'_>) -> Ruling
    requires fitting { IsFitting policy.maps.now 0 state.old.held.seats }
    ensures ruling { IsRuling (read_at policy.entry row.now) policy.entry.programs.now state.old
        (ask_of row.now frame.now) result state.new }
    ensures fitting { IsFitting policy.entry.maps.now 0 state.new.held.seats }
{
    let ruling = row.ruling;
    let view = WorkerView {
        maps: policy.maps,
        worker: 0,
        clock: ruling.clock,
        stations: ruling.stations,
    };
    let mut judge = Witness::new(policy.programs, view, state);
    judge.rule(ruling.hook, frame, &ruling.context)
}
