//! Two programs on a capture.

ghost use Rattle.std.specs.Prelude.{◌≡◌, IfOk, string_bytes};
ghost use Rattle.bpf_helpers.specs.Hooked.{IsFitting};
ghost use Rattle.capture.specs.Walks.{packets_in};
ghost use Rattle.apd_eval.specs.Compared.{IsComparison};

use crate::again::{Contrast, rule};
use crate::changes::Changes;
use crate::evaluation::evaluate;
use crate::follow::Replay;
use crate::meter::Meter;
use crate::row::{Row, TakesRows};
use crate::tried::{Policy, Tried};
use bpf_machine::Accepted;
use bpf_regions::Frame;
use std::alloc::{AllocError, Global};

/// The verdicts that differ between two programs, as lines, and whether there are any.
#[derive(Drop)]
pub struct Comparison {
    pub text: String,
    pub differs: bool,
}

/// Programs that judge the queries of rows as these come, with maps of their own, and how their verdicts differ.
#[derive(Drop)]
pub(crate) struct Contrasts<'p> {
    policy: Policy<'p>,
    meter: Meter,
    changes: Changes,
    ghost fitting: { IsFitting policy.maps.now 0 meter.held.seats },
}

impl<'p> Contrasts<'p> {
    ghost use Rattle.std.specs.Prelude.{◌≡◌};

    /// Programs, with what they hold at first, and no changes so far.
    fn new(policy: Policy<'p>, meter: Meter, changes: Changes) -> Contrasts<'p>
        requires fitting { IsFitting policy.maps.now 0 meter.held.seats }
        ensures policy { result.policy ≡ policy.entry }
        ensures meter { result.meter ≡ meter }
        ensures changes { result.changes ≡ changes }
    {
        Contrasts {
            policy,
            meter,
            changes,
        }
    }
}

impl<'a> TakesRows<'a> for Contrasts<'_> {
    ghost use Rattle.apd_eval.specs.Told.{Contrasted};

    ghost taken = { λ c. c.changes.judged };

    ghost takes = { Contrasted };

    fn take(&mut self, row: &Row, frame: &Frame<'a>) -> Result<(), AllocError> {
        let tried = rule(self.policy, &mut self.meter, row, frame);
        let contrast = Contrast {
            packet: row.packet,
            in_force: row.ruling,
            tried,
        };
        self.changes.tell(&contrast)
    }
}

impl Comparison {
    ghost use Rattle.apd_eval.specs.Told.{AreContrasted};

    /// Tells how the verdicts of a program differ from those of the program in force, on the queries of a capture.
    fn contrasted(
        alloc: Global,
        in_force: Accepted,
        tested: Tried,
        replay: Replay<'_>,
        untold: Changes,
    ) -> Result<Changes, AllocError>
        requires none { untold.judged ≡ 0 }
        ensures contrasted { IfOk result (AreContrasted in_force replay.entry.draw replay.entry.link.now
            (packets_in replay.entry.recording.bytes.now) tested untold) }
    {
        let Tried {
            programs,
            tables,
            state,
        } = tested;
        let policy = Policy {
            hook: in_force.hook(),
            programs: &programs,
            maps: tables.maps(),
        };
        let meter = Meter::new(state, Vec::new(alloc));
        let mut contrasts = Contrasts::new(policy, meter, untold);
        evaluate(alloc, in_force, replay, &mut contrasts)?;
        let Contrasts { changes, .. } = contrasts;
        Ok(changes)
    }
}

/// The verdicts of a program that differ from those of the program in force, on the queries of its hook as a capture's
/// frames come to a new access point of which it is the only program. Each has maps of its own, whose
/// words are 0 at first, and draws the same first number; both read the clock and the stations of the query.
pub fn compare(
    alloc: Global,
    in_force: Accepted,
    tried: Accepted,
    replay: Replay<'_>,
    json: bool,
) -> Result<Comparison, AllocError>
    ensures is { IfOk result (λ c. IsComparison in_force tried replay.entry.draw replay.entry.link.now
        (packets_in replay.entry.recording.bytes.now) json (string_bytes c.text) c.differs) }
{
    let hook = in_force.hook();
    let untold = Changes::new(alloc, json)?;
    let tested = Tried::new(alloc, tried, replay.draw)?;
    let changes = Comparison::contrasted(alloc, in_force, tested, replay, untold)?;
    let differs = 0 < changes.changed;
    let text = changes.finish(hook, replay)?;
    Ok(Comparison { text, differs })
}
