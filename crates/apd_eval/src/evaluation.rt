//! Verdicts on a capture.

ghost use Rattle.std.specs.Prelude.{◌≡◌, IfOk};
ghost use Rattle.std.specs.String.{string_bytes};
ghost use Rattle.capture.specs.Walks.{packets_in};
ghost use Rattle.apd_eval.specs.Evaluated.{IsEvaluation};
ghost use Rattle.apd_eval.specs.Taken.{AreTaken};

use crate::follow::{Replay, follow};
use crate::meter::Meter;
use crate::row::TakesRows;
use crate::sums::Course;
use crate::table::Table;
use crate::tried::{Policy, Tried};
use bpf_machine::Accepted;
use program_judge::Programs;
use std::alloc::{AllocError, Global};

/// Hands on the verdicts of a program on the queries of its hook, as a capture's frames come to a new access point of
/// which it is the only program. Its maps' words are 0 at first. Returns the programs of that access point.
pub(crate) fn evaluate<'a, S: TakesRows<'a>>(
    alloc: Global,
    accepted: Accepted,
    replay: Replay<'a>,
    sink: &mut S,
) -> Result<Programs, AllocError>
    requires fresh { S.taken sink.old ≡ 0 }
    ensures rows { IfOk result (λ _. AreTaken S.takes accepted replay.entry.draw
        replay.entry.link.now (packets_in replay.entry.recording.bytes.now) sink.old sink.new) }
{
    let hook = accepted.hook();
    let Tried {
        programs,
        tables,
        state,
    } = Tried::new(alloc, accepted, replay.draw)?;
    let mut meter = Meter::new(state, Vec::new(alloc));
    let policy = Policy {
        hook,
        programs: &programs,
        maps: tables.maps(),
    };
    follow(alloc, policy, &mut meter, replay, sink)?;
    Ok(programs)
}

/// The table of a program's verdicts, or lines of JSON.
pub fn evaluation_text(
    alloc: Global,
    accepted: Accepted,
    replay: Replay<'_>,
    json: bool,
) -> Result<String, AllocError>
    ensures is { IfOk result (λ text. IsEvaluation accepted replay.entry.draw replay.entry.link.now
        (packets_in replay.entry.recording.bytes.now) json (string_bytes text)) }
{
    let course = Course {
        hook: accepted.hook(),
        budget: accepted.budget(),
        replay,
    };
    let mut table = Table::new(alloc, json)?;
    evaluate(alloc, accepted, replay, &mut table)?;
    table.finish(course)
}
