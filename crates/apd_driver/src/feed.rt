//! Following the script's lines up to a wait.

ghost use Rattle.std.specs.List.{slice_range};
ghost use Rattle.std.specs.Prelude.{◌≡◌, ◌<◌, ◌≤◌, [], ◌∷◌, ◌++◌, length, drop, IfOk, OnOk};
ghost use Rattle.apd_script.specs.Asked.{asked_of, commands_of};
ghost use Rattle.apd_script.specs.Batches.{numbers_of};
ghost use Rattle.apd_driver.specs.Crews.{Works};
ghost use Rattle.apd_driver.specs.Following.{Follows, FollowsAll, Lists, PutsAll, for_publication, for_use};
ghost use Rattle.apd_driver.specs.Shows.{AnswerMalformed};
ghost use Rattle.apd_driver.specs.Tells.{Tells};
ghost use Rattle.apd_driver.specs.Intervals.{is_wait, after_wait};

use crate::actions::{Action, Publication, WordUse, action_of};
use crate::crew::{Serving, ring};
use crate::operating::Operating;
use crate::setting::Setting;
use crate::{Report, Told};
use ap_model::Event;
use apd_script::{MalformedLine, Numbered};
use std::alloc::{AllocError, Global};
use std::sync::Wait;
use std::sync::atomic::Ordering;

/// Submits an event, again if a queue is full and a worker has served, until a worker is in trouble.
fn put<W: Serving + Drop, O: Operating<W>, R: Wait>(
    setting: &Setting<'_, W, R>,
    operator: &mut O,
    line: u64,
    event: Event,
) -> Result<(), AllocError>
    ensures works { Works (O.crew operator.old) (O.crew operator.new) }
    ensures puts { OnOk result (PutsAll O.semantics line event
        (O.crew operator.old).work (O.crew operator.new).work) }
{
    let Setting { rt, signs, .. } = *setting;
    let Err(mut waiting) = operator.submit(rt, line, event) else {
        return Ok(());
    };
    ring(rt, setting.desks, 0);
    for _ in rt.forever() {
        let strokes = signs.serving.strokes();
        if signs.trouble.load(Ordering::SeqCst) != 0 {
            return Err(AllocError);
        }
        signs.feeding.strike();
        let Err(still) = operator.go_on(rt, line, waiting) else {
            return Ok(());
        };
        waiting = still;
        signs.serving.sleep(rt, strokes);
    }
    unreachable!()
}

/// Changes the program of a hook, and lists its report.
fn publish<W: Serving + Drop, O: Operating<W>, R: Wait>(
    rt: &R,
    operator: &mut O,
    line: u64,
    publication: Publication<'_>,
    told: &mut Vec<Report>,
) -> Result<(), AllocError>
    ensures works { Works (O.crew operator.old) (O.crew operator.new) }
    ensures follows { OnOk result (Lists
        (Follows O.semantics line (for_publication publication.entry)
        (O.crew operator.old).work (O.crew operator.new).work)
        told.old.items told.new.items) }
    ensures told { OnOk result (Tells told.old.items told.new.items) }
{
    told.reserve(1)?;
    if let Some(answer) = operator.publish(rt, publication) {
        told.push_reserved(of_line(line, answer));
    }
    Ok(())
}

/// Uses a word of a map, and lists its report.
fn use_word<W: Serving + Drop, O: Operating<W>>(
    operator: &mut O,
    line: u64,
    wanted: WordUse,
    told: &mut Vec<Report>,
) -> Result<(), AllocError>
    ensures works { Works (O.crew operator.old) (O.crew operator.new) }
    ensures follows { OnOk result (Lists
        (Follows O.semantics line (for_use wanted)
        (O.crew operator.old).work (O.crew operator.new).work)
        told.old.items told.new.items) }
    ensures told { OnOk result (Tells told.old.items told.new.items) }
{
    told.reserve(1)?;
    if let Some(answer) = operator.use_word(wanted) {
        told.push_reserved(of_line(line, answer));
    }
    Ok(())
}

/// The report on a line that concerns no shard.
fn of_line(line: u64, told: Told) -> Report
    ensures { result ≡ record { line = line; shard = 0; told = told } }
{
    Report {
        line,
        shard: 0,
        told,
    }
}

/// Lists a report that an allocation failed for a line.
fn tell_memory(told: &mut Vec<Report>, line: u64) -> Result<(), AllocError>
    ensures listed { OnOk result (told.new.items
        ≡ told.old.items ++ record { line = line; shard = 0; told = Told.Memory } ∷ []) }
    ensures told { OnOk result (Tells told.old.items told.new.items) }
{
    told.reserve(1)?;
    told.push_reserved(of_line(line, Told::Memory));
    Ok(())
}

/// Lists a report that a line is malformed.
fn tell_malformed_line(
    alloc: Global,
    malformed: &MalformedLine<'_>,
    told: &mut Vec<Report>,
) -> Result<(), AllocError>
    ensures answers { OnOk result (Lists (AnswerMalformed (malformed.now.line ∷ []))
        told.old.items told.new.items) }
    ensures told { OnOk result (Tells told.old.items told.new.items) }
{
    let MalformedLine { line, fault } = *malformed;
    let why = format!(in alloc; "{fault}")?;
    told.reserve(1)?;
    told.push_reserved(of_line(line, Told::Malformed { why }));
    Ok(())
}

/// Lists a report on each malformed line.
pub(crate) fn tell_malformed(
    alloc: Global,
    malformed: &[MalformedLine<'_>],
    told: &mut Vec<Report>,
) -> Result<(), AllocError>
    ensures answers { OnOk result (Lists (AnswerMalformed (numbers_of malformed.now))
        told.old.items told.new.items) }
    ensures told { OnOk result (Tells told.old.items told.new.items) }
{
    for line in malformed {
        tell_malformed_line(alloc, line, told)?;
    }
    Ok(())
}

/// Does what a line asks for, and returns whether the line is a `wait`.
fn follow<W: Serving + Drop, O: Operating<W>, R: Wait>(
    setting: &Setting<'_, W, R>,
    operator: &mut O,
    numbered: &Numbered<'_>,
    told: &mut Vec<Report>,
) -> Result<bool, AllocError>
    ensures works { Works (O.crew operator.old) (O.crew operator.new) }
    ensures follows { OnOk result (Lists
        (Follows O.semantics numbered.now.line (asked_of numbered.now.command)
        (O.crew operator.old).work (O.crew operator.new).work)
        told.old.items told.new.items) }
    ensures told { OnOk result (Tells told.old.items told.new.items) }
    ensures waits { IfOk result (λ waits. waits ≡ is_wait numbered.now.command) }
{
    let line = numbered.line;
    match action_of(setting.alloc, &numbered.command) {
        Ok(Action::Submit(event)) => {
            put(setting, operator, line, event)?;
            Ok(false)
        }
        Ok(Action::Publish(publication)) => {
            publish(setting.rt, operator, line, publication, told)?;
            Ok(false)
        }
        Ok(Action::UseWord(wanted)) => {
            use_word(operator, line, wanted, told)?;
            Ok(false)
        }
        Ok(Action::Wait) => Ok(true),
        Err(_) => {
            tell_memory(told, line)?;
            Ok(false)
        }
    }
}

/// Follows the lines from an index on, up to and including the next `wait`, or to the end. It lists the reports on
/// them, and returns the index after them.
pub(crate) fn feed<W: Serving + Drop, O: Operating<W>, R: Wait>(
    setting: &Setting<'_, W, R>,
    operator: &mut O,
    commands: &[Numbered<'_>],
    start: usize,
    told: &mut Vec<Report>,
) -> Result<usize, AllocError>
    requires more { start < length commands.now }
    ensures works { Works (O.crew operator.old) (O.crew operator.new) }
    ensures follows { IfOk result (λ next. Lists
        (FollowsAll O.semantics (O.crew operator.old).work
        (commands_of (slice_range commands.now start next)) (O.crew operator.new).work)
        told.old.items told.new.items) }
    ensures told { OnOk result (Tells told.old.items told.new.items) }
    ensures on { IfOk result (λ next. start < next) }
    ensures within { IfOk result (λ next. next ≤ length commands.now) }
    ensures rest { IfOk result
        (λ next. drop next commands.now ≡ after_wait (drop start commands.now)) }
{
    let mut next = start;
    'lines: while next < commands.len() {
        let numbered = &commands[next];
        next += 1;
        let waits = follow(setting, operator, numbered, told)?;
        if waits {
            return Ok(next);
        }
    }
    Ok(next)
}
