//! Intervals: consecutive lines up to a `wait`, and at most 4096 of them.

ghost use Rattle.std.specs.List.{slice_range};
ghost use Rattle.std.specs.Prelude.{◌≡◌, ◌<◌, ◌≤◌, [], Some, length, drop, vec_len, IfOk, OnOk, OnErr};
ghost use Rattle.std.specs.Io.KnownBytes.{Appends};
ghost use Rattle.apd_script.specs.Asked.{commands_of};
ghost use Rattle.apd_script.specs.Batches.{numbers_of};
ghost use Rattle.apd_driver.specs.Ahead.{PrintsBeginning, Serves};
ghost use Rattle.apd_driver.specs.Captures.{AnswersAndRecords, KeepsRun, PrintsAndRecords, ShowsAndRecords};
ghost use Rattle.apd_driver.specs.Capturing.{Records};
ghost use Rattle.apd_driver.specs.Crews.{Works};
ghost use Rattle.apd_driver.specs.Following.{FollowsAll, Lists};
ghost use Rattle.apd_driver.specs.Intervals.{after_wait};
ghost use Rattle.apd_driver.specs.Lines.{reports_text};
ghost use Rattle.apd_driver.specs.Order.{IsOrdered};
ghost use Rattle.apd_driver.specs.Shows.{is_memory, any_fault, any_memory, PrintsPart, BreaksFrom, BreaksMalformed, ShowsScript, Breaks};
ghost use Rattle.apd_driver.specs.Tells.{Tells};

use crate::collection::{collect, send_out};
use crate::console::Console;
use crate::crew::{Serving, ring};
use crate::feed::{feed, tell_malformed};
use crate::found::{Found, any_fault, is_over};
use crate::manner::Manner;
use crate::operating::Operating;
use crate::setting::{Setting, Staff};
use crate::{Form, PrintFault, Report, Told, print_reports, put_in_order};
use apd_script::{MalformedLine, Numbered};
use std::alloc::{AllocError, Global};
use std::sync::Wait;
use std::sync::atomic::Ordering;

/// Where an interval begins: the index of its first command among these, and the interval's number.
#[derive(Clone, Copy)]
struct Place<'a> {
    commands: &'a [Numbered<'a>],
    line: usize,
    number: u64,
}

/// The commands of an interval, and malformed lines, which it answers.
#[derive(Clone, Copy)]
pub(crate) struct Given<'a> {
    pub commands: &'a [Numbered<'a>],
    pub malformed: &'a [MalformedLine<'a>],
}

/// The most lines of an interval, so that what is kept of one doesn't grow with the script.
const MOST_LINES: usize = 4096;

/// What the operator followed while workers were out: the index of the next command, and its own reports.
#[derive(Drop)]
struct Fed {
    next: usize,
    told: Vec<Report>,
}

/// The commands of an interval, the reports on them in order, which are still to be printed, and what these say.
#[derive(Drop)]
struct Answered<'a> {
    commands: &'a [Numbered<'a>],
    reports: Vec<Report>,
    found: Found,
}

/// The result of an interval: the index of the next command, and what is to be printed.
#[derive(Drop)]
struct Passed<'a> {
    next: usize,
    answered: Answered<'a>,
}

fn is_memory(told: &Told) -> bool
    ensures is { result ≡ is_memory told.now }
{
    matches!(told, Told::Memory)
}

fn any_memory(reports: &[Report]) -> bool
    ensures is { result ≡ any_memory reports.now }
{
    reports.iter().any(|report| is_memory(&report.told))
}

/// Puts the reports on these commands in order, and finds what they say.
fn order<'a>(
    manner: Manner,
    commands: &'a [Numbered<'a>],
    handed: Vec<Report>,
) -> Result<Answered<'a>, AllocError>
    ensures commands { IfOk result (λ a. a.commands.now ≡ commands.entry.now) }
    ensures ordered { IfOk result (λ a. IsOrdered handed.items a.reports.items) }
    ensures memory { IfOk result (λ a. a.found.memory ≡ any_memory a.reports.items) }
    ensures refused { IfOk result (λ a. a.found.refused ≡ any_fault manner.strict a.reports.items) }
{
    let mut reports = handed;
    put_in_order(&mut reports)?;
    let memory = any_memory(reports.as_slice());
    let refused = any_fault(manner.strict, reports.as_slice());
    Ok(Answered {
        commands,
        reports,
        found: Found { memory, refused },
    })
}

/// Prints the reports on an interval. Before them it records them, with the commands.
fn print_answered<P: Console>(
    alloc: Global,
    form: Form,
    answered: Answered<'_>,
    writer: &mut P,
) -> Result<(), PrintFault>
    ensures prints { OnOk result (Appends (P.contents writer.old) (P.contents writer.new)
        (reports_text form answered.entry.reports.items)) }
    ensures records { OnOk result (Records (P.recorded writer.old) (P.recorded writer.new)
        answered.entry.commands.now answered.entry.reports.items) }
    ensures breaks { OnErr result (PrintsBeginning form
        (P.contents writer.old) (P.contents writer.new) answered.entry.reports.items) }
{
    let reports = answered.reports.as_slice();
    writer.record(answered.commands, reports)?;
    print_reports(alloc, writer, form, reports)?;
    Ok(())
}

/// Prints reports in order, and returns what their lines say. Before them it records them, with the commands.
fn print_interval<'a, P: Console>(
    alloc: Global,
    manner: Manner,
    commands: &'a [Numbered<'a>],
    handed: Vec<Report>,
    writer: &mut P,
) -> Result<Found, PrintFault>
    ensures prints { IfOk result (λ found. PrintsAndRecords manner commands.now
        (P.contents writer.old) (P.contents writer.new)
        (P.recorded writer.old) (P.recorded writer.new)
        handed.items found.memory found.refused) }
    ensures breaks { OnErr result (PrintsPart manner.form
        (P.contents writer.old) (P.contents writer.new) handed.items) }
{
    let answered = order(manner, commands, handed)?;
    let found = answered.found;
    print_answered(alloc, manner.form, answered, writer)?;
    Ok(found)
}

/// Workers go out, and the operator follows the lines from an index on, up to a `wait` or the end. Then the workers serve
/// what it put.
fn set_out<W: Serving + Drop, O: Operating<W> + Drop, R: Wait>(
    setting: &Setting<'_, W, R>,
    staff: &mut Staff<W, O>,
    from: Place<'_>,
) -> Result<Fed, AllocError>
    requires home { vec_len staff.old.workers ≡ length setting.now.desks.now }
    requires more { from.line < length from.commands.now }
    ensures out { vec_len staff.new.workers ≡ 0 }
    ensures works { Works (O.crew staff.old.operator) (O.crew staff.new.operator) }
    ensures follows { IfOk result (λ fed. Lists
        (FollowsAll O.semantics (O.crew staff.old.operator).work
        (commands_of (slice_range from.entry.commands.now from.entry.line fed.next))
        (O.crew staff.new.operator).work)
        [] fed.told.items) }
    ensures told { IfOk result (λ fed. Tells [] fed.told.items) }
    ensures on { IfOk result (λ fed. from.entry.line < fed.next) }
    ensures within { IfOk result (λ fed. fed.next ≤ length from.entry.commands.now) }
    ensures rest { IfOk result (λ fed. drop fed.next from.entry.commands.now
        ≡ after_wait (drop from.entry.line from.entry.commands.now)) }
{
    send_out(setting, &mut staff.workers, from.number);
    let mut told = Vec::new(setting.alloc);
    let fed = feed(
        setting,
        &mut staff.operator,
        from.commands,
        from.line,
        &mut told,
    );
    setting.signs.closed.store(from.number, Ordering::SeqCst);
    setting.signs.feeding.strike();
    ring(setting.rt, setting.desks, 0);
    let next = fed?;
    Ok(Fed { next, told })
}

/// Runs an interval of a script, of which nothing is printed yet: workers go out, the operator follows its lines, and
/// while the workers serve what it put, the reports on the interval before are printed. Then messages tell what became of
/// the lines, and the workers come back.
fn interval<'a, W: Serving + Drop, O: Operating<W> + Drop, R: Wait, P: Console>(
    setting: &Setting<'_, W, R>,
    staff: &mut Staff<W, O>,
    from: Place<'a>,
    before: Answered<'_>,
    writer: &mut P,
) -> Result<Passed<'a>, PrintFault>
    requires home { vec_len staff.old.workers ≡ length setting.now.desks.now }
    requires more { from.line < length from.commands.now }
    ensures home { OnOk result (vec_len staff.new.workers ≡ length setting.now.desks.now) }
    ensures workers { OnOk result
        ((O.crew staff.new.operator).workers ≡ (O.crew staff.old.operator).workers) }
    ensures on { IfOk result (λ passed. from.entry.line < passed.next) }
    ensures within { IfOk result (λ passed. passed.next ≤ length from.entry.commands.now) }
    ensures commands { IfOk result (λ passed. passed.answered.commands.now
        ≡ slice_range from.entry.commands.now from.entry.line passed.next) }
    ensures serves { IfOk result (λ passed. Serves setting.now.manner
        passed.answered.commands.now (O.crew staff.old.operator) (O.crew staff.new.operator)
        passed.answered.reports.items
        passed.answered.found.memory passed.answered.found.refused) }
    ensures prints { OnOk result (Appends (P.contents writer.old) (P.contents writer.new)
        (reports_text setting.now.manner.form before.entry.reports.items)) }
    ensures records { OnOk result (Records (P.recorded writer.old) (P.recorded writer.new)
        before.entry.commands.now before.entry.reports.items) }
    ensures breaks { OnErr result (PrintsBeginning setting.now.manner.form
        (P.contents writer.old) (P.contents writer.new) before.entry.reports.items) }
{
    let fed = set_out(setting, staff, from);
    print_answered(setting.alloc, setting.manner.form, before, writer)?;
    let Fed { next, mut told } = fed?;
    let commands = &from.commands[from.line..next];
    writer.tell(commands, told.as_slice());
    collect(setting, staff, &mut told)?;
    let answered = order(setting.manner, commands, told)?;
    Ok(Passed { next, answered })
}

/// Answers malformed lines without commands, for which no worker goes out.
fn answer<P: Console>(
    alloc: Global,
    manner: Manner,
    malformed: &[MalformedLine<'_>],
    writer: &mut P,
) -> Result<Found, PrintFault>
    ensures shows { IfOk result (λ found. AnswersAndRecords manner (numbers_of malformed.now)
        (P.contents writer.old) (P.contents writer.new)
        (P.recorded writer.old) (P.recorded writer.new) found.memory found.refused) }
    ensures breaks { OnErr result (BreaksMalformed manner.form (numbers_of malformed.now)
        (P.contents writer.old) (P.contents writer.new)) }
{
    let mut told = Vec::new(alloc);
    tell_malformed(alloc, malformed, &mut told)?;
    let found = print_interval(alloc, manner, &[], told, writer)?;
    Ok(found)
}

/// Does the interval with this number: all commands, and malformed lines.
pub(crate) fn whole_interval<W: Serving + Drop, O: Operating<W> + Drop, R: Wait, P: Console>(
    setting: &Setting<'_, W, R>,
    staff: &mut Staff<W, O>,
    given: Given<'_>,
    number: u64,
    writer: &mut P,
) -> Result<Found, PrintFault>
    requires home { vec_len staff.old.workers ≡ length setting.now.desks.now }
    requires whole { after_wait given.commands.now ≡ [] }
    ensures home { OnOk result (vec_len staff.new.workers ≡ length setting.now.desks.now) }
    ensures workers { OnOk result
        ((O.crew staff.new.operator).workers ≡ (O.crew staff.old.operator).workers) }
    ensures shows { IfOk result (λ found. ShowsAndRecords setting.now.manner
        given.entry.commands.now (numbers_of given.entry.malformed.now)
        (P.contents writer.old) (P.contents writer.new)
        (P.recorded writer.old) (P.recorded writer.new)
        (O.crew staff.old.operator) (O.crew staff.new.operator)
        found.memory found.refused) }
    ensures breaks { OnErr result (BreaksFrom setting.now.manner.form
        (commands_of given.entry.commands.now) (numbers_of given.entry.malformed.now)
        (P.contents writer.old) (P.contents writer.new) (O.crew staff.old.operator)) }
{
    if given.commands.is_empty() {
        return answer(setting.alloc, setting.manner, given.malformed, writer);
    }
    let from = Place {
        commands: given.commands,
        line: 0,
        number,
    };
    let Fed { mut told, .. } = set_out(setting, staff, from)?;
    writer.tell(given.commands, told.as_slice());
    tell_malformed(setting.alloc, given.malformed, &mut told)?;
    collect(setting, staff, &mut told)?;
    let found = print_interval(setting.alloc, setting.manner, given.commands, told, writer)?;
    Ok(found)
}

/// Runs all intervals of a script, or those up to a refused line if the run is strict, and returns what the printed
/// lines say. The reports on an interval are printed while the workers serve the next.
pub(crate) fn intervals<W: Serving + Drop, O: Operating<W> + Drop, R: Wait, P: Console>(
    setting: &Setting<'_, W, R>,
    staff: &mut Staff<W, O>,
    commands: &[Numbered<'_>],
    writer: &mut P,
) -> Result<Found, PrintFault>
    requires home { vec_len staff.old.workers ≡ length setting.now.desks.now }
    ensures home { OnOk result (vec_len staff.new.workers ≡ length setting.now.desks.now) }
    ensures workers { OnOk result
        ((O.crew staff.new.operator).workers ≡ (O.crew staff.old.operator).workers) }
    ensures shows { IfOk result (λ found. ShowsScript setting.now.manner
        (Some (commands_of commands.now)) (P.contents writer.old) (P.contents writer.new)
        (O.crew staff.old.operator) (O.crew staff.new.operator) found.memory found.refused) }
    ensures breaks { OnErr result (Breaks setting.now.manner
        (Some (commands_of commands.now)) (P.contents writer.old) (P.contents writer.new)
        (O.crew staff.old.operator)) }
    ensures keeps { OnOk result (KeepsRun setting.now.manner.form
        (Some (commands_of commands.now)) (P.contents writer.old) (P.contents writer.new)
        (P.recorded writer.old) (P.recorded writer.new)) }
{
    let mut line = 0;
    let mut found = Found::nothing();
    let mut before = Answered {
        commands: &[],
        reports: Vec::new(setting.alloc),
        found,
    };
    let mut number = 1u64;
    'intervals: while line < commands.len() {
        if is_over(setting.manner.strict, found.refused) {
            print_answered(setting.alloc, setting.manner.form, before, writer)?;
            return Ok(found);
        }
        let end = commands.len().min(line.saturating_add(MOST_LINES));
        let from = Place {
            commands: &commands[..end],
            line,
            number,
        };
        let passed = interval(setting, staff, from, before, writer)?;
        line = passed.next;
        before = passed.answered;
        found = found.and(before.found);
        number = number.wrapping_add(1);
    }
    print_answered(setting.alloc, setting.manner.form, before, writer)?;
    Ok(found)
}
