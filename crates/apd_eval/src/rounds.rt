//! How long programs take on the queries of a capture.

ghost use Rattle.std.specs.Prelude.{◌≡◌, IfOk, IfSome, length, string_bytes};
ghost use Rattle.bpf_helpers.specs.Hooked.{IsFitting};
ghost use Rattle.capture.specs.Walks.{packets_in};
ghost use Rattle.apd_eval.specs.Repeated.{AreFigures, IsMeasured, IsTold, IsRepeated, figures_line, json_figures, figures_below};

use crate::again::rule;
use crate::evaluation::evaluate;
use crate::follow::Replay;
use crate::meter::Meter;
use crate::row::{Row, TakesRows};
use crate::sums::Course;
use crate::table::Table;
use crate::tried::Policy;
use ap_tables::ApTables;
use bpf_machine::Accepted;
use bpf_regions::{Frame, Hook};
use program_judge::Programs;
use std::alloc::{AllocError, Global};
use std::io;
use std::time::{Clock, Instant};

/// The clock by which rounds are timed, and how many there are, at least 1.
#[derive(Drop)]
pub struct Rounds<'a, C> {
    pub clock: &'a C,
    pub count: u32,
}

/// The nanoseconds of a run: the least of all rounds, and the median; of an even number of rounds, the lower of the two
/// in the middle.
#[derive(Clone, Copy)]
pub struct Figures {
    pub least: u64,
    pub median: u64,
}

/// A table, and the queries of its rows: each row, and the frame of its packet.
#[derive(Drop)]
struct Queries<'a> {
    table: Table,
    rows: Vec<Row>,
    frames: Vec<Frame<'a>>,
}

impl<'a> TakesRows<'a> for Queries<'a> {
    ghost use Rattle.apd_eval.specs.Tabled.{TakesRow};

    ghost taken = { λ q. q.table.tally.rows };

    ghost takes = { λ s row frame t. TakesRow s.table row t.table };

    fn take(&mut self, row: &Row, frame: &Frame<'a>) -> Result<(), AllocError> {
        self.table.take(row, frame)?;
        self.rows.push(*row)?;
        match Frame::new(frame.bytes()) {
            Some(frame) => self.frames.push(frame)?,
            None => unreachable!(),
        }
        Ok(())
    }
}

/// Programs, the first number that they draw, and the queries that they judge again.
#[derive(Clone, Copy)]
struct Matter<'a> {
    hook: Hook,
    programs: &'a Programs,
    draw: u64,
    rows: &'a [Row],
    frames: &'a [Frame<'a>],
}

/// Judges the queries of rows, one after another.
fn judge_all(policy: Policy<'_>, state: &mut Meter, rows: &[Row], frames: &[Frame<'_>])
    requires fitting { IsFitting policy.maps.now 0 state.old.held.seats }
    ensures fitting { IsFitting policy.entry.maps.now 0 state.new.held.seats }
{
    for (row, frame) in rows.iter().zip(frames) {
        rule(policy, state, row, frame);
    }
}

/// The nanoseconds of a run, if so many took the time between two values of a clock; `None` if the clock couldn't be
/// read, or there is no run.
fn nanos_of_a_run(
    begun: io::Result<Instant>,
    ended: io::Result<Instant>,
    runs: usize,
) -> Option<u64> {
    let begun = begun.ok()?;
    let ended = ended.ok()?;
    let all = ended.duration_since(begun).as_nanos();
    let each = all.checked_div(runs as u128)?;
    Some(each.min(u128::from(u64::MAX)) as u64)
}

/// The nanoseconds of a run in one round: all queries, one after another, on maps of zeros that only this
/// round has.
#[tactic(auto, using(bpf_helpers::proofs::Keeping::shapes_kept, bpf_helpers::proofs::Keeping::fitting_kept))]
fn round<C: Clock>(
    alloc: Global,
    matter: Matter<'_>,
    clock: &C,
) -> Result<Option<u64>, AllocError> {
    let mut tables = ApTables::new(alloc, matter.programs.shapes(), 1)?;
    let Ok(state) = tables.worker(alloc, 0, matter.draw) else {
        return Err(AllocError);
    };
    let mut meter = Meter::new(state, Vec::new(alloc));
    let policy = Policy {
        hook: matter.hook,
        programs: matter.programs,
        maps: tables.maps(),
    };
    let begun = Instant::now(clock);
    judge_all(policy, &mut meter, matter.rows, matter.frames);
    let ended = Instant::now(clock);
    Ok(nanos_of_a_run(begun, ended, matter.rows.len()))
}

/// The nanoseconds of a run in each round; `None` if a round couldn't be timed.
fn durations<C: Clock>(
    alloc: Global,
    matter: Matter<'_>,
    rounds: &Rounds<'_, C>,
) -> Result<Option<Vec<u64>>, AllocError>
    ensures count { IfOk result (λ found. IfSome found (λ d. length d.items ≡ rounds.now.count)) }
{
    let mut durations = Vec::new(alloc);
    for _ in 0..rounds.count {
        match round(alloc, matter, rounds.clock)? {
            Some(nanos) => durations.push(nanos)?,
            None => return Ok(None),
        }
    }
    Ok(Some(durations))
}

/// The least and the median of durations; `None` if there are none.
fn figures_of(durations: Vec<u64>) -> Option<Figures>
    ensures are { IfSome result (AreFigures (length durations.items)) }
{
    if durations.is_empty() {
        return None;
    }
    let mut durations = durations;
    durations.sort_unstable();
    let least = durations[0];
    let median = durations[(durations.len() - 1) / 2];
    Some(Figures { least, median })
}

/// The figures of all rounds, if they could be timed.
fn measure<C: Clock>(
    alloc: Global,
    matter: Matter<'_>,
    rounds: &Rounds<'_, C>,
) -> Result<Option<Figures>, AllocError>
    ensures told { IfOk result (IsTold rounds.now.count) }
{
    match durations(alloc, matter, rounds)? {
        Some(durations) => return Ok(figures_of(durations)),
        None => return Ok(None),
    }
}

/// The line of figures.
fn figures_line(alloc: Global, count: u32, figures: Option<Figures>) -> Result<String, AllocError>
    ensures is { IfOk result (λ text. string_bytes text ≡ figures_line count figures) }
{
    match figures {
        Some(Figures { least, median }) => format!(in alloc;
            "repeated {count} times: {least} ns a run at least, {median} ns in the median\n"
        ),
        None => format!(in alloc; "repeated {count} times: no clock tells how long a run takes\n"),
    }
}

/// The same as a line of JSON.
fn json_figures(alloc: Global, count: u32, figures: Option<Figures>) -> Result<String, AllocError>
    ensures is { IfOk result (λ text. string_bytes text ≡ json_figures count figures) }
{
    match figures {
        Some(Figures { least, median }) => format!(in alloc;
            "{{\"repeats\":{count},\"least\":{least},\"median\":{median}}}\n"
        ),
        None => format!(in alloc; "{{\"repeats\":{count},\"least\":null,\"median\":null}}\n"),
    }
}

/// The figures of so many rows as a line; without rows, no text.
fn figures_text(
    alloc: Global,
    rows: usize,
    count: u32,
    figures: Option<Figures>,
    json: bool,
) -> Result<String, AllocError>
    ensures is { IfOk result
        (λ text. string_bytes text ≡ figures_below rows count figures json) }
{
    if rows == 0 {
        return Ok(String::new(alloc));
    }
    if json {
        return json_figures(alloc, count, figures);
    }
    figures_line(alloc, count, figures)
}

/// How long a run takes on the queries of so many rows, as a line; without rows, no text.
fn measured_text<C: Clock>(
    alloc: Global,
    matter: Matter<'_>,
    rows: usize,
    rounds: &Rounds<'_, C>,
    json: bool,
) -> Result<String, AllocError>
    ensures measured { IfOk result
        (λ text. IsMeasured rows rounds.now.count json (string_bytes text)) }
{
    let figures = measure(alloc, matter, rounds)?;
    figures_text(alloc, rows, rounds.count, figures, json)
}

/// The table of a program's verdicts, as `evaluation_text` returns it, and below it how long a run takes, by a clock. In
/// each round the program judges the queries of all rows again, one after another, on maps and a draw word of its own
/// that begin as those of the first judgement, so each run begins from the state from which the run of its row began, and
/// no row depends on the rounds. A round's figure is its time divided by its runs; the line has the least of all rounds
/// and their median. If the clock can't be read, it says so.
pub fn repeated_text<C: Clock>(
    alloc: Global,
    accepted: Accepted,
    replay: Replay<'_>,
    rounds: &Rounds<'_, C>,
    json: bool,
) -> Result<String, AllocError>
    ensures is { IfOk result (λ text. IsRepeated accepted replay.entry.draw replay.entry.link.now
        (packets_in replay.entry.recording.bytes.now) json rounds.now.count (string_bytes text)) }
{
    let hook = accepted.hook();
    let budget = accepted.budget();
    let course = Course {
        hook,
        budget,
        replay,
    };
    let mut queries = Queries {
        table: Table::new(alloc, json)?,
        rows: Vec::new(alloc),
        frames: Vec::new(alloc),
    };
    let programs = evaluate(alloc, accepted, replay, &mut queries)?;
    let matter = Matter {
        hook,
        programs: &programs,
        draw: replay.draw,
        rows: queries.rows.as_slice(),
        frames: queries.frames.as_slice(),
    };
    let judged = queries.table.tally.rows;
    let line = measured_text(alloc, matter, judged, rounds, json)?;
    let Queries { table, .. } = queries;
    table.finish_above(course, line.as_str())
}
