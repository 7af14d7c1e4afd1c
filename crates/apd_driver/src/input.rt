//! Lines as they come.

ghost use Rattle.std.specs.Prelude.{◌≡◌, [], None, true, length, vec_len, IfOk, OnOk, OnErr};
ghost use Rattle.std.specs.Io.KnownBytes.{Keeps};
ghost use Rattle.apd_script.specs.Batches.{after_wait};
ghost use Rattle.apd_driver.specs.Captures.{KeepsRun};
ghost use Rattle.apd_driver.specs.Shows.{Breaks, BreaksBatch, ShowsBatch, ShowsScript};
ghost use Rattle.apd_driver.specs.Ticks.{with_tick};

use crate::PrintFault;
use crate::console::Console;
use crate::crew::Serving;
use crate::found::{Found, is_over};
use crate::interval::{Given, whole_interval};
use crate::lines::Lines;
use crate::operating::Operating;
use crate::questions::tell;
use crate::setting::{Setting, Staff};
use crate::source::{Arrival, Source};
use apd_script::{Batch, Command, MOST_BYTES, Numbered, begins_with_quit, read_batch};
use bpf_regions::Shapes;
use std::alloc::{AllocError, Global};
use std::sync::Wait;

/// The greatest number with which a batch begins.
const MOST_NUMBER: u64 = 1 << 63;

/// An input whose lines are done as they come: what was read of it and isn't done, from an index on, and the number of
/// the next line. At most 8193 bytes of an unfinished line are kept. A last line without its end gets one.
#[derive(Drop)]
pub struct Input<S: Drop> {
    source: S,
    shapes: Shapes,
    text: Vec<u8>,
    done: usize,
    number: u64,
    has_ended: bool,
}

/// How far a batch went: how many lines it did, how many bytes follow, and whether they begin with a line `quit`.
#[derive(Clone, Copy)]
struct Step {
    lines: u64,
    left: usize,
    quits: bool,
}

/// The beginning of a line and the bytes behind it; if there are none, a line feed that ends the line.
fn continued(alloc: Global, line: &[u8], block: &[u8]) -> Result<Vec<u8>, AllocError> {
    let mut text = Vec::from_slice(alloc, line)?;
    text.extend_from_slice(block)?;
    if block.is_empty() && !line.is_empty() {
        text.reserve(1)?;
        text.push_reserved(b'\n');
    }
    Ok(text)
}

/// Commands after a tick of these units, which has the number 0; unchanged if they are none.
fn with_tick<'a>(commands: Vec<Numbered<'a>>, units: u32) -> Result<Vec<Numbered<'a>>, AllocError>
    ensures is { IfOk result (λ ticked. ticked.items ≡ with_tick units commands.entry.items) }
    ensures whole { IfOk result (λ ticked. after_wait ticked.items
        ≡ after_wait commands.entry.items) }
{
    let mut commands = commands;
    if units == 0 {
        return Ok(commands);
    }
    let tick = Numbered {
        line: 0,
        command: Command::Tick(units),
    };
    let Ok(()) = commands.insert(0, tick) else {
        return Err(AllocError);
    };
    Ok(commands)
}

impl<S: Source + Drop> Input<S> {
    /// An input of which nothing was read. `shapes` are the shapes of the configured maps.
    pub fn new(alloc: Global, source: S, shapes: Shapes) -> Input<S> {
        Input {
            source,
            shapes,
            text: Vec::new(alloc),
            done: 0,
            number: 1,
            has_ended: false,
        }
    }

    /// What was read and isn't done.
    fn rest(&self) -> &[u8] {
        self.text.get(self.done..).unwrap_or(&[])
    }

    /// The beginning of an unfinished line, as far as it is kept.
    fn kept(&self) -> &[u8] {
        let rest = self.rest();
        rest.get(..MOST_BYTES + 1).unwrap_or(rest)
    }

    /// Flushes the console and reads, until a whole line is there or nothing comes for a while; false at the end of the
    /// input.
    fn advance<P: Console>(&mut self, alloc: Global, console: &mut P) -> Result<bool, PrintFault>
        ensures keeps { Keeps (P.contents console.old) (P.contents console.new) }
        ensures kept { P.recorded console.new ≡ P.recorded console.old }
    {
        for _ in 0..u64::MAX {
            if self.rest().contains(&b'\n') {
                return Ok(true);
            }
            if self.has_ended {
                return Ok(false);
            }
            let Ok(()) = console.flush_all() else {
                return Err(PrintFault::Unwritten);
            };
            if !self.fill(alloc, console)? {
                return Ok(true);
            }
        }
        Ok(false)
    }

    /// Reads the next bytes, behind the beginning of a line, while nothing that was written waits to be flushed. At the end
    /// of the input, it ends that line. False if nothing comes for a while.
    fn fill<P: Console>(&mut self, alloc: Global, console: &P) -> Result<bool, PrintFault>
        requires flushed { P.is_flushed console.now ≡ true }
    {
        let Arrival::Bytes(block) = self.source.next(alloc)? else {
            return Ok(false);
        };
        let text = continued(alloc, self.kept(), block.as_slice())?;
        self.text = text;
        self.done = 0;
        self.has_ended = block.is_empty();
        Ok(true)
    }

    /// The whole lines that are there, up to a `wait` or a `quit`, after a tick of these units.
    fn batch(&self, alloc: Global, units: u32) -> Result<Batch<'_>, AllocError>
        ensures whole { IfOk result (λ batch. after_wait batch.commands.items ≡ []) }
    {
        let first = self.number.min(MOST_NUMBER);
        let Batch {
            commands,
            malformed,
            question,
            lines,
            rest,
        } = read_batch(alloc, self.rest(), &self.shapes, first)?;
        let commands = with_tick(commands, units)?;
        Ok(Batch {
            commands,
            malformed,
            question,
            lines,
            rest,
        })
    }

    /// Goes on behind a batch; to the end if a line `quit` follows.
    fn pass(&mut self, step: Step) {
        self.number = self.number.saturating_add(step.lines);
        self.done = self.text.len().saturating_sub(step.left);
        if step.quits {
            self.has_ended = true;
            self.done = usize::MAX;
        }
    }
}

/// Does a batch in the interval with this number, and answers its question.
fn do_batch<W: Serving + Drop, O: Operating<W> + Drop, R: Wait, P: Console>(
    setting: &Setting<'_, W, R>,
    staff: &mut Staff<W, O>,
    batch: &Batch<'_>,
    number: u64,
    writer: &mut P,
) -> Result<Found, PrintFault>
    requires home { vec_len staff.old.workers ≡ length setting.now.desks.now }
    requires whole { after_wait batch.now.commands.items ≡ [] }
    ensures home { OnOk result (vec_len staff.new.workers ≡ length setting.now.desks.now) }
    ensures workers { OnOk result
        ((O.crew staff.new.operator).workers ≡ (O.crew staff.old.operator).workers) }
    ensures shows { IfOk result (λ found. ShowsBatch setting.now.manner
        (P.contents writer.old) (P.contents writer.new)
        (O.crew staff.old.operator) (O.crew staff.new.operator)
        found.memory found.refused) }
    ensures breaks { OnErr result (BreaksBatch setting.now.manner
        (P.contents writer.old) (P.contents writer.new) (O.crew staff.old.operator)) }
    ensures keeps { OnOk result (KeepsRun setting.now.manner.form None
        (P.contents writer.old) (P.contents writer.new)
        (P.recorded writer.old) (P.recorded writer.new)) }
{
    let given = Given {
        commands: batch.commands.as_slice(),
        malformed: batch.malformed.as_slice(),
    };
    let found = whole_interval(setting, staff, given, number, writer)?;
    tell(setting, &mut staff.operator, batch.question, writer)?;
    Ok(found)
}

/// What the printed lines of a batch say, and how far it went.
#[derive(Clone, Copy)]
struct Passed {
    found: Found,
    step: Step,
}

impl<S: Source + Drop> Input<S> {
    /// Does a tick of the units that have passed, if they are any, and the whole lines that are there, up to a `wait` or a
    /// `quit`, in the interval with this number.
    fn do_lines<W: Serving + Drop, O: Operating<W> + Drop, R: Wait, P: Console>(
        &mut self,
        setting: &Setting<'_, W, R>,
        staff: &mut Staff<W, O>,
        number: u64,
        writer: &mut P,
    ) -> Result<Passed, PrintFault>
        requires home { vec_len staff.old.workers ≡ length setting.now.desks.now }
        ensures home { OnOk result (vec_len staff.new.workers ≡ length setting.now.desks.now) }
        ensures workers { OnOk result
            ((O.crew staff.new.operator).workers ≡ (O.crew staff.old.operator).workers) }
        ensures shows { IfOk result (λ passed. ShowsBatch setting.now.manner
            (P.contents writer.old) (P.contents writer.new)
            (O.crew staff.old.operator) (O.crew staff.new.operator)
            passed.found.memory passed.found.refused) }
        ensures breaks { OnErr result (BreaksBatch setting.now.manner
            (P.contents writer.old) (P.contents writer.new) (O.crew staff.old.operator)) }
        ensures keeps { OnOk result (KeepsRun setting.now.manner.form None
            (P.contents writer.old) (P.contents writer.new)
            (P.recorded writer.old) (P.recorded writer.new)) }
    {
        let units = self.source.passed();
        let batch = self.batch(setting.alloc, units)?;
        let step = Step {
            lines: batch.lines,
            left: batch.rest.len(),
            quits: begins_with_quit(batch.rest),
        };
        let done = do_batch(setting, staff, &batch, number, writer);
        drop(batch);
        let found = done?;
        Ok(Passed { found, step })
    }
}

impl<S: Source + Drop> Input<S> {
    /// Does all lines, or those up to a line at fault if the run is strict, and returns what the printed lines say.
    fn do_all<W: Serving + Drop, O: Operating<W> + Drop, R: Wait, P: Console>(
        &mut self,
        setting: &Setting<'_, W, R>,
        staff: &mut Staff<W, O>,
        writer: &mut P,
    ) -> Result<Found, PrintFault>
        requires home { vec_len staff.old.workers ≡ length setting.now.desks.now }
        ensures home { OnOk result (vec_len staff.new.workers ≡ length setting.now.desks.now) }
        ensures workers { OnOk result
            ((O.crew staff.new.operator).workers ≡ (O.crew staff.old.operator).workers) }
        ensures shows { IfOk result (λ found. ShowsScript setting.now.manner None
            (P.contents writer.old) (P.contents writer.new)
            (O.crew staff.old.operator) (O.crew staff.new.operator)
            found.memory found.refused) }
        ensures breaks { OnErr result (Breaks setting.now.manner None
            (P.contents writer.old) (P.contents writer.new) (O.crew staff.old.operator)) }
        ensures keeps { OnOk result (KeepsRun setting.now.manner.form None
            (P.contents writer.old) (P.contents writer.new)
            (P.recorded writer.old) (P.recorded writer.new)) }
    {
        let mut found = Found::nothing();
        let mut number = 1u64;
        'intervals: while number < u64::MAX {
            if is_over(setting.manner.strict, found.refused) {
                return Ok(found);
            }
            if !self.advance(setting.alloc, writer)? {
                return Ok(found);
            }
            let passed = self.do_lines(setting, staff, number, writer)?;
            self.pass(passed.step);
            found = found.and(passed.found);
            number += 1;
        }
        Ok(found)
    }
}

impl<S: Source + Drop> Lines for Input<S> {
    ghost use Rattle.std.specs.Prelude.{None};

    ghost script = { λ _. None };

    fn run<W: Serving + Drop, O: Operating<W> + Drop, R: Wait, P: Console>(
        self,
        setting: &Setting<'_, W, R>,
        staff: &mut Staff<W, O>,
        writer: &mut P,
    ) -> Result<Found, PrintFault> {
        let mut input = self;
        let found = input.do_all(setting, staff, writer);
        let Input { source, .. } = input;
        source.end();
        found
    }
}
