//! A capture that is written as a run goes on.

ghost use Rattle.std.specs.Prelude.{◌≡◌, ◌++◌, ◌↔◌, ℕ, List, [], OnOk, map};
ghost use Rattle.std.specs.Io.KnownBytes.{Appends};
ghost use Rattle.capture.specs.Captures.{Holds};
ghost use Rattle.capture.specs.Packets.{Seen};
ghost use Rattle.capture.specs.Writing.{blocks_of, heading, seen_from};
ghost use Rattle.apd_files.specs.Beginning.{AppendsBeginning};
ghost use Rattle.apd_driver.specs.Captures.{Interval, IsOfRun, run_packets};
ghost use Rattle.apd_driver.specs.Capturing.{interval_packets, time_after_all};
ghost use Rattle.apd_driver.specs.Moving.{MovesOn};

use crate::Report;
use crate::captures::packets::{append_line, time_after, time_after_all, up_to};
use apd_files::{Unwritten, write_whole};
use apd_script::Numbered;
use capture::{append_heading, written_law};
use std::alloc::{AllocError, Global};
use std::io::{ErrorKind, Write};

/// Why a capture isn't whole.
#[derive(Clone, Copy)]
pub enum Unrecorded {
    /// A write failed, or the file wasn't made.
    Unwritten(ErrorKind),
    /// An allocation failed.
    NoMemory,
}

impl From<AllocError> for Unrecorded {
    fn from(_error: AllocError) -> Unrecorded {
        Unrecorded::NoMemory
    }
}

impl From<Unwritten> for Unrecorded {
    fn from(error: Unwritten) -> Unrecorded {
        Unrecorded::Unwritten(error.0)
    }
}

/// The length from which blocks are written.
const ENOUGH: usize = 1 << 15;

/// Writes the blocks, and empties the list.
fn flush<T: Write>(blocks: &mut Vec<u8>, tape: &mut T) -> Result<(), Unwritten>
    ensures whole { OnOk result
        (Appends (T.contents tape.old) (T.contents tape.new) blocks.old.items) }
    ensures beginning { AppendsBeginning
        (T.contents tape.old) (T.contents tape.new) blocks.old.items }
    ensures empty { OnOk result (blocks.new.items ≡ []) }
{
    write_whole(tape, blocks.as_slice())?;
    blocks.clear();
    Ok(())
}

/// Writes the blocks if they are long.
fn flush_if_long<T: Write>(blocks: &mut Vec<u8>, tape: &mut T) -> Result<(), Unwritten>
    ensures moved { OnOk result (MovesOn (T.contents tape.old) (T.contents tape.new)
        blocks.old.items blocks.new.items) }
{
    if blocks.len() >= ENOUGH {
        flush(blocks, tape)?;
    }
    Ok(())
}

/// Writes the packets of consecutive commands from this time on, and of the reports that are printed of them, in order.
fn write_interval<T: Write>(
    alloc: Global,
    tape: &mut T,
    time: u64,
    commands: &[Numbered<'_>],
    reports: &[Report],
) -> Result<(), Unrecorded>
    ensures whole { OnOk result (Appends (T.contents tape.old) (T.contents tape.new)
        (blocks_of (interval_packets time commands.now reports.now))) }
{
    let mut blocks = Vec::new(alloc);
    let mut now = time;
    let mut rest = reports;
    for numbered in commands {
        now = time_after(now, &numbered.command);
        let (mine, after) = rest.split_at(up_to(numbered.line, rest));
        append_line(alloc, &mut blocks, now, numbered, mine)?;
        flush_if_long(&mut blocks, tape)?;
        rest = after;
    }
    flush(&mut blocks, tape)?;
    Ok(())
}

/// A capture that is written as a run goes on: where it goes, and the time so far, in nanoseconds since the start.
#[derive(Drop)]
pub struct Recorder<T: Drop> {
    pub alloc: Global,
    pub tape: T,
    pub time: u64,
}

impl<T: Drop> Recorder<T> {
    /// A capture of which nothing was written.
    pub fn new(alloc: Global, tape: T) -> Recorder<T>
        ensures tape { result.tape ≡ tape }
        ensures time { result.time ≡ 0 }
    {
        Recorder {
            alloc,
            tape,
            time: 0,
        }
    }
}

impl<T: Write + Drop> Recorder<T> {
    /// Writes what a capture begins with.
    pub(crate) fn write_heading(&mut self) -> Result<(), Unrecorded>
        ensures whole { OnOk result
            (Appends (T.contents self.old.tape) (T.contents self.new.tape) heading) }
        ensures time { self.new.time ≡ self.old.time }
    {
        let mut blocks = Vec::new(self.alloc);
        append_heading(self.alloc, &mut blocks)?;
        flush(&mut blocks, &mut self.tape)?;
        Ok(())
    }

    /// Writes the packets of consecutive commands, and of the reports that are printed of them, in order.
    pub(crate) fn write(
        &mut self,
        commands: &[Numbered<'_>],
        reports: &[Report],
    ) -> Result<(), Unrecorded>
        ensures whole { OnOk result (Appends (T.contents self.old.tape) (T.contents self.new.tape)
            (blocks_of (interval_packets self.old.time commands.now reports.now))) }
        ensures time { OnOk result (self.new.time ≡ time_after_all self.old.time commands.now) }
    {
        write_interval(self.alloc, &mut self.tape, self.time, commands, reports)?;
        self.time = time_after_all(self.time, commands);
        Ok(())
    }
}

/// Reading what a capture holds after a run gives the packets of its intervals, and no others.
pub fn capture_law()
    ensures read { (bytes : List ℕ) → (intervals : List Interval) → IsOfRun bytes intervals
        → (seen : List Seen) → Holds bytes seen ↔ (seen ≡ map seen_from (run_packets 0 intervals)) }
{
    written_law();
}
