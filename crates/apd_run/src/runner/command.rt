//! The commands `apd run` and `apd live`.

ghost use Rattle.std.specs.Prelude.{◌≡◌, ◌<◌, ◌≤◌, None, IfErr, IfOk, OnOk};
ghost use Rattle.apd_driver.specs.Captures.{KeepsWhole};
ghost use Rattle.apd_driver.specs.Capturing.{AreKnown, Begins};
ghost use Rattle.apd_driver.specs.Shows.{IsBroken};
ghost use Rattle.apd_run.specs.Captured.{KeepsCapture, KeepsScript};
ghost use Rattle.apd_run.specs.NewRuns.{IsConfigurationAt, RunsInput, RunsNew, RunsScript, plan_of};

use crate::access::{Limits, NewShards, Opening, Supplies, run_live};
use crate::progress::Watcher;
use crate::runner::fault::{
    Origin, RunFault, complain, of_script, say_if_group, say_why, uncaptured, unreadable,
};
use crate::runner::setup::{configuration, read, settings};
use apd_config::Configuration;
use apd_driver::{Console, Input, Lines, Manner, Notes, Recording, Script, Source, Terminal};
use apd_files::{FileKind, Files};
use apd_script::{Numbered, read_script};
use std::alloc::Global;
use std::io::Write;
use std::marker::Brand;
use std::sync::Wait;
use std::thread::Threads;

/// A command's arguments: the paths of a configuration and of a script, and the number of workers, 1 to 8. A larger
/// number counts as 8, and 0 as 1. `apd live` has `-` for the script.
#[derive(Clone, Copy)]
pub struct RunWords<'a> {
    pub config: &'a str,
    pub script: &'a str,
    pub workers: u8,
    pub manner: Manner,
    /// Whether messages tell of each load, and of each hook without a program at the end.
    pub verbose: bool,
    /// Whether a prompt on standard error asks for lines.
    pub prompts: bool,
    /// The path of the capture, if the run keeps one.
    pub capture: &'a str,
}

/// What a run stands in: the files of its programs, what the verifier or a check may do for each of them, the gate that is
/// told of each event, and where texts of faults go.
#[derive(Drop)]
pub struct Surroundings<'a, F, G: Drop, E> {
    pub files: &'a mut F,
    pub limits: Limits,
    pub gate: G,
    pub err: &'a mut E,
}

/// Where the lines of `apd live` come from, with the time that passes, and where its answers go.
#[derive(Drop)]
pub struct Streams<S: Drop, P: Drop> {
    pub input: S,
    pub out: P,
    /// Whether somebody types the input, at a terminal.
    pub typed: bool,
    /// Whether a terminal shows what is written to `out`.
    pub shown: bool,
}

/// What a run does: what it is asked, the configuration of its access point, the lines that this does, and where they come
/// from.
#[derive(Drop)]
struct Task<'a, L: Drop> {
    words: RunWords<'a>,
    configuration: Configuration,
    lines: L,
    origin: Origin,
}

/// The number of parts of each ledger.
const PARTS: u64 = 17;

/// The path of standard input.
const INPUT: &str = "-";

/// The number of the last line with a command, or 0 if there is none.
fn last_line(commands: &[Numbered<'_>]) -> u64 {
    match commands.last() {
        Some(numbered) => numbered.line,
        None => 0,
    }
}

/// Runs lines on a new access point, under a configuration.
fn run_task<R, F, G, L, P>(
    rt: &R,
    alloc: Global,
    task: Task<'_, L>,
    supplies: Supplies<'_, F, G>,
    writer: P,
) -> (P, u8)
where
    R: Threads + Wait + Sync,
    F: Files,
    G: Watcher + Copy + Send,
    L: Lines + Drop,
    P: Console + Drop,
    ensures runs { RunsNew (F.held supplies.entry.files.now) supplies.entry.limits
        (plan_of task.entry.configuration) (P.manner writer) (L.script task.entry.lines)
        (P.contents writer) (P.contents result.0) result.1 }
    ensures keeps { result.1 < 2 → KeepsWhole (P.manner writer).form (L.script task.entry.lines)
        (P.contents writer) (P.contents result.0)
        (P.recorded writer) (P.recorded result.0) }
{
    let Task {
        words,
        configuration,
        lines,
        ..
    } = task;
    let Ok(shapes) = configuration.maps.clone() else {
        return (writer, 3);
    };
    let workers = words.workers.max(1).min(8);
    let opening = Opening {
        settings: settings(configuration, workers),
        shapes,
        new: NewShards::new(PARTS),
        lines,
    };
    run_live::<Brand, F, G, R, L, P>(rt, alloc, opening, supplies, writer)
}

/// Makes the capture of a run, if it keeps one. Err: it can't be written, which `err` is told, with the exit status.
fn begun<P: Recording, E: Write>(
    alloc: Global,
    path: &str,
    out: &mut P,
    err: &mut E,
) -> Result<(), u8>
    ensures output { P.contents out.new ≡ P.contents out.old }
    ensures broken { IfErr result IsBroken }
    ensures heading { OnOk result (AreKnown P.recorded
        → Begins (P.recorded out.old) (P.recorded out.new)) }
{
    match out.begin() {
        Ok(()) => Ok(()),
        Err(why) => Err(complain(alloc, &uncaptured(alloc, path, why), err)),
    }
}

/// Runs lines on a new access point. Messages on `err` say what a hook keeps after a refused load, and what a status
/// other than 0 means, unless nobody reads any more what is written.
fn run_told<R, F, G, L, P, E>(
    rt: &R,
    alloc: Global,
    task: Task<'_, L>,
    surroundings: Surroundings<'_, F, G, E>,
    out: P,
) -> (P, u8)
where
    R: Threads + Wait + Sync,
    F: Files,
    G: Watcher + Copy + Send,
    L: Lines + Drop,
    P: Recording + Drop,
    E: Write,
    ensures runs { RunsNew (F.held surroundings.entry.files.now) surroundings.entry.limits
        (plan_of task.entry.configuration) task.entry.words.manner (L.script task.entry.lines)
        (P.contents out) (P.contents result.0) result.1 }
    ensures keeps { result.1 < 2 → KeepsWhole task.entry.words.manner.form
        (L.script task.entry.lines) (P.contents out) (P.contents result.0)
        (P.recorded out) (P.recorded result.0) }
{
    let Surroundings {
        files,
        limits,
        gate,
        err,
    } = surroundings;
    let words = task.words;
    let origin = task.origin;
    let maps = &task.configuration.maps;
    let Ok(notes) = Notes::new(alloc, words.script, maps, words.verbose) else {
        say_why(3, origin, err);
        return (out, 3);
    };
    let console = Terminal {
        out,
        err: &mut *err,
        notes,
        manner: words.manner,
        prompts: words.prompts,
        is_flushed: false,
        reader_left: false,
    };
    let supplies = Supplies {
        files,
        limits,
        gate,
    };
    let (console, status) = run_task(rt, alloc, task, supplies, console);
    let reader_left = console.reader_left;
    let out = console.end();
    if !reader_left {
        say_why(status, origin, err);
    }
    (out, status)
}

/// Runs the script in a file: the operator follows its lines one after another, each once, or a prefix of them if the run
/// ends early. Returns `out` and the exit status: 3 if a line says `memory`, or an allocation failed for the run itself; 2 for a fault of a file, the configuration, the script, the capture or a write; otherwise 1 if the run is strict
/// and a line was refused, which ends the run after that interval; otherwise 0. If the run breaks off, the contract
/// doesn't say whether the status is 2 or 3. A faulty script is refused before any line runs. Messages on `err` say what
/// a status of 1, 2 or 3 means, unless a write failed since nobody reads any more, and what a hook keeps after a refused
/// load.
pub fn run<R, F, G, P, E>(
    rt: &R,
    alloc: Global,
    words: RunWords<'_>,
    surroundings: Surroundings<'_, F, G, E>,
    out: P,
) -> (P, u8)
where
    R: Threads + Wait + Sync,
    F: Files,
    G: Watcher + Copy + Send,
    P: Recording + Drop,
    E: Write,
    ensures runs { RunsScript (F.held surroundings.entry.files.now) surroundings.entry.limits
        words.entry.config.now words.entry.script.now words.entry.manner
        (P.contents out) (P.contents result.0) result.1 }
    ensures keeps { result.1 < 2 → KeepsScript (F.held surroundings.entry.files.now)
        words.entry.script.now (AreKnown P.recorded) words.entry.manner.form
        (P.contents out) (P.contents result.0)
        (P.recorded out) (P.recorded result.0) }
{
    let mut out = out;
    let Surroundings {
        files,
        limits,
        gate,
        err,
    } = surroundings;
    let configuration = match configuration(alloc, words.config, &mut *files) {
        Ok(configuration) => configuration,
        Err(fault) => return (out, complain(alloc, &fault, err)),
    };
    say_if_group(alloc, words.config, &configuration, err);
    let text = match read(alloc, words.script, FileKind::Script, &mut *files) {
        Ok(text) => text,
        Err(fault) => return (out, complain(alloc, &fault, err)),
    };
    let commands = match read_script(alloc, text.as_slice(), &configuration.maps) {
        Ok(commands) => commands,
        Err(fault) => {
            let shapes = &configuration.maps;
            let fault = of_script(alloc, words.script, text.as_slice(), shapes, fault);
            return (out, complain(alloc, &fault, err));
        }
    };
    let commands = commands.as_slice();
    if let Err(status) = begun(alloc, words.capture, &mut out, err) {
        return (out, status);
    }
    gate.start(last_line(commands));
    let lines = Script { commands };
    let task = Task {
        words,
        configuration,
        lines,
        origin: Origin::Script,
    };
    let surroundings = Surroundings {
        files,
        limits,
        gate,
        err,
    };
    run_told(rt, alloc, task, surroundings, out)
}

/// Runs the lines of an input as they come, and returns `out` and the exit status. Whenever what was read of the input
/// holds whole lines, they are done, and their answers written and flushed, before more is read. Before them a tick with
/// the number 0 lets the time pass that the input says has passed, if that is a unit or more; the same while no line
/// comes. The run ends with the input, or before a line `quit`. The status is 3 if a line says `memory`, or an allocation
/// failed for the run itself; 2 for a fault of the configuration, the capture, a read or a write; otherwise 1 if a line was
/// malformed, or the run is strict and a line was refused; otherwise 0. A strict run ends after the interval of such a
/// line. If the run breaks off, the contract doesn't say whether the status is 2 or 3. Messages on `err` are those of
/// `run`.
pub fn live<R, F, G, S, P, E>(
    rt: &R,
    alloc: Global,
    words: RunWords<'_>,
    surroundings: Surroundings<'_, F, G, E>,
    streams: Streams<S, P>,
) -> (P, u8)
where
    R: Threads + Wait + Sync,
    F: Files,
    G: Watcher + Copy + Send,
    S: Source + Drop,
    P: Recording + Drop,
    E: Write,
    ensures runs { RunsInput (F.held surroundings.entry.files.now) surroundings.entry.limits
        words.entry.config.now words.entry.manner
        (P.contents streams.out) (P.contents result.0) result.1 }
    ensures keeps { result.1 < 2 → KeepsCapture (AreKnown P.recorded) words.entry.manner.form None
        (P.contents streams.out) (P.contents result.0)
        (P.recorded streams.out) (P.recorded result.0) }
{
    let Streams { input, mut out, .. } = streams;
    let mut surroundings = surroundings;
    let configuration = match live_configuration(alloc, words.config, &mut *surroundings.files) {
        Ok(configuration) => configuration,
        Err(fault) => {
            input.end();
            return (out, complain(alloc, &fault, &mut *surroundings.err));
        }
    };
    say_if_group(alloc, words.config, &configuration, &mut *surroundings.err);
    let Ok(shapes) = configuration.maps.clone() else {
        input.end();
        return (
            out,
            complain(alloc, &RunFault::NoMemory, &mut *surroundings.err),
        );
    };
    if let Err(status) = begun(alloc, words.capture, &mut out, &mut *surroundings.err) {
        input.end();
        return (out, status);
    }
    let lines = Input::new(alloc, input, shapes);
    let task = Task {
        words,
        configuration,
        lines,
        origin: Origin::Input,
    };
    run_told(rt, alloc, task, surroundings, out)
}

/// The configuration of `apd live`, which takes standard input for its lines: no other file may be that.
fn live_configuration<F: Files>(
    alloc: Global,
    path: &str,
    files: &mut F,
) -> Result<Configuration, RunFault>
    ensures same { F.held files.new ≡ F.held files.old }
    ensures read { IfOk result (IsConfigurationAt (F.held files.old) path.now) }
{
    if let Err(why) = files.open(INPUT) {
        return Err(unreadable(alloc, INPUT, why));
    }
    let configuration = configuration(alloc, path, files)?;
    Ok(configuration)
}
