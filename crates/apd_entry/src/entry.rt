//! From words to a status: `apd` runs a script, or lines as they come, with threads, or answers a question.

ghost use Rattle.std.specs.Prelude.{◌≡◌, ◌<◌, true, map};
ghost use Rattle.apd_driver.specs.Capturing.{AreKnown};
ghost use Rattle.apd_run.specs.Captured.{KeepsScript};
ghost use Rattle.apd_run.specs.NewRuns.{RunsScript};
ghost use Rattle.apd_program.specs.Verifying.{within};
ghost use Rattle.apd_words.specs.Asked.{Wanted, text_of};
ghost use Rattle.apd_words.specs.Spells.{Spells};
ghost use Rattle.apd_entry.specs.Fulfilled.{Fulfils};
ghost use Rattle.apd_entry.specs.Captured.{AreWritten, CapturesInPlace, KeepsInPlace, KeepsLiveInPlace, is_in_place, lines_known};
ghost use Rattle.apd_entry.specs.Forms.{form_named, in_lines, RunsLive};

use crate::destination::{beside, in_place, is_in_place};
use crate::limits;
use crate::lines::run_live;
use apd_driver::{Form, Manner, Recording};
use apd_files::{Files, Tapes};
use apd_program::{Posed, ProgramFault, complain, judge_cases, respond, tell};
use apd_run::{OpenGate, Progress, RunWords, Streams, Surroundings, run};
use apd_words::{LiveRun, Request, ScriptRun, read_words};
use std::io::{Read, Write};
use std::sync::Wait;
use std::thread::Threads;
use std::time::Clock;

/// Where texts of faults go. `watched` says that somebody is watching, as at a terminal: then the progress of a long
/// run goes to standard error.
#[derive(Drop)]
pub struct Messages<'a, E> {
    pub err: &'a mut E,
    pub watched: bool,
}

/// What a run of a script is given.
fn words_of<'a>(asked: ScriptRun<'a>) -> RunWords<'a>
    ensures config { result.config.now ≡ asked.entry.config.now }
    ensures manner { result.manner ≡ in_lines asked.entry.strict }
    ensures script { result.script.now ≡ asked.entry.script.now }
{
    RunWords {
        config: asked.config,
        script: asked.script,
        workers: asked.workers,
        manner: Manner {
            strict: asked.strict,
            form: Form::LINES,
        },
        verbose: asked.verbose,
        prompts: false,
        capture: asked.capture.path.unwrap_or(""),
    }
}

/// Runs a script, and reports its progress to whoever watches, if wanted.
fn run_watched<R, F, P, E>(
    rt: &R,
    asked: ScriptRun<'_>,
    files: &mut F,
    out: P,
    messages: Messages<'_, E>,
) -> (P, u8)
where
    R: Threads + Wait + Sync + Clock + Eprint + AllocGlobal,
    F: Files,
    P: Recording + Drop,
    E: Write,
    ensures runs { RunsScript (F.held files.old) (within asked.entry.states asked.entry.work)
        asked.entry.config.now asked.entry.script.now (in_lines asked.entry.strict)
        (P.contents out) (P.contents result.0) result.1 }
    ensures keeps { result.1 < 2 → KeepsScript (F.held files.old) asked.entry.script.now
        (AreKnown P.recorded) (in_lines asked.entry.strict).form
        (P.contents out) (P.contents result.0) (P.recorded out) (P.recorded result.0) }
{
    let alloc = rt.alloc();
    let watched = messages.watched;
    let mut messages = messages;
    let err = &mut *messages.err;
    let words = words_of(asked);
    let limits = limits::within(asked.states, asked.work);
    if watched && !asked.quiet {
        let progress = Progress::new(rt);
        let surroundings = Surroundings {
            files,
            limits,
            gate: &progress,
            err,
        };
        return run(rt, alloc, words, surroundings, out);
    }
    let surroundings = Surroundings {
        files,
        limits,
        gate: OpenGate,
        err,
    };
    run(rt, alloc, words, surroundings, out)
}

/// Runs a script, with a capture if that is wanted.
fn run_script<R, F, O, E>(
    rt: &R,
    asked: ScriptRun<'_>,
    files: &mut F,
    out: O,
    messages: Messages<'_, E>,
) -> (O, u8)
where
    R: Threads + Wait + Sync + Clock + Eprint + AllocGlobal,
    F: Files + Tapes,
    O: Write + Drop,
    E: Write,
    ensures runs { RunsScript (F.held files.old) (within asked.entry.states asked.entry.work)
        asked.entry.config.now asked.entry.script.now (in_lines asked.entry.strict)
        (lines_known (text_of asked.entry.capture.path) (O.contents out))
        (lines_known (text_of asked.entry.capture.path) (O.contents result.0)) result.1 }
    ensures captures { result.1 < 2 → is_in_place (text_of asked.entry.capture.path) ≡ true
        → KeepsInPlace (AreWritten O.contents) (F.held files.old) asked.entry.script.now
        (in_lines asked.entry.strict) (O.contents out) (O.contents result.0) }
{
    let alloc = rt.alloc();
    if is_in_place(asked.capture) {
        let out = in_place(alloc, out);
        let (out, status) = run_watched(rt, asked, files, out, messages);
        return (out.capture.tape, status);
    }
    match beside(alloc, asked.capture, files, out) {
        Ok(out) => {
            let (out, status) = run_watched(rt, asked, files, out, messages);
            (out.lines, status)
        }
        Err(out) => (out, complain(alloc, &ProgramFault::NoMemory, messages.err)),
    }
}

/// Runs lines as they come on an input, with a capture if that is wanted.
fn run_input<R, F, I, O, E>(
    rt: &R,
    asked: LiveRun<'_>,
    files: &mut F,
    streams: Streams<I, O>,
    err: &mut E,
) -> (O, u8)
where
    R: Threads + Wait + Clock + AllocGlobal + Copy + Send + Sync + 'static,
    F: Files + Tapes,
    I: Read + Drop + Send + 'static,
    O: Write + Drop,
    E: Write,
    ensures runs { RunsLive (F.held files.old) asked.entry.states asked.entry.work
        asked.entry.config.now streams.shown asked.entry.strict
        (text_of asked.entry.events) (text_of asked.entry.color)
        (lines_known (text_of asked.entry.capture.path) (O.contents streams.out))
        (lines_known (text_of asked.entry.capture.path) (O.contents result.0)) result.1 }
    ensures captures { result.1 < 2 → is_in_place (text_of asked.entry.capture.path) ≡ true
        → KeepsLiveInPlace (AreWritten O.contents)
        (form_named streams.shown (text_of asked.entry.events) (text_of asked.entry.color))
        (O.contents streams.out) (O.contents result.0) }
{
    let alloc = rt.alloc();
    let Streams {
        input,
        out,
        typed,
        shown,
    } = streams;
    if is_in_place(asked.capture) {
        let streams = Streams {
            input,
            out: in_place(alloc, out),
            typed,
            shown,
        };
        let (out, status) = run_live(rt, asked, files, streams, err);
        return (out.capture.tape, status);
    }
    match beside(alloc, asked.capture, files, out) {
        Ok(out) => {
            let streams = Streams {
                input,
                out,
                typed,
                shown,
            };
            let (out, status) = run_live(rt, asked, files, streams, err);
            (out.lines, status)
        }
        Err(out) => (out, complain(alloc, &ProgramFault::NoMemory, err)),
    }
}

/// The output of streams whose input nobody reads.
fn output_of<I: Drop, O: Drop>(streams: Streams<I, O>) -> O
    ensures is { result ≡ streams.out }
{
    let Streams { out, .. } = streams;
    out
}

/// Does what the words ask for; the first is the program's own name. An answer goes to `out`, or, if it is a
/// success, to the file named for it. Returns `out` and the exit status: 0 for success; 1 if something was refused
/// (in a script's run, only if it is strict), a line of `live` is malformed or a capture is cut; 2 for a fault of the
/// words, a configuration, a script, a file, a read or a write; 3 for lack of memory.
pub fn perform<'a, R, F, I, O, E>(
    rt: &R,
    words: &'a [&'a str],
    files: &mut F,
    streams: Streams<I, O>,
    messages: Messages<'_, E>,
) -> (O, u8)
where
    R: Threads + Wait + Clock + Eprint + AllocGlobal + Copy + Send + Sync + 'static,
    F: Files + Tapes,
    I: Read + Drop + Send + 'static,
    O: Write + Drop,
    E: Write,
    ensures fulfils { (w : Wanted) → Spells (map (λ word. word.now) words.entry.now) w
        → Fulfils streams.shown (F.held files.old) w (O.contents streams.out) (O.contents result.0) result.1 }
    ensures captures { (w : Wanted) → Spells (map (λ word. word.now) words.entry.now) w
        → result.1 < 2 → CapturesInPlace streams.shown (AreWritten O.contents) (F.held files.old) w
        (O.contents streams.out) (O.contents result.0) }
{
    let alloc = rt.alloc();
    match read_words(alloc, words) {
        Ok(Request::Run(asked)) => {
            let out = output_of(streams);
            run_script(rt, asked, files, out, messages)
        }
        Ok(Request::Live(asked)) => run_input(rt, asked, files, streams, messages.err),
        Ok(Request::Answer(query)) => {
            let mut out = output_of(streams);
            let posed = Posed { query, clock: rt };
            let status = respond(alloc, posed, files, &mut out, messages.err);
            (out, status)
        }
        Ok(Request::Test(paths)) => {
            let mut out = output_of(streams);
            let status = judge_cases(alloc, paths.as_slice(), files, &mut out, messages.err);
            (out, status)
        }
        Err(told) => {
            let mut out = output_of(streams);
            let status = tell(alloc, &told, &mut out, messages.err);
            (out, status)
        }
    }
}
