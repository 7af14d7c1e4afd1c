//! Lines as they come on standard input: the command `live`.

ghost use Rattle.std.specs.Prelude.{◌≡◌, ◌<◌};
ghost use Rattle.apd_words.specs.Asked.{text_of};
ghost use Rattle.apd_driver.specs.Capturing.{AreKnown};
ghost use Rattle.apd_program.specs.Printed.{fault_status};
ghost use Rattle.apd_entry.specs.Captured.{KeepsFormed};
ghost use Rattle.apd_entry.specs.Forms.{colours_named, colours_of, form_named, style_named, style_of, RunsLive};

use crate::limits::within;
use apd_driver::{Direct, Form, Manner, Recording, Style, Timed};
use apd_files::Files;
use apd_program::{ProgramFault, complain};
use apd_run::{OpenGate, RunWords, Streams, Surroundings, live};
use apd_words::LiveRun;
use std::io::{self, Input, Read, Write};
use std::sync::Wait;
use std::thread::Threads;
use std::time::Clock;

/// Standard input, which any thread may read.
#[derive(Clone, Copy)]
pub struct Standard<R> {
    pub rt: R,
}

impl<R: Input> Read for Standard<R> {
    fn read(&mut self, buf: &mut [u8]) -> io::Result<usize> {
        self.rt.reader().read(buf)
    }
}

/// The style with a name.
fn style_named(name: &str) -> Option<Style>
    ensures is { result ≡ style_named name.now }
{
    if name == "text" {
        Some(Style::Notices)
    } else if name == "json" {
        Some(Style::Json)
    } else {
        None
    }
}

/// The style that `--events` names; lines without it.
fn style_of(events: Option<&str>) -> Option<Style>
    ensures is { result ≡ style_of (text_of events.entry) }
{
    match events {
        Some(name) => style_named(name),
        None => Some(Style::Lines),
    }
}

/// Whether a word asks for colours, if a terminal shows the output or doesn't.
fn colours_named(shown: bool, name: &str) -> Option<bool>
    ensures is { result ≡ colours_named shown name.now }
{
    if name == "auto" {
        Some(shown)
    } else if name == "always" {
        Some(true)
    } else if name == "never" {
        Some(false)
    } else {
        None
    }
}

/// Whether `--color` asks for colours; without it, a terminal gets them.
fn colours_of(shown: bool, color: Option<&str>) -> Option<bool>
    ensures is { result ≡ colours_of shown (text_of color.entry) }
{
    match color {
        Some(name) => colours_named(shown, name),
        None => Some(shown),
    }
}

/// The form that `--events` and `--color` name, if a terminal shows the output or doesn't; `None` if one is another word.
fn form_named(shown: bool, asked: LiveRun<'_>) -> Option<Form>
    ensures is { result ≡ form_named shown (text_of asked.entry.events)
        (text_of asked.entry.color) }
{
    let style = style_of(asked.events)?;
    let colours = colours_of(shown, asked.color)?;
    Some(Form { style, colours })
}

/// The fault of `--events` or `--color`, if they name no form.
fn unformed(events: Option<&str>) -> ProgramFault
    ensures status { fault_status result ≡ 2 }
{
    match style_of(events) {
        None => ProgramFault::NoStyle,
        Some(_) => ProgramFault::NoColours,
    }
}

/// What a run of lines as they come is given. A prompt asks for lines if somebody types them.
fn words_of<'a>(asked: LiveRun<'a>, form: Form, typed: bool) -> RunWords<'a>
    ensures config { result.config.now ≡ asked.entry.config.now }
    ensures manner { result.manner ≡ record { strict = asked.entry.strict; form = form } }
{
    RunWords {
        config: asked.config,
        script: "-",
        workers: asked.workers,
        manner: Manner {
            strict: asked.strict,
            form,
        },
        verbose: asked.verbose,
        prompts: typed,
        capture: asked.capture.path.unwrap_or(""),
    }
}

/// Runs lines as they come on an input, with a clock if that is asked for. The status is 2 if `--events` names no
/// style or `--color` is another word, and 3 if there is no memory for the thread that reads beside a clock.
pub(crate) fn run_live<R, F, I, O, E>(
    rt: &R,
    asked: LiveRun<'_>,
    files: &mut F,
    streams: Streams<I, O>,
    err: &mut E,
) -> (O, u8)
where
    R: Threads + Wait + Clock + AllocGlobal + Copy + Send + Sync + 'static,
    F: Files,
    I: Read + Drop + Send + 'static,
    O: Recording + Drop,
    E: Write,
    ensures runs { RunsLive (F.held files.old) asked.entry.states asked.entry.work
        asked.entry.config.now streams.shown asked.entry.strict
        (text_of asked.entry.events) (text_of asked.entry.color)
        (O.contents streams.out) (O.contents result.0) result.1 }
    ensures keeps { result.1 < 2 → KeepsFormed (AreKnown O.recorded)
        (form_named streams.shown (text_of asked.entry.events) (text_of asked.entry.color))
        (O.contents streams.out) (O.contents result.0)
        (O.recorded streams.out) (O.recorded result.0) }
{
    let alloc = rt.alloc();
    let Streams {
        input,
        out,
        typed,
        shown,
    } = streams;
    let Some(form) = form_named(shown, asked) else {
        return (out, complain(alloc, &unformed(asked.events), err));
    };
    let words = words_of(asked, form, typed);
    let limits = within(asked.states, asked.work);
    if !asked.clock {
        let streams = Streams {
            input: Direct { input },
            out,
            typed,
            shown,
        };
        let surroundings = Surroundings {
            files,
            limits,
            gate: OpenGate,
            err,
        };
        return live(rt, alloc, words, surroundings, streams);
    }
    match Timed::start(rt, alloc, rt, input) {
        Ok(input) => {
            let streams = Streams {
                input,
                out,
                typed,
                shown,
            };
            let surroundings = Surroundings {
                files,
                limits,
                gate: OpenGate,
                err,
            };
            live(rt, alloc, words, surroundings, streams)
        }
        Err(_) => (out, complain(alloc, &ProgramFault::NoMemory, err)),
    }
}
