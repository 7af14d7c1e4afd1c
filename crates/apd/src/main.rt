//! The program `apd`: a programmable access point that runs scripts, and programs for its hooks, from the command line.
#![tactic(auto)]

use apd_entry::{Messages, Standard, Streams};
use apd_files::RealFiles;
use std::alloc::{AllocError, Global};
use std::env::FillError;
use std::io::{ErrorKind, Input, IsTerminal, Read, Write};
use std::process::ExitCode;
use std::rt::Env;
use std::sync::Wait;
use std::thread::Threads;
use std::time::Clock;
use std::{env, io, rt};

fn main(rt: HostRuntime) -> ExitCode {
    let mut err = rt.stderr();
    let watched = err.is_terminal();
    let messages = Messages {
        err: &mut err,
        watched,
    };
    let out = rt.stdout();
    let shown = out.is_terminal() && has_colours(&rt);
    let streams = Streams {
        input: Standard { rt },
        out,
        typed: watched && rt.stdin().is_terminal(),
        shown,
    };
    match run(&rt, rt.alloc(), streams, messages) {
        Ok(status) => ExitCode::from(status),
        Err(error) => ExitCode::from(failed(&rt, &mut err, &error)),
    }
}

/// Whether the terminal, by its name in the environment, has colours.
fn has_colours(rt: &impl Env) -> bool {
    let mut name = [0; 64];
    match rt.var("TERM", &mut name) {
        Ok(length) => name.get(..length) != Some(b"dumb".as_slice()),
        Err(FillError::TooLong) => true,
        Err(FillError::NotPresent) => false,
    }
}

/// Half of the depth to which the main thread's stack is touched, in bytes.
const HALF: usize = 1 << 18;

/// Touches the main thread's stack deeper than the program uses it, so that it doesn't grow later: a stack that can't
/// grow ends the program by a signal. Err: there is too little memory for that depth.
fn reach_down(rt: &impl Env, alloc: Global) -> Result<(), AllocError> {
    // The stack then takes the memory that is allocated and freed here.
    let room: Vec<u8> = Vec::with_capacity(alloc, 2 * HALF)?;
    drop(room);
    touch(rt);
    Ok(())
}

/// Uses a stack frame of half the depth, and another below it, and writes the first letter of the program's name to the
/// lowest byte of each.
#[inline(never)]
fn touch(rt: &impl Env) {
    let mut frame = [0; HALF];
    touch_lower(rt);
    let _ = rt.arg(0, &mut frame);
}

#[inline(never)]
fn touch_lower(rt: &impl Env) {
    let mut frame = [0; HALF];
    let _ = rt.arg(0, &mut frame);
}

/// Runs the program on its words, and returns its exit status.
fn run<R, I, O, E>(
    rt: &R,
    alloc: Global,
    streams: Streams<I, O>,
    messages: Messages<'_, E>,
) -> io::Result<u8>
where
    R: Threads + Wait + Clock + Input + Eprint + Env + rt::Files + AllocGlobal,
    R: Copy + Send + Sync + 'static,
    I: Read + Drop + Send + 'static,
    O: Write + Drop,
    E: Write,
{
    reach_down(rt, alloc)?;
    let given = given_words(rt)?;
    let mut words = Vec::new(alloc);
    for word in &given {
        words.push(word.as_str()).map_err(AllocError::from)?;
    }
    let mut files = RealFiles::new(rt);
    let (_, status) = apd_entry::perform(rt, words.as_slice(), &mut files, streams, messages);
    Ok(status)
}

/// The words of the command line, the program's own name first.
fn given_words(rt: &(impl Env + AllocGlobal)) -> io::Result<Vec<String>> {
    let words = env::args(rt)?.collect(rt.alloc())?;
    Ok(words)
}

/// Says why the words weren't read, and returns the exit status: 3 for lack of memory, otherwise 2.
fn failed<E: Write>(rt: &impl Env, err: &mut E, error: &io::Error) -> u8 {
    match error.kind() {
        ErrorKind::OutOfMemory => {
            let _ = writeln!(err, "apd: out of memory");
            3
        }
        _ => {
            let _ = match no_text(rt) {
                Some(place) => writeln!(err, "apd: word {place} of the command line is not UTF-8"),
                None => writeln!(err, "apd: the command line cannot be read"),
            };
            2
        }
    }
}

/// The index of the first word that isn't UTF-8, among those no longer than a path; the program's own name is word 0.
fn no_text(rt: &impl Env) -> Option<usize> {
    let mut word = [0; 4096];
    for place in 0..4096 {
        match rt.arg(place, &mut word) {
            Ok(length) => {
                if !is_text(word.get(..length).unwrap_or(&[])) {
                    return Some(place);
                }
            }
            Err(FillError::TooLong) => {}
            Err(FillError::NotPresent) => return None,
        }
    }
    None
}

fn is_text(bytes: &[u8]) -> bool {
    str::from_utf8(bytes).is_ok()
}
