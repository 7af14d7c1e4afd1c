//! Messages about a script, line by line.

use crate::console::message::{Loading, Message, message_of};
use crate::console::programs::Programs;
use crate::{Report, Told};
use apd_files::{shown, write_whole};
use apd_script::{Command, MapWord, Numbered};
use bpf_regions::{Hook, Shape, Shapes, WordWidth};
use std::alloc::{AllocError, Global};
use std::fmt;
use std::io::Write;

/// The name of a script as messages show it, the maps of its run, which messages to write, and the lines whose programs
/// are in force.
#[derive(Drop)]
pub struct Notes {
    alloc: Global,
    script: String,
    maps: Vec<Shape>,
    verbose: bool,
    programs: Programs,
}

const FOUR_BYTES: u64 = 0xffff_ffff;

/// The report on the command of a line, if it is the first of these reports, and the reports after it.
fn answer_to(line: u64, reports: &[Report]) -> (Option<&Told>, &[Report]) {
    match reports.split_first() {
        Some((first, after)) if first.line == line => (Some(&first.told), after),
        _ => (None, reports),
    }
}

/// A script, or a line of it.
#[derive(Clone, Copy)]
struct Place<'a> {
    script: &'a str,
    line: Option<u64>,
}

impl fmt::Display for Place<'_> {
    fn fmt<W: fmt::Write>(&self, f: &mut fmt::Formatter<W>) -> fmt::Result {
        let Place { script, line } = *self;
        match line {
            Some(line) => write!(f, "{script}:{line}"),
            None => f.write_str(script),
        }
    }
}

impl Notes {
    /// Messages about a script that hasn't begun.
    pub fn new(
        alloc: Global,
        script: &str,
        maps: &Shapes,
        verbose: bool,
    ) -> Result<Notes, AllocError> {
        let script = shown(alloc, script)?;
        let maps = Vec::from_slice(alloc, maps.as_slice())?;
        Ok(Notes {
            alloc,
            script,
            maps,
            verbose,
            programs: Programs::none(),
        })
    }

    /// Tells what became of commands, for which the operator made these reports.
    pub(crate) fn tell<E: Write>(
        &mut self,
        err: &mut E,
        commands: &[Numbered<'_>],
        reports: &[Report],
    ) {
        let mut rest = reports;
        for numbered in commands {
            let (told, after) = answer_to(numbered.line, rest);
            rest = after;
            self.tell_of(err, numbered, told);
        }
    }

    /// Tells what became of a command.
    fn tell_of<E: Write>(&mut self, err: &mut E, numbered: &Numbered<'_>, told: Option<&Told>) {
        let line = numbered.line;
        match numbered.command {
            Command::Load { hook, path } => {
                let load = self.loading(hook, path, "");
                self.tell_load(err, line, load, told)
            }
            Command::Adopt {
                hook,
                path,
                certificate,
            } => {
                let load = self.loading(hook, path, certificate);
                self.tell_load(err, line, load, told)
            }
            Command::Unload(hook) => {
                if told.is_none() {
                    self.programs.put(hook, None);
                }
            }
            Command::Store { word, value } => self.tell_store(err, line, word, value),
            Command::Frame(_)
            | Command::Tick(_)
            | Command::Kick { .. }
            | Command::Close { .. }
            | Command::Read(_)
            | Command::Sum(_)
            | Command::Wait => {}
        }
    }

    /// A load of a file for a hook, or an adoption by a certificate, and the hook's old program.
    fn loading<'a>(&self, hook: Hook, path: &'a str, certificate: &'a str) -> Loading<'a> {
        Loading {
            hook,
            path,
            certificate,
            before: self.programs.at(hook),
        }
    }

    fn tell_load<E: Write>(
        &mut self,
        err: &mut E,
        line: u64,
        load: Loading<'_>,
        told: Option<&Told>,
    ) {
        let Some(told) = told else {
            return;
        };
        if matches!(told, Told::Loaded { .. }) {
            self.programs.put(load.hook, Some(line));
        }
        let Ok(path) = shown(self.alloc, load.path) else {
            return;
        };
        let Ok(certificate) = shown(self.alloc, load.certificate) else {
            return;
        };
        let load = Loading {
            path: path.as_str(),
            certificate: certificate.as_str(),
            ..load
        };
        if let Some(message) = message_of(load, told, self.verbose) {
            self.say(err, Some(line), message);
        }
    }

    /// Tells of a stored number that doesn't fit the map's words.
    fn tell_store<E: Write>(&self, err: &mut E, line: u64, word: MapWord, value: u64) {
        let Some(shape) = self.maps.get(word.map as usize) else {
            return;
        };
        if shape.width == WordWidth::Four && value > FOUR_BYTES {
            let message = Message::Cut {
                map: word.map,
                value,
                kept: value & FOUR_BYTES,
            };
            self.say(err, Some(line), message);
        }
    }

    /// Writes a message about a line, or about the whole script.
    fn say<E: Write>(&self, err: &mut E, line: Option<u64>, message: Message<'_>) {
        let place = Place {
            script: self.script.as_str(),
            line,
        };
        if let Ok(text) = format!(in self.alloc; "apd: {place}: {message}\n") {
            let _ = write_whole(err, text.as_bytes());
        }
    }

    /// Tells which hooks have no program at the end, if `verbose` is set.
    pub(crate) fn end<E: Write>(&self, err: &mut E) {
        if !self.verbose {
            return;
        }
        for hook in [Hook::Association, Hook::Addba, Hook::Data] {
            if self.programs.at(hook).is_none() {
                self.say(err, None, Message::NoProgram(hook));
            }
        }
    }
}
