//! What holds for the runs that follow the lines so far.

ghost use Rattle.std.specs.Prelude.{◌≡◌, OnOk};
ghost use Rattle.apd_cases.specs.Said.{said_of};
ghost use Rattle.apd_cases.specs.Situations.{start, after, situation_of};

use crate::line::{Line, Place, StationCount};
use apd_script::HexText;
use bpf_regions::Hook;
use std::alloc::{AllocError, Global};

/// The code in a file, for a hook.
#[derive(Clone, Copy)]
pub struct Policy<'a> {
    pub hook: Hook,
    pub path: &'a str,
}

/// A word of a map has this value before each run.
#[derive(Clone, Copy)]
pub struct Preset {
    pub place: Place,
    pub value: u64,
}

/// What holds for the runs that follow the lines so far: each line holds until the next of its kind.
#[derive(Drop)]
pub struct Situation<'a> {
    pub policy: Option<Policy<'a>>,
    /// The path of the configuration.
    pub config: Option<&'a str>,
    /// Words KEY=VALUE, separated by spaces.
    pub given: &'a str,
    /// In units of 1024 microseconds.
    pub clock: u64,
    pub stations: StationCount,
    /// The words of maps since the last `config` line, in order.
    pub presets: Vec<Preset>,
    pub frame: Option<HexText<'a>>,
}

impl<'a> Situation<'a> {
    /// Before the first line.
    pub fn start(alloc: Global) -> Self
        ensures is { situation_of result ≡ start }
    {
        Situation {
            policy: None,
            config: None,
            given: "",
            clock: 0,
            stations: StationCount::NONE,
            presets: Vec::new(alloc),
            frame: None,
        }
    }

    /// Follows a line. An expectation changes nothing.
    pub fn follow(&mut self, line: Line<'a>) -> Result<(), AllocError>
        ensures after { OnOk result
            (situation_of self.new ≡ after (situation_of self.old) (said_of line.entry)) }
    {
        match line {
            Line::Policy { hook, path } => self.policy = Some(Policy { hook, path }),
            Line::Config(path) => {
                self.config = Some(path);
                self.presets.clear();
            }
            Line::Given(given) => self.given = given,
            Line::Clock(clock) => self.clock = clock,
            Line::Stations(stations) => self.stations = stations,
            Line::Word { place, value } => self.presets.push(Preset { place, value })?,
            Line::Frame(text) => self.frame = Some(text),
            Line::Expect(_) => {}
        }
        Ok(())
    }
}
