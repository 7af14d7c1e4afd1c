//! The command line of `apd`: what its words ask for, or the text to print instead.
//!
//! Main call: `read_words`. It depends on `clap` and `bpf_regions`. It returns the `Request` that the words spell, the
//! help that they ask for, or the text of a fault. `laws::usage_law` shows which words spell `verify`, `asm`,
//! `disasm` and `trace`. The texts are tested, not proved.
#![tactic(auto)]

ghost use Rattle.std.specs.Prelude.{◌≡◌};
ghost use Rattle.apd_words.specs.declared.Told.TheVariants.{NoMemory};

mod command;
pub mod laws;
mod requests;
mod table;
mod words;

use bpf_regions::Hook;
use std::alloc::AllocError;
pub use words::read_words;

/// The file of a program's code, and of the configuration of its maps, if it has one.
#[derive(Clone, Copy)]
pub struct Source<'a> {
    pub file: &'a str,
    pub config: Option<&'a str>,
}

/// The hook for which a program is verified, how many states the verifier may examine, and how many units of work it
/// may do, if that is limited.
#[derive(Clone, Copy)]
pub struct Terms {
    pub hook: Hook,
    pub states: u32,
    pub work: Option<u64>,
}

/// A program to verify.
#[derive(Clone, Copy)]
pub struct Subject<'a> {
    pub source: Source<'a>,
    pub terms: Terms,
}

/// The context of a traced program, as it was written, and whether it takes fields from the frame.
#[derive(Clone, Copy)]
pub struct Given<'a> {
    pub context: Option<&'a str>,
    pub from_frame: bool,
}

/// A program to verify and run on a frame. `explain` asks for the reason on standard error.
#[derive(Clone, Copy)]
pub struct Trial<'a> {
    pub subject: Subject<'a>,
    pub frame: &'a str,
    pub given: Given<'a>,
    pub explain: bool,
}

/// What is printed of a program's runs on a capture.
#[derive(Clone, Copy)]
pub enum Report {
    /// The verdicts, as a table.
    Verdicts,
    /// The verdicts, as lines of JSON.
    VerdictsJson,
    /// How often each instruction was executed, as a table.
    Profile,
    /// The same as lines of JSON.
    ProfileJson,
    /// The same as the control-flow graph, for graphviz.
    ProfileGraph,
}

/// A program to judge the frames of a capture, and what is printed of that. With `against` the link follows that file's
/// program, and only the verdicts that differ are printed.
#[derive(Clone, Copy)]
pub struct Evaluation<'a> {
    pub subject: Subject<'a>,
    pub capture: &'a str,
    pub against: Option<&'a str>,
    pub report: Report,
}

/// A program to judge the frames of a capture 1 to 1000000 times more, to tell how long a run takes.
#[derive(Clone, Copy)]
pub struct Repetition<'a> {
    pub evaluation: Evaluation<'a>,
    pub times: u32,
}

/// A program, the file of a certificate that should show it safe for a hook, and how many units of work the check may
/// do, if that is limited.
#[derive(Clone, Copy)]
pub struct Claim<'a> {
    pub hook: Hook,
    pub source: Source<'a>,
    pub certificate: &'a str,
    pub work: Option<u64>,
}

/// A capture to turn into a script, with the time between frames if `ticks` is set. Of its frames it has those for the
/// access point, or all.
#[derive(Clone, Copy)]
pub struct Conversion<'a> {
    pub capture: &'a str,
    pub ticks: bool,
    /// The access point's address, if it is given.
    pub bssid: Option<&'a str>,
    pub all: bool,
}

/// Where a capture of a run goes, if it keeps one, and whether it may replace a file. The path `-` stands for standard
/// output, in the place of the lines.
#[derive(Clone, Copy)]
pub struct CaptureWords<'a> {
    pub path: Option<&'a str>,
    pub replaces: bool,
}

/// A script to run by 1 to 8 workers. `quiet` suppresses progress on standard error, `strict` ends the run after the
/// first interval in which a line was refused, and `verbose` reports each load on standard error.
#[derive(Clone, Copy)]
pub struct ScriptRun<'a> {
    pub config: &'a str,
    pub script: &'a str,
    pub workers: u8,
    pub states: u32,
    pub work: Option<u64>,
    pub quiet: bool,
    pub strict: bool,
    pub verbose: bool,
    pub capture: CaptureWords<'a>,
}

/// An access point of 1 to 8 workers that answers lines as they come on standard input. `strict` ends it after the first
/// interval in which a line was malformed or refused, and `verbose` reports each load on standard error. By `clock` time
/// passes also by the clock; `events` says how events are told, and `color` when answers have colours, as they were
/// written.
#[derive(Clone, Copy)]
pub struct LiveRun<'a> {
    pub config: &'a str,
    pub workers: u8,
    pub states: u32,
    pub work: Option<u64>,
    pub strict: bool,
    pub verbose: bool,
    pub clock: bool,
    pub events: Option<&'a str>,
    pub color: Option<&'a str>,
    pub capture: CaptureWords<'a>,
}

/// A request that runs no script. Paths, frames and numbers are as they were written. The verifier may examine 1 to
/// 4194304 states.
#[derive(Clone, Copy)]
pub enum Question<'a> {
    /// `explain` asks for the reason on standard error.
    Verify { subject: Subject<'a>, explain: bool },
    Assemble { file: &'a str },
    Disassemble { source: Source<'a>, slots: bool },
    /// Lists all slots, also those that aren't instructions.
    ListRaw { source: Source<'a>, slots: bool },
    /// The control-flow graph, for graphviz. `explain` asks for what the verifier finds at each block.
    Graph { source: Source<'a>, explain: bool },
    Trace(Trial<'a>),
    Evaluate(Evaluation<'a>),
    Repeat(Repetition<'a>),
    Certify { subject: Subject<'a> },
    Check(Claim<'a>),
    /// Without a number, it lists all.
    Explain { number: Option<&'a str> },
    Frames(Conversion<'a>),
    /// Without a command, it is the program's help.
    Help { command: Option<&'a str> },
}

/// A question, and the file for its answer, if that isn't for standard output.
#[derive(Clone, Copy)]
pub struct Query<'a> {
    pub question: Question<'a>,
    pub output: Option<&'a str>,
}

/// What the words ask for.
#[derive(Drop)]
pub enum Request<'a> {
    Run(ScriptRun<'a>),
    Live(LiveRun<'a>),
    Answer(Query<'a>),
    /// Judges these files of cases for policies.
    Test(Vec<&'a str>),
}

/// What `apd` prints for words that make no request.
#[derive(Drop)]
pub enum Told {
    /// Help or the version, for standard output.
    Help(String),
    /// What is wrong with the words, for standard error.
    Fault(String),
    /// Memory ran out.
    NoMemory,
}

impl From<AllocError> for Told {
    ghost from_gives = { λ _ told. told ≡ NoMemory };

    fn from(_error: AllocError) -> Told {
        Told::NoMemory
    }
}
