//! The commands of `apd` as a table: each with its description, and its arguments with their help.

use crate::command::{MOST_REPEATS, MOST_WORK};

/// An argument. The last text is its help.
#[derive(Clone, Copy)]
pub(crate) enum Argument {
    /// NAME
    Required(&'static str, &'static str),
    /// NAME, which may be left out.
    Optional(&'static str, &'static str),
    /// FILE, once or more.
    Files(&'static str),
    /// HOOK, which must be the name of one.
    Hook(&'static str),
    /// `--NAME`
    Flag(&'static str, &'static str),
    /// `--json`, or `-j`
    Json(&'static str),
    /// `--NAME VALUE`, by its name and that of its value.
    Option(&'static str, &'static str, &'static str),
    /// `--output FILE`, or `-o FILE`
    Output(&'static str),
    /// `--workers N`, 2 by default.
    Workers(&'static str),
    /// `--states N`, by default the most.
    States(&'static str),
    /// `--NAME N`, by its name and the most that N may be.
    Limit(&'static str, u64, &'static str),
}

/// A command: its name, what it does, and its arguments in order.
#[derive(Clone, Copy)]
pub(crate) struct Described {
    pub(crate) name: &'static str,
    pub(crate) about: &'static str,
    pub(crate) arguments: &'static [Argument],
}

const HOOK: Argument = Argument::Hook("The hook point");

const CODE: Argument = Argument::Required("FILE", "Code, as hex digits with white space between");

const CAPTURE: Argument = Argument::Required(
    "CAPTURE",
    "A capture of 802.11 frames, as pcap or pcapng",
);

const SETTING: Argument = Argument::Required("C", "The configuration");

const CONFIG: Argument = Argument::Option(
    "config",
    "C",
    "The configuration: shapes of maps, first draw word",
);

const STATES: Argument = Argument::States("How many states the verifier may examine, 1 to 4194304");

const WORK: Argument = Argument::Limit(
    "work",
    MOST_WORK,
    "How many units of work may be done, 1 to 1099511627776; without it, any number",
);

const WHY: Argument = Argument::Flag(
    "explain",
    "Tell on standard error why, and what is known there",
);

const VERBOSE: Argument = Argument::Flag(
    "verbose",
    "Tell on standard error what becomes of each load",
);

const WORKERS: Argument = Argument::Workers("How many worker threads serve the shards, 1 to 8");

const OUTPUT: Argument = Argument::Output(
    "Write the output to this file, unless something is refused",
);

const PCAP: Argument = Argument::Option(
    "pcap",
    "OUT",
    "Write what comes in, is sent and passed up to this pcapng file; `-`: in place of the lines",
);

const FORCE: Argument = Argument::Flag("force", "Replace a capture that exists");

/// The commands, in the order of the help.
pub(crate) static COMMANDS: [Described; 13] = [
    Described {
        name: "verify",
        about: "Verify a program for a hook and print its budget",
        arguments: &[HOOK, CODE, CONFIG, STATES, WHY, WORK],
    },
    Described {
        name: "asm",
        about: "Assemble a text and print its code, one slot a line",
        arguments: &[Argument::Required("FILE", "Assembler text"), OUTPUT],
    },
    Described {
        name: "disasm",
        about: "Print a program's instructions, one a line",
        arguments: &[
            CODE,
            CONFIG,
            Argument::Flag(
                "slots",
                "Print each line's slot before it, and mark jump targets",
            ),
            Argument::Flag(
                "raw",
                "Print slots that are no instructions, too, as digits",
            ),
            Argument::Flag("dot", "Print the control-flow graph, for graphviz"),
            OUTPUT,
            Argument::Flag(
                "explain",
                "With --dot, tell of each block how many states the verifier examined",
            ),
        ],
    },
    Described {
        name: "trace",
        about: "Verify a program, run it on a frame and print each step",
        arguments: &[
            HOOK,
            CODE,
            Argument::Required("FRAME", "The frame, as hex digits"),
            CONFIG,
            STATES,
            Argument::Option(
                "context",
                "KEYS",
                "What the program is told, as KEY=VALUE,.. (see the manual)",
            ),
            Argument::Flag(
                "from-frame",
                "Tell the program what the frame says of itself",
            ),
            WHY,
            WORK,
        ],
    },
    Described {
        name: "eval",
        about: "Judge a capture's frames by a program, and print each verdict",
        arguments: &[
            HOOK,
            CODE,
            CAPTURE,
            CONFIG,
            Argument::Option(
                "against",
                "OLD",
                "The code in force, whose verdicts the link follows: print only those that differ",
            ),
            STATES,
            Argument::Json("Print each verdict as a line of JSON"),
            OUTPUT,
            WORK,
            Argument::Flag(
                "profile",
                "Print in place of verdicts how often each instruction was executed",
            ),
            Argument::Flag("dot", "Print that as the control-flow graph, for graphviz"),
            Argument::Limit(
                "repeat",
                MOST_REPEATS as u64,
                "Judge all queries N times more, and tell how long a run takes, 1 to 1000000",
            ),
        ],
    },
    Described {
        name: "run",
        about: "Run a script of frames and commands on an access point",
        arguments: &[
            SETTING,
            Argument::Required("SCRIPT", "The script"),
            WORKERS,
            STATES,
            Argument::Flag("quiet", "Tell no progress on standard error"),
            Argument::Flag(
                "strict",
                "End after the interval of the first refused load, with status 1",
            ),
            VERBOSE,
            WORK,
            PCAP,
            FORCE,
        ],
    },
    Described {
        name: "live",
        about: "Answer lines of a script as they come on standard input",
        arguments: &[
            SETTING,
            WORKERS,
            STATES,
            Argument::Flag(
                "strict",
                "End after the interval of the first malformed line or refused load",
            ),
            VERBOSE,
            Argument::Flag("clock", "Let time pass by the clock, too"),
            Argument::Option(
                "events",
                "FORM",
                "Tell what frames mean: `text` beside the frames, `json` in their place",
            ),
            Argument::Option(
                "color",
                "WHEN",
                "Colours in the answers: `auto` (at a terminal), `always` or `never`",
            ),
            WORK,
            PCAP,
            FORCE,
        ],
    },
    Described {
        name: "cert",
        about: "Verify a program and print its certificate in hex",
        arguments: &[HOOK, CODE, CONFIG, STATES, OUTPUT, WORK],
    },
    Described {
        name: "check",
        about: "Check a program's certificate and print the budget",
        arguments: &[
            HOOK,
            CODE,
            Argument::Required("CERT", "The certificate, as hex digits"),
            CONFIG,
            WORK,
        ],
    },
    Described {
        name: "explain",
        about: "Explain the number of a refusal, or list all numbers",
        arguments: &[Argument::Optional(
            "NUMBER",
            "The number, as `fault N` or `refused N` names it; without one all are listed",
        )],
    },
    Described {
        name: "frames",
        about: "Print a capture's frames as a script for `apd run`",
        arguments: &[
            CAPTURE,
            Argument::Flag("no-ticks", "Leave out the time between frames"),
            Argument::Option(
                "bssid",
                "ADDR",
                "The access point's address, unless the frames name only one",
            ),
            Argument::Flag("all", "Keep frames that aren't for the access point"),
            OUTPUT,
        ],
    },
    Described {
        name: "test",
        about: "Judge policies by files of cases, and print what failed",
        arguments: &[Argument::Files("A file of cases")],
    },
    Described {
        name: "help",
        about: "Print this help, or that of a command",
        arguments: &[Argument::Optional("COMMAND", "The command")],
    },
];
