//! Messages on standard error about the lines of a script.

ghost use Rattle.std.specs.Prelude.{◌≡◌, true, IsSome};
ghost use Rattle.apd_driver.specs.Shows.{is_refusal};

use crate::{Told, Unread};
use apd_files::CodeFault;
use bpf_regions::Hook;
use std::fmt;

/// The file of a load or an adoption, the file of an adoption's certificate, its hook, and the line of the hook's old
/// program.
#[derive(Clone, Copy)]
pub(crate) struct Loading<'a> {
    pub hook: Hook,
    pub path: &'a str,
    pub certificate: &'a str,
    pub before: Option<u64>,
}

/// A message.
#[derive(Clone, Copy)]
pub(crate) enum Message<'a> {
    /// A file was not loaded; its hook is unchanged.
    NotLoaded(Loading<'a>),
    /// A file was not loaded, since one couldn't be read; its hook is unchanged.
    NotRead {
        load: Loading<'a>,
        unread: Unread,
    },
    /// A file's program is in force.
    Loaded {
        load: Loading<'a>,
        slots: usize,
        budget: u32,
    },
    /// A number is cut to the width of a map's words.
    Cut {
        map: u32,
        value: u64,
        kept: u64,
    },
    /// A hook has no program.
    NoProgram(Hook),
}

/// The message about a load or an adoption: that it was refused, or, if `verbose` is set, that it succeeded.
pub(crate) fn message_of<'a>(load: Loading<'a>, told: &Told, verbose: bool) -> Option<Message<'a>>
    ensures refused { is_refusal told.now ≡ true → IsSome result }
{
    match told {
        Told::Fault(_) => Some(Message::NotLoaded(load)),
        Told::Refused { .. } => Some(Message::NotLoaded(load)),
        Told::Certificate { .. } => Some(Message::NotLoaded(load)),
        Told::Unreadable(unread) => {
            Some(Message::NotRead {
                load,
                unread: *unread,
            })
        }
        Told::Loaded { budget, slots } if verbose => {
            Some(Message::Loaded {
                load,
                slots: *slots,
                budget: *budget,
            })
        }
        Told::Loaded { .. } => None,
        Told::Handled { .. } => None,
        Told::Memory => None,
        Told::Word { .. } => None,
        Told::Malformed { .. } => None,
    }
}

/// What a hook without a program does.
fn without_program(hook: Hook) -> &'static str {
    match hook {
        Hook::Association => "has no program: each station is admitted",
        Hook::Addba => "has no program: each agreement is granted",
        Hook::Data => "has no program: all data passes, with mark 0",
    }
}

/// What a hook keeps: the program of a line, or none.
#[derive(Drop)]
struct Kept {
    hook: Hook,
    before: Option<u64>,
}

impl fmt::Display for Kept {
    fn fmt<W: fmt::Write>(&self, f: &mut fmt::Formatter<W>) -> fmt::Result {
        let Kept { hook, before } = *self;
        match before {
            Some(line) => write!(f, "{hook} keeps the program of line {line}"),
            None => write!(f, "{hook} {}", without_program(hook)),
        }
    }
}

#[derive(Drop)]
struct NotRead<'a> {
    path: &'a str,
    why: CodeFault,
}

impl fmt::Display for NotRead<'_> {
    fn fmt<W: fmt::Write>(&self, f: &mut fmt::Formatter<W>) -> fmt::Result {
        let NotRead { path, why } = *self;
        match why {
            CodeFault::Digits(fault) => write!(f, "{path}: {fault}"),
            why => write!(f, "cannot read {path}: {why}"),
        }
    }
}

impl<'a> Loading<'a> {
    fn kept(&self) -> Kept {
        Kept {
            hook: self.hook,
            before: self.before,
        }
    }

    /// The file that couldn't be read.
    fn not_read(&self, unread: Unread) -> NotRead<'a> {
        match unread {
            Unread::Code(why) => NotRead {
                path: self.path,
                why,
            },
            Unread::Certificate(why) => NotRead {
                path: self.certificate,
                why,
            },
        }
    }
}

impl fmt::Display for Message<'_> {
    fn fmt<W: fmt::Write>(&self, f: &mut fmt::Formatter<W>) -> fmt::Result {
        match self {
            Message::NotLoaded(load) => {
                write!(f, "{} is not loaded; {}", load.path, load.kept())
            }
            Message::NotRead { load, unread } => {
                write!(f, "{}; {}", load.not_read(*unread), load.kept())
            }
            Message::Loaded {
                load,
                slots,
                budget,
            } => write!(
                f,
                "{} has {} from now on: {slots} slots, budget {budget}",
                load.hook, load.path
            ),
            Message::Cut { map, value, kept } => write!(
                f,
                "map {map} has words of 4 bytes: of {value} it keeps {kept}"
            ),
            Message::NoProgram(hook) => write!(f, "{hook} {}", without_program(*hook)),
        }
    }
}
