//! Why no script runs.

ghost use Rattle.std.specs.Prelude.{◌≡◌};
ghost use Rattle.apd_driver.specs.Shows.{IsBroken};
ghost use Rattle.apd_run.specs.declared.runner.fault.RunFault.TheVariants.{NoMemory};
ghost use Rattle.apd_run.specs.Statuses.{fault_status};

use apd_config::{ConfigFault, Configuration, fault_text};
use apd_driver::Unrecorded;
use apd_files::{FileFault, shown, write_whole};
use apd_script::{ScriptFault, line_fault};
use bpf_regions::Shapes;
use std::alloc::{AllocError, Global};
use std::fmt;
use std::io::{ErrorKind, Write};

/// Why no script runs. Its text goes to standard error.
#[derive(Drop)]
pub(crate) enum RunFault {
    Unreadable {
        path: String,
        why: FileFault,
    },
    Config {
        path: String,
        why: String,
    },
    Script {
        path: String,
        fault: ScriptFault,
        why: String,
    },
    /// A capture isn't written, for this reason.
    Capture {
        path: String,
        why: String,
    },
    NoMemory,
}

impl fmt::Display for RunFault {
    fn fmt<W: fmt::Write>(&self, f: &mut fmt::Formatter<W>) -> fmt::Result {
        match self {
            RunFault::Unreadable { path, why } => write!(f, "apd: cannot read {path}: {why}"),
            RunFault::Config { path, why } => write!(f, "apd: {path}: {why}"),
            RunFault::Script { path, fault, why } => write!(f, "apd: {path}: {fault}{why}"),
            RunFault::Capture { path, why } => write!(f, "apd: cannot write {path}: {why}"),
            RunFault::NoMemory => f.write_str("apd: out of memory"),
        }
    }
}

impl From<AllocError> for RunFault {
    ghost from_gives = { λ _ fault. fault ≡ NoMemory };

    fn from(_error: AllocError) -> RunFault {
        RunFault::NoMemory
    }
}

/// The fault of a file that can't be read.
pub(crate) fn unreadable(alloc: Global, path: &str, why: FileFault) -> RunFault
    ensures memory { why ≡ FileFault.NoMemory → result ≡ RunFault.NoMemory }
{
    let Ok(path) = shown(alloc, path) else {
        return RunFault::NoMemory;
    };
    match why {
        FileFault::NoMemory => RunFault::NoMemory,
        why => RunFault::Unreadable { path, why },
    }
}

/// The fault of a capture that isn't written.
pub(crate) fn uncaptured(alloc: Global, path: &str, why: Unrecorded) -> RunFault {
    let Unrecorded::Unwritten(kind) = why else {
        return RunFault::NoMemory;
    };
    let Ok(path) = shown(alloc, path) else {
        return RunFault::NoMemory;
    };
    let told = match kind {
        ErrorKind::AlreadyExists => {
            String::from_str(alloc, "it exists already; `--force` replaces it")
        }
        ErrorKind::NotFound => String::from_str(alloc, "there is no such folder"),
        ErrorKind::PermissionDenied => String::from_str(alloc, "it is not allowed"),
        kind => format!(in alloc; "{kind}"),
    };
    match told {
        Ok(why) => RunFault::Capture { path, why },
        Err(AllocError) => RunFault::NoMemory,
    }
}

/// The fault of a file whose text isn't a configuration.
pub(crate) fn of_configuration(
    alloc: Global,
    path: &str,
    text: &[u8],
    fault: ConfigFault,
) -> RunFault
    ensures memory { fault ≡ ConfigFault.NoMemory → result ≡ RunFault.NoMemory }
{
    let Ok(path) = shown(alloc, path) else {
        return RunFault::NoMemory;
    };
    match fault {
        ConfigFault::NoMemory => RunFault::NoMemory,
        fault => match fault_text(alloc, text, &fault) {
            Ok(why) => RunFault::Config { path, why },
            Err(AllocError) => RunFault::NoMemory,
        },
    }
}

/// The fault of a file whose text isn't a script for maps of these shapes.
pub(crate) fn of_script(
    alloc: Global,
    path: &str,
    text: &[u8],
    shapes: &Shapes,
    fault: ScriptFault,
) -> RunFault
    ensures memory { fault ≡ ScriptFault.NoMemory → result ≡ RunFault.NoMemory }
{
    let Ok(path) = shown(alloc, path) else {
        return RunFault::NoMemory;
    };
    match fault {
        ScriptFault::NoMemory => RunFault::NoMemory,
        ScriptFault::Line(line) => match reason(alloc, text, line, shapes) {
            Ok(why) => RunFault::Script { path, fault, why },
            Err(AllocError) => RunFault::NoMemory,
        },
    }
}

/// Why a line is malformed, to follow its number.
fn reason(alloc: Global, text: &[u8], line: u64, shapes: &Shapes) -> Result<String, AllocError> {
    match line_fault(text, line, shapes) {
        Some(fault) => format!(in alloc; ": {fault}"),
        None => Ok(String::new(alloc)),
    }
}

/// Warns that no station can answer an access point whose address is a group address.
pub(crate) fn say_if_group<W: Write>(
    alloc: Global,
    path: &str,
    configuration: &Configuration,
    err: &mut W,
) {
    if !configuration.is_for_group() {
        return;
    }
    let Ok(path) = shown(alloc, path) else {
        return;
    };
    let [a, b, c, d, e, f] = configuration.bssid;
    if let Ok(text) = format!(in alloc;
        "apd: {path}: `bssid` is the address of a group, {a:02x}:{b:02x}:{c:02x}:{d:02x}:{e:02x}:{f:02x}: no station can answer it\n"
    ) {
        say(text.as_str(), err);
    }
}

/// Writes as much of a text as the writer takes.
fn say<W: Write>(text: &str, writer: &mut W) {
    let _ = write_whole(writer, text.as_bytes());
}

/// The status of a run that hasn't begun: 3 for lack of memory, otherwise 2.
fn status_of(fault: &RunFault) -> u8
    ensures is { result ≡ fault_status fault.now }
    ensures broken { IsBroken result }
{
    match fault {
        RunFault::NoMemory => 3,
        _ => 2,
    }
}

/// Writes the text of a fault, and returns its status, even if the write fails.
pub(crate) fn complain<W: Write>(alloc: Global, fault: &RunFault, err: &mut W) -> u8
    ensures is { result ≡ fault_status fault.now }
    ensures broken { IsBroken result }
{
    match fault {
        RunFault::NoMemory => say("apd: out of memory\n", err),
        fault => {
            if let Ok(text) = format!(in alloc; "{fault}\n") {
                say(text.as_str(), err);
            }
        }
    }
    status_of(fault)
}

/// Where the lines of a run come from.
#[derive(Clone, Copy)]
pub(crate) enum Origin {
    Script,
    Input,
}

/// Writes what the status of a run that has begun means, unless it is 0.
pub(crate) fn say_why<W: Write>(status: u8, origin: Origin, err: &mut W) {
    let text = match (status, origin) {
        (0, _) => return,
        (1, Origin::Script) => "apd: a line was refused, and the run ended with it (--strict)\n",
        (1, Origin::Input) => "apd: a line was malformed, or was refused (--strict)\n",
        (2, Origin::Script) => "apd: cannot write\n",
        (2, Origin::Input) => "apd: cannot read the input, or cannot write\n",
        _ => "apd: out of memory\n",
    };
    say(text, err);
}
