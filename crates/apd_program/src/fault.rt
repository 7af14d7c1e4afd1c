//! Why a command has no answer.

ghost use Rattle.std.specs.Prelude.{◌≡◌};
ghost use Rattle.apd_program.specs.declared.fault.ProgramFault.TheVariants.{NoMemory};

use apd_config::{ConfigFault, fault_text};
use apd_files::{CodeFault, DigitFault, FileFault, shown};
use apd_text::ContextFault;
use capture::CaptureFault;
use hex::FromHexError;
use std::alloc::{AllocError, Global};
use std::fmt;

/// Why a command has no answer. Its text goes to standard error.
#[derive(Drop)]
pub enum ProgramFault {
    Unreadable {
        path: String,
        why: FileFault,
    },
    NoDigits(String),
    NoCode {
        path: String,
        fault: DigitFault,
    },
    OddDigits(String),
    Config {
        path: String,
        why: String,
    },
    Capture {
        path: String,
        fault: CaptureFault,
    },
    NoConfig,
    /// A repetition is of one program, and another is in force.
    TwoPrograms,
    /// The word for the access point's address isn't one.
    NoAddress,
    /// The frames of this capture name several access points.
    Several(String),
    NoPage {
        word: String,
        ranges: String,
    },
    /// A line of a file of cases is malformed, or its expectation can't be judged.
    Cases {
        path: String,
        line: u64,
        why: String,
    },
    NoCommand(String),
    LongFrame,
    Context(String),
    NoThreads,
    NoStyle,
    NoColours,
    NoMemory,
}

impl fmt::Display for ProgramFault {
    fn fmt<W: fmt::Write>(&self, f: &mut fmt::Formatter<W>) -> fmt::Result {
        match self {
            ProgramFault::Unreadable { path, why } => write!(f, "apd: cannot read {path}: {why}"),
            ProgramFault::NoDigits(name) => write!(f, "apd: {name}: not hex digits"),
            ProgramFault::NoCode { path, fault } => {
                write!(f, "apd: {path}: {fault} (`apd asm` takes assembler text)")
            }
            ProgramFault::OddDigits(name) => write!(f, "apd: {name}: an odd number of hex digits"),
            ProgramFault::Config { path, why } => write!(f, "apd: {path}: {why}"),
            ProgramFault::Capture { path, fault } => write!(f, "apd: {path}: {fault}"),
            ProgramFault::NoConfig => f.write_str(
                "apd: no --config was given, so no address to which the capture's frames come",
            ),
            ProgramFault::TwoPrograms => {
                f.write_str("apd: `--repeat` is of one program: leave out `--against`")
            }
            ProgramFault::NoAddress => f.write_str("apd: `--bssid` takes 12 hex digits"),
            ProgramFault::Several(path) => write!(
                f,
                "apd: {path}: the frames name several access points; `--bssid` chooses one, `--all` keeps all frames"
            ),
            ProgramFault::Cases { path, line, why } => write!(f, "apd: {path}:{line}: {why}"),
            ProgramFault::NoPage { word, ranges } => write!(
                f,
                "apd: no refusal has the number `{word}`; there are {ranges}"
            ),
            ProgramFault::NoCommand(word) => write!(
                f,
                "apd: there is no command `{word}`; `apd help` lists them"
            ),
            ProgramFault::LongFrame => f.write_str("apd: FRAME: more than 2400 bytes"),
            ProgramFault::Context(why) => write!(f, "apd: {why}"),
            ProgramFault::NoThreads => f.write_str("apd: a script is run by threads alone"),
            ProgramFault::NoStyle => f.write_str("apd: `--events` takes `text` or `json`"),
            ProgramFault::NoColours => {
                f.write_str("apd: `--color` takes `auto`, `always` or `never`")
            }
            ProgramFault::NoMemory => f.write_str("apd: out of memory"),
        }
    }
}

impl From<AllocError> for ProgramFault {
    ghost from_gives = { λ _ fault. fault ≡ NoMemory };

    fn from(_error: AllocError) -> ProgramFault {
        ProgramFault::NoMemory
    }
}

/// The fault of a named text that doesn't spell bytes.
pub(crate) fn of_digits(alloc: Global, name: &str, fault: FromHexError) -> ProgramFault
    ensures memory { fault ≡ FromHexError.OutOfMemory → result ≡ ProgramFault.NoMemory }
{
    let Ok(name) = shown(alloc, name) else {
        return ProgramFault::NoMemory;
    };
    match fault {
        FromHexError::OutOfMemory => ProgramFault::NoMemory,
        FromHexError::OddLength => ProgramFault::OddDigits(name),
        _ => ProgramFault::NoDigits(name),
    }
}

/// The fault of a file that wasn't read.
pub(crate) fn of_file(alloc: Global, path: &str, why: FileFault) -> ProgramFault
    ensures memory { why ≡ FileFault.NoMemory → result ≡ ProgramFault.NoMemory }
{
    let Ok(path) = shown(alloc, path) else {
        return ProgramFault::NoMemory;
    };
    match why {
        FileFault::NoMemory => ProgramFault::NoMemory,
        why => ProgramFault::Unreadable { path, why },
    }
}

/// The fault of a file from which no code was read.
pub(crate) fn of_no_code(alloc: Global, path: &str, fault: CodeFault) -> ProgramFault
    ensures memory { fault ≡ CodeFault.NoMemory → result ≡ ProgramFault.NoMemory }
{
    match fault {
        CodeFault::NoMemory => ProgramFault::NoMemory,
        CodeFault::Unreadable(why) => of_file(alloc, path, why),
        CodeFault::Digits(fault) => of_code(alloc, path, fault),
    }
}

/// The fault of a file that spells no code: its first character that isn't a hex digit, with its line, or a missing
/// digit.
fn of_code(alloc: Global, path: &str, fault: DigitFault) -> ProgramFault {
    let Ok(path) = shown(alloc, path) else {
        return ProgramFault::NoMemory;
    };
    match fault {
        DigitFault::Odd => ProgramFault::OddDigits(path),
        fault => ProgramFault::NoCode { path, fault },
    }
}

/// The fault of a file whose text isn't a configuration.
pub(crate) fn of_configuration(
    alloc: Global,
    path: &str,
    text: &[u8],
    fault: ConfigFault,
) -> ProgramFault
    ensures memory { fault ≡ ConfigFault.NoMemory → result ≡ ProgramFault.NoMemory }
{
    let Ok(path) = shown(alloc, path) else {
        return ProgramFault::NoMemory;
    };
    match fault {
        ConfigFault::NoMemory => ProgramFault::NoMemory,
        fault => match fault_text(alloc, text, &fault) {
            Ok(why) => ProgramFault::Config { path, why },
            Err(AllocError) => ProgramFault::NoMemory,
        },
    }
}

/// The fault of what is given for a traced program's context.
pub(crate) fn of_context(alloc: Global, fault: ContextFault<'_>) -> ProgramFault {
    let Ok(why) = format!(in alloc; "{fault}") else {
        return ProgramFault::NoMemory;
    };
    match shown(alloc, why.as_str()) {
        Ok(why) => ProgramFault::Context(why),
        Err(AllocError) => ProgramFault::NoMemory,
    }
}

/// The fault of a file that isn't a capture.
pub(crate) fn of_capture(alloc: Global, path: &str, fault: CaptureFault) -> ProgramFault
    ensures memory { fault ≡ CaptureFault.NoMemory → result ≡ ProgramFault.NoMemory }
{
    let Ok(path) = shown(alloc, path) else {
        return ProgramFault::NoMemory;
    };
    match fault {
        CaptureFault::NoMemory => ProgramFault::NoMemory,
        fault => ProgramFault::Capture { path, fault },
    }
}

/// The fault of a capture whose frames name several access points.
pub(crate) fn of_several(alloc: Global, path: &str) -> ProgramFault {
    match shown(alloc, path) {
        Ok(path) => ProgramFault::Several(path),
        Err(AllocError) => ProgramFault::NoMemory,
    }
}

/// The fault of a line in a file of cases.
pub(crate) fn of_case<T: fmt::Display>(
    alloc: Global,
    path: &str,
    line: u64,
    why: &T,
) -> ProgramFault {
    let Ok(path) = shown(alloc, path) else {
        return ProgramFault::NoMemory;
    };
    let Ok(why) = format!(in alloc; "{why}") else {
        return ProgramFault::NoMemory;
    };
    ProgramFault::Cases { path, line, why }
}
