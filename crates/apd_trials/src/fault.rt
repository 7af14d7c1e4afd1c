//! Why a file of cases can't be followed to its end.

ghost use Rattle.std.specs.Prelude.{◌≡◌};
ghost use Rattle.apd_trials.specs.declared.fault.Trouble.TheVariants.{NoMemory};

use apd_cases::Place;
use apd_config::{ConfigFault, fault_text};
use apd_files::{CodeFault, FileFault, shown};
use apd_text::ContextFault;
use std::alloc::{AllocError, AllocFailed, Global};
use std::fmt;

/// Why an expectation can't be judged. It is displayed in words; no contract promises anything of them.
#[derive(Drop)]
pub enum Trouble {
    /// No line names a policy.
    NoPolicy,
    /// No line has a frame.
    NoFrame,
    /// The frame has more than 2400 bytes.
    LongFrame,
    /// The maps of the configuration have no such word.
    NoWord(Place),
    /// What is given for the context can't be, for this reason.
    Given(String),
    /// The policy's file can't be read, or has no code: the path and why.
    Policy(String),
    /// The configuration's file can't be read, or isn't one: the path and why.
    Config(String),
    NoMemory,
}

/// Why a file of cases can't be followed to its end, and at which line.
#[derive(Drop)]
pub struct CaseFault {
    pub line: u64,
    pub trouble: Trouble,
}

impl From<AllocError> for Trouble {
    ghost from_gives = { λ _ trouble. trouble ≡ NoMemory };

    fn from(_error: AllocError) -> Trouble {
        Trouble::NoMemory
    }
}

impl<T: Drop> From<AllocFailed<T>> for Trouble {
    ghost from_gives = { λ _ trouble. trouble ≡ NoMemory };

    fn from(_error: AllocFailed<T>) -> Trouble {
        Trouble::NoMemory
    }
}

impl fmt::Display for Trouble {
    fn fmt<W: fmt::Write>(&self, f: &mut fmt::Formatter<W>) -> fmt::Result {
        match self {
            Trouble::NoPolicy => f.write_str(
                "no line before it names a policy (`policy HOOK FILE`)",
            ),
            Trouble::NoFrame => f.write_str("no line before it has a frame (`frame HEX`)"),
            Trouble::LongFrame => f.write_str("the frame has more than 2400 bytes"),
            Trouble::NoWord(place) => write!(
                f,
                "the maps of the configuration have no word {} {} {}",
                place.map, place.entry, place.word
            ),
            Trouble::Given(why) => write!(f, "given: {why}"),
            Trouble::Policy(told) | Trouble::Config(told) => f.write_str(told.as_str()),
            Trouble::NoMemory => f.write_str("out of memory"),
        }
    }
}

/// What is said of a file with this path, for this reason.
fn told<T: fmt::Display>(alloc: Global, path: &str, why: &T) -> Result<String, AllocError> {
    let path = shown(alloc, path)?;
    format!(in alloc; "{path}: {why}")
}

/// A configuration is no use for this reason.
fn of_config<T: fmt::Display>(alloc: Global, path: &str, why: &T) -> Trouble {
    match told(alloc, path, why) {
        Ok(told) => Trouble::Config(told),
        Err(AllocError) => Trouble::NoMemory,
    }
}

/// A configuration's file can't be read.
pub(crate) fn of_file(alloc: Global, path: &str, why: FileFault) -> Trouble {
    match why {
        FileFault::NoMemory => Trouble::NoMemory,
        why => of_config(alloc, path, &why),
    }
}

/// A policy's file has no code.
pub(crate) fn of_code(alloc: Global, path: &str, fault: CodeFault) -> Trouble {
    match fault {
        CodeFault::NoMemory => Trouble::NoMemory,
        fault => match told(alloc, path, &fault) {
            Ok(told) => Trouble::Policy(told),
            Err(AllocError) => Trouble::NoMemory,
        },
    }
}

/// The text of a file isn't a configuration.
pub(crate) fn of_configuration(
    alloc: Global,
    path: &str,
    text: &[u8],
    fault: ConfigFault,
) -> Trouble {
    match fault {
        ConfigFault::NoMemory => Trouble::NoMemory,
        fault => match fault_text(alloc, text, &fault) {
            Ok(why) => of_config(alloc, path, &why),
            Err(AllocError) => Trouble::NoMemory,
        },
    }
}

/// What is given can't be.
pub(crate) fn of_given(alloc: Global, fault: ContextFault<'_>) -> Trouble {
    let Ok(why) = format!(in alloc; "{fault}") else {
        return Trouble::NoMemory;
    };
    match shown(alloc, why.as_str()) {
        Ok(why) => Trouble::Given(why),
        Err(AllocError) => Trouble::NoMemory,
    }
}
