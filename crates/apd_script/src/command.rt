//! The commands of a script.

use crate::hex_text::HexText;
use bpf_regions::Hook;
use mac_types::{Address, Reason, Tid};

/// A word of a map.
#[derive(Clone, Copy, Debug, PartialEq, Eq)]
pub struct MapWord {
    /// The map's number.
    pub map: u32,
    /// The word's number in the map: its entry's index times the words of an entry, plus its index in the entry.
    pub word: u32,
}

/// What a line of a script asks for. Paths and hex digits are slices of the script.
#[derive(Clone, Copy, Debug, PartialEq, Eq)]
pub enum Command<'a> {
    /// The access point receives a frame of any number of bytes.
    Frame(HexText<'a>),
    /// This many units of 1024 microseconds pass.
    Tick(u32),
    /// The operator deauthenticates a station with this reason.
    Kick {
        station: Address,
        reason: Reason,
    },
    /// The operator ends an agreement of a station.
    Close {
        station: Address,
        tid: Tid,
    },
    /// The code in a file becomes the program of a hook if the verifier accepts it.
    Load {
        hook: Hook,
        path: &'a str,
    },
    /// The program of a hook is removed.
    Unload(Hook),
    /// The code in a file becomes the program of a hook if the certificate in another shows it safe.
    Adopt {
        hook: Hook,
        path: &'a str,
        certificate: &'a str,
    },
    /// A word of a shared map is written.
    Store {
        word: MapWord,
        value: u64,
    },
    /// A word of a shared map is read.
    Read(MapWord),
    /// A word of a worker map is summed over all workers.
    Sum(MapWord),
    /// The run waits until all events so far are handled.
    Wait,
}

/// A command and its line number, counted from 1.
#[derive(Clone, Copy, Debug, PartialEq, Eq)]
pub struct Numbered<'a> {
    pub line: u64,
    pub command: Command<'a>,
}

const _: () = prove!(size_of::<Numbered<'static>>() <= 64);
