//! What became of a script's lines.

use crate::reports::notice::Dropped;
use ap_model::Out;
use apd_files::CodeFault;
use bpf_decode::DecodeFault;

/// Which file of a load or an adoption couldn't be used, and why.
#[derive(Clone, Copy)]
pub enum Unread {
    /// The file of the code.
    Code(CodeFault),
    /// The file of the certificate.
    Certificate(CodeFault),
}

/// What became of a line of a script, or of one shard's part of it.
#[derive(Drop)]
pub enum Told {
    /// A shard handled an event: its outputs, and its data if a verdict dropped it.
    Handled {
        outs: Vec<Out>,
        dropped: Option<Dropped>,
    },
    /// An allocation failed, and nothing changed.
    Memory,
    /// A program of `slots` slots is in force, and safe within the budget.
    Loaded {
        budget: u32,
        slots: usize,
    },
    /// The code of a file isn't well formed.
    Fault(DecodeFault),
    /// The verifier refuses a program: the number of its fault, and the slot.
    Refused {
        fault: u8,
        slot: usize,
    },
    /// 70 to 72: why a certificate doesn't admit a program.
    Certificate {
        fault: u8,
    },
    /// A file can't be read, or doesn't hold pairs of hex digits.
    Unreadable(Unread),
    /// The value of a word of a map.
    Word {
        value: u64,
    },
    /// The line is malformed, and changes nothing.
    Malformed {
        why: String,
    },
}

/// What became of the line with this number. The shard is 0 if the line concerns none.
#[derive(Drop)]
pub struct Report {
    pub line: u64,
    pub shard: u16,
    pub told: Told,
}

/// The lines that are printed of reports.
#[derive(Clone, Copy)]
pub enum Style {
    /// A line for each output: frames to send as hex digits.
    Lines,
    /// The same, each frame followed by what it means to its station; and a line for data that a verdict dropped.
    Notices,
    /// A JSON object for each output, for dropped data, and for a program that is in force; all else as lines.
    Json,
}

/// How reports are printed: in which style, and whether what went wrong is red, and what is in force green.
#[derive(Clone, Copy)]
pub struct Form {
    pub style: Style,
    pub colours: bool,
}

impl Form {
    /// Lines without colours.
    pub const LINES: Form = Form {
        style: Style::Lines,
        colours: false,
    };
}
