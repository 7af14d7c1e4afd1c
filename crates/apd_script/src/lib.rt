//! The script of a run, which is parsed as a whole before any line runs, and lines that are read as they come.
//!
//! Main calls: `read_script` and `read_batch`. It depends on `bpf_regions` and `mac_types`. `read_script` returns exactly
//! the commands of the text, each with its line number, or the number of the first malformed line. `line_fault` says in
//! words why that line is malformed. `read_batch` takes whole lines from the beginning of a text, and returns the
//! malformed ones and a question beside the commands; lines don't depend on how a text is divided.
#![tactic(auto)]

mod batch;
mod command;
mod fault;
mod hex_text;
mod line;
mod operands;
mod question;
mod read;
mod why;
mod words;

pub use batch::{Batch, MOST_BYTES, MalformedLine, begins_with_quit, read_batch};
pub use command::{Command, MapWord, Numbered};
pub use fault::ScriptFault;
pub use hex_text::HexText;
pub use line::{begins_comment, cut_words, has_forbidden, next_word};
pub use question::{NumberedQuestion, Question};
pub use read::{first_line, read_script};
pub use why::{
    Form, LineFault, OperandFault, Shown, is_near, line_at, line_fault, text_fault, usages,
};
pub use words::{hook_named, number, number_below};
