//! The driver of a run, generic over the access point, the source of its lines and the writer.
//!
//! Main call: `run_lines`, which runs the lines of a `Script` or of an `Input` on what `Operating` and `Serving` promise of
//! an access point. It writes, for each interval (up to a `wait` or 4096 lines), reports ordered by line and shard, with an
//! input then the answer to a question, and at the end a line of totals, which are what the reports count; or a prefix of
//! that. Inputs come from a `Source`, with the time that passes. A `Destination` may keep a capture beside the lines. It
//! depends on `apd_script`, `apd_files`, `ap_model`, `ap_books` and `capture`, and on no access point.
#![tactic(auto)]

mod actions;
mod answers;
mod captures;
mod collection;
mod console;
mod crew;
mod feed;
mod found;
mod input;
mod interval;
mod lines;
mod manner;
mod operating;
mod questions;
mod reports;
mod script;
mod setting;
mod source;
mod threads;

pub use actions::{Publication, WordUse};
pub use answers::{AgreementRow, Answer, EntryRow, ProgramRow, StationRow, print_answer};
pub use captures::{
    Capturing, Destination, InFile, Printing, Recorder, Recording, Unprinted, Unrecorded,
    capture_law,
};
pub use console::{Console, Notes, Terminal};
pub use crew::Serving;
pub use input::Input;
pub use lines::{Lines, Script};
pub use manner::Manner;
pub use operating::{Operating, Waiting};
pub use reports::{
    Dropped, Form, Meaning, Notice, PrintFault, Report, Style, Told, Unread, print_reports,
    print_totals, put_in_order,
};
pub use script::run_lines;
pub use setting::Staff;
pub use source::{Arrival, Direct, Passing, Post, Source, Timed};
