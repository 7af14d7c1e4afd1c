//! The answers to the questions of `apd live`.
//!
//! Main call: `print_answer` writes an answer to a writer, or a prefix if a write or an allocation fails. It depends on
//! `ap_books`, `bpf_regions`, `mac_types` and `apd_files`.
mod answer;
mod lines;
mod rows;

pub use answer::{AgreementRow, Answer, EntryRow, ProgramRow, StationRow};
pub use lines::print_answer;
