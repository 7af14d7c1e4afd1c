//! The lines that a run prints, and their order.
//!
//! Main calls: `put_in_order` sorts reports, by line and then by shard, and keeps the order within one shard and line.
//! `print_reports` and `print_totals` write their lines to a writer, or a prefix if a write or an allocation fails. It
//! depends on `ap_model`, `ap_books`, `bpf_decode`, `bpf_verifier`, `hex` and `apd_files`.
mod json;
mod lines;
mod notice;
mod order;
mod print;
mod report;
mod words;

pub use notice::{Dropped, Meaning, Notice};
pub use order::put_in_order;
pub use print::{PrintFault, print_reports, print_totals};
pub use report::{Form, Report, Style, Told, Unread};
pub(crate) use words::CounterWords;
