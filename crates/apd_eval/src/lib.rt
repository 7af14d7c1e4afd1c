//! Policies on captures: what a program says of each frame that comes to it.
//!
//! Main calls: `evaluation_text`, `compare` and `profile_text`. It depends on `ap_core`, `program_judge` and `capture`. The frames of a
//! capture come to a new access point of which the program is the only one; each query of its hook is a row, with the
//! verdict and the steps of the program's run on that query. A second program may judge the same queries, with maps of
//! its own; then the rows are the queries on which both differ. `profile_text` tells at which instructions the runs on
//! these queries make their steps, `repeated_text` how long a run takes, by a clock. Packets and rows come one after another,
//! and none is kept, but by `repeated_text`, which judges the queries again.
#![tactic(auto)]

mod again;
mod changes;
mod comparison;
mod evaluation;
mod follow;
mod handled;
mod meter;
mod profile;
mod reasons;
mod rounds;
mod row;
mod ruling;
mod sums;
mod table;
mod tally;
mod tried;
mod witness;
mod words;

pub use again::Contrast;
pub use comparison::{Comparison, compare};
pub use evaluation::evaluation_text;
pub use follow::Replay;
pub use profile::{ProfileForm, profile_text};
pub use rounds::{Figures, Rounds, repeated_text};
pub use row::Row;
pub use ruling::Ruling;
