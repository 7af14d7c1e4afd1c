//! Texts that `apd` prints of programs and refusals: listings, traces, explanations of refusals, and the pages on them. The
//! lines of a run are in `apd_driver`.
#![tactic(auto)]

mod contexts;
mod listing;
mod numbers;
mod raw;
mod reasons;
mod refusals;
mod trace;

pub use contexts::{ContextFault, context_for};
pub use listing::listing_text;
pub use numbers::{list_text, ranges_text};
pub use raw::{raw_faults, raw_text};
pub use reasons::{fault_text, insn_text, reason_text};
pub use refusals::{Example, Explanation, explain, page_text};
pub use trace::trace_text;
