//! The hooks of the link: what a program reads, and what its verdict means.
//!
//! Main calls: `assoc_verdict`, `addba_verdict` and `data_verdict`, and a context for each hook. It depends on `assoc`
//! and `bpf_regions`. Verdicts are the tables of `specs/Verdicts.antt`, contexts the 32 bytes of
//! `specs/Contexts.antt`. `no_program` is the number used for a hook without a program. No call allocates.
#![tactic(auto)]

mod contexts;
mod verdicts;

pub use contexts::{Asker, addba_context, association_context, data_context};
pub use verdicts::{
    DataVerdict, LARGEST_WINDOW, addba_verdict, assoc_verdict, data_verdict, no_program,
};
