//! The verifier explores a program over abstract states, and admits it only if it is safe within a budget.
//!
//! Main calls: `verify` and `explore`, also within a limit of states and of work. The crate depends on `bpf_checks`,
//! `bpf_prune` and the laws of the rules. An admitted program is safe within the returned budget, for every frame,
//! context and port. A plain program, and one that is clear by the rules, is refused only for lack of memory. A refusal
//! has a number and a slot.
#![tactic(auto)]

pub mod admission;
pub mod explanation;
mod exploration;
mod fold;
mod frame;
pub mod limit;
mod observer;
mod path;
pub mod refusal;
mod slot_budgets;

pub use admission::{verify, verify_counted, verify_limited, verify_within};
pub use bpf_prune::Work;
pub use bpf_rules::Fault;
pub use explanation::{
    Explanation, explain_limited, explain_within, explore, explore_counted, explore_limited,
    explore_within,
};
pub use limit::{Limits, StateLimit};
pub use refusal::Refusal;
