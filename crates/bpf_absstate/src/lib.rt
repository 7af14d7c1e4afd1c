//! Abstract states of a program: what its registers and its call frames' stacks may hold.
//!
//! Main calls: `AbsState::entry`, `set_register`, `set_slot`, `call`, `is_included`, `difference`, `differs_at`. It
//! depends on `bpf_stack`. Each change is its definition in `specs/View.antt`; if an allocation fails, nothing changes.
//! `specs/Contains.antt` defines which states of the machine an abstract one contains. [`laws`] says that a state that
//! includes another contains all that it contains, and that the entry contains the start of every run; `proofs/` shows
//! what each change keeps (`Followed`, `Calls`, `Known`).
#![tactic(auto)]

pub mod frames;
pub mod laws;
pub mod registers;
pub mod state;

pub use frames::{CallFrame, Part, Place};
pub use state::{AbsState, Difference};
