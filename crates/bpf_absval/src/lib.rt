//! Abstract values: what a register, or eight bytes of a stack frame, may hold, when one includes
//! another, how many bytes are known to follow the label of a frame pointer, and marks of values
//! whose label is forgotten.
//!
//! Main calls: `AbsVal::is_included`, `AbsSlot::is_included`, `Rooms::raise`. It depends on
//! `bpf_absnum`. `specs/Meaning.antt` defines which values of a run an abstract value contains.
//! [`laws`] says that a value contains all that a value included in it contains. `proofs/Forgets`
//! and `proofs/Raises` show that a label may be forgotten, made anew, or given more room.
#![tactic(auto)]

pub mod inclusion;
pub mod laws;
pub mod marks;
pub mod room;
pub mod slot;
mod tree;
pub mod value;

pub use marks::Marks;
pub use room::{Room, Rooms};
pub use slot::AbsSlot;
pub use value::{AbsRegion, AbsVal, Label};
