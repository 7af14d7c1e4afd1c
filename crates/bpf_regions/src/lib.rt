//! What programs work on: values, memory regions, maps, hooks, their input and their queries.
//!
//! Main calls: `Shapes::new`, `Frame::new` and `Context::new`, which enforce the limits: at most 16
//! maps of at most 4096 entries and 8 words, a frame of at most 2400 bytes, a context of 32. The
//! crate depends only on std. The program side, the maps and the link's hooks all use its types.
#![tactic(auto)]

pub mod asks;
pub mod hooks;
pub mod inputs;
pub mod maps;
pub mod memory;

pub use asks::{Ask, Helper};
pub use hooks::Hook;
pub use inputs::{Context, Frame};
pub use maps::{MapOp, Scope, Shape, Shapes, WordWidth};
pub use memory::{Region, Value};
