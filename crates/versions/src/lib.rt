//! Program sets: a reader holds one whole published set of the hooks' programs, while a publisher replaces them.
//!
//! Main calls: `new_publisher::published`, `Publisher::publish`, `Entrance::enter` and `Entered::set`. The crate depends on
//! `left_right` and `ap_journal`. A borrowed set is the result of a prefix of the list of published loads that includes
//! all loads its reader had seen or was told of; it doesn't change until it is returned. 60 comes if and only if map
//! shapes differ, 62 if no reader is left, 40 for lack of memory.
#![tactic(auto)]

mod fault;
mod list;
pub mod new_publisher;
mod numbers;
mod pool;
mod publisher;
mod reader;
mod rule;
mod set;

pub use fault::{NoReader, PublishFault};
pub use list::Load;
pub use numbers::LoadNumbers;
pub use pool::{Entrance, Published};
pub use publisher::{News, Publisher};
pub use reader::{Entered, Reader};
pub use set::ProgramSet;
