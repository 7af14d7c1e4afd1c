//! What is known of a call frame's stack: 64 slots of eight bytes.
//!
//! Main calls: `Stack::get`, `set`, `first_outside`, `is_included`, `forget`. It depends on `bpf_absval`. Contracts see
//! a stack as the list of its slots. In memory it is a binary tree of shared parts: a clone increments one count, a
//! write copies the path to its slot, and unset slots take no memory. A forgotten label stays in the tree, and a mark
//! beside the tree says that it doesn't count. If an allocation fails, the stack is unchanged.
#![tactic(auto)]

mod comparison;
pub mod stack;
mod tree;

pub use stack::Stack;
