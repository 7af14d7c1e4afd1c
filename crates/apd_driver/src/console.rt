//! Standard output and standard error of a run: the run's lines go to the former, messages to the latter.
//!
//! Main types: the trait `Console`, to which a run writes, and `Terminal`, which is one. The messages say what a hook
//! keeps after a refused load, and to what a number is cut that doesn't fit a map's words; and, if `verbose` is set,
//! each load, and each hook without a program at the end. Contracts promise only that each refused load has a message, not
//! that standard error gets it.
mod console;
mod message;
mod notes;
mod programs;
mod terminal;

pub use console::Console;
pub use notes::Notes;
pub use terminal::Terminal;
