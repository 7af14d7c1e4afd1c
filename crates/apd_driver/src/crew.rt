//! The workers of a run: threads that live for a whole script, and serve between two waits.
//!
//! Main calls: `start_all`, and `work` for each thread, which sleeps until `ring` wakes the first and each wakes the next. A
//! worker goes out, and comes back with what became of its events. It goes by its desk: no worker is lost, and none is out
//! twice. No contract says that a worker runs, or comes back; `tools/bell-model` follows each order of the threads' steps
//! in a model.
mod bell;
mod desk;
mod hand;
mod serving;
mod task;
mod worker;

pub use desk::{Desk, Order, Signs, ring};
pub use hand::Done;
pub use serving::Serving;
pub use task::{Task, start_all};
pub use worker::work;
