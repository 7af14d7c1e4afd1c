//! Ports, which answer the queries of programs.
//!
//! Main calls: `PlainPort::new` and `PlainMap::new`. It depends on `bpf_tagged`. A plain map returns what a plain
//! array of numbers would, all 0 at first; the port also serves the clock, the number of stations, and the draw. Each
//! answer lies in its range. Traced programs and tests use this port.
#![tactic(auto)]

mod draws;
pub mod hook_port;
pub mod hook_run;
pub mod map_tables;
pub mod plain_map;
pub mod plain_port;
mod sums;
pub mod worker;

pub use hook_port::HookPort;
pub use hook_run::run_hook;
pub use map_tables::MapTables;
pub use plain_map::PlainMap;
pub use plain_port::PlainPort;
pub use worker::{WorkerState, WorkerView};
