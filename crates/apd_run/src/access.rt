//! Running a script, or lines as they come, on a live access point.
//!
//! Main call: `run_live`. It depends on `ap_live`, `apd_driver` and `loads`. A worker of the run serves the queue of one
//! worker of the access point by `LiveAp::serve`, and keeps what became of each event. The operator submits events, loads
//! and unloads programs and reads maps. What it takes over from a worker, batch by batch, became of events that it had put
//! into that worker's queue, and those that were decided are entries of the shards' histories; in the end the batches are
//! all that was decided. The last line says what all shares of the ledgers have counted, which is what the reports count.

mod counts;
mod hands;
mod names;
mod operator;
mod program_counts;
mod register;
mod reports;
mod returned;
mod rows;
mod run;
mod tokens;
mod worker;

pub use crate::loads::{Limits, StateLimit};
pub use ap_live::{Gate, OpenGate, Settings};
pub use ap_shards::NewShards;
pub use names::Names;
pub use operator::LiveOperator;
pub(crate) use run::run_live;
pub use run::{Opening, Supplies};
pub use worker::LiveWorker;
