//! An access point that several threads serve: eight shards, each under its own lock, a queue for
//! each worker, the tables of the maps, and the programs in force.
//!
//! Main calls of `LiveAp`: `submit`, which puts an event into the queue of its shard's worker;
//! `serve`, by which a worker decides the events in its queue, each under its shard's lock and by
//! the programs of one whole published set; `act`, by which an operator decides a command at once;
//! `gather`, which reads the totals; `close`, which does so with the pages of all tokens. It
//! depends on `ap_shards`, `ap_queues`, `ap_tables`, `versions` and `ap_laws`. Promised: `serve`
//! reports one `Tagged` for each item that it took, in order, with the item itself, so that the
//! memory of an event returns to the thread that submitted it; the worker's shares grow by exactly
//! what the reports count; given all shares, the totals are the sum of the books; given the pages
//! of all tokens, their entries together are the shards' journals, each at its own place, and the
//! totals count exactly these. The main theorem, for a worker's reports and a command's outputs:
//! each verdict is that of an accepted program, within its budget, or of a hook without a program;
//! the outputs are the link's under these verdicts, entries of one history of the shard from the
//! opening; only data of associated stations is passed up; each agreement's accepted numbers are
//! passed up once each, in increasing order. A token's own entries are in that history;
//! two tokens that meet share one.
#![tactic(auto)]

mod actions;
mod gate;
mod listings;
mod live;
mod maps;
mod meetings;
mod opened;
mod service;
mod submission;
mod tagged;
mod tokens;

pub use ap_core::{AgreementInForce, Known, KnownStation};
pub use ap_queues::Item;
pub use ap_shards::Fate;
pub use gate::{Gate, OpenGate};
pub use live::{LiveAp, Settings};
pub use opened::Opened;
pub use tagged::Tagged;
pub use tokens::{LeftTokens, OperatorToken, WorkerToken};
