//! The queues of an access point's workers: operators put events, and the worker of an event's shard takes them.
//!
//! Main calls: `EventLines::submit` and `submit_at`, which put an event into the queue of its shard's worker, a tick
//! once for each shard; `EventLines::queue`, from which its worker takes; `EventQueue::put` and `take`, for one queue.
//! A queue holds 256 events. What the worker took is a prefix of what was put, in order. Of each operator, a queue
//! gets exactly the items whose `put` returned `Ok`, in order, once each. `meet_alone` shows: if there is one operator,
//! it put all that a worker took. If a queue is full (61), the event is returned; a tick has then reached exactly the
//! shards before.
#![tactic(auto)]

mod item;
mod lines;
mod queue;
mod rule;

pub use item::{Item, Queued, View};
pub use lines::{EventLines, LineFault, LinePasses, OperatorLines, Unserved};
pub use queue::{EventQueue, OperatorPass, PassMaker, QueueFull, WorkerPass};
pub use rule::OneQueue;
