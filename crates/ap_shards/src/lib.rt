//! Eight shards, each under its own lock, and the tokens with which events are decided there.
//!
//! Main calls of `Shards`: `decide`, by which a worker decides an event by the programs of a
//! published set; `act`, by which an operator decides a command; both under the shard's lock; and
//! `gather`, which reads the totals; `close` does so with the pages of all tokens. It depends on
//! `ap_locked` and `hook_judge`. Promised: a token gains one entry of its own, on its page, with
//! the returned outputs, for each event that it decided, and its shares grow by exactly what these
//! entries count; given all shares, the totals are the sum of the books; given all pages, these
//! together are the journals, each entry at its own place.
#![tactic(auto)]

mod actions;
mod decisions;
mod desk;
mod fate;
mod listings;
mod new_shards;
mod pages;
mod renewal;
mod shards;
mod tokens;
mod totals;

pub use desk::Desk;
pub use fate::Fate;
pub use new_shards::NewShards;
pub use pages::AllPages;
pub use shards::Shards;
pub use tokens::ShardTokens;
