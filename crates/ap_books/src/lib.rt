//! The books of a shard: how many events it handled, with what outcomes, and shares for those who
//! count.
//!
//! Main calls: `ShardBooks::count` and `ShardBooks::read`. It depends on `ap_model`. Each count is
//! a ledger of its own: a book holds the sum of all its shares, modulo 2^64, so all shares together
//! give the books.
#![tactic(auto)]

mod blanks;
mod books;
mod ledgers;
mod out_counts;
mod portions;
mod shares;
mod tally;
mod totals;

pub use blanks::Blanks;
pub use books::ShardBooks;
pub use ledgers::{CountLedger, Ledgers};
pub use portions::Portions;
pub use shares::Shares;
pub use tally::Tally;
pub use totals::Totals;
