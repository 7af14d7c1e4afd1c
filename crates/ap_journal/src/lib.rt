//! Journals: lists of entries that only proofs have, so they take no memory. The owner of a
//! journal's `Author` adds to it; whoever has seen some of it has a `Known`, which always remains a
//! prefix of it. It depends on `logbook`, whose ghost log is the journal. Promised: `prepare`, and
//! after it `add`, which can't fail, append exactly the described entry, and `add_on` prepares the
//! next one, too; whatever is known is a prefix of what the author knows; the shorter of two prefixes
//! of one journal is a prefix of the longer. `Past` is a list that its owner makes up.
#![tactic(auto)]

mod author;
mod entry;
mod known;
mod past;
mod rule;

pub use author::{Author, Opened};
pub use entry::{Describes, Entry, Lists};
pub use known::Known;
pub use past::Past;
