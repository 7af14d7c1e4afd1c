//! Certificates as bytes: each has one spelling, which is written and read.
//!
//! Main calls: `read` and `write`. The crate depends on the abstract states. `specs/Spelling.antt` and
//! `specs/Fits.antt` define a certificate's bytes; `read` returns the only certificate that bytes spell, or that they
//! spell none. What a certificate shows is defined elsewhere.
#![tactic(auto)]

pub mod certificate;
pub mod entry;
pub mod fault;
mod fields;
pub mod frame;
pub mod leaf;
mod parts;
pub mod reader;
pub mod slots;
pub mod unread;
mod values;
pub mod writer;

pub use certificate::Certificate;
pub use entry::Entry;
pub use fault::{ReadFault, WriteFault};
pub use frame::Frame;
pub use leaf::{Kind, Leaf};
pub use reader::read;
pub use slots::{KnownSlot, Slots};
pub use unread::Unread;
pub use writer::write;
