//! Entries as values, or by the positions of their bytes.

ghost use Rattle.std.specs.Prelude.{◌≡◌};
ghost use Rattle.bpf_cert_format.specs.Leaves.{entry_in};
ghost use Rattle.bpf_cert_format.specs.Unread.{entry_from};

use crate::entry::Entry;
use crate::unread::Unread;
use std::marker::Model;

/// The form in which an entry is held.
#[derive(Drop)]
pub enum Kind {
    /// Its value.
    Read(Entry),
    /// The position of its bytes.
    Spelled(Unread),
}

/// An entry, held as its value or as the position of its bytes. Contracts see the entry.
#[derive(Drop)]
pub struct Leaf {
    kind: Kind,
}

impl Model for Leaf {
    ghost use Rattle.bpf_cert_format.specs.Leaves.{entry_in};
    ghost use Rattle.bpf_cert_format.specs.Views.{EntryView};

    ghost Value = { EntryView };

    ghost view = { λ a. entry_in a.kind };
}

impl Leaf {
    /// An entry held as its value.
    pub fn read(entry: Entry) -> Leaf
        ensures is { result ≡ entry }
    {
        Leaf {
            kind: Kind::Read(entry),
        }
    }

    /// An entry that is read on each use.
    pub(crate) fn unread(unread: Unread) -> Leaf
        ensures is { result ≡ entry_from unread }
    {
        Leaf {
            kind: Kind::Spelled(unread),
        }
    }

    /// The form in which it is held.
    pub fn kind(&self) -> &Kind
        ensures is { entry_in result.now ≡ self.now }
    {
        &self.kind
    }
}
