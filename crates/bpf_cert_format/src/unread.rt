//! Entries that are read on each use.

ghost use Rattle.std.specs.Prelude.{◌≡◌, ◌≤◌, IfOk, drop};
ghost use Rattle.bpf_cert_format.specs.Fits.{FitsEntry};
ghost use Rattle.bpf_cert_format.specs.Reading.{entry_at as reads_entry};
ghost use Rattle.bpf_cert_format.specs.Unread.{entry_read, entry_from};

use crate::entry::Entry;
use crate::parts::entry_at;
use std::alloc::{AllocError, Global};
use std::marker::Model;
use std::rc::Rc;

/// The bytes of entries, and how many maps the program has.
#[derive(Drop)]
pub struct Text {
    maps: usize,
    bytes: Vec<u8>,
}

impl Model for Text {
    ghost use Rattle.std.specs.Prelude.{◌≤◌};
    ghost use Rattle.bpf_cert_format.specs.Unread.{TextView};

    ghost Value = { TextView };

    ghost view = { λ a. record { maps = a.maps; bytes = a.bytes.items } };

    ghost invariant = { λ a. a.maps ≤ 16 };
}

/// The entry that the bytes spell at a position. If they spell none, this fails like an allocation.
fn entry_in_bytes(
    alloc: Global,
    maps: usize,
    bytes: &[u8],
    place: usize,
) -> Result<Entry, AllocError>
    requires few_maps { maps ≤ 16 }
    ensures is { IfOk result (λ entry. entry ≡ entry_read (reads_entry maps (drop place bytes.now))) }
    ensures fits { IfOk result (FitsEntry maps) }
{
    if place > bytes.len() {
        return Err(AllocError);
    }
    let (_, rest) = bytes.split_at(place);
    match entry_at(alloc, maps, rest) {
        Err(_) => Err(AllocError),
        Ok((entry, _)) => Ok(entry),
    }
}

impl Text {
    /// A text that entries share.
    pub(crate) fn shared(alloc: Global, maps: usize, bytes: &[u8]) -> Result<Rc<Text>, AllocError>
        requires few_maps { maps ≤ 16 }
        ensures is { IfOk result (λ text. text.value ≡ record { maps = maps; bytes = bytes.now }) }
    {
        let bytes = Vec::from_slice(alloc, bytes)?;
        let text = Rc::new(alloc, Text { maps, bytes })?;
        Ok(text)
    }

    /// The entry spelled at a position.
    fn entry(&self, alloc: Global, place: usize) -> Result<Entry, AllocError>
        ensures is { IfOk result
            (λ entry. entry ≡ entry_from (record { text = self.now; place = place })) }
        ensures fits { IfOk result (FitsEntry self.now.maps) }
    {
        let entry = entry_in_bytes(alloc, self.maps, self.bytes.as_slice(), place)?;
        Ok(entry)
    }
}

/// An entry that is read on each use: the position of its bytes in a text that entries share.
#[derive(Drop)]
pub struct Unread {
    text: Rc<Text>,
    place: usize,
}

impl Model for Unread {
    ghost use Rattle.bpf_cert_format.specs.Unread.{UnreadView};

    ghost Value = { UnreadView };

    ghost view = { λ a. record { text = a.text.value; place = a.place } };
}

impl Clone for Unread {
    ghost is_clone = { λ a b. b ≡ a };

    fn clone(&self) -> Result<Unread, AllocError> {
        let text = self.text.clone()?;
        Ok(Unread {
            text,
            place: self.place,
        })
    }
}

impl Unread {
    /// The entry at a position of a text.
    pub(crate) fn new(text: &Rc<Text>, place: usize) -> Result<Unread, AllocError>
        ensures is { IfOk result
            (λ unread. unread ≡ record { text = text.now.value; place = place }) }
    {
        let text = text.clone()?;
        Ok(Unread { text, place })
    }

    /// How many maps the program has.
    pub fn maps(&self) -> usize
        ensures is { result ≡ self.now.text.maps }
    {
        let text: &Text = &self.text;
        text.maps
    }

    /// Reads the entry.
    pub fn entry(&self, alloc: Global) -> Result<Entry, AllocError>
        ensures is { IfOk result (λ entry. entry ≡ entry_from self.now) }
        ensures fits { IfOk result (FitsEntry self.now.text.maps) }
    {
        let text: &Text = &self.text;
        let entry = text.entry(alloc, self.place)?;
        Ok(entry)
    }
}
