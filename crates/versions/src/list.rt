//! The list of published loads, which exists only in proofs: what one knows of it, and how a load is added.

ghost use Rattle.std.specs.Prelude.{◌≡◌, ◌⊎◌, ◌↔◌, [], length, IsTrue, IfSome, IfNone};
ghost use Rattle.std.specs.List.{All};
ghost use Rattle.versions.specs.Sets.{Fits};
ghost use Rattle.versions.specs.Lists.{Begins, IsNext, with_load};
ghost use Rattle.versions.specs.Wishes.{wish};

use ap_journal::{Author, Describes};
use bpf_machine::Accepted;
use bpf_regions::{Hook, Shapes};
use std::marker::Model;
use std::sync::Arc;

/// A load: it replaces one hook's program, or removes it. No value of this type is made.
pub struct Load {
    pub hook: Hook,
    pub program: Option<Accepted>,
}

/// An entry of a list: first the map shapes that it is for, then the loads. No value of this type is made.
pub enum Entry {
    Opened(Shapes),
    Loaded(Load),
}

impl ap_journal::Entry for Entry {
    ghost use Rattle.std.specs.Prelude.{[]};
    ghost use Rattle.versions.specs.declared.list.Entry.TheVariants.{Opened};

    ghost unwritten = { Opened [] };
}

/// The first entry of a list, which names its map shapes.
#[derive(Clone, Copy)]
struct First<'a> {
    shapes: &'a Shapes,
}

impl<'a> Describes<Entry> for First<'a> {
    ghost use Rattle.versions.specs.declared.list.Entry.TheVariants.{Opened};

    ghost entry = { λ first. Opened first.shapes.now };
}

/// A requested load.
#[derive(Drop)]
pub struct Wanted {
    pub hook: Hook,
    pub program: Option<Arc<Accepted>>,
}

impl Describes<Entry> for Wanted {
    ghost use Rattle.versions.specs.Wishes.{wish};
    ghost use Rattle.versions.specs.declared.list.Entry.TheVariants.{Loaded};

    ghost entry = { λ wanted. Loaded (wish wanted) };
}

/// A prefix of a list, as far as one knows it. At run time it is the number of its entries.
#[derive(Drop)]
pub struct Known {
    entries: ap_journal::Known<Entry>,
}

impl Model for Known {
    ghost use Rattle.versions.specs.Lists.{Beginning, IsWritten, beginning};

    ghost Value = { Beginning };

    ghost view = { λ k. beginning k.entries.journal k.entries.entries };

    ghost invariant = { λ k. IsWritten k.entries.entries };
}

impl Known {
    /// A list for maps of these shapes, without loads, and the right to add to it.
    pub fn open(shapes: &Shapes) -> Option<(Author<Entry>, Known)>
        ensures author { IfSome result (λ t. IsNext t.0 t.1) }
        ensures shapes { IfSome result (λ t. t.1.shapes ≡ shapes.now) }
        ensures empty { IfSome result (λ t. t.1.loads ≡ []) }
    {
        let (mut author, mut entries) = ap_journal::Opened::new().into_parts();
        if !author.prepare(&entries) {
            return None;
        }
        if !author.add_on(&mut entries, &First { shapes }) {
            return None;
        }
        Some((author, Known { entries }))
    }

    /// A copy.
    pub fn again(&self) -> Known
        ensures { result ≡ self.now }
    {
        Known {
            entries: self.entries.again(),
        }
    }

    /// How many loads it has.
    pub fn loads(&self) -> u64
        ensures { result ≡ length self.now.loads }
    {
        self.entries.len() - 1
    }

    /// Each load fits the map shapes of its list.
    pub fn fitting(&self)
        ensures { All (Fits self.now.shapes) self.now.loads }
    {
        let _ = &self.entries;
    }

    /// The longer of two prefixes of one list, which extends the other.
    pub fn longer(&self, other: &Known) -> Known
        requires { other.now.list ≡ self.now.list }
        ensures this { Begins self.now result }
        ensures that { Begins other.now result }
        ensures one { (result ≡ self.now) ⊎ (result ≡ other.now) }
    {
        let entries = self.entries.longer(&other.entries);
        Known { entries }
    }

    /// Whether this prefix includes all of the other.
    pub fn covers(&self, other: &Known) -> bool
        requires { other.now.list ≡ self.now.list }
        ensures shapes { self.now.shapes ≡ other.now.shapes }
        ensures has_all { IsTrue result ↔ Begins other.now self.now }
    {
        let longer = self.longer(other);
        longer.loads() == self.loads()
    }

    /// Who knows a whole list knows all that anyone knows of it.
    pub fn look(&self, author: &mut Author<Entry>, other: &Known)
        requires turn { IsNext author.old self.now }
        requires one_list { other.now.list ≡ self.now.list }
        ensures same { author.new ≡ author.old }
        ensures has_all { Begins other.now self.now }
    {
        author.look(&self.entries, &other.entries);
    }

    /// The list, all of which is known, with one more load. None if it is full, with about 2^61 loads; then nothing
    /// changes.
    pub fn with(&self, author: &mut Author<Entry>, wanted: &Wanted) -> Option<Known>
        requires turn { IsNext author.old self.now }
        requires fits { Fits self.now.shapes (wish wanted.now) }
        ensures none { IfNone result (author.new ≡ author.old) }
        ensures turn { IfSome result (λ k. IsNext author.new k) }
        ensures added { IfSome result (λ k. k ≡ with_load self.now (wish wanted.now)) }
    {
        let mut entries = self.entries.again();
        if !author.add_on(&mut entries, wanted) {
            return None;
        }
        Some(Known { entries })
    }
}
