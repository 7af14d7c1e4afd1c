//! How handles are filled and emptied.

ghost use Rattle.std.specs.Prelude.{◌≡◌, ◌≢◌, ◌⊎◌, ◌↔◌, Some, None, IsTrue};
ghost use Rattle.std.specs.Option.{option_map};
ghost use Rattle.apd_c.specs.Held.{held};
ghost use Rattle.apd_c.specs.Answers.{answer};
ghost use Rattle.apd_c.specs.Code.{code_of};
ghost use Rattle.apd_c.specs.Words.{maps_of};

use crate::answer::{Answer, NO_MEMORY};
use crate::handle::{Content, Handle};
use crate::loose::Loose;
use crate::maps::Maps;
use bpf_machine::Accepted;
use std::alloc::Global;
use std::mem::replace;

impl Handle {
    /// Takes its content out, which leaves it empty.
    pub(crate) fn take(&mut self, alloc: Global) -> Option<Box<Content>>
        ensures taken { option_map (λ b. b.value) result ≡ held self.old }
        ensures empty { held self.new ≡ None }
    {
        match replace(self, Handle::empty()).opened(alloc) {
            None => None,
            Some(loose) => Some(loose.into_box()),
        }
    }

    /// Whether it holds nothing.
    pub(crate) fn is_empty(&mut self) -> bool
        ensures is { IsTrue result ↔ (held self.old ≡ None) }
        ensures kept { held self.new ≡ held self.old }
    {
        match self.lent() {
            None => true,
            Some(_) => false,
        }
    }

    /// Holds this content. A content that it held is never freed, so callers take that first.
    pub(crate) fn put(&mut self, content: Box<Content>)
        ensures { held self.new ≡ Some content.value }
    {
        *self = Handle::sealed(Loose::of(content));
    }

    /// Fills an empty handle. 40: an allocation failed, and it stays empty.
    pub(crate) fn fill(&mut self, alloc: Global, content: Content) -> Answer
        requires empty { held self.old ≡ None }
        ensures filled { result.number ≡ 0 → held self.new ≡ Some content }
        ensures refused { result.number ≢ 0 → held self.new ≡ None }
        ensures number { (result ≡ answer 0) ⊎ (result ≡ answer 40) }
    {
        match Box::new(alloc, content) {
            Err(_) => Answer::of(NO_MEMORY),
            Ok(boxed) => {
                self.put(boxed);
                Answer::of(0)
            }
        }
    }

    /// Fills an empty handle with a program. 40: an allocation failed, and it stays empty.
    pub(crate) fn fill_code(&mut self, alloc: Global, accepted: Accepted) -> Answer
        requires empty { held self.old ≡ None }
        ensures filled { result.number ≡ 0 → code_of (held self.new) ≡ Some accepted }
        ensures refused { result.number ≢ 0 → held self.new ≡ None }
        ensures number { (result ≡ answer 0) ⊎ (result ≡ answer 40) }
    {
        match Box::new(alloc, accepted) {
            Err(_) => Answer::of(NO_MEMORY),
            Ok(boxed) => self.fill(alloc, Content::Code(boxed)),
        }
    }

    /// Fills an empty handle with maps. 40: an allocation failed, and it stays empty.
    pub(crate) fn fill_maps(&mut self, alloc: Global, maps: Maps) -> Answer
        requires empty { held self.old ≡ None }
        ensures filled { result.number ≡ 0 → maps_of (held self.new) ≡ Some maps }
        ensures refused { result.number ≢ 0 → held self.new ≡ None }
        ensures number { (result ≡ answer 0) ⊎ (result ≡ answer 40) }
    {
        match Box::new(alloc, maps) {
            Err(_) => Answer::of(NO_MEMORY),
            Ok(boxed) => self.fill(alloc, Content::Maps(boxed)),
        }
    }
}

/// Frees the content of a handle, and leaves it empty. An empty one stays empty.
#[unsafe(no_mangle)]
pub extern "C" fn apd_c_free(alloc: Global, handle: &mut Handle)
    ensures empty { held handle.new ≡ None }
{
    drop(handle.take(alloc));
}
