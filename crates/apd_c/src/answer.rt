//! What calls return.

ghost use Rattle.std.specs.Prelude.{◌≡◌, ◌≢◌};
ghost use Rattle.apd_c.specs.Answers.{answer};

/// 0, or the number of a refusal and its slot, which is 0 if the refusal concerns no slot.
#[repr(C)]
#[derive(Clone, Copy, Debug, PartialEq, Eq)]
pub struct Answer {
    pub number: u32,
    pub slot: usize,
}

/// An argument is out of its limits.
pub(crate) const OUT_OF_LIMITS: u32 = 90;
/// A handle is empty, or holds a value of another kind than the call takes.
pub(crate) const OTHER_VALUE: u32 = 91;
/// The handle to be filled isn't empty.
pub(crate) const NOT_EMPTY: u32 = 92;
/// The program is for maps of other shapes.
pub(crate) const OTHER_MAPS: u32 = 93;
/// The program was verified for another hook.
pub(crate) const OTHER_HOOK: u32 = 95;
/// The check of a certificate needs more work than its limit.
pub(crate) const TOO_MUCH_WORK: u32 = 36;
/// An allocation failed.
pub(crate) const NO_MEMORY: u32 = 40;

impl Answer {
    /// A number without a slot.
    pub(crate) fn of(number: u32) -> Answer
        ensures { result ≡ answer number }
    {
        Answer { number, slot: 0 }
    }
}
