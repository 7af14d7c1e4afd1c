//! The faults of a run, by number. Verified programs have none of them.

/// A jump or call leads before the code or into a wide instruction.
pub const ASTRAY: u8 = 15;
/// Execution continues past the last slot.
pub const PAST_THE_END: u8 = 16;
/// No helper has this number.
pub const NO_HELPER: u8 = 18;
/// An unset register or stack byte is read.
pub const UNSET: u8 = 30;
/// An operand has the wrong kind.
pub const WRONG_OPERAND: u8 = 31;
/// An access is outside its region.
pub const OUTSIDE_REGION: u8 = 32;
/// An access has the wrong alignment or width.
pub const MISALIGNED: u8 = 33;
/// A local call would need a ninth stack frame.
pub const TOO_MANY_FRAMES: u8 = 35;
/// A pointer to a stack frame is stored in another frame.
pub const STACK_POINTER_STORED: u8 = 37;
/// At EXIT R0 is set, but not to a number.
pub const NO_RESULT: u8 = 38;
