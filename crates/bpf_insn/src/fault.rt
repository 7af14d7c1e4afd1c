//! The faults of a slot.

/// Why slots spell no instruction, numbered 10 to 14. If there are several faults, the lowest is reported.
#[derive(Clone, Copy, Debug, PartialEq, Eq)]
pub enum FieldFault {
    /// 10: no operation has the opcode.
    UnknownOpcode = 10,
    /// 11: a register field is above 10.
    HighRegister = 11,
    /// 12: an unused field isn't zero.
    UnusedSet = 12,
    /// 13: a used field has an undefined value.
    Undefined = 13,
    /// 14: a wide load's second half is missing, or its first four bytes aren't zero.
    CutWide = 14,
}
