//! Memory accesses of instructions.

use bpf_absnum::AbsNum;
use bpf_insn::{AluOp, Insn, Reg, Size};
use std::fmt;

/// The bytes of memory that an instruction reads or writes: `size` bytes at an offset from a register's pointer.
#[derive(Clone, Copy)]
pub(crate) struct Access {
    pub(crate) base: Reg,
    pub(crate) offset: i16,
    pub(crate) size: u8,
}

/// How far an access reaches in its region.
#[derive(Clone, Copy)]
pub(crate) enum Reach {
    /// It ends at this byte at most.
    To(u64),
    /// It begins this many bytes before the region.
    Before(u64),
    /// Its offset may be negative, or exceed what a number holds.
    Anywhere,
}

/// Offsets from here on are negative numbers.
const NEGATIVE: u64 = 1 << 63;

impl Access {
    /// How far it reaches through a pointer that has one of these offsets.
    pub(crate) fn reach(&self, offset: AbsNum) -> Reach {
        let by = AbsNum::single(i64::from(self.offset).cast_unsigned());
        let at = offset.alu(AluOp::Add, true, by);
        let last = at.range().high();
        if last < NEGATIVE {
            return Reach::To(last + u64::from(self.size));
        }
        if at.is_single() {
            return Reach::Before(0u64.wrapping_sub(last));
        }
        Reach::Anywhere
    }
}

impl fmt::Display for Reach {
    fn fmt<W: fmt::Write>(&self, f: &mut fmt::Formatter<W>) -> fmt::Result {
        match self {
            Reach::To(end) => write!(f, "it reaches to byte {end}"),
            Reach::Before(1) => f.write_str("it begins 1 byte before the first byte"),
            Reach::Before(bytes) => write!(f, "it begins {bytes} bytes before the first byte"),
            Reach::Anywhere => f.write_str("its offset may wrap, so that it reaches to any byte"),
        }
    }
}

fn bytes_of(size: Size) -> u8 {
    match size {
        Size::Byte => 1,
        Size::Half => 2,
        Size::Word => 4,
        Size::Double => 8,
    }
}

/// The memory access of an instruction, if it makes one.
pub(crate) fn access_of(insn: Insn) -> Option<Access> {
    match insn {
        Insn::Load {
            size,
            src,
            offset,
            ..
        } => Some(Access {
            base: src,
            offset,
            size: bytes_of(size),
        }),
        Insn::Store {
            size,
            dst,
            offset,
            ..
        } => Some(Access {
            base: dst,
            offset,
            size: bytes_of(size),
        }),
        Insn::Atomic {
            wide,
            dst,
            offset,
            ..
        } => Some(Access {
            base: dst,
            offset,
            size: if wide { 8 } else { 4 },
        }),
        _ => None,
    }
}
