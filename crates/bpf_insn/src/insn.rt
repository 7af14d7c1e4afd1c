//! The instructions.

ghost use Rattle.std.specs.Prelude.{ℕ, ◌≡◌, ◌≤◌};

use std::marker::Model;

/// One of the registers R0 to R10; R10 is the frame pointer (RFC 9669 section 3.1).
#[derive(Clone, Copy, Debug, PartialEq, Eq)]
pub struct Reg(u8);

impl Model for Reg {
    ghost Value = { ℕ };

    ghost view = { λ s. s.0 };

    ghost invariant = { λ s. s.0 ≤ 10 };

    ghost inverse = { λ n. record { 0 = n } };
}

impl Reg {
    /// The register of that number.
    pub fn new(number: u8) -> Reg
        requires { number ≤ 10 }
        ensures { result ≡ number }
    {
        Reg(number)
    }

    /// Its number, 0 to 10.
    pub fn number(self) -> u8
        ensures value { result ≡ self }
        ensures small { result ≤ 10 }
    {
        self.0
    }
}

/// The width of a load or store: 1, 2, 4 or 8 bytes (RFC 9669 section 5).
#[derive(Clone, Copy, Debug, PartialEq, Eq)]
pub enum Size {
    Byte,
    Half,
    Word,
    Double,
}

/// An arithmetic operation on destination and source (RFC 9669 section 4.1).
#[derive(Clone, Copy, Debug, PartialEq, Eq)]
pub enum AluOp {
    Add,
    Sub,
    Mul,
    /// Unsigned division; division by zero gives 0.
    Div,
    Or,
    And,
    /// Left shift.
    Lsh,
    /// Logical right shift.
    Rsh,
    /// Unsigned remainder; division by zero leaves the destination.
    Mod,
    Xor,
    Mov,
    /// Arithmetic right shift.
    Arsh,
    /// Signed division, truncated toward zero.
    Sdiv,
    /// Signed remainder, with the sign of the destination.
    Smod,
}

/// Where an operand comes from.
#[derive(Clone, Copy, Debug, PartialEq, Eq)]
pub enum Source {
    /// The instruction's immediate, sign-extended.
    Imm(i32),
    Reg(Reg),
}

/// What a byte order operation does (RFC 9669 section 4.2).
#[derive(Clone, Copy, Debug, PartialEq, Eq)]
pub enum ByteOrder {
    /// From the host's order to little endian.
    Little,
    /// From the host's order to big endian.
    Big,
    /// Reverses the bytes.
    Swap,
}

/// How many low bits a move with sign extension (MOVSX) reads: 8, 16 or 32 (RFC 9669 section 4.1).
#[derive(Clone, Copy, Debug, PartialEq, Eq)]
pub enum Extension {
    Byte,
    Half,
    Word,
}

/// How many low bits a byte order operation (END) keeps: 16, 32 or 64 (RFC 9669 section 4.2).
#[derive(Clone, Copy, Debug, PartialEq, Eq)]
pub enum OrderWidth {
    Half,
    Word,
    Double,
}

/// The condition of a branch; the destination register is the left operand (RFC 9669 section 4.3).
#[derive(Clone, Copy, Debug, PartialEq, Eq)]
pub enum Compare {
    Eq,
    Gt,
    Ge,
    /// Both have some bit set.
    Set,
    Ne,
    /// Signed greater.
    Sgt,
    Sge,
    Lt,
    Le,
    Slt,
    Sle,
}

/// An atomic operation on memory (RFC 9669 section 5.3). All but the first four read the old number into a register:
/// CMPXCHG into R0, the others into the source register.
#[derive(Clone, Copy, Debug, PartialEq, Eq)]
pub enum AtomicOp {
    Add,
    Or,
    And,
    Xor,
    FetchAdd,
    FetchOr,
    FetchAnd,
    FetchXor,
    /// Replaces the old number by the source.
    Xchg,
    /// The same, if the old number equals R0.
    Cmpxchg,
}

/// What a wide load loads (RFC 9669 section 5.4).
#[derive(Clone, Copy, Debug, PartialEq, Eq)]
pub enum Wide {
    Number(u64),
    /// A reference to the map of that number.
    Map(u32),
    /// A pointer into the first entry of a map.
    MapValue { map: u32, offset: u32 },
}

/// One instruction (RFC 9669 sections 4 and 5). It works on 64 bits if `wide`, else on 32. The `offset` of a jump
/// counts slots from the next slot; the `offset` of an access counts bytes from the pointer in its register.
#[derive(Clone, Copy, Debug, PartialEq, Eq)]
pub enum Insn {
    Alu {
        op: AluOp,
        wide: bool,
        dst: Reg,
        source: Source,
    },
    /// Moves the low 8 or 16 bits with sign extension, or 32 into 64 bits.
    MovSx {
        from: Extension,
        wide: bool,
        dst: Reg,
        src: Reg,
    },
    Neg {
        wide: bool,
        dst: Reg,
    },
    /// Converts the byte order of the low 16, 32 or 64 bits.
    End {
        order: ByteOrder,
        width: OrderWidth,
        dst: Reg,
    },
    /// Unconditional.
    Jump {
        offset: i16,
    },
    /// Unconditional, with a long offset.
    JumpLong {
        offset: i32,
    },
    Branch {
        compare: Compare,
        wide: bool,
        dst: Reg,
        source: Source,
        offset: i16,
    },
    /// Calls the helper of that number.
    Call {
        helper: i32,
    },
    /// Calls the program's function at that offset.
    CallLocal {
        offset: i32,
    },
    Exit,
    /// Sign-extends a byte, half or word if `signed`.
    Load {
        size: Size,
        signed: bool,
        dst: Reg,
        src: Reg,
        offset: i16,
    },
    Store {
        size: Size,
        dst: Reg,
        offset: i16,
        source: Source,
    },
    /// On 8 bytes if `wide`, else 4, at the pointer in `dst` plus `offset`.
    Atomic {
        op: AtomicOp,
        wide: bool,
        dst: Reg,
        src: Reg,
        offset: i16,
    },
    LoadWide {
        dst: Reg,
        value: Wide,
    },
}
