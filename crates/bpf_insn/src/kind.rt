//! Opcodes, and the field values that each allows.

ghost use Rattle.std.specs.Prelude.{◌≡◌, ◌<◌, ◌↔◌, IsTrue, IfNone, IfSome};
ghost use Rattle.bpf_insn.specs.declared.kind.Kind.TheVariants as kind;
ghost use Rattle.bpf_insn.specs.Kinds.{kind_at, arithmetic_at, op_at, branch_at, compare_at, size_at, load_at, store_at};
ghost use Rattle.bpf_insn.specs.Uses.{Meets, uses_of, fault_of};
ghost use Rattle.bpf_insn.specs.Faults.{Broken};

use crate::fault::FieldFault;
use crate::insn::{AluOp, ByteOrder, Compare, Size};

/// What an opcode encodes.
#[derive(Clone, Copy, Debug)]
pub enum Kind {
    Alu {
        op: AluOp,
        wide: bool,
        register: bool,
    },
    Neg {
        wide: bool,
    },
    End {
        order: ByteOrder,
    },
    Branch {
        compare: Compare,
        wide: bool,
        register: bool,
    },
    Jump,
    JumpLong,
    Call,
    Exit,
    Load {
        size: Size,
        signed: bool,
    },
    Store {
        size: Size,
        register: bool,
    },
    Atomic {
        wide: bool,
    },
    LoadWide,
}

/// The operation of a 4-bit code.
fn op_of(code: u8) -> Option<AluOp>
    ensures { result ≡ op_at code }
{
    match code {
        0 => Some(AluOp::Add),
        1 => Some(AluOp::Sub),
        2 => Some(AluOp::Mul),
        3 => Some(AluOp::Div),
        4 => Some(AluOp::Or),
        5 => Some(AluOp::And),
        6 => Some(AluOp::Lsh),
        7 => Some(AluOp::Rsh),
        9 => Some(AluOp::Mod),
        10 => Some(AluOp::Xor),
        11 => Some(AluOp::Mov),
        12 => Some(AluOp::Arsh),
        _ => None,
    }
}

fn compare_of(code: u8) -> Option<Compare>
    ensures { result ≡ compare_at code }
{
    match code {
        1 => Some(Compare::Eq),
        2 => Some(Compare::Gt),
        3 => Some(Compare::Ge),
        4 => Some(Compare::Set),
        5 => Some(Compare::Ne),
        6 => Some(Compare::Sgt),
        7 => Some(Compare::Sge),
        10 => Some(Compare::Lt),
        11 => Some(Compare::Le),
        12 => Some(Compare::Slt),
        13 => Some(Compare::Sle),
        _ => None,
    }
}

/// The size of a 2-bit code.
fn size_of_code(code: u8) -> Size
    ensures { result ≡ size_at code }
{
    match code {
        0 => Size::Word,
        1 => Size::Half,
        2 => Size::Byte,
        _ => Size::Double,
    }
}

fn arithmetic(code: u8, register: bool, wide: bool) -> Option<Kind>
    ensures { result ≡ arithmetic_at code register wide }
{
    match code {
        8 => {
            if register {
                None
            } else {
                Some(Kind::Neg { wide })
            }
        }
        13 => {
            if wide {
                if register {
                    None
                } else {
                    Some(Kind::End {
                        order: ByteOrder::Swap,
                    })
                }
            } else if register {
                Some(Kind::End {
                    order: ByteOrder::Big,
                })
            } else {
                Some(Kind::End {
                    order: ByteOrder::Little,
                })
            }
        }
        _ => match op_of(code) {
            Some(op) => Some(Kind::Alu { op, wide, register }),
            None => None,
        },
    }
}

fn branch(code: u8, register: bool, wide: bool) -> Option<Kind>
    ensures { result ≡ branch_at code register wide }
{
    match code {
        0 => {
            if register {
                None
            } else if wide {
                Some(Kind::Jump)
            } else {
                Some(Kind::JumpLong)
            }
        }
        8 => {
            if wide && !register {
                Some(Kind::Call)
            } else {
                None
            }
        }
        9 => {
            if wide && !register {
                Some(Kind::Exit)
            } else {
                None
            }
        }
        _ => match compare_of(code) {
            Some(compare) => Some(Kind::Branch {
                compare,
                wide,
                register,
            }),
            None => None,
        },
    }
}

/// A load, by the bits above the class: two of size, three of mode.
fn load(mode: u8, size: Size) -> Option<Kind>
    ensures { result ≡ load_at mode size }
{
    match mode {
        3 => Some(Kind::Load {
            size,
            signed: false,
        }),
        4 => match size {
            Size::Double => None,
            _ => Some(Kind::Load { size, signed: true }),
        },
        _ => None,
    }
}

fn store(mode: u8, size: Size, register: bool) -> Option<Kind>
    ensures { result ≡ store_at mode size register }
{
    match mode {
        3 => Some(Kind::Store { size, register }),
        6 => {
            if register {
                match size {
                    Size::Word => Some(Kind::Atomic { wide: false }),
                    Size::Double => Some(Kind::Atomic { wide: true }),
                    _ => None,
                }
            } else {
                None
            }
        }
        _ => None,
    }
}

pub(crate) fn kind_of(opcode: u8) -> Option<Kind>
    ensures { result ≡ kind_at opcode }
{
    let code = opcode / 16;
    let register = opcode / 8 % 2 == 1;
    let mode = opcode / 32;
    let size = size_of_code(opcode / 8 % 4);
    match opcode % 8 {
        0 => {
            if opcode == 0x18 {
                Some(Kind::LoadWide)
            } else {
                None
            }
        }
        1 => load(mode, size),
        2 => store(mode, size, false),
        3 => store(mode, size, true),
        4 => arithmetic(code, register, false),
        5 => branch(code, register, true),
        6 => branch(code, register, false),
        _ => arithmetic(code, register, true),
    }
}

/// What a field is used for.
#[derive(Clone, Copy, Debug)]
pub enum Use {
    /// Any value.
    Free,
    /// Unused: it is zero.
    Unused,
    /// A register.
    Register,
    /// 1 for a signed division, else 0.
    Sign,
    /// 0, or the width that a move extends from.
    NarrowMove,
    WideMove,
    /// The width of a byte order operation.
    Width,
    /// 0 for a helper, 1 for a local function.
    Callee,
    /// 0 for a number, 5 for a map, 6 for a map's value.
    Loaded,
    /// An atomic operation.
    Update,
}

/// What each field is used for.
#[derive(Clone, Copy, Debug)]
pub struct Uses {
    pub dst: Use,
    pub src: Use,
    pub offset: Use,
    pub imm: Use,
}

impl Use {
    /// Whether this use allows the value.
    fn meets(self, value: i32) -> bool
        ensures { IsTrue result ↔ Meets self value }
    {
        match self {
            Use::Free => true,
            Use::Unused => value == 0,
            Use::Register => value <= 10,
            Use::Sign => value == 0 || value == 1,
            Use::NarrowMove => value == 0 || value == 8 || value == 16,
            Use::WideMove => value == 0 || value == 8 || value == 16 || value == 32,
            Use::Width => value == 16 || value == 32 || value == 64,
            Use::Callee => value == 0 || value == 1,
            Use::Loaded => value == 0 || value == 5 || value == 6,
            Use::Update => matches!(
                value,
                0x00 | 0x40 | 0x50 | 0xa0 | 0x01 | 0x41 | 0x51 | 0xa1 | 0xe1 | 0xf1
            ),
        }
    }

    fn fault(self) -> FieldFault
        ensures { result ≡ fault_of self }
    {
        match self {
            Use::Unused => FieldFault::UnusedSet,
            Use::Register => FieldFault::HighRegister,
            _ => FieldFault::Undefined,
        }
    }

    /// The fault of the value, if this use doesn't allow it.
    pub(crate) fn breach(self, value: i32) -> Option<FieldFault>
        ensures none { IfNone result (Meets self value) }
        ensures some { IfSome result (λ e. Broken self value e) }
    {
        if self.meets(value) {
            None
        } else {
            Some(self.fault())
        }
    }
}

fn fields_use(dst: Use, src: Use, offset: Use, imm: Use) -> Uses
    ensures { result ≡ record { dst = dst; src = src; offset = offset; imm = imm } }
{
    Uses {
        dst,
        src,
        offset,
        imm,
    }
}

fn alu_uses(op: AluOp, wide: bool, register: bool) -> Uses
    ensures is { result ≡ uses_of (kind.Alu op wide register) }
{
    use Use::*;
    if !register {
        return match op {
            AluOp::Div | AluOp::Mod => fields_use(Register, Unused, Sign, Free),
            _ => fields_use(Register, Unused, Unused, Free),
        };
    }
    match op {
        AluOp::Div | AluOp::Mod => fields_use(Register, Register, Sign, Unused),
        AluOp::Mov if wide => fields_use(Register, Register, WideMove, Unused),
        AluOp::Mov => fields_use(Register, Register, NarrowMove, Unused),
        _ => fields_use(Register, Register, Unused, Unused),
    }
}

/// What a slot of this kind uses its fields for.
pub(crate) fn uses_in(k: Kind) -> Uses
    ensures { result ≡ uses_of k }
{
    use Use::*;
    match k {
        Kind::Alu { op, wide, register } => alu_uses(op, wide, register),
        Kind::Neg { .. } => fields_use(Register, Unused, Unused, Unused),
        Kind::End { .. } => fields_use(Register, Unused, Unused, Width),
        Kind::Branch {
            register: false,
            ..
        } => fields_use(Register, Unused, Free, Free),
        Kind::Branch { register: true, .. } => fields_use(Register, Register, Free, Unused),
        Kind::Jump => fields_use(Unused, Unused, Free, Unused),
        Kind::JumpLong => fields_use(Unused, Unused, Unused, Free),
        Kind::Call => fields_use(Unused, Callee, Unused, Free),
        Kind::Exit => fields_use(Unused, Unused, Unused, Unused),
        Kind::Load { .. } => fields_use(Register, Register, Free, Unused),
        Kind::Store {
            register: false,
            ..
        } => fields_use(Register, Unused, Free, Free),
        Kind::Store { register: true, .. } => fields_use(Register, Register, Free, Unused),
        Kind::Atomic { .. } => fields_use(Register, Register, Free, Update),
        Kind::LoadWide => fields_use(Register, Loaded, Unused, Free),
    }
}
