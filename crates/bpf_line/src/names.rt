//! The names of operations.

ghost use Rattle.std.specs.Prelude.{◌≡◌, IfSome};
ghost use Rattle.bpf_insn.specs.Spelled.{IsExtension, IsSigned};
ghost use Rattle.bpf_line.specs.Names.{alu_named, compare_named, atomic_named, extension_named, order_named, load_named, store_named, store_register_named};

use bpf_insn::{AluOp, AtomicOp, ByteOrder, Compare, Extension, OrderWidth, Size};

pub(crate) fn alu_named(name: &str) -> Option<AluOp>
    ensures is { result ≡ alu_named name.now }
{
    match name {
        "add" => Some(AluOp::Add),
        "sub" => Some(AluOp::Sub),
        "mul" => Some(AluOp::Mul),
        "div" => Some(AluOp::Div),
        "or" => Some(AluOp::Or),
        "and" => Some(AluOp::And),
        "lsh" => Some(AluOp::Lsh),
        "rsh" => Some(AluOp::Rsh),
        "mod" => Some(AluOp::Mod),
        "xor" => Some(AluOp::Xor),
        "mov" => Some(AluOp::Mov),
        "arsh" => Some(AluOp::Arsh),
        "sdiv" => Some(AluOp::Sdiv),
        "smod" => Some(AluOp::Smod),
        _ => None,
    }
}

pub(crate) fn compare_named(name: &str) -> Option<Compare>
    ensures is { result ≡ compare_named name.now }
{
    match name {
        "jeq" => Some(Compare::Eq),
        "jgt" => Some(Compare::Gt),
        "jge" => Some(Compare::Ge),
        "jset" => Some(Compare::Set),
        "jne" => Some(Compare::Ne),
        "jsgt" => Some(Compare::Sgt),
        "jsge" => Some(Compare::Sge),
        "jlt" => Some(Compare::Lt),
        "jle" => Some(Compare::Le),
        "jslt" => Some(Compare::Slt),
        "jsle" => Some(Compare::Sle),
        _ => None,
    }
}

pub(crate) fn atomic_named(name: &str) -> Option<AtomicOp>
    ensures is { result ≡ atomic_named name.now }
{
    match name {
        "atomic_add" => Some(AtomicOp::Add),
        "atomic_or" => Some(AtomicOp::Or),
        "atomic_and" => Some(AtomicOp::And),
        "atomic_xor" => Some(AtomicOp::Xor),
        "fetch_add" => Some(AtomicOp::FetchAdd),
        "fetch_or" => Some(AtomicOp::FetchOr),
        "fetch_and" => Some(AtomicOp::FetchAnd),
        "fetch_xor" => Some(AtomicOp::FetchXor),
        "xchg" => Some(AtomicOp::Xchg),
        "cmpxchg" => Some(AtomicOp::Cmpxchg),
        _ => None,
    }
}

/// A move with sign extension, and whether it is of 64 bits.
pub(crate) fn extension_named(name: &str) -> Option<(Extension, bool)>
    ensures is { result ≡ extension_named name.now }
    ensures exists { IfSome result (λ e. IsExtension e.1 e.0) }
{
    match name {
        "movsx8" => Some((Extension::Byte, true)),
        "movsx16" => Some((Extension::Half, true)),
        "movsx32" => Some((Extension::Word, true)),
        "movsx8_32" => Some((Extension::Byte, false)),
        "movsx16_32" => Some((Extension::Half, false)),
        _ => None,
    }
}

pub(crate) fn order_named(name: &str) -> Option<(ByteOrder, OrderWidth)>
    ensures is { result ≡ order_named name.now }
{
    match name {
        "le16" => Some((ByteOrder::Little, OrderWidth::Half)),
        "le32" => Some((ByteOrder::Little, OrderWidth::Word)),
        "le64" => Some((ByteOrder::Little, OrderWidth::Double)),
        "be16" => Some((ByteOrder::Big, OrderWidth::Half)),
        "be32" => Some((ByteOrder::Big, OrderWidth::Word)),
        "be64" => Some((ByteOrder::Big, OrderWidth::Double)),
        "swap16" => Some((ByteOrder::Swap, OrderWidth::Half)),
        "swap32" => Some((ByteOrder::Swap, OrderWidth::Word)),
        "swap64" => Some((ByteOrder::Swap, OrderWidth::Double)),
        _ => None,
    }
}

/// A load, and whether it extends the sign.
pub(crate) fn load_named(name: &str) -> Option<(Size, bool)>
    ensures is { result ≡ load_named name.now }
    ensures exists { IfSome result (λ l. IsSigned l.1 l.0) }
{
    match name {
        "ldxb" => Some((Size::Byte, false)),
        "ldxh" => Some((Size::Half, false)),
        "ldxw" => Some((Size::Word, false)),
        "ldxdw" => Some((Size::Double, false)),
        "ldsxb" => Some((Size::Byte, true)),
        "ldsxh" => Some((Size::Half, true)),
        "ldsxw" => Some((Size::Word, true)),
        _ => None,
    }
}

/// A store of an immediate.
pub(crate) fn store_named(name: &str) -> Option<Size>
    ensures is { result ≡ store_named name.now }
{
    match name {
        "stb" => Some(Size::Byte),
        "sth" => Some(Size::Half),
        "stw" => Some(Size::Word),
        "stdw" => Some(Size::Double),
        _ => None,
    }
}

pub(crate) fn store_register_named(name: &str) -> Option<Size>
    ensures is { result ≡ store_register_named name.now }
{
    match name {
        "stxb" => Some(Size::Byte),
        "stxh" => Some(Size::Half),
        "stxw" => Some(Size::Word),
        "stxdw" => Some(Size::Double),
        _ => None,
    }
}
