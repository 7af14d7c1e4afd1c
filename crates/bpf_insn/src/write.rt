//! Slots from instructions.

ghost use Rattle.std.specs.Prelude.{◌≡◌, ◌≤◌, ◌+◌, ◌*◌, ◌↔◌, pos, Option, Some, None};
ghost use Rattle.bpf_insn.specs.declared.insn.Insn.TheVariants as insn;
ghost use Rattle.bpf_insn.specs.Slot.{slot_of, FitsSlot};
ghost use Rattle.bpf_insn.specs.Accesses.{IsAccess};
ghost use Rattle.bpf_insn.specs.Widths.{extension_bits, order_bits};
ghost use Rattle.bpf_insn.specs.Opcodes.{alu_code, alu_class, compare_code, size_code, end_code};
ghost use Rattle.bpf_insn.specs.Spelled.{alu_sign, atomic_code, wide_kind, wide_low, wide_high, fields_of, second_of, IsInsn, IsWide, IsSecond, Spelled, second_slot_of};

use crate::fields::{Fields, slot_with};
use crate::insn::{
    AluOp, AtomicOp, ByteOrder, Compare, Extension, Insn, OrderWidth, Reg, Size, Source, Wide,
};

fn alu_bits(op: AluOp) -> u8
    ensures value { result ≡ 16 * alu_code op }
    ensures small { result ≤ 192 }
{
    match op {
        AluOp::Add => 0x00,
        AluOp::Sub => 0x10,
        AluOp::Mul => 0x20,
        AluOp::Div | AluOp::Sdiv => 0x30,
        AluOp::Or => 0x40,
        AluOp::And => 0x50,
        AluOp::Lsh => 0x60,
        AluOp::Rsh => 0x70,
        AluOp::Mod | AluOp::Smod => 0x90,
        AluOp::Xor => 0xa0,
        AluOp::Mov => 0xb0,
        AluOp::Arsh => 0xc0,
    }
}

fn sign_of(op: AluOp) -> i16
    ensures { result ≡ alu_sign op }
{
    match op {
        AluOp::Sdiv | AluOp::Smod => 1,
        _ => 0,
    }
}

fn class_of(wide: bool) -> u8
    ensures { result ≡ alu_class wide }
{
    if wide { 7 } else { 4 }
}

fn compare_bits(compare: Compare) -> u8
    ensures value { result ≡ 16 * compare_code compare }
    ensures small { result ≤ 208 }
{
    match compare {
        Compare::Eq => 0x10,
        Compare::Gt => 0x20,
        Compare::Ge => 0x30,
        Compare::Set => 0x40,
        Compare::Ne => 0x50,
        Compare::Sgt => 0x60,
        Compare::Sge => 0x70,
        Compare::Lt => 0xa0,
        Compare::Le => 0xb0,
        Compare::Slt => 0xc0,
        Compare::Sle => 0xd0,
    }
}

fn size_bits(size: Size) -> u8
    ensures value { result ≡ 8 * size_code size }
    ensures small { result ≤ 24 }
{
    match size {
        Size::Word => 0,
        Size::Half => 8,
        Size::Byte => 16,
        Size::Double => 24,
    }
}

fn update_imm(op: AtomicOp) -> i32
    ensures { result ≡ atomic_code op }
{
    match op {
        AtomicOp::Add => 0x00,
        AtomicOp::Or => 0x40,
        AtomicOp::And => 0x50,
        AtomicOp::Xor => 0xa0,
        AtomicOp::FetchAdd => 0x01,
        AtomicOp::FetchOr => 0x41,
        AtomicOp::FetchAnd => 0x51,
        AtomicOp::FetchXor => 0xa1,
        AtomicOp::Xchg => 0xe1,
        AtomicOp::Cmpxchg => 0xf1,
    }
}

/// The offset that encodes the width of a move with sign extension.
fn extension_offset(from: Extension) -> i16
    ensures { result ≡ pos (extension_bits from) }
{
    match from {
        Extension::Byte => 8,
        Extension::Half => 16,
        Extension::Word => 32,
    }
}

/// The immediate that encodes the width of a byte order operation.
fn width_imm(width: OrderWidth) -> i32
    ensures { result ≡ pos (order_bits width) }
{
    match width {
        OrderWidth::Half => 16,
        OrderWidth::Word => 32,
        OrderWidth::Double => 64,
    }
}

fn fields(opcode: u8, dst: u8, src: u8, offset: i16, imm: i32) -> Fields
    ensures { result
        ≡ record { opcode = opcode; dst = dst; src = src; offset = offset; imm = imm } }
{
    Fields {
        opcode,
        dst,
        src,
        offset,
        imm,
    }
}

fn wide_fields(value: Wide) -> (u8, i32, i32)
    requires { IsWide value }
    ensures kind { result.0 ≡ wide_kind value }
    ensures low { result.1 ≡ wide_low value }
    ensures high { result.2 ≡ wide_high value }
{
    match value {
        Wide::Number(number) => (
            0,
            ((number % (1 << 32)) as u32).cast_signed(),
            ((number / (1 << 32)) as u32).cast_signed(),
        ),
        Wide::Map(map) => (5, map.cast_signed(), 0),
        Wide::MapValue { map, offset } => (6, map.cast_signed(), offset.cast_signed()),
    }
}

fn alu_fields(op: AluOp, wide: bool, dst: Reg, source: Source) -> Fields
    ensures is { result ≡ fields_of (insn.Alu op wide dst source) }
{
    let (code, class, sign) = (alu_bits(op), class_of(wide), sign_of(op));
    match source {
        Source::Imm(imm) => fields(code + class, dst.number(), 0, sign, imm),
        Source::Reg(src) => fields(code + 8 + class, dst.number(), src.number(), sign, 0),
    }
}

fn branch_fields(compare: Compare, wide: bool, dst: Reg, source: Source, offset: i16) -> Fields
    ensures is { result ≡ fields_of (insn.Branch compare wide dst source offset) }
{
    let (code, class) = (compare_bits(compare), if wide { 5 } else { 6 });
    match source {
        Source::Imm(imm) => fields(code + class, dst.number(), 0, offset, imm),
        Source::Reg(src) => fields(code + 8 + class, dst.number(), src.number(), offset, 0),
    }
}

fn store_fields(size: Size, dst: Reg, offset: i16, source: Source) -> Fields
    ensures is { result ≡ fields_of (insn.Store size dst offset source) }
{
    match source {
        Source::Imm(imm) => fields(0x62 + size_bits(size), dst.number(), 0, offset, imm),
        Source::Reg(src) => fields(
            0x63 + size_bits(size),
            dst.number(),
            src.number(),
            offset,
            0,
        ),
    }
}

fn end_bits(order: ByteOrder) -> u8
    ensures is { result ≡ end_code order }
{
    match order {
        ByteOrder::Little => 0xd4,
        ByteOrder::Big => 0xdc,
        ByteOrder::Swap => 0xd7,
    }
}

fn load_fields(size: Size, signed: bool, dst: Reg, src: Reg, offset: i16) -> Fields
    ensures is { result ≡ fields_of (insn.Load size signed dst src offset) }
{
    let mode = if signed { 0x81 } else { 0x61 };
    fields(
        mode + size_bits(size),
        dst.number(),
        src.number(),
        offset,
        0,
    )
}

fn atomic_fields(op: AtomicOp, wide: bool, dst: Reg, src: Reg, offset: i16) -> Fields
    ensures is { result ≡ fields_of (insn.Atomic op wide dst src offset) }
{
    let opcode = if wide { 0xdb } else { 0xc3 };
    fields(opcode, dst.number(), src.number(), offset, update_imm(op))
}

fn move_fields(from: Extension, wide: bool, dst: Reg, src: Reg) -> Fields
    ensures is { result ≡ fields_of (insn.MovSx from wide dst src) }
{
    fields(
        0xb8 + class_of(wide),
        dst.number(),
        src.number(),
        extension_offset(from),
        0,
    )
}

fn load_wide_fields(dst: Reg, value: Wide) -> Fields
    requires valid { IsWide value }
    ensures is { result ≡ fields_of (insn.LoadWide dst value) }
{
    let (kind, low, _) = wide_fields(value);
    fields(0x18, dst.number(), kind, 0, low)
}

/// The fields of a load, a store or an atomic operation.
fn access_fields(i: Insn) -> Fields
    requires valid { IsInsn i }
    requires access { IsAccess i }
    ensures { result ≡ fields_of i }
{
    match i {
        Insn::Load {
            size,
            signed,
            dst,
            src,
            offset,
        } => load_fields(size, signed, dst, src, offset),
        Insn::Store {
            size,
            dst,
            offset,
            source,
        } => store_fields(size, dst, offset, source),
        Insn::Atomic {
            op,
            wide,
            dst,
            src,
            offset,
        } => atomic_fields(op, wide, dst, src, offset),
        _ => fields(0, 0, 0, 0, 0),
    }
}

fn first_fields(i: Insn) -> Fields
    requires { IsInsn i }
    ensures { result ≡ fields_of i }
{
    match i {
        Insn::Alu {
            op,
            wide,
            dst,
            source,
        } => alu_fields(op, wide, dst, source),
        Insn::MovSx {
            from,
            wide,
            dst,
            src,
        } => move_fields(from, wide, dst, src),
        Insn::Neg { wide, dst } => fields(0x80 + class_of(wide), dst.number(), 0, 0, 0),
        Insn::End { order, width, dst } => fields(
            end_bits(order),
            dst.number(),
            0,
            0,
            width_imm(width),
        ),
        Insn::Jump { offset } => fields(0x05, 0, 0, offset, 0),
        Insn::JumpLong { offset } => fields(0x06, 0, 0, 0, offset),
        Insn::Branch {
            compare,
            wide,
            dst,
            source,
            offset,
        } => branch_fields(compare, wide, dst, source, offset),
        Insn::Call { helper } => fields(0x85, 0, 0, 0, helper),
        Insn::CallLocal { offset } => fields(0x85, 0, 1, 0, offset),
        Insn::Exit => fields(0x95, 0, 0, 0, 0),
        Insn::LoadWide { dst, value } => load_wide_fields(dst, value),
        _ => access_fields(i),
    }
}

fn second_fields(i: &Insn) -> Option<Fields>
    requires { IsInsn i.now }
    ensures { result ≡ second_of i.now }
{
    match i {
        Insn::LoadWide { value, .. } => {
            let (_, _, high) = wide_fields(*value);
            Some(fields(0, 0, 0, 0, high))
        }
        _ => None,
    }
}

fn first_slot(i: Insn) -> [u8; 8]
    requires { IsInsn i }
    ensures { result ≡ slot_of (fields_of i) }
{
    slot_with(first_fields(i))
}

fn half_slot(half: Fields) -> Option<[u8; 8]>
    requires { FitsSlot half }
    ensures { result ≡ Some (slot_of half) }
{
    Some(slot_with(half))
}

fn second_slot(i: &Insn) -> Option<[u8; 8]>
    requires { IsInsn i.now }
    ensures { result ≡ second_slot_of (second_of i.now) }
{
    match second_fields(i) {
        Some(half) => half_slot(half),
        None => None,
    }
}

impl Insn {
    /// The slot that spells the instruction, and for a wide load its second half.
    pub fn to_slots(self) -> ([u8; 8], Option<[u8; 8]>)
        requires valid { IsInsn self }
        ensures first { result.0 ≡ slot_of (fields_of self) }
        ensures second { result.1 ≡ second_slot_of (second_of self) }
    {
        let second = second_slot(&self);
        (first_slot(self), second)
    }
}
