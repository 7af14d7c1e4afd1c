//! Instructions from slots.

ghost use Rattle.std.specs.Prelude.{◌≡◌, pos, ◌↔◌, ◌⊎◌, ◌^◌, ◌<◌, ◌≤◌, ℕ, IfOk, IfErr, IfSome, IfNone, unsigned_abs};
ghost use Rattle.std.specs.Int.{w32, cast_unsigned};
ghost use Rattle.bpf_insn.specs.Kinds.{kind_at};
ghost use Rattle.bpf_insn.specs.Uses.{Meets, uses_of};
ghost use Rattle.bpf_insn.specs.Faults.{InFields, InSecond, InHalf, IsHalf, HasFault, IsLeast, number_of};
ghost use Rattle.bpf_insn.specs.Reading.{Fine, IsFineHalf, HalfFine, ReadAs, least_of, ReadsFault, half_imm, IsHalfOf, signed_op, extension_at, order_width_at, register_alu, update_at, wide_at, insn_at, read_alu, read_branch, read_store};
ghost use Rattle.bpf_insn.specs.declared.kind.Kind.TheVariants as kind;
ghost use Rattle.bpf_insn.specs.Spelled.{Spelled};
ghost use Rattle.bpf_insn.specs.Slot.{fields_at, half_at, FitsSlot};

use crate::fault::FieldFault;
use crate::fields::{Fields, fields_in};
use crate::insn::{AluOp, AtomicOp, Compare, Extension, Insn, OrderWidth, Reg, Size, Source, Wide};
use crate::kind::{Kind, kind_of, uses_in};

/// The operation, made signed by the offset of a signed division.
fn signed(op: AluOp, sign: u16) -> AluOp
    ensures { result ≡ signed_op op sign }
{
    match op {
        AluOp::Div if sign == 1 => AluOp::Sdiv,
        AluOp::Mod if sign == 1 => AluOp::Smod,
        _ => op,
    }
}

/// The width that a move with this offset extends from.
fn extension_of(bits: u16) -> Extension
    ensures { result ≡ extension_at bits }
{
    match bits {
        8 => Extension::Byte,
        16 => Extension::Half,
        _ => Extension::Word,
    }
}

/// The width of a byte order operation with this immediate.
fn order_width_of(bits: u32) -> OrderWidth
    ensures { result ≡ order_width_at bits }
{
    match bits {
        16 => OrderWidth::Half,
        32 => OrderWidth::Word,
        _ => OrderWidth::Double,
    }
}

fn on_registers(op: AluOp, wide: bool, fields: Fields) -> Insn
    requires dst { fields.dst ≤ 10 }
    requires src { fields.src ≤ 10 }
    ensures { result ≡ register_alu op wide fields }
{
    let dst = Reg::new(fields.dst);
    let src = Reg::new(fields.src);
    let bits = fields.offset.unsigned_abs();
    match op {
        AluOp::Mov => {
            if bits == 0 {
                Insn::Alu {
                    op,
                    wide,
                    dst,
                    source: Source::Reg(src),
                }
            } else {
                Insn::MovSx {
                    from: extension_of(bits),
                    wide,
                    dst,
                    src,
                }
            }
        }
        _ => Insn::Alu {
            op: signed(op, bits),
            wide,
            dst,
            source: Source::Reg(src),
        },
    }
}

fn update_of(code: u32) -> AtomicOp
    ensures { result ≡ update_at code }
{
    match code {
        0x40 => AtomicOp::Or,
        0x50 => AtomicOp::And,
        0xa0 => AtomicOp::Xor,
        0x01 => AtomicOp::FetchAdd,
        0x41 => AtomicOp::FetchOr,
        0x51 => AtomicOp::FetchAnd,
        0xa1 => AtomicOp::FetchXor,
        0xe1 => AtomicOp::Xchg,
        0xf1 => AtomicOp::Cmpxchg,
        _ => AtomicOp::Add,
    }
}

fn wide_of(fields: Fields, high: i32) -> Wide
    ensures { result ≡ wide_at fields high }
{
    let low = fields.imm.cast_unsigned();
    let high = high.cast_unsigned();
    match fields.src {
        0 => Wide::Number(low as u64 + (1 << 32) * high as u64),
        5 => Wide::Map(low),
        _ => Wide::MapValue {
            map: low,
            offset: high,
        },
    }
}

fn alu_of(op: AluOp, wide: bool, register: bool, fields: Fields) -> Insn
    requires fine { Fine (uses_of (kind.Alu op wide register)) fields }
    ensures is { result ≡ read_alu op wide register fields }
{
    if register {
        return on_registers(op, wide, fields);
    }
    Insn::Alu {
        op: signed(op, fields.offset.unsigned_abs()),
        wide,
        dst: Reg::new(fields.dst),
        source: Source::Imm(fields.imm),
    }
}

fn branch_of(compare: Compare, wide: bool, register: bool, fields: Fields) -> Insn
    requires fine { Fine (uses_of (kind.Branch compare wide register)) fields }
    ensures is { result ≡ read_branch compare wide register fields }
{
    let source = if register {
        Source::Reg(Reg::new(fields.src))
    } else {
        Source::Imm(fields.imm)
    };
    Insn::Branch {
        compare,
        wide,
        dst: Reg::new(fields.dst),
        source,
        offset: fields.offset,
    }
}

fn store_of(size: Size, register: bool, fields: Fields) -> Insn
    requires fine { Fine (uses_of (kind.Store size register)) fields }
    ensures is { result ≡ read_store size register fields }
{
    let source = if register {
        Source::Reg(Reg::new(fields.src))
    } else {
        Source::Imm(fields.imm)
    };
    Insn::Store {
        size,
        dst: Reg::new(fields.dst),
        offset: fields.offset,
        source,
    }
}

fn call_of(fields: Fields) -> Insn
    ensures is { result ≡ insn_at kind.Call fields (pos 0) }
{
    if fields.src == 0 {
        Insn::Call { helper: fields.imm }
    } else {
        Insn::CallLocal { offset: fields.imm }
    }
}

fn load_of(size: Size, signed: bool, fields: Fields) -> Insn
    requires fine { Fine (uses_of (kind.Load size signed)) fields }
    ensures is { result ≡ insn_at (kind.Load size signed) fields (pos 0) }
{
    Insn::Load {
        size,
        signed,
        dst: Reg::new(fields.dst),
        src: Reg::new(fields.src),
        offset: fields.offset,
    }
}

fn atomic_of(wide: bool, fields: Fields) -> Insn
    requires fine { Fine (uses_of (kind.Atomic wide)) fields }
    ensures is { result ≡ insn_at (kind.Atomic wide) fields (pos 0) }
{
    Insn::Atomic {
        op: update_of(fields.imm.unsigned_abs()),
        wide,
        dst: Reg::new(fields.dst),
        src: Reg::new(fields.src),
        offset: fields.offset,
    }
}

/// The instruction of valid fields.
fn insn_of(k: Kind, fields: Fields, high: i32) -> Insn
    requires { Fine (uses_of k) fields }
    ensures { result ≡ insn_at k fields high }
{
    match k {
        Kind::Alu { op, wide, register } => alu_of(op, wide, register, fields),
        Kind::Neg { wide } => Insn::Neg {
            wide,
            dst: Reg::new(fields.dst),
        },
        Kind::End { order } => Insn::End {
            order,
            width: order_width_of(fields.imm.unsigned_abs()),
            dst: Reg::new(fields.dst),
        },
        Kind::Branch {
            compare,
            wide,
            register,
        } => branch_of(compare, wide, register, fields),
        Kind::Jump => Insn::Jump {
            offset: fields.offset,
        },
        Kind::JumpLong => Insn::JumpLong { offset: fields.imm },
        Kind::Call => call_of(fields),
        Kind::Exit => Insn::Exit,
        Kind::Load { size, signed } => load_of(size, signed, fields),
        Kind::Store { size, register } => store_of(size, register, fields),
        Kind::Atomic { wide } => atomic_of(wide, fields),
        Kind::LoadWide => Insn::LoadWide {
            dst: Reg::new(fields.dst),
            value: wide_of(fields, high),
        },
    }
}

fn least(one: Option<FieldFault>, other: Option<FieldFault>) -> Option<FieldFault>
    ensures { result ≡ least_of one other }
{
    match one {
        None => other,
        Some(a) => match other {
            None => Some(a),
            Some(b) => { if a as u8 <= b as u8 { Some(a) } else { Some(b) } }
        },
    }
}

/// The fault of a wide load's second half.
fn half_fault(src: u8, half: Option<Fields>) -> Option<FieldFault>
    ensures none { IfNone result (HalfFine src half) }
    ensures some { IfSome result (λ e. IsLeast (InHalf src half) e) }
{
    match half {
        None => Some(FieldFault::CutWide),
        Some(g) => {
            if src == 5 && g.imm != 0 {
                Some(FieldFault::UnusedSet)
            } else if g.opcode == 0 && g.dst == 0 && g.src == 0 && g.offset == 0 {
                None
            } else {
                Some(FieldFault::CutWide)
            }
        }
    }
}

/// The lowest fault of the second half, if the kind needs one.
fn second_fault(kind: Kind, fields: Fields, half: Option<Fields>) -> Option<FieldFault>
    ensures none { IfNone result (IsFineHalf kind fields half) }
    ensures some { IfSome result (λ e. IsLeast (InSecond kind fields half) e) }
{
    match kind {
        Kind::LoadWide => half_fault(fields.src, half),
        _ => None,
    }
}

/// The lowest fault of a slot of a known kind.
fn first_fault(kind: Kind, fields: Fields, half: Option<Fields>) -> Option<FieldFault>
    requires { FitsSlot fields }
    ensures fields { IfNone result (Fine (uses_of kind) fields) }
    ensures second { IfNone result (IsFineHalf kind fields half) }
    ensures some { IfSome result
        (λ e. IsLeast (λ g. InFields (uses_of kind) fields g ⊎ InSecond kind fields half g) e) }
{
    let uses = uses_in(kind);
    let dst = uses.dst.breach(i32::from(fields.dst));
    let src = uses.src.breach(i32::from(fields.src));
    let offset = uses.offset.breach(i32::from(fields.offset));
    let imm = uses.imm.breach(fields.imm);
    let second = second_fault(kind, fields, half);
    least(least(dst, least(src, least(offset, imm))), second)
}

/// The instruction of fields, or their lowest fault.
fn read(fields: Fields, half: Option<Fields>) -> Result<Insn, FieldFault>
    requires { FitsSlot fields }
    ensures ok { IfOk result (λ i. ReadAs fields half i) }
    ensures err { IfErr result (λ e. IsLeast (ReadsFault fields half) e) }
{
    match kind_of(fields.opcode) {
        None => Err(FieldFault::UnknownOpcode),
        Some(kind) => match first_fault(kind, fields, half) {
            Some(fault) => Err(fault),
            None => {
                let high = match half {
                    Some(g) => g.imm,
                    None => 0,
                };
                Ok(insn_of(kind, fields, high))
            }
        },
    }
}

fn half_of(second: Option<[u8; 8]>) -> Option<Fields>
    ensures exact { result ≡ half_at second }
    ensures fits { IfSome result (λ f. FitsSlot f) }
    ensures spelled { IsHalfOf result second }
{
    match second {
        Some(slot) => Some(fields_in(&slot)),
        None => None,
    }
}

impl Insn {
    /// The instruction that `first` spells, for a wide load together with `second`; otherwise the fault with the lowest
    /// number.
    pub fn from_slots(first: [u8; 8], second: Option<[u8; 8]>) -> Result<Insn, FieldFault>
        ensures ok { (i : Insn) → (result ≡ Ok i) ↔ Spelled first second i }
        ensures err { IfErr result (λ e. IsLeast (HasFault (fields_at first) (half_at second)) e) }
        ensures faultless { IfOk result
            (λ _. (e : FieldFault) → HasFault (fields_at first) (half_at second) e → ⊥) }
    {
        let fields = fields_in(&first);
        let half = half_of(second);
        read(fields, half)
    }
}
