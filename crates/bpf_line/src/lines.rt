//! The instruction that a line's words spell.

ghost use Rattle.std.specs.Prelude.{◌≡◌, ◌&&◌, ℕ, List, Bool, not, map, Some, None, Ok, IfOk, [], ◌∷◌};
ghost use Rattle.bpf_line.specs.Lines.{alu_said, extension_said, load_said, store_said, store_register_said, atomic_said, wide_said, two_said, branch_said, order_said, neg_said, stored, loaded, one_said, local_said, map_said, value_said, is_narrow, is_comma, is_load_of, base_of, said};
ghost use Rattle.bpf_insn.specs.Spelled.{IsExtension, IsInsn, IsSigned};
ghost use Rattle.bpf_line.specs.Names.{compare_named, order_named};
ghost use Rattle.bpf_line.specs.Numbers.{on, imm, offset, long_offset};

use crate::fault::LineFault;
use crate::names::{
    alu_named, atomic_named, compare_named, extension_named, load_named, order_named, store_named,
    store_register_named,
};
use crate::numbers::{imm, long_offset, offset, wide_number};
use crate::operands::{both, memory, register, source};
use bpf_insn::{AluOp, AtomicOp, Compare, Extension, Insn, Size, Source, Wide};

type Said = Result<Insn, LineFault>;

fn alu(op: AluOp, wide: bool, dst: &str, second: &str) -> Said
    ensures is { result ≡ alu_said op wide dst.now second.now }
    ensures valid { IfOk result IsInsn }
{
    let (dst, source) = both(register(dst), source(second))?;
    Ok(Insn::Alu {
        op,
        wide,
        dst,
        source,
    })
}

fn extension(from: Extension, wide: bool, dst: &str, src: &str) -> Said
    requires exists { IsExtension wide from }
    ensures is { result ≡ extension_said (from, wide) dst.now src.now }
    ensures valid { IfOk result IsInsn }
{
    let (dst, src) = both(register(dst), register(src))?;
    Ok(Insn::MovSx {
        from,
        wide,
        dst,
        src,
    })
}

fn load(size: Size, signed: bool, dst: &str, place: &str) -> Said
    requires exists { IsSigned signed size }
    ensures is { result ≡ load_said (size, signed) dst.now place.now }
    ensures valid { IfOk result IsInsn }
{
    let (dst, (src, offset)) = both(register(dst), memory(place))?;
    Ok(Insn::Load {
        size,
        signed,
        dst,
        src,
        offset,
    })
}

fn store(size: Size, place: &str, number: &str) -> Said
    ensures is { result ≡ store_said size place.now number.now }
    ensures valid { IfOk result IsInsn }
{
    let ((dst, offset), number) = both(memory(place), imm(number.as_bytes()))?;
    Ok(Insn::Store {
        size,
        dst,
        offset,
        source: Source::Imm(number),
    })
}

fn store_register(size: Size, place: &str, src: &str) -> Said
    ensures is { result ≡ store_register_said size place.now src.now }
    ensures valid { IfOk result IsInsn }
{
    let ((dst, offset), src) = both(memory(place), register(src))?;
    Ok(Insn::Store {
        size,
        dst,
        offset,
        source: Source::Reg(src),
    })
}

fn atomic(op: AtomicOp, wide: bool, place: &str, src: &str) -> Said
    ensures is { result ≡ atomic_said op wide place.now src.now }
    ensures valid { IfOk result IsInsn }
{
    let ((dst, offset), src) = both(memory(place), register(src))?;
    Ok(Insn::Atomic {
        op,
        wide,
        dst,
        src,
        offset,
    })
}

fn wide_load(dst: &str, number: &str) -> Said
    ensures is { result ≡ wide_said dst.now number.now }
    ensures valid { IfOk result IsInsn }
{
    let (dst, number) = both(register(dst), wide_number(number.as_bytes()))?;
    Ok(Insn::LoadWide {
        dst,
        value: Wide::Number(number),
    })
}

/// A name without its suffix 32, and whether it works on 64 bits.
fn base_of(name: &str) -> (&str, bool)
    ensures base { result.0.now ≡ base_of name.now }
    ensures wide { result.1 ≡ not (is_narrow name.now) }
{
    match name.strip_suffix("32") {
        Some(base) => (base, false),
        None => (name, true),
    }
}

/// Stores, arithmetic and atomics, the last two with or without the suffix 32.
fn suffixed(name: &str, first: &str, second: &str) -> Said
    ensures is { result ≡ stored None None name.now first.now second.now }
    ensures valid { IfOk result IsInsn }
{
    let (base, wide) = base_of(name);
    match alu_named(base) {
        Some(op) => alu(op, wide, first, second),
        None => match atomic_named(base) {
            Some(op) => atomic(op, wide, first, second),
            None => Err(LineFault::Grammar),
        },
    }
}

fn stores(name: &str, first: &str, second: &str) -> Said
    ensures is { result ≡ loaded None None name.now first.now second.now }
    ensures valid { IfOk result IsInsn }
{
    match store_named(name) {
        Some(size) => store(size, first, second),
        None => match store_register_named(name) {
            Some(size) => store_register(size, first, second),
            None => suffixed(name, first, second),
        },
    }
}

/// A name and two operands.
fn two(name: &str, first: &str, second: &str) -> Said
    ensures is { result ≡ two_said name.now first.now second.now }
    ensures valid { IfOk result IsInsn }
{
    if name == "lddw" {
        return wide_load(first, second);
    }
    match extension_named(name) {
        Some((from, wide)) => extension(from, wide, first, second),
        None => match load_named(name) {
            Some((size, signed)) => load(size, signed, first, second),
            None => stores(name, first, second),
        },
    }
}

fn branch_of(compare: Compare, wide: bool, dst: &str, second: &str, target: &str) -> Said
    ensures is { result ≡ branch_said (Some compare) wide dst.now second.now target.now }
    ensures valid { IfOk result IsInsn }
{
    let operands = both(register(dst), source(second));
    let ((dst, source), offset) = both(operands, offset(target.as_bytes()))?;
    Ok(Insn::Branch {
        compare,
        wide,
        dst,
        source,
        offset,
    })
}

fn branch(name: &str, dst: &str, second: &str, target: &str) -> Said
    ensures is { result ≡ branch_said (compare_named (base_of name.now))
        (not (is_narrow name.now)) dst.now second.now target.now }
    ensures valid { IfOk result IsInsn }
{
    let (base, wide) = base_of(name);
    match compare_named(base) {
        Some(compare) => branch_of(compare, wide, dst, second, target),
        None => Err(LineFault::Grammar),
    }
}

fn order(name: &str, dst: &str) -> Said
    ensures is { result ≡ order_said (order_named name.now) dst.now }
    ensures valid { IfOk result IsInsn }
{
    match order_named(name) {
        Some((order, width)) => Ok(Insn::End {
            order,
            width,
            dst: register(dst)?,
        }),
        None => Err(LineFault::Grammar),
    }
}

fn neg(wide: bool, dst: &str) -> Said
    ensures is { result ≡ neg_said wide dst.now }
    ensures valid { IfOk result IsInsn }
{
    Ok(Insn::Neg {
        wide,
        dst: register(dst)?,
    })
}

fn jump(target: &str) -> Said
    ensures is { result ≡ on (offset target.now) (λ x. Ok (Insn.Jump x)) }
    ensures valid { IfOk result IsInsn }
{
    Ok(Insn::Jump {
        offset: offset(target.as_bytes())?,
    })
}

fn long_jump(target: &str) -> Said
    ensures is { result ≡ on (long_offset target.now) (λ x. Ok (Insn.JumpLong x)) }
    ensures valid { IfOk result IsInsn }
{
    Ok(Insn::JumpLong {
        offset: long_offset(target.as_bytes())?,
    })
}

fn call(helper: &str) -> Said
    ensures is { result ≡ on (imm helper.now) (λ x. Ok (Insn.Call x)) }
    ensures valid { IfOk result IsInsn }
{
    Ok(Insn::Call {
        helper: imm(helper.as_bytes())?,
    })
}

fn call_local(target: &str) -> Said
    ensures is { result ≡ local_said target.now }
    ensures valid { IfOk result IsInsn }
{
    Ok(Insn::CallLocal {
        offset: long_offset(target.as_bytes())?,
    })
}

/// A name and one operand.
fn one(name: &str, operand: &str) -> Said
    ensures is { result ≡ one_said name.now operand.now }
    ensures valid { IfOk result IsInsn }
{
    match name {
        "ja" => jump(operand),
        "ja32" => long_jump(operand),
        "call" => call(operand),
        "neg" => neg(true, operand),
        "neg32" => neg(false, operand),
        _ => order(name, operand),
    }
}

fn map_reference(dst: &str, map: &str) -> Said
    ensures is { result ≡ map_said dst.now map.now }
    ensures valid { IfOk result IsInsn }
{
    let (dst, map) = both(register(dst), imm(map.as_bytes()))?;
    Ok(Insn::LoadWide {
        dst,
        value: Wide::Map(map.cast_unsigned()),
    })
}

fn map_value(dst: &str, map: &str, offset: &str) -> Said
    ensures is { result ≡ value_said dst.now map.now offset.now }
    ensures valid { IfOk result IsInsn }
{
    let operands = both(register(dst), imm(map.as_bytes()));
    let ((dst, map), offset) = both(operands, imm(offset.as_bytes()))?;
    Ok(Insn::LoadWide {
        dst,
        value: Wide::MapValue {
            map: map.cast_unsigned(),
            offset: offset.cast_unsigned(),
        },
    })
}

/// Whether the words are those of `lddw r1, KIND ..`.
fn is_load_of(name: &str, kind: &str, comma: &str, what: &str) -> bool
    ensures is { result ≡ is_load_of name.now kind.now comma.now what.now }
{
    name == "lddw" && comma == "," && what == kind
}

fn are_commas(first: &str, second: &str) -> bool
    ensures is { result ≡ (is_comma first.now && is_comma second.now) }
{
    first == "," && second == ","
}

fn of_five(name: &str, dst: &str, comma: &str, what: &str, operand: &str) -> Said
    ensures is { result ≡ said (name.now ∷ dst.now ∷ comma.now ∷ what.now ∷ operand.now ∷ []) }
    ensures valid { IfOk result IsInsn }
{
    if is_load_of(name, "map", comma, what) {
        map_reference(dst, operand)
    } else {
        Err(LineFault::Grammar)
    }
}

fn of_one(name: &str) -> Said
    ensures is { result ≡ said (name.now ∷ []) }
    ensures valid { IfOk result IsInsn }
{
    if name == "exit" {
        Ok(Insn::Exit)
    } else {
        Err(LineFault::Grammar)
    }
}

fn of_three(name: &str, local: &str, target: &str) -> Said
    ensures is { result ≡ said (name.now ∷ local.now ∷ target.now ∷ []) }
    ensures valid { IfOk result IsInsn }
{
    if name == "call" && local == "local" {
        call_local(target)
    } else {
        Err(LineFault::Grammar)
    }
}

fn of_four(name: &str, first: &str, comma: &str, second: &str) -> Said
    ensures is { result ≡ said (name.now ∷ first.now ∷ comma.now ∷ second.now ∷ []) }
    ensures valid { IfOk result IsInsn }
{
    if comma == "," {
        two(name, first, second)
    } else {
        Err(LineFault::Grammar)
    }
}

/// The instruction that a line's words spell, or their fault.
pub fn read_words(words: &[&str]) -> Said
    ensures is { result ≡ said (map (λ w. w.now) words.now) }
    ensures valid { IfOk result IsInsn }
{
    match words {
        [] => Err(LineFault::Grammar),
        [name] => of_one(name),
        [name, operand] => one(name, operand),
        [name, local, target] => of_three(name, local, target),
        [name, first, comma, second] => of_four(name, first, comma, second),
        [name, dst, comma, what, operand] => of_five(name, dst, comma, what, operand),
        [name, dst, comma, second, third, fourth] => {
            if is_load_of(name, "value", comma, second) {
                map_value(dst, third, fourth)
            } else if are_commas(comma, third) {
                branch(name, dst, second, fourth)
            } else {
                Err(LineFault::Grammar)
            }
        }
        [_, _, _, _, _, _, _, ..] => Err(LineFault::Grammar),
    }
}
