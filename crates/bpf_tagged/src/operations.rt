//! Arithmetic, and the values of sources.

ghost use Rattle.std.specs.Prelude.{◌≡◌, ◌<◌, []};
ghost use Rattle.bpf_insn.specs.declared.insn.Insn.TheVariants.{Alu, MovSx, Neg, End, LoadWide};
ghost use Rattle.bpf_model.specs.State.{Setting, reg};
ghost use Rattle.bpf_model.specs.Alu.{source_value, is_zero};
ghost use Rattle.bpf_model.specs.Step.{next_of};
ghost use Rattle.bpf_tagged.specs.Took.{Moves, at, moved_on};

use crate::machine::{put, read};
use crate::{Machine, Stepped};
use bpf_insn::{AluOp, ByteOrder, Extension, OrderWidth, Reg, Source, Wide};
use bpf_regions::Value;
use bpf_values::arithmetic::{arithmetic, extend, in_order, negate, number_in, wide_load};
use bpf_words::word_of_int;

/// The value of a source.
pub fn source_of(machine: &Machine, source: Source) -> Value
    ensures { result ≡ source_value (at machine.now []) source }
{
    match source {
        Source::Imm(number) => Value::Number(word_of_int(number)),
        Source::Reg(register) => read(machine, register),
    }
}

/// An operation of ALU64 if `wide`, else of ALU.
pub fn perform_alu(
    machine: &mut Machine,
    op: AluOp,
    wide: bool,
    dst: Reg,
    source: Source,
) -> Stepped
    requires { machine.old.pc < 65536 }
    ensures { (p : Setting) →
        Moves (next_of p (Alu op wide dst source)) result machine.old machine.new }
{
    let a = read(machine, dst);
    let b = source_of(machine, source);
    match arithmetic(op, wide, a, b) {
        Ok(value) => {
            put(machine, dst, value);
            Stepped::On(None)
        }
        Err(cause) => Stepped::Faulted(cause),
    }
}

/// MOVSX.
pub fn perform_extension(
    machine: &mut Machine,
    from: Extension,
    wide: bool,
    dst: Reg,
    src: Reg,
) -> Stepped
    requires { machine.old.pc < 65536 }
    ensures { (p : Setting) →
        Moves (next_of p (MovSx from wide dst src)) result machine.old machine.new }
{
    match number_in(read(machine, src)) {
        Ok(x) => {
            put(machine, dst, Value::Number(extend(from, wide, x)));
            Stepped::On(None)
        }
        Err(cause) => Stepped::Faulted(cause),
    }
}

/// NEG.
pub fn perform_negation(machine: &mut Machine, wide: bool, dst: Reg) -> Stepped
    requires { machine.old.pc < 65536 }
    ensures { (p : Setting) → Moves (next_of p (Neg wide dst)) result machine.old machine.new }
{
    match number_in(read(machine, dst)) {
        Ok(x) => {
            put(machine, dst, Value::Number(negate(wide, x)));
            Stepped::On(None)
        }
        Err(cause) => Stepped::Faulted(cause),
    }
}

/// END.
pub fn perform_order(
    machine: &mut Machine,
    order: ByteOrder,
    width: OrderWidth,
    dst: Reg,
) -> Stepped
    requires { machine.old.pc < 65536 }
    ensures { (p : Setting) →
        Moves (next_of p (End order width dst)) result machine.old machine.new }
{
    match number_in(read(machine, dst)) {
        Ok(x) => {
            put(machine, dst, Value::Number(in_order(order, width, x)));
            Stepped::On(None)
        }
        Err(cause) => Stepped::Faulted(cause),
    }
}

/// A wide load, which takes two slots.
pub fn perform_wide_load(machine: &mut Machine, dst: Reg, value: Wide) -> Stepped
    requires { machine.old.pc < 65536 }
    ensures { (p : Setting) →
        Moves (next_of p (LoadWide dst value)) result machine.old machine.new }
{
    machine.regs[dst.number() as usize] = wide_load(value);
    machine.pc += 2;
    Stepped::On(None)
}
