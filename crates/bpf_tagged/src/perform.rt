//! One instruction.

ghost use Rattle.std.specs.Prelude.{◌≡◌, ◌<◌, IfSome};
ghost use Rattle.bpf_model.specs.Memory.{compared};
ghost use Rattle.bpf_model.specs.Step.{next_of, next_at};
ghost use Rattle.bpf_tagged.specs.Accesses.{given};
ghost use Rattle.bpf_tagged.specs.Took.{Performs, IsPaired};

use crate::atomics::{Atomic, perform_atomic};
use crate::calls::perform_exit;
use crate::helpers::perform_help;
use crate::jumps::{
    Comparison, perform_branch, perform_call_local, perform_goto, perform_goto_long,
};
use crate::loads::{Load, perform_load};
use crate::machine::read;
use crate::operations::{
    perform_alu, perform_extension, perform_negation, perform_order, perform_wide_load, source_of,
};
use crate::stores::{Store, perform_store};
use crate::{Input, Machine, Port, Stepped};
use bpf_insn::{AtomicOp, Insn};
use bpf_regions::Value;
use bpf_values::bytes::size_in_bytes;
use bpf_values::causes;
use bpf_words::word_of_int;

/// The value that CMPXCHG compares; only it reads R0.
fn compared_with(op: AtomicOp, r0: Value) -> Value
    ensures { result ≡ compared op r0 }
{
    match op {
        AtomicOp::Cmpxchg => r0,
        _ => Value::Number(0),
    }
}

/// Performs one instruction.
pub fn perform<P: Port>(
    input: Input<'_>,
    insn: Insn,
    machine: &mut Machine,
    port: &mut P,
) -> Stepped
    requires here { machine.old.pc < 65536 }
    requires shapes { P.shapes port.old ≡ input.shapes.now }
    requires paired { IsPaired machine.old }
    ensures performs { Performs P.gives input.entry.shapes.now (next_of (given input.entry) insn)
        result port.old port.new machine.old machine.new }
    ensures shapes { P.shapes port.new ≡ P.shapes port.old }
    ensures paired { IsPaired machine.new }
{
    match insn {
        Insn::Alu {
            op,
            wide,
            dst,
            source,
        } => { perform_alu(machine, op, wide, dst, source) }
        Insn::MovSx {
            from,
            wide,
            dst,
            src,
        } => { perform_extension(machine, from, wide, dst, src) }
        Insn::Neg { wide, dst } => { perform_negation(machine, wide, dst) }
        Insn::End { order, width, dst } => { perform_order(machine, order, width, dst) }
        Insn::Jump { offset } => { perform_goto(machine, offset) }
        Insn::JumpLong { offset } => { perform_goto_long(machine, offset) }
        Insn::Branch {
            compare,
            wide,
            dst,
            source,
            offset,
        } => {
            let test = Comparison {
                compare,
                wide,
                dst,
                source,
            };
            perform_branch(machine, input.frame.len(), test, offset)
        }
        Insn::Call { helper } => { perform_help(input.shapes, machine, port, word_of_int(helper)) }
        Insn::CallLocal { offset } => { perform_call_local(machine, offset) }
        Insn::Exit => { perform_exit(machine) }
        Insn::Load {
            size,
            signed,
            dst,
            src,
            offset,
        } => {
            let from = read(machine, src);
            let load = Load {
                size: size_in_bytes(size),
                signed,
                dst,
                from,
            };
            perform_load(input, machine, port, load, offset)
        }
        Insn::Store {
            size,
            dst,
            offset,
            source,
        } => {
            let to = read(machine, dst);
            let value = source_of(machine, source);
            let store = Store {
                size: size_in_bytes(size),
                value,
                to,
            };
            perform_store(input, machine, port, store, offset)
        }
        Insn::Atomic {
            op,
            wide,
            dst,
            src,
            offset,
        } => {
            let to = read(machine, dst);
            let value = read(machine, src);
            let compared = compared_with(op, machine.regs[0]);
            let atomic = Atomic {
                wide,
                op,
                src,
                to,
                value,
                compared,
            };
            perform_atomic(input, machine, port, atomic, offset)
        }
        Insn::LoadWide { dst, value } => { perform_wide_load(machine, dst, value) }
    }
}

/// Performs the instruction of a slot: `None` is outside the code, `Some(None)` a second half.
pub fn perform_slot<P: Port>(
    input: Input<'_>,
    slot: Option<Option<Insn>>,
    machine: &mut Machine,
    port: &mut P,
) -> Stepped
    requires here { IfSome slot (λ held. machine.old.pc < 65536) }
    requires shapes { P.shapes port.old ≡ input.shapes.now }
    requires paired { IsPaired machine.old }
    ensures performs { Performs P.gives input.entry.shapes.now (next_at (given input.entry) slot)
        result port.old port.new machine.old machine.new }
    ensures shapes { P.shapes port.new ≡ P.shapes port.old }
    ensures paired { IsPaired machine.new }
{
    match slot {
        Some(held) => match held {
            Some(insn) => perform(input, insn, machine, port),
            None => Stepped::Faulted(causes::ASTRAY),
        },
        None => Stepped::Faulted(causes::PAST_THE_END),
    }
}
