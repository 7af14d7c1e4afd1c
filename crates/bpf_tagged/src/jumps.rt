//! Jumps.

ghost use Rattle.std.specs.Prelude.{◌≡◌, ◌<◌, [], length};
ghost use Rattle.bpf_insn.specs.declared.insn.Insn.TheVariants.{Branch, Jump, JumpLong, CallLocal};
ghost use Rattle.bpf_model.specs.State.{Setting, reg};
ghost use Rattle.bpf_model.specs.Alu.{source_value, is_zero};
ghost use Rattle.bpf_model.specs.Step.{next_of, jump, target};
ghost use Rattle.bpf_tagged.specs.Took.{Moves, IsPaired, at};

use crate::calls::perform_call;
use crate::machine::read;
use crate::{Machine, Stepped};
use bpf_insn::{Compare, Reg, Source};
use bpf_regions::Value;
use bpf_values::causes;
use bpf_values::comparisons::{Operand, is_taken};
use bpf_words::word_of_int;

fn jump_target(pc: usize, offset: i32) -> Option<usize>
    requires { pc < 65536 }
    ensures { result ≡ target pc offset }
{
    let to = pc as i64 + 1 + i64::from(offset);
    if to < 0 { None } else { Some(to as usize) }
}

fn operand_of(machine: &Machine, source: Source) -> Operand
    ensures value { result.value ≡ source_value (at machine.now []) source }
    ensures zero { result.zero ≡ is_zero source }
{
    match source {
        Source::Imm(number) => {
            let word = word_of_int(number);
            Operand {
                value: Value::Number(word),
                zero: word == 0,
            }
        }
        Source::Reg(register) => Operand {
            value: read(machine, register),
            zero: false,
        },
    }
}

fn perform_jump(machine: &mut Machine, to: Option<usize>) -> Stepped
    ensures { Moves (λ s. jump s to) result machine.old machine.new }
{
    match to {
        Some(to) => {
            machine.pc = to;
            Stepped::On(None)
        }
        None => Stepped::Faulted(causes::ASTRAY),
    }
}

/// Jumps by a 16-bit offset.
pub fn perform_goto(machine: &mut Machine, offset: i16) -> Stepped
    requires { machine.old.pc < 65536 }
    ensures { (p : Setting) → Moves (next_of p (Jump offset)) result machine.old machine.new }
{
    let to = jump_target(machine.pc, i32::from(offset));
    perform_jump(machine, to)
}

/// Jumps by a 32-bit offset.
pub fn perform_goto_long(machine: &mut Machine, offset: i32) -> Stepped
    requires { machine.old.pc < 65536 }
    ensures { (p : Setting) → Moves (next_of p (JumpLong offset)) result machine.old machine.new }
{
    let to = jump_target(machine.pc, offset);
    perform_jump(machine, to)
}

/// Calls the local function at an offset.
pub fn perform_call_local(machine: &mut Machine, offset: i32) -> Stepped
    requires here { machine.old.pc < 65536 }
    requires paired { IsPaired machine.old }
    ensures { (p : Setting) → Moves (next_of p (CallLocal offset)) result machine.old machine.new }
{
    let to = jump_target(machine.pc, offset);
    perform_call(machine, to)
}

/// A comparison of a register with a source, on 64 bits if `wide`, else on 32.
#[derive(Clone, Copy)]
pub struct Comparison {
    pub compare: Compare,
    pub wide: bool,
    pub dst: Reg,
    pub source: Source,
}

/// Performs a conditional jump.
pub fn perform_branch(
    machine: &mut Machine,
    frame_length: usize,
    test: Comparison,
    offset: i16,
) -> Stepped
    requires { machine.old.pc < 65536 }
    ensures { (p : Setting) → length p.frame ≡ frame_length →
        Moves (next_of p (Branch test.compare test.wide test.dst test.source offset)) result
        machine.old machine.new }
{
    let a = read(machine, test.dst);
    let b = operand_of(machine, test.source);
    match is_taken(test.compare, test.wide, frame_length, a, b) {
        Ok(jumps) => {
            if jumps {
                let to = jump_target(machine.pc, i32::from(offset));
                return perform_jump(machine, to);
            }
            machine.pc += 1;
            Stepped::On(None)
        }
        Err(cause) => Stepped::Faulted(cause),
    }
}
