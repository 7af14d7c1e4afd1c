//! The state of a run.

ghost use Rattle.std.specs.Prelude.{◌≡◌, ◌<◌, ◌≤◌, ℕ, []};
ghost use Rattle.bpf_model.specs.State.{entry, reg};
ghost use Rattle.bpf_tagged.specs.Took.{IsPaired, at, moved_on};

use arrayvec::ArrayVec;
use bpf_insn::Reg;
use bpf_model::{Caller, StackFrame};
use bpf_regions::{Region, Value};

/// A run's current slot, registers, live stack frames and waiting callers.
#[derive(Drop)]
pub struct Machine {
    pub pc: usize,
    pub regs: [Value; 11],
    pub stack: ArrayVec<StackFrame, 8>,
    pub callers: ArrayVec<Caller, 7>,
}

/// The result of a step.
#[derive(Clone, Copy, Debug, PartialEq, Eq)]
pub enum Stepped {
    /// The program ended with this number in R0.
    Finished(u64),
    /// A fault with this number. The step queried nothing.
    Faulted(u8),
    /// The machine is at its next slot; the number is the program's note, if any.
    On(Option<u64>),
}

fn entry_regs() -> [Value; 11]
    ensures is { result ≡ entry.regs }
{
    let mut regs = [Value::Unset; 11];
    regs[1] = Value::Pointer {
        region: Region::Frame,
        offset: 0,
    };
    regs[2] = Value::FrameEnd;
    regs[3] = Value::Pointer {
        region: Region::Context,
        offset: 0,
    };
    regs[10] = Value::Pointer {
        region: Region::Stack(0),
        offset: 512,
    };
    regs
}

impl Machine {
    /// The entry state of a hook's program: slot 0, one empty stack frame, no caller.
    pub fn start() -> Self
        ensures is { at result [] ≡ entry }
        ensures paired { IsPaired result }
    {
        let mut stack = ArrayVec::new();
        stack.push(StackFrame {
            bytes: [None; 512],
            spills: [Value::Unset; 64],
        });
        Machine {
            pc: 0,
            regs: entry_regs(),
            stack,
            callers: ArrayVec::new(),
        }
    }
}

/// The value of a register.
pub fn read(machine: &Machine, register: Reg) -> Value
    ensures is { result ≡ reg (at machine.now []) register }
{
    machine.regs[register.number() as usize]
}

/// Writes a value to a register and moves to the next slot.
pub fn put(machine: &mut Machine, dst: Reg, value: Value)
    requires here { machine.old.pc < 65536 }
    ensures is { machine.new ≡ moved_on machine.old dst value }
{
    machine.regs[dst.number() as usize] = value;
    machine.pc += 1;
}
