//! Local calls and returns.

ghost use Rattle.std.specs.Prelude.{◌≡◌, ◌<◌};
ghost use Rattle.bpf_model.specs.Step.{exit_number, call_local, exit, without_arguments, callee_regs, caller_regs};
ghost use Rattle.bpf_tagged.specs.Took.{Moves, IsPaired};

use crate::{Machine, Stepped};
use bpf_model::{Caller, StackFrame};
use bpf_regions::{Region, Value};
use bpf_values::causes;

/// Makes R1 to R5 unset, as after every call.
pub fn clear_arguments(regs: &mut [Value; 11])
    ensures { regs.new ≡ without_arguments regs.old }
{
    regs[1] = Value::Unset;
    regs[2] = Value::Unset;
    regs[3] = Value::Unset;
    regs[4] = Value::Unset;
    regs[5] = Value::Unset;
}

fn set_callee(regs: &mut [Value; 11], depth: u8)
    ensures { regs.new ≡ callee_regs regs.old depth }
{
    regs[0] = Value::Unset;
    regs[6] = Value::Unset;
    regs[7] = Value::Unset;
    regs[8] = Value::Unset;
    regs[9] = Value::Unset;
    regs[10] = Value::Pointer {
        region: Region::Stack(depth),
        offset: 512,
    };
}

fn set_caller(regs: &mut [Value; 11], caller: Caller)
    ensures { regs.new ≡ caller_regs regs.old caller }
{
    clear_arguments(regs);
    regs[6] = caller.r6;
    regs[7] = caller.r7;
    regs[8] = caller.r8;
    regs[9] = caller.r9;
    regs[10] = caller.r10;
}

/// Performs a local call to slot `to`; a fault if it is `None`.
pub fn perform_call(machine: &mut Machine, to: Option<usize>) -> Stepped
    requires here { machine.old.pc < 65536 }
    requires paired { IsPaired machine.old }
    ensures { Moves (λ s. call_local s to) result machine.old machine.new }
{
    if machine.stack.is_full() {
        return Stepped::Faulted(causes::TOO_MANY_FRAMES);
    }
    let Some(to) = to else {
        return Stepped::Faulted(causes::ASTRAY);
    };
    let depth = machine.stack.len() as u8;
    machine.callers.push(Caller {
        slot: machine.pc + 1,
        r6: machine.regs[6],
        r7: machine.regs[7],
        r8: machine.regs[8],
        r9: machine.regs[9],
        r10: machine.regs[10],
    });
    machine.stack.push(StackFrame {
        bytes: [None; 512],
        spills: [Value::Unset; 64],
    });
    set_callee(&mut machine.regs, depth);
    machine.pc = to;
    Stepped::On(None)
}

fn exit_value(value: Value) -> Result<u64, u8>
    ensures { result ≡ exit_number value }
{
    match value {
        Value::Number(x) => Ok(x),
        Value::Unset => Err(causes::UNSET),
        _ => Err(causes::NO_RESULT),
    }
}

/// Performs EXIT.
pub fn perform_exit(machine: &mut Machine) -> Stepped
    requires { IsPaired machine.old }
    ensures { Moves exit result machine.old machine.new }
{
    let r0 = match exit_value(machine.regs[0]) {
        Ok(r0) => r0,
        Err(cause) => return Stepped::Faulted(cause),
    };
    let Some(caller) = machine.callers.pop() else {
        return Stepped::Finished(r0);
    };
    let _frame = machine.stack.pop();
    set_caller(&mut machine.regs, caller);
    machine.pc = caller.slot;
    Stepped::On(None)
}
