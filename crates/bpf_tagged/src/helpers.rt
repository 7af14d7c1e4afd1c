//! Helpers.

ghost use Rattle.std.specs.Prelude.{◌≡◌, ◌<◌, []};
ghost use Rattle.bpf_model.specs.Step.{answered, lookup, note, help, found};
ghost use Rattle.bpf_model.specs.Run.{setting};
ghost use Rattle.bpf_model.specs.State.{reg, Asks};
ghost use Rattle.bpf_regions.specs.declared.asks.Ask.TheVariants.{Help};
ghost use Rattle.bpf_regions.specs.declared.memory.Value.TheVariants.{Number};
ghost use Rattle.bpf_tagged.specs.Took.{Moves, Performs, IsPaired, answered_on};

use crate::calls::clear_arguments;
use crate::{Machine, Port, Stepped};
use bpf_regions::{Helper, Region, Shape, Shapes, Value};
use bpf_values::arithmetic::{number_in, wrong_kinds};
use bpf_values::causes;

/// Continues after a helper with its result in R0.
fn answer_with(machine: &mut Machine, value: Value)
    requires { machine.old.pc < 65536 }
    ensures { machine.new ≡ answered_on machine.old value }
{
    machine.regs[0] = value;
    clear_arguments(&mut machine.regs);
    machine.pc += 1;
}

fn entry_found(map: u32, index: u64, shape: Option<Shape>) -> Value
    ensures { result ≡ found map index shape }
{
    match shape {
        None => Value::Number(0),
        Some(shape) => {
            if index < u64::from(shape.entries) {
                Value::Pointer {
                    region: Region::Entry {
                        map,
                        index: index as u32,
                    },
                    offset: 0,
                }
            } else {
                Value::Number(0)
            }
        }
    }
}

fn perform_lookup(shapes: &Shapes, machine: &mut Machine) -> Stepped
    requires { machine.old.pc < 65536 }
    ensures { Moves (λ s. lookup (setting [] shapes.now [] []) s (reg s 1) (reg s 2)) result
        machine.old machine.new }
{
    let a = machine.regs[1];
    let b = machine.regs[2];
    let Value::MapReference(map) = a else {
        return Stepped::Faulted(wrong_kinds(a, b));
    };
    let Value::Number(index) = b else {
        return Stepped::Faulted(wrong_kinds(a, b));
    };
    answer_with(machine, entry_found(map, index, shapes.get(map)));
    Stepped::On(None)
}

fn perform_note(machine: &mut Machine) -> Stepped
    requires here { machine.old.pc < 65536 }
    ensures { Moves (λ s. note s (reg s 1)) result machine.old machine.new }
{
    match number_in(machine.regs[1]) {
        Ok(noted) => {
            answer_with(machine, Value::Number(0));
            Stepped::On(Some(noted))
        }
        Err(cause) => Stepped::Faulted(cause),
    }
}

fn perform_ask<P: Port>(machine: &mut Machine, port: &mut P, helper: Helper) -> Stepped
    requires { machine.old.pc < 65536 }
    ensures performs { Performs P.gives (P.shapes port.old)
        (λ s. Asks (Help helper) (λ a. answered s (Number a)))
        result port.old port.new machine.old machine.new }
    ensures shapes { P.shapes port.new ≡ P.shapes port.old }
    ensures paired { IsPaired machine.old → IsPaired machine.new }
{
    let answer = port.helper(helper);
    answer_with(machine, Value::Number(answer));
    Stepped::On(None)
}

/// Calls a helper by its number.
pub fn perform_help<P: Port>(
    shapes: &Shapes,
    machine: &mut Machine,
    port: &mut P,
    helper: u64,
) -> Stepped
    requires here { machine.old.pc < 65536 }
    requires shapes { P.shapes port.old ≡ shapes.now }
    ensures performs { Performs P.gives shapes.now
        (λ s. help (setting [] shapes.now [] []) s helper)
        result port.old port.new machine.old machine.new }
    ensures shapes { P.shapes port.new ≡ P.shapes port.old }
    ensures paired { IsPaired machine.old → IsPaired machine.new }
{
    if helper == 1 {
        return perform_lookup(shapes, machine);
    }
    if helper == 2 {
        return perform_ask(machine, port, Helper::Now);
    }
    if helper == 3 {
        return perform_ask(machine, port, Helper::Stations);
    }
    if helper == 4 {
        return perform_ask(machine, port, Helper::Draw);
    }
    if helper == 5 {
        return perform_note(machine);
    }
    Stepped::Faulted(causes::NO_HELPER)
}
