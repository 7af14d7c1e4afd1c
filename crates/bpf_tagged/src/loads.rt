//! Loads.

ghost use Rattle.std.specs.Prelude.{◌≡◌, ◌<◌, ◌≤◌, ℕ, ℤ, Bool, [], length, IfOk, IfErr};
ghost use Rattle.bpf_values.specs.Inside.{IsInside, IsSize};
ghost use Rattle.bpf_model.specs.State.{put, Setting, State, Fault};
ghost use Rattle.bpf_model.specs.Memory.{load_at, load as load_of};
ghost use Rattle.bpf_model.specs.Run.{setting};
ghost use Rattle.bpf_tagged.specs.Accesses.{loaded_from};
ghost use Rattle.bpf_tagged.specs.Took.{Performs, IsPaired, moved_on};

use crate::machine::put;
use crate::{Input, Machine, Port, Stepped};
use bpf_insn::Reg;
use bpf_model::Place;
use bpf_regions::{MapOp, Region, Value};
use bpf_values::bytes::{load_in, loaded, read_number};
use bpf_values::causes;
use bpf_values::places::{Span, place_of, with_offset};

/// A load: its number of bytes, whether it sign-extends, its destination, and the value it goes through.
#[derive(Clone, Copy)]
pub struct Load {
    pub size: usize,
    pub signed: bool,
    pub dst: Reg,
    pub from: Value,
}

fn load_placed<P: Port>(
    input: Input<'_>,
    machine: &mut Machine,
    port: &mut P,
    load: Load,
    place: Place,
) -> Stepped
    requires here { machine.old.pc < 65536 }
    requires size { IsSize load.size }
    requires inside { IsInside (P.shapes port.old) (length input.frame.now)
        (length input.context.now) (length machine.old.stack.items) load.size place }
    ensures performs { Performs P.gives (P.shapes port.old)
        (λ s. load_at (setting [] [] input.entry.frame.now input.entry.context.now) s
        load.size load.signed load.dst place)
        result port.old port.new machine.old machine.new }
    ensures shapes { P.shapes port.new ≡ P.shapes port.old }
    ensures paired { IsPaired machine.old → IsPaired machine.new }
{
    match place {
        Place::Frame(at) => {
            let number = loaded(
                load.signed,
                load.size,
                read_number(input.frame, at, load.size),
            );
            put(machine, load.dst, Value::Number(number));
            Stepped::On(None)
        }
        Place::Context(at) => {
            let number = loaded(
                load.signed,
                load.size,
                read_number(input.context, at, load.size),
            );
            put(machine, load.dst, Value::Number(number));
            Stepped::On(None)
        }
        Place::Stack { frame: k, at } => {
            match load_in(machine.stack.as_slice(), k, at, load.size, load.signed) {
                Ok(value) => {
                    put(machine, load.dst, value);
                    Stepped::On(None)
                }
                Err(cause) => Stepped::Faulted(cause),
            }
        }
        Place::Word { map, word } => {
            let answer = port.access(map, word, MapOp::Load);
            let number = loaded(load.signed, load.size, answer);
            put(machine, load.dst, Value::Number(number));
            Stepped::On(None)
        }
    }
}

/// A pointer's region and offset, before the instruction's offset.
#[derive(Clone, Copy)]
pub struct Target {
    pub region: Region,
    pub base: u64,
}

/// The load's pointer, or the load's fault.
fn load_target(from: Value) -> Result<Target, u8>
    ensures ok { IfOk result (λ t. from ≡ Value.Pointer t.region t.base) }
    ensures err { IfErr result
        (λ cause. (p : Setting) (s : State) (n : ℕ) (signed : Bool) (dst : ℕ) (offset : ℤ) →
        load_of p s n signed dst from offset ≡ Fault cause) }
{
    match from {
        Value::Pointer { region, offset } => Ok(Target {
            region,
            base: offset,
        }),
        Value::Unset => Err(causes::UNSET),
        Value::Number(_) => Err(causes::WRONG_OPERAND),
        Value::FrameEnd => Err(causes::WRONG_OPERAND),
        Value::MapReference(_) => Err(causes::WRONG_OPERAND),
    }
}

/// Performs a load through `load.from`; a fault if that isn't a pointer.
pub fn perform_load<P: Port>(
    input: Input<'_>,
    machine: &mut Machine,
    port: &mut P,
    load: Load,
    offset: i16,
) -> Stepped
    requires here { machine.old.pc < 65536 }
    requires size { IsSize load.size }
    requires shapes { P.shapes port.old ≡ input.shapes.now }
    ensures performs { Performs P.gives input.entry.shapes.now (loaded_from input.entry load offset)
        result port.old port.new machine.old machine.new }
    ensures shapes { P.shapes port.new ≡ P.shapes port.old }
    ensures paired { IsPaired machine.old → IsPaired machine.new }
{
    let target = match load_target(load.from) {
        Ok(target) => target,
        Err(cause) => return Stepped::Faulted(cause),
    };
    let at = with_offset(target.base, offset);
    let span = Span {
        region: target.region,
        at,
        size: load.size,
    };
    let depth = machine.stack.len();
    match place_of(input.shapes, input.frame, input.context, depth, span) {
        Ok(place) => { load_placed(input, machine, port, load, place) }
        Err(other) => Stepped::Faulted(other),
    }
}
