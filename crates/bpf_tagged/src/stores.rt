//! Stores.

ghost use Rattle.std.specs.Prelude.{◌≡◌, ◌<◌, ◌≤◌, ℕ, ℤ, [], length, IfOk, IfErr, false};
ghost use Rattle.bpf_values.specs.Inside.{IsStorable, IsSize};
ghost use Rattle.bpf_model.specs.Alu.{is_unset};
ghost use Rattle.bpf_model.specs.State.{Setting, State, Fault};
ghost use Rattle.bpf_model.specs.Memory.{store_at, store as store_of, number_or_zero};
ghost use Rattle.bpf_tagged.specs.Accesses.{stored_to};
ghost use Rattle.bpf_tagged.specs.Took.{Performs, IsPaired};

use crate::loads::Target;
use crate::{Input, Machine, Port, Stepped};
use bpf_model::Place;
use bpf_regions::{MapOp, Value};
use bpf_values::arithmetic::{unset, wrong_kind};
use bpf_values::bytes::store_in;
use bpf_values::causes;
use bpf_values::places::{Span, place_of, points_elsewhere, taken_by, with_offset};

fn number_of(value: Value) -> u64
    ensures { result ≡ number_or_zero value }
{
    match value {
        Value::Number(x) => x,
        _ => 0,
    }
}

fn store_placed<P: Port>(
    machine: &mut Machine,
    port: &mut P,
    size: usize,
    value: Value,
    place: Place,
) -> Stepped
    requires here { machine.old.pc < 65536 }
    requires size { IsSize size }
    requires inside { IsStorable (P.shapes port.old)
        (length machine.old.stack.items) size value place }
    ensures performs { Performs P.gives (P.shapes port.old) (λ s. store_at s size value place)
        result port.old port.new machine.old machine.new }
    ensures shapes { P.shapes port.new ≡ P.shapes port.old }
    ensures paired { IsPaired machine.old → IsPaired machine.new }
{
    match place {
        Place::Frame(_) => Stepped::Faulted(causes::WRONG_OPERAND),
        Place::Context(_) => Stepped::Faulted(causes::WRONG_OPERAND),
        Place::Stack { frame, at } => {
            if points_elsewhere(frame, value) {
                return Stepped::Faulted(causes::STACK_POINTER_STORED);
            }
            store_in(machine.stack.as_mut_slice(), frame, at, size, value);
            machine.pc += 1;
            Stepped::On(None)
        }
        Place::Word { map, word } => {
            let _nothing = port.access(map, word, MapOp::Store(number_of(value)));
            machine.pc += 1;
            Stepped::On(None)
        }
    }
}

/// The store's pointer, or the store's fault.
fn store_target(value: Value, to: Value) -> Result<Target, u8>
    ensures ok { IfOk result (λ t. to ≡ Value.Pointer t.region t.base) }
    ensures set { IfOk result (λ t. is_unset value ≡ false) }
    ensures err { IfErr result (λ cause. (p : Setting) (s : State) (n : ℕ) (offset : ℤ) →
        store_of p s n value to offset ≡ Fault cause) }
{
    match to {
        Value::Unset => Err(causes::UNSET),
        Value::Pointer { region, offset } => {
            if unset(value) {
                return Err(causes::UNSET);
            }
            Ok(Target {
                region,
                base: offset,
            })
        }
        Value::Number(_) => Err(wrong_kind(value)),
        Value::FrameEnd => Err(wrong_kind(value)),
        Value::MapReference(_) => Err(wrong_kind(value)),
    }
}

/// A store: its number of bytes, the value stored, and the value it goes through.
#[derive(Clone, Copy)]
pub struct Store {
    pub size: usize,
    pub value: Value,
    pub to: Value,
}

/// Performs a store through `store.to`; a fault if that isn't a pointer.
pub fn perform_store<P: Port>(
    input: Input<'_>,
    machine: &mut Machine,
    port: &mut P,
    store: Store,
    offset: i16,
) -> Stepped
    requires here { machine.old.pc < 65536 }
    requires size { IsSize store.size }
    requires shapes { P.shapes port.old ≡ input.shapes.now }
    ensures performs { Performs P.gives input.entry.shapes.now (stored_to input.entry store offset)
        result port.old port.new machine.old machine.new }
    ensures shapes { P.shapes port.new ≡ P.shapes port.old }
    ensures paired { IsPaired machine.old → IsPaired machine.new }
{
    let target = match store_target(store.value, store.to) {
        Ok(target) => target,
        Err(cause) => return Stepped::Faulted(cause),
    };
    let at = with_offset(target.base, offset);
    let span = Span {
        region: target.region,
        at,
        size: store.size,
    };
    let taken = match taken_by(span, store.value) {
        Ok(taken) => taken,
        Err(refused) => return Stepped::Faulted(refused),
    };
    let depth = machine.stack.len();
    match place_of(input.shapes, input.frame, input.context, depth, span) {
        Ok(place) => { store_placed(machine, port, store.size, taken, place) }
        Err(other) => Stepped::Faulted(other),
    }
}
