//! The locations of accesses.

ghost use Rattle.std.specs.Prelude.{◌≡◌, ◌<◌, ◌≤◌, ◌+◌, ◌*◌, ◌/◌, ◌⊎◌, ℕ, [], length, nat_le, IfOk, IfSome};
ghost use Rattle.bpf_regions.specs.Maps.{IsShape, word_count};
ghost use Rattle.bpf_words.specs.Word.{word_add, word_of};
ghost use Rattle.bpf_model.specs.Memory.{place, place_in_map, storable, storable_in_stack, storable_in_map, strays, atomic_region};
ghost use Rattle.bpf_model.specs.Run.{setting};
ghost use Rattle.bpf_values.specs.Inside.{IsInside, IsWordIn};

use crate::causes;
use bpf_model::Place;
use bpf_regions::{Region, Shape, Shapes, Value};
use bpf_words::word_of_int;

/// The address plus an instruction's offset, mod 2^64.
pub fn with_offset(base: u64, offset: i16) -> u64
    ensures { result ≡ word_add base (word_of offset) }
{
    base.wrapping_add(word_of_int(i32::from(offset)))
}

/// The index of a word in its map.
fn word_at(index: u32, at: u64, width: u64, shape: Shape) -> u32
    requires valid { IsShape shape }
    requires index { index < shape.entries }
    requires width { (width ≡ 4) ⊎ (width ≡ 8) }
    requires inside { at + width ≤ shape.words * width }
    ensures is { result ≡ index * shape.words + at / width }
    ensures there { result < word_count shape }
{
    index * shape.words + (at / width) as u32
}

fn in_map(map: u32, index: u32, at: u64, size: usize, shape: Option<Shape>) -> Result<Place, u8>
    requires size { size ≤ 8 }
    requires valid { IfSome shape IsShape }
    ensures is { result ≡ place_in_map map index at size shape }
    ensures there { IfOk result (λ place. IsWordIn shape place) }
{
    let Some(shape) = shape else {
        return Err(causes::OUTSIDE_REGION);
    };
    let width = u64::from(shape.width.bytes());
    if size as u64 != width || at % width != 0 {
        return Err(causes::MISALIGNED);
    }
    let bytes = u64::from(shape.entry_bytes());
    if index < shape.entries && width <= bytes && at <= bytes - width {
        return Ok(Place::Word {
            map,
            word: word_at(index, at, width, shape),
        });
    }
    Err(causes::OUTSIDE_REGION)
}

fn fits(at: u64, size: usize, length: usize) -> bool
    requires { size ≤ 8 }
    ensures { result ≡ nat_le (at + size) length }
{
    size <= length && at <= (length - size) as u64
}

/// The bytes of an access: `size` bytes at an offset in their region.
#[derive(Clone, Copy)]
pub struct Span {
    pub region: Region,
    pub at: u64,
    pub size: usize,
}

/// The location of an access: fault 33 if a map access has the wrong width or alignment, else 32 if it is outside its
/// region.
pub fn place_of(
    shapes: &Shapes,
    frame: &[u8],
    context: &[u8],
    depth: usize,
    span: Span,
) -> Result<Place, u8>
    requires { span.size ≤ 8 }
    ensures is { result ≡ place (setting [] shapes.now frame.now context.now) depth
        span.region span.at span.size }
    ensures inside { IfOk result
        (λ p. IsInside shapes.now (length frame.now) (length context.now) depth span.size p) }
{
    let Span { region, at, size } = span;
    match region {
        Region::Frame => {
            if fits(at, size, frame.len()) {
                return Ok(Place::Frame(at as usize));
            }
            return Err(causes::OUTSIDE_REGION);
        }
        Region::Context => {
            if fits(at, size, context.len()) {
                return Ok(Place::Context(at as usize));
            }
            return Err(causes::OUTSIDE_REGION);
        }
        Region::Stack(k) => {
            if (k as usize) < depth && fits(at, size, 512) {
                return Ok(Place::Stack {
                    frame: k as usize,
                    at: at as usize,
                });
            }
            return Err(causes::OUTSIDE_REGION);
        }
        Region::Entry { map, index } => {
            return in_map(map, index, at, size, shapes.get(map));
        }
    }
}

fn for_stack(at: u64, size: usize, value: Value) -> Result<Value, u8>
    ensures { result ≡ storable_in_stack at size value }
{
    match value {
        Value::Number(x) => Ok(Value::Number(x)),
        _ => {
            if size != 8 {
                Err(causes::WRONG_OPERAND)
            } else if at % 8 == 0 {
                Ok(value)
            } else {
                Err(causes::MISALIGNED)
            }
        }
    }
}

fn for_map(value: Value) -> Result<Value, u8>
    ensures { result ≡ storable_in_map value }
{
    match value {
        Value::Number(x) => Ok(Value::Number(x)),
        _ => Err(causes::WRONG_OPERAND),
    }
}

/// The value, if it may be stored there, or else the fault.
pub fn taken_by(span: Span, value: Value) -> Result<Value, u8>
    ensures { result ≡ storable span.region span.at span.size value }
{
    match span.region {
        Region::Frame => Err(causes::WRONG_OPERAND),
        Region::Context => Err(causes::WRONG_OPERAND),
        Region::Stack(_) => for_stack(span.at, span.size, value),
        Region::Entry { .. } => for_map(value),
    }
}

/// Whether a value is a pointer to another stack frame.
pub fn points_elsewhere(frame: usize, value: Value) -> bool
    ensures { result ≡ strays frame value }
{
    match value {
        Value::Pointer { region, .. } => match region {
            Region::Stack(k) => k as usize != frame,
            _ => false,
        },
        _ => false,
    }
}

/// The region, if an atomic may access it there, or else the fault.
pub fn for_atomic(span: Span) -> Result<Region, u8>
    requires { 1 ≤ span.size }
    ensures { result ≡ atomic_region span.region span.at span.size }
{
    match span.region {
        Region::Frame => Err(causes::WRONG_OPERAND),
        Region::Context => Err(causes::WRONG_OPERAND),
        Region::Stack(k) => {
            if span.at % span.size as u64 == 0 {
                Ok(Region::Stack(k))
            } else {
                Err(causes::MISALIGNED)
            }
        }
        Region::Entry { map, index } => Ok(Region::Entry { map, index }),
    }
}
