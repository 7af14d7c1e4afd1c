//! Operations on words of memory.

ghost use Rattle.std.specs.Prelude.{◌≡◌, ◌<◌, ◌^◌, ◌*◌};
ghost use Rattle.bpf_model.specs.Memory.{number_after, operation_of, old_into};
ghost use Rattle.bpf_model.specs.Step.{atomic_bytes};
ghost use Rattle.bpf_values.specs.Inside.{IsSize};

use bpf_insn::{AtomicOp, Reg};
use bpf_regions::MapOp;
use bpf_words::low_half;

fn number_after_wide(op: MapOp, x: u64) -> u64
    ensures is { result ≡ number_after (2 ^ 64) op x }
{
    match op {
        MapOp::Load => x,
        MapOp::Store(y) => y,
        MapOp::Swap(y) => y,
        MapOp::Add(y) => x.wrapping_add(y),
        MapOp::Or(y) => x | y,
        MapOp::And(y) => x & y,
        MapOp::Xor(y) => x ^ y,
        MapOp::CompareExchange { expected, new } => { if x == expected { new } else { x } }
    }
}

fn number_after_narrow(op: MapOp, x: u32) -> u32
    ensures is { result ≡ number_after (2 ^ 32) op x }
{
    match op {
        MapOp::Load => x,
        MapOp::Store(y) => low_half(y),
        MapOp::Swap(y) => low_half(y),
        MapOp::Add(y) => x.wrapping_add(low_half(y)),
        MapOp::Or(y) => x | low_half(y),
        MapOp::And(y) => x & low_half(y),
        MapOp::Xor(y) => x ^ low_half(y),
        MapOp::CompareExchange { expected, new } => {
            if x == low_half(expected) {
                low_half(new)
            } else {
                x
            }
        }
    }
}

/// The word after an operation: of 8 bytes if `wide`, else 4.
pub fn new_number(wide: bool, op: MapOp, x: u64) -> u64
    requires fits { x < 2 ^ (8 * (atomic_bytes wide)) }
    ensures is { result ≡ number_after (2 ^ (8 * (atomic_bytes wide))) op x }
    ensures fits { result < 2 ^ (8 * (atomic_bytes wide)) }
{
    if wide {
        number_after_wide(op, x)
    } else {
        u64::from(number_after_narrow(op, low_half(x)))
    }
}

/// What an atomic operation does to a map's word: the fetching kinds do what those without FETCH do (RFC 9669 section 5.3).
pub fn operation_on_map(op: AtomicOp, number: u64, expected: u64) -> MapOp
    ensures is { result ≡ operation_of op number expected }
{
    match op {
        AtomicOp::Add | AtomicOp::FetchAdd => MapOp::Add(number),
        AtomicOp::Or | AtomicOp::FetchOr => MapOp::Or(number),
        AtomicOp::And | AtomicOp::FetchAnd => MapOp::And(number),
        AtomicOp::Xor | AtomicOp::FetchXor => MapOp::Xor(number),
        AtomicOp::Xchg => MapOp::Swap(number),
        AtomicOp::Cmpxchg => MapOp::CompareExchange {
            expected,
            new: number,
        },
    }
}

/// The register that gets the old number: src for FETCH and XCHG, R0 for CMPXCHG (RFC 9669 section 5.3).
pub fn register_for_old(op: AtomicOp, src: Reg) -> Option<Reg>
    ensures is { result ≡ old_into op src }
{
    match op {
        AtomicOp::Add | AtomicOp::Or | AtomicOp::And | AtomicOp::Xor => None,
        AtomicOp::FetchAdd
        | AtomicOp::FetchOr
        | AtomicOp::FetchAnd
        | AtomicOp::FetchXor
        | AtomicOp::Xchg => Some(src),
        AtomicOp::Cmpxchg => Some(Reg::new(0)),
    }
}

/// How many bytes an atomic operation is on: 8 if `wide`, else 4.
pub fn atomic_size(wide: bool) -> usize
    ensures is { result ≡ atomic_bytes wide }
    ensures size { IsSize result }
{
    if wide { 8 } else { 4 }
}
