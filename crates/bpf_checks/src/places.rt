//! Where an access lies, and whether it fits there.

ghost use Rattle.std.specs.Prelude.{◌≡◌, ◌<◌, ◌+◌, ◌≤◌, nat_le, length, None, Some, IfSome, IfOk, IfErr};
ghost use Rattle.bpf_regions.specs.Maps.{IsShape};
ghost use Rattle.bpf_rules.specs.Memory.{offset_of, are_multiples, in_room, frame_fault, context_fault, entry_fault, stack_fault, aligned_fault};

use bpf_absnum::AbsNum;
use bpf_absstate::AbsState;
use bpf_absval::Label;
use bpf_insn::AluOp;
use bpf_regions::Shape;
use bpf_rules::Fault;
use bpf_words::word_of_int;

/// The offset of an access: the sum of the pointer's and the instruction's.
pub fn offset_by(offset: AbsNum, by: i16) -> AbsNum
    ensures is { result ≡ offset_of offset by }
{
    offset.alu(AluOp::Add, true, AbsNum::single(word_of_int(i32::from(by))))
}

/// Whether the known low bits show that all offsets are multiples of `n`, a power of two.
pub fn are_multiples_of(n: u64, at: AbsNum) -> bool
    requires some { 1 ≤ n }
    ensures is { result ≡ are_multiples n at }
{
    let bits = at.bits();
    (bits.value() | bits.mask()) & (n - 1) == 0
}

/// Whether `n` bytes at an offset fit below a limit.
fn fits(at: u64, n: u64, limit: u64) -> bool
    requires few { n ≤ 8 }
    ensures is { result ≡ nat_le (at + n) limit }
{
    at <= limit && n <= limit - at
}

/// The fault of an access to the received frame.
pub fn fault_in_frame(
    state: &AbsState,
    offset: AbsNum,
    label: Option<Label>,
    by: i16,
    n: u64,
) -> Option<Fault>
    requires few { n ≤ 8 }
    ensures is { result ≡ frame_fault state.now offset label by n }
{
    if fits(
        offset_by(offset, by).range().high(),
        n,
        u64::from(state.least()),
    ) {
        return None;
    }
    if lies_in_room(state, label, by, n) {
        return None;
    }
    Some(Fault::OutsideRegion)
}

/// Whether the `n` bytes are among those known to follow the pointer's label.
fn lies_in_room(state: &AbsState, label: Option<Label>, by: i16, n: u64) -> bool
    requires few { n ≤ 8 }
    ensures is { result ≡ in_room state.now.rooms label by n }
{
    let Some(label) = label else {
        return false;
    };
    let at = u64::from(label.distance).wrapping_add(word_of_int(i32::from(by)));
    match state.room(label.label) {
        None => false,
        Some(size) => fits(at, n, u64::from(size)),
    }
}

/// The fault of an access to the context.
pub fn fault_in_context(at: AbsNum, n: u64) -> Option<Fault>
    requires few { n ≤ 8 }
    ensures is { result ≡ context_fault at n }
{
    if fits(at.range().high(), n, 32) {
        return None;
    }
    Some(Fault::OutsideRegion)
}

/// The fault of an access to a map's entry.
pub fn fault_in_entry(shape: Option<Shape>, at: AbsNum, n: u64) -> Option<Fault>
    requires valid { IfSome shape IsShape }
    requires some { 1 ≤ n }
    requires few { n ≤ 8 }
    ensures is { result ≡ entry_fault shape at n }
{
    let Some(shape) = shape else {
        return Some(Fault::OutsideRegion);
    };
    if n != u64::from(shape.width.bytes()) || !are_multiples_of(n, at) {
        return Some(Fault::Misaligned);
    }
    if fits(at.range().high(), n, u64::from(shape.entry_bytes())) {
        return None;
    }
    Some(Fault::OutsideRegion)
}

/// The offset of an access to the stack of call frame `k`: a single one, in a live frame.
pub fn place_in_stack(state: &AbsState, k: u8, at: AbsNum, n: u32) -> Result<usize, Fault>
    requires few { n ≤ 8 }
    ensures fine { IfOk result (λ place. stack_fault state.now k at n ≡ None) }
    ensures place { IfOk result (λ place. place ≡ at.range.low) }
    ensures lives { IfOk result (λ place. k < length state.now.frames) }
    ensures inside { IfOk result (λ place. place + n ≤ 512) }
    ensures fault { IfErr result (λ fault. stack_fault state.now k at n ≡ Some fault) }
{
    let low = at.range().low();
    if !at.is_single() || state.depth() <= k as usize || !fits(low, u64::from(n), 512) {
        return Err(Fault::OutsideRegion);
    }
    Ok(low as usize)
}

/// Like `place_in_stack`, at a multiple of `n`, which is checked first.
pub fn aligned_in_stack(state: &AbsState, k: u8, at: AbsNum, n: u32) -> Result<usize, Fault>
    requires some { 1 ≤ n }
    requires few { n ≤ 8 }
    ensures fine { IfOk result (λ place. aligned_fault state.now k at n ≡ None) }
    ensures place { IfOk result (λ place. place ≡ at.range.low) }
    ensures lives { IfOk result (λ place. k < length state.now.frames) }
    ensures inside { IfOk result (λ place. place + n ≤ 512) }
    ensures fault { IfErr result (λ fault. aligned_fault state.now k at n ≡ Some fault) }
{
    if !are_multiples_of(u64::from(n), at) {
        return Err(Fault::Misaligned);
    }
    let place = place_in_stack(state, k, at, n)?;
    Ok(place)
}
