//! Reads the smallest fields.

ghost use Rattle.std.specs.Prelude.{◌≡◌, nat_le, if◌then◌else◌, Some, None};
ghost use Rattle.std.specs.Int.{w16, w32, w64};
ghost use Rattle.bpf_interval.specs.Interval.{bounds};
ghost use Rattle.bpf_interval.specs.Signed.{place};
ghost use Rattle.bpf_cert_format.specs.Answers.{Gives};
ghost use Rattle.bpf_cert_format.specs.Reading.{byte_at as reads_byte, word_at as reads_word, taken as reads_bytes, pair_at as reads_pair, number_at as reads_number, label_at as reads_label};

use crate::fault::ReadFault;
use bpf_absnum::AbsNum;
use bpf_absval::Label;
use bpf_interval::{Interval, SignedInterval};
use bpf_tnum::Tnum;

/// The first byte.
pub(crate) fn byte_at(bytes: &[u8]) -> Result<(u8, &[u8]), ReadFault>
    ensures is { Gives (λ x. (x.0, x.1.now)) result (reads_byte bytes.now) }
{
    match bytes {
        [] => Err(ReadFault::Malformed),
        [byte, rest @ ..] => Ok((*byte, rest)),
    }
}

/// The first `count` bytes.
#[tactic(auto, unfolding(crate::specs::Reading::taken))]
pub(crate) fn bytes_at(count: usize, bytes: &[u8]) -> Result<(&[u8], &[u8]), ReadFault>
    ensures is { Gives (λ x. (x.0.now, x.1.now)) result (reads_bytes count bytes.now) }
{
    if bytes.len() < count {
        return Err(ReadFault::Malformed);
    }
    Ok(bytes.split_at(count))
}

/// A number of 16 bits.
#[tactic(auto, unfolding(crate::specs::Reading::word_at))]
pub(crate) fn u16_at(bytes: &[u8]) -> Result<(u16, &[u8]), ReadFault>
    ensures is { Gives (λ x. (x.0, x.1.now)) result (reads_word w16 bytes.now) }
{
    if bytes.len() < 2 {
        return Err(ReadFault::Malformed);
    }
    let (front, rest) = bytes.split_at(2);
    let number = u16::from_le_bytes([front[0], front[1]]);
    Ok((number, rest))
}

/// A number of 32 bits.
#[tactic(auto, unfolding(crate::specs::Reading::word_at))]
pub(crate) fn u32_at(bytes: &[u8]) -> Result<(u32, &[u8]), ReadFault>
    ensures is { Gives (λ x. (x.0, x.1.now)) result (reads_word w32 bytes.now) }
{
    if bytes.len() < 4 {
        return Err(ReadFault::Malformed);
    }
    let (front, rest) = bytes.split_at(4);
    let number = u32::from_le_bytes([front[0], front[1], front[2], front[3]]);
    Ok((number, rest))
}

#[tactic(auto, unfolding(crate::specs::Reading::word_at))]
fn u64_at(bytes: &[u8]) -> Result<(u64, &[u8]), ReadFault>
    ensures is { Gives (λ x. (x.0, x.1.now)) result (reads_word w64 bytes.now) }
{
    if bytes.len() < 8 {
        return Err(ReadFault::Malformed);
    }
    let (front, rest) = bytes.split_at(8);
    let number = u64::from_le_bytes([
        front[0], front[1], front[2], front[3], front[4], front[5], front[6], front[7],
    ]);
    Ok((number, rest))
}

/// Two numbers of 64 bits.
fn pair_at(bytes: &[u8]) -> Result<((u64, u64), &[u8]), ReadFault>
    ensures is { Gives (λ x. (x.0, x.1.now)) result (reads_pair bytes.now) }
{
    let (first, rest) = u64_at(bytes)?;
    let (second, rest) = u64_at(rest)?;
    Ok(((first, second), rest))
}

/// The signed interval between two words read as signed, if they are in order.
#[tactic(auto, using(bpf_interval::proofs::SoundSigned::places_order))]
fn signed_between(low: u64, high: u64) -> Option<SignedInterval>
    ensures is { result ≡ (if nat_le (place low) (place high) then Some
        (bounds (place low) (place high)) else None) }
{
    let low = low.cast_signed();
    let high = high.cast_signed();
    if high < low {
        return None;
    }
    Some(SignedInterval::new(low, high))
}

/// An abstract number.
#[tactic(auto, unfolding(crate::specs::Reading::number_at))]
pub(crate) fn number_at(bytes: &[u8]) -> Result<(AbsNum, &[u8]), ReadFault>
    ensures is { Gives (λ x. (x.0, x.1.now)) result (reads_number bytes.now) }
{
    let ((low, high), rest) = pair_at(bytes)?;
    if low > high {
        return Err(ReadFault::Malformed);
    }
    let ((value, mask), rest) = pair_at(rest)?;
    if value & mask != 0 {
        return Err(ReadFault::Malformed);
    }
    let ((signed_low, signed_high), rest) = pair_at(rest)?;
    match signed_between(signed_low, signed_high) {
        None => Err(ReadFault::Malformed),
        Some(signed) => {
            let number = AbsNum::new(Interval::new(low, high), signed, Tnum::new(value, mask));
            Ok((number, rest))
        }
    }
}

/// A label with a distance, or None.
#[tactic(auto, unfolding(crate::specs::Reading::label_at))]
pub(crate) fn label_at(bytes: &[u8]) -> Result<(Option<Label>, &[u8]), ReadFault>
    ensures is { Gives (λ x. (x.0, x.1.now)) result (reads_label bytes.now) }
{
    let (label, rest) = u16_at(bytes)?;
    let (distance, rest) = u16_at(rest)?;
    if label == 0 {
        if distance == 0 {
            return Ok((None, rest));
        }
        return Err(ReadFault::Malformed);
    }
    if distance > 2400 {
        return Err(ReadFault::Malformed);
    }
    Ok((Some(Label { label, distance }), rest))
}
