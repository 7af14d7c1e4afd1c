//! Random changes of bytes.

ghost use Rattle.std.specs.Prelude.{◌<◌, ◌≤◌, ◌+◌, length};

use crate::numbers::Numbers;
use std::alloc::{AllocError, Global};

/// Boundary values.
const EDGES: [u8; 8] = [0, 1, 2, 0x7f, 0x80, 0xfe, 0xff, 0x20];

/// A range of positions, without `to`.
#[derive(Clone, Copy)]
pub struct Span {
    pub from: usize,
    pub to: usize,
}

/// A random nonempty range of the positions below `length`, mostly short.
pub fn some_of(numbers: &mut Numbers, length: usize) -> Span
    requires { 0 < length }
    ensures order { result.from < result.to }
    ensures within { result.to ≤ length }
{
    let from = numbers.place_in(length);
    let rest = length - from;
    let most = if numbers.is_one_in(8) {
        rest
    } else {
        rest.min(4)
    };
    Span {
        from,
        to: from + 1 + numbers.place_in(most),
    }
}

/// The bytes with a piece in place of a range.
pub fn spliced(alloc: Global, bytes: &[u8], span: Span, piece: &[u8]) -> Result<Vec<u8>, AllocError>
    requires order { span.from ≤ span.to }
    requires within { span.to ≤ length bytes.now }
{
    let mut out = Vec::new(alloc);
    out.extend_from_slice(&bytes[..span.from])?;
    out.extend_from_slice(piece)?;
    out.extend_from_slice(&bytes[span.to..])?;
    Ok(out)
}

/// Fewer random bytes than `limit`.
pub fn random_bytes(alloc: Global, numbers: &mut Numbers, limit: u64) -> Result<Vec<u8>, AllocError>
    requires { 0 < limit }
{
    let mut out = Vec::new(alloc);
    for _ in 0..numbers.below(limit) {
        out.push(numbers.byte())?;
    }
    Ok(out)
}

/// Changes a byte.
fn set_byte(numbers: &mut Numbers, bytes: &mut [u8])
    requires { 0 < length bytes.old }
{
    let at = numbers.place_in(bytes.len());
    bytes[at] = match numbers.below(4) {
        0 => numbers.byte(),
        1 => numbers.one_of(&EDGES),
        2 => bytes[at].wrapping_add(1),
        _ => bytes[at].wrapping_sub(1),
    };
}

/// Flips a bit.
fn turn_bit(numbers: &mut Numbers, bytes: &mut [u8])
    requires { 0 < length bytes.old }
{
    let at = numbers.place_in(bytes.len());
    bytes[at] ^= numbers.one_of(&[1u8, 2, 4, 8, 16, 32, 64, 128]);
}

/// The bytes with a range of them inserted again elsewhere.
fn repeated(alloc: Global, numbers: &mut Numbers, bytes: &[u8]) -> Result<Vec<u8>, AllocError>
    requires { 0 < length bytes.now }
{
    let piece = some_of(numbers, bytes.len());
    let at = numbers.place_in(bytes.len());
    let here = Span { from: at, to: at };
    spliced(alloc, bytes, here, &bytes[piece.from..piece.to])
}

/// The bytes with a word in place of a range, or between two bytes.
fn worded(
    alloc: Global,
    numbers: &mut Numbers,
    bytes: &[u8],
    words: &[&str],
) -> Result<Vec<u8>, AllocError>
    requires some { 0 < length bytes.now }
    requires words { 0 < length words.now }
{
    let place = numbers.place_in(words.len());
    let word = words[place].as_bytes();
    let mut span = some_of(numbers, bytes.len());
    if numbers.is_one_in(2) {
        span.to = span.from;
    }
    spliced(alloc, bytes, span, word)
}

/// The bytes with one change that may alter their number: a range removed or repeated, a word, a cut, or random bytes
/// inserted.
fn reshaped(
    alloc: Global,
    numbers: &mut Numbers,
    bytes: &[u8],
    words: &[&str],
) -> Result<Vec<u8>, AllocError>
    requires { 0 < length bytes.now }
{
    if !words.is_empty() && numbers.is_one_in(2) {
        return worded(alloc, numbers, bytes, words);
    }
    match numbers.below(4) {
        0 => {
            let gone = some_of(numbers, bytes.len());
            spliced(alloc, bytes, gone, &[])
        }
        1 => repeated(alloc, numbers, bytes),
        2 => {
            let end = numbers.place_in(bytes.len());
            Vec::from_slice(alloc, &bytes[..end])
        }
        _ => {
            let piece = random_bytes(alloc, numbers, 9)?;
            let at = numbers.place_in(bytes.len());
            spliced(alloc, bytes, Span { from: at, to: at }, &piece)
        }
    }
}

/// The bytes with one change, or random bytes if there are none.
fn changed(
    alloc: Global,
    numbers: &mut Numbers,
    mut bytes: Vec<u8>,
    words: &[&str],
) -> Result<Vec<u8>, AllocError> {
    if bytes.is_empty() {
        return random_bytes(alloc, numbers, 64);
    }
    match numbers.below(4) {
        0 => set_byte(numbers, &mut bytes),
        1 => turn_bit(numbers, &mut bytes),
        _ => return reshaped(alloc, numbers, &bytes, words),
    }
    Ok(bytes)
}

/// The bytes with at most four changes. `words` may appear anywhere in them.
pub fn mutated(
    alloc: Global,
    numbers: &mut Numbers,
    bytes: &[u8],
    words: &[&str],
) -> Result<Vec<u8>, AllocError> {
    let mut out = Vec::from_slice(alloc, bytes)?;
    for _ in 0..numbers.below(5) {
        out = changed(alloc, numbers, out, words)?;
    }
    Ok(out)
}
