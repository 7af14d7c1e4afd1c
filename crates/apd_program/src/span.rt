//! Captures as far as they go: all packets, or, if a capture is cut, those before the cut.

ghost use Rattle.std.specs.Prelude.{◌≡◌, ◌++◌, ℕ, List, IfOk, IfErr, IfSome, take};
ghost use Rattle.capture.specs.Captures.{Refuses};
ghost use Rattle.apd_program.specs.Captured.{is_before, IsNoCapture};
ghost use Rattle.apd_program.specs.Faults.{IsMemoryOr};
ghost use Rattle.apd_program.specs.Spans.{IsSpan};

use crate::fault::{ProgramFault, of_capture};
use capture::{CaptureFault, Recording};
use std::alloc::Global;

/// How much of a capture is read: all, or, if it is cut at this fault, what is before that.
#[derive(Clone, Copy)]
pub(crate) struct Span {
    /// How many bytes.
    pub end: usize,
    /// How many packets they hold.
    pub count: usize,
    pub cut: Option<CaptureFault>,
}

/// The bytes of a classic capture's header.
const HEADER: usize = 24;

/// The bytes of a record's header.
const RECORD: usize = 16;

/// The captured bytes of a packet, as four bytes of its record say in the file's byte order.
fn length_at(file: &[u8], place: usize) -> Option<usize> {
    let (bytes, _) = file.get(place..)?.split_first_chunk::<4>()?;
    let length = match file.first()? {
        0xd4 | 0x4d => u32::from_le_bytes(*bytes),
        _ => u32::from_be_bytes(*bytes),
    };
    Some(length as usize)
}

/// Where the first `records` records of a classic capture end.
fn end_of_records(file: &[u8], records: u64) -> Option<usize> {
    let mut end = HEADER;
    for _ in 0..records {
        let length = length_at(file, end.checked_add(8)?)?;
        end = end.checked_add(RECORD)?.checked_add(length)?;
    }
    Some(end)
}

/// The bytes before the record or block that is cut; `None` for another fault.
fn cut_at(file: &[u8], fault: CaptureFault) -> Option<usize> {
    match fault {
        CaptureFault::CutRecord(records) => end_of_records(file, records),
        CaptureFault::CutBlock(place) => usize::try_from(place).ok(),
        _ => None,
    }
}

/// What comes before the record or block that is cut; `None` for another fault.
fn front_of(file: &[u8], fault: CaptureFault) -> Option<&[u8]>
    ensures is { IfSome result (λ front. (rest : List ℕ) × (file.now ≡ front.now ++ rest)) }
{
    let end = cut_at(file, fault)?;
    let (front, _) = file.split_at_checked(end)?;
    Some(front)
}

/// Whether so many bytes with so many packets are all before a fault, which is a cut.
fn is_before(fault: CaptureFault, bytes: usize, packets: usize) -> bool
    ensures is { result ≡ is_before fault bytes packets }
{
    match fault {
        CaptureFault::CutRecord(count) => packets as u64 == count,
        CaptureFault::CutBlock(place) => bytes as u64 == place,
        _ => false,
    }
}

/// How much of a capture is before a fault, if that is a cut.
fn span_before(
    alloc: Global,
    path: &str,
    file: &[u8],
    fault: CaptureFault,
) -> Result<Span, ProgramFault>
    requires refused { Refuses file.now fault }
    ensures span { IfOk result (IsSpan file.now) }
    ensures fault { IfErr result (IsMemoryOr (IsNoCapture file.now)) }
{
    let Some(front) = front_of(file, fault) else {
        return Err(of_capture(alloc, path, fault));
    };
    let recording = match Recording::new(alloc, front) {
        Ok(recording) => recording,
        Err(CaptureFault::NoMemory) => return Err(ProgramFault::NoMemory),
        Err(_) => return Err(of_capture(alloc, path, fault)),
    };
    let end = front.len();
    let count = recording.count;
    if is_before(fault, end, count) {
        let cut = Some(fault);
        return Ok(Span { end, count, cut });
    }
    Err(of_capture(alloc, path, fault))
}

/// How much of a capture is read: all, or, if it is cut, what is before that. `path` names it if it isn't a capture.
pub(crate) fn span_of(alloc: Global, path: &str, file: &[u8]) -> Result<Span, ProgramFault>
    ensures span { IfOk result (IsSpan file.now) }
    ensures fault { IfErr result (IsMemoryOr (IsNoCapture file.now)) }
{
    match Recording::new(alloc, file) {
        Ok(recording) => Ok(Span {
            end: file.len(),
            count: recording.count,
            cut: None,
        }),
        Err(fault) => span_before(alloc, path, file, fault),
    }
}

/// This much of a file.
pub(crate) fn recording_in(file: &[u8], span: Span) -> Recording<'_>
    requires span { IsSpan file.now span }
    ensures bytes { result.bytes.now ≡ take span.end file.entry.now }
{
    let (bytes, _) = file.split_at(span.end);
    let count = span.count;
    Recording { bytes, count }
}
