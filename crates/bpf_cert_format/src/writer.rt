//! Writes certificates as bytes.

ghost use Rattle.std.specs.Prelude.{◌≡◌, ◌*◌, ◌<◌, ◌≤◌, ◌^◌, ◌++◌, ◌∷◌, [], ℕ, length, IfOk, IsOk, OnOk};
ghost use Rattle.std.specs.List.{flat_map, AllByRecursion};
ghost use Rattle.std.specs.Int.{w16, w32, w64, to_le_bytes};
ghost use Rattle.bpf_interval.specs.Signed.{word_at};
ghost use Rattle.bpf_cert_format.specs.Answers.{RefusedForMemoryAlone};
ghost use Rattle.bpf_cert_format.specs.Fits.{FitsRegion, FitsValue, FitsCell, FitsFrame, FitsEntry, FitsCertificate};
ghost use Rattle.bpf_cert_format.specs.Spelling.{number as number_bytes, label as label_bytes, region as region_number, value as value_bytes, cell as cell_bytes, frame as frame_bytes, room as room_bytes, rooms as rooms_bytes, frames as frames_bytes, entry as entry_bytes, code as code_bytes, entries as entries_bytes, spelling};

use crate::certificate::Certificate;
use crate::entry::Entry;
use crate::fault::WriteFault;
use crate::frame::Frame;
use crate::leaf::{Kind, Leaf};
use bpf_absnum::AbsNum;
use bpf_absval::{AbsRegion, AbsSlot, AbsVal, Label, Room};
use bpf_interval::{Interval, SignedInterval};
use bpf_tnum::Tnum;
use std::alloc::{AllocError, Global};

/// The least and the greatest number, as words.
#[tactic(auto, using(bpf_interval::proofs::SoundSigned::place_twice))]
fn words_of(signed: SignedInterval) -> (u64, u64)
    ensures low { result.0 ≡ word_at signed.low }
    ensures high { result.1 ≡ word_at signed.high }
{
    let low = signed.low().cast_unsigned();
    let high = signed.high().cast_unsigned();
    (low, high)
}

fn put_u16(out: &mut Vec<u8>, number: u16) -> Result<(), AllocError>
    ensures is { OnOk result (out.new.items ≡ out.old.items ++ to_le_bytes w16 number) }
{
    out.extend_from_slice(&number.to_le_bytes())?;
    Ok(())
}

fn put_u32(out: &mut Vec<u8>, number: u32) -> Result<(), AllocError>
    ensures is { OnOk result (out.new.items ≡ out.old.items ++ to_le_bytes w32 number) }
{
    out.extend_from_slice(&number.to_le_bytes())?;
    Ok(())
}

/// Two numbers of 64 bits.
fn put_pair(out: &mut Vec<u8>, first: u64, second: u64) -> Result<(), AllocError>
    ensures is { OnOk result
        (out.new.items ≡ out.old.items ++ (to_le_bytes w64 first ++ to_le_bytes w64 second)) }
{
    out.extend_from_slice(&first.to_le_bytes())?;
    out.extend_from_slice(&second.to_le_bytes())?;
    Ok(())
}

fn put_range(out: &mut Vec<u8>, range: Interval) -> Result<(), AllocError>
    ensures is { OnOk result
        (out.new.items ≡ out.old.items ++
        (to_le_bytes w64 range.low ++ to_le_bytes w64 range.high)) }
{
    put_pair(out, range.low(), range.high())?;
    Ok(())
}

fn put_bits(out: &mut Vec<u8>, bits: Tnum) -> Result<(), AllocError>
    ensures is { OnOk result
        (out.new.items ≡ out.old.items ++
        (to_le_bytes w64 bits.value ++ to_le_bytes w64 bits.mask)) }
{
    put_pair(out, bits.value(), bits.mask())?;
    Ok(())
}

fn put_signed(out: &mut Vec<u8>, signed: SignedInterval) -> Result<(), AllocError>
    ensures is { OnOk result
        (out.new.items ≡ out.old.items ++
        (to_le_bytes w64 (word_at signed.low) ++ to_le_bytes w64 (word_at signed.high))) }
{
    let (low, high) = words_of(signed);
    put_pair(out, low, high)?;
    Ok(())
}

fn put_number(out: &mut Vec<u8>, number: AbsNum) -> Result<(), AllocError>
    ensures is { OnOk result (out.new.items ≡ out.old.items ++ number_bytes number) }
{
    put_range(out, number.range())?;
    put_bits(out, number.bits())?;
    put_signed(out, number.signed())?;
    Ok(())
}

fn put_label(out: &mut Vec<u8>, label: Option<Label>) -> Result<(), AllocError>
    ensures is { OnOk result (out.new.items ≡ out.old.items ++ label_bytes label) }
{
    match label {
        None => {
            put_u16(out, 0)?;
            put_u16(out, 0)?;
        }
        Some(known) => {
            put_u16(out, known.label)?;
            put_u16(out, known.distance)?;
        }
    }
    Ok(())
}

/// A number below 256, as a byte.
fn byte_of(number: u32) -> Result<u8, WriteFault>
    ensures is { IfOk result (λ byte. byte ≡ number) }
    ensures fitting { number < 256 → IsOk result }
{
    if number < 256 {
        return Ok(number as u8);
    }
    Err(WriteFault::TooLarge)
}

/// The byte of a region other than the frame.
fn region_byte(region: AbsRegion) -> Result<u8, WriteFault>
    ensures is { IfOk result (λ byte. byte ≡ region_number region) }
    ensures fitting { (maps count : ℕ) → maps ≤ 224 → count ≤ 8 → FitsRegion maps count region →
        IsOk result }
{
    match region {
        AbsRegion::Context => Ok(1),
        AbsRegion::Stack(k) => byte_of(16 + u32::from(k)),
        AbsRegion::Entry(m) => {
            if m < 224 {
                return byte_of(32 + m);
            }
            Err(WriteFault::TooLarge)
        }
    }
}

/// A number and a label.
fn put_place(out: &mut Vec<u8>, offset: AbsNum, label: Option<Label>) -> Result<(), AllocError>
    ensures is { OnOk result
        (out.new.items ≡ out.old.items ++ (number_bytes offset ++ label_bytes label)) }
{
    put_number(out, offset)?;
    put_label(out, label)?;
    Ok(())
}

fn put_two(out: &mut Vec<u8>, first: u8, second: u8) -> Result<(), AllocError>
    ensures is { OnOk result (out.new.items ≡ out.old.items ++ first ∷ second ∷ []) }
{
    out.push(first)?;
    out.push(second)?;
    Ok(())
}

/// A tag, and a number below 256.
fn put_tagged(out: &mut Vec<u8>, tag: u8, number: u32) -> Result<(), WriteFault>
    ensures is { OnOk result (out.new.items ≡ out.old.items ++ tag ∷ number ∷ []) }
    ensures fitting { number < 256 → RefusedForMemoryAlone result }
{
    let byte = byte_of(number)?;
    put_two(out, tag, byte)?;
    Ok(())
}

fn put_value(out: &mut Vec<u8>, value: AbsVal) -> Result<(), WriteFault>
    ensures is { OnOk result (out.new.items ≡ out.old.items ++ value_bytes value) }
    ensures fitting { (maps count : ℕ) → maps ≤ 224 → count ≤ 8 → FitsValue maps count value →
        RefusedForMemoryAlone result }
{
    match value {
        AbsVal::Unset => out.push(0)?,
        AbsVal::Number(number) => {
            out.push(1)?;
            put_number(out, number)?;
        }
        AbsVal::Frame { offset, label } => {
            put_two(out, 2, 0)?;
            put_place(out, offset, label)?;
        }
        AbsVal::Pointer { region, offset } => {
            let byte = region_byte(region)?;
            put_two(out, 2, byte)?;
            put_number(out, offset)?;
        }
        AbsVal::FrameEnd => out.push(3)?,
        AbsVal::MapReference(map) => put_tagged(out, 4, map)?,
        AbsVal::Lookup(map) => put_tagged(out, 5, map)?,
    }
    Ok(())
}

fn put_cell(out: &mut Vec<u8>, cell: AbsSlot) -> Result<(), WriteFault>
    ensures is { OnOk result (out.new.items ≡ out.old.items ++ cell_bytes cell) }
    ensures fitting { (maps count : ℕ) → maps ≤ 224 → count ≤ 8 → FitsCell maps count cell →
        RefusedForMemoryAlone result }
{
    match cell {
        AbsSlot::Unset => out.push(0)?,
        AbsSlot::Stored(value) => put_value(out, value)?,
        AbsSlot::Bytes(set) => put_tagged(out, 6, u32::from(set))?,
    }
    Ok(())
}

fn put_values(out: &mut Vec<u8>, values: &[AbsVal]) -> Result<(), WriteFault>
    ensures is { OnOk result (out.new.items ≡ out.old.items ++ flat_map value_bytes values.now) }
    ensures fitting { (maps count : ℕ) → maps ≤ 224 → count ≤ 8 →
        AllByRecursion (FitsValue maps count) values.now → RefusedForMemoryAlone result }
{
    for value in values {
        put_value(out, *value)?;
    }
    Ok(())
}

fn put_slots(out: &mut Vec<u8>, slots: &[AbsSlot]) -> Result<(), WriteFault>
    ensures is { OnOk result (out.new.items ≡ out.old.items ++ flat_map cell_bytes slots.now) }
    ensures fitting { (maps count : ℕ) → maps ≤ 224 → count ≤ 8 →
        AllByRecursion (FitsCell maps count) slots.now → RefusedForMemoryAlone result }
{
    for slot in slots {
        put_cell(out, *slot)?;
    }
    Ok(())
}

fn put_frame(out: &mut Vec<u8>, frame: &Frame) -> Result<(), WriteFault>
    ensures is { OnOk result (out.new.items ≡ out.old.items ++ frame_bytes frame.now) }
    ensures fitting { (maps count : ℕ) → maps ≤ 224 → count ≤ 8 → FitsFrame maps count frame.now →
        RefusedForMemoryAlone result }
{
    put_u16(out, frame.return_slot)?;
    put_values(out, frame.registers.as_slice())?;
    let slots = frame.stack.all();
    put_slots(out, &slots)?;
    Ok(())
}

fn put_frame_list(out: &mut Vec<u8>, frames: &[Frame]) -> Result<(), WriteFault>
    ensures is { OnOk result (out.new.items ≡ out.old.items ++ flat_map frame_bytes frames.now) }
    ensures fitting { (maps count : ℕ) → maps ≤ 224 → count ≤ 8 →
        AllByRecursion (FitsFrame maps count) frames.now → RefusedForMemoryAlone result }
{
    for frame in frames {
        put_frame(out, frame)?;
    }
    Ok(())
}

fn put_frames(out: &mut Vec<u8>, frames: &[Frame]) -> Result<(), WriteFault>
    ensures is { OnOk result (out.new.items ≡ out.old.items ++ frames_bytes frames.now) }
    ensures fitting { (maps count : ℕ) → maps ≤ 224 → count ≤ 8 → length frames.now ≤ count →
        AllByRecursion (FitsFrame maps count) frames.now → RefusedForMemoryAlone result }
{
    if frames.len() > 255 {
        return Err(WriteFault::TooLarge);
    }
    out.push(frames.len() as u8)?;
    put_frame_list(out, frames)?;
    Ok(())
}

fn put_room_list(out: &mut Vec<u8>, rooms: &[Room]) -> Result<(), AllocError>
    ensures is { OnOk result (out.new.items ≡ out.old.items ++ flat_map room_bytes rooms.now) }
{
    for room in rooms {
        put_u16(out, room.label)?;
        put_u16(out, room.size)?;
    }
    Ok(())
}

fn put_rooms(out: &mut Vec<u8>, rooms: &[Room]) -> Result<(), WriteFault>
    ensures is { OnOk result (out.new.items ≡ out.old.items ++ rooms_bytes rooms.now) }
    ensures fitting { length rooms.now < 2 ^ 16 → RefusedForMemoryAlone result }
{
    if rooms.len() > 65535 {
        return Err(WriteFault::TooLarge);
    }
    put_u16(out, rooms.len() as u16)?;
    put_room_list(out, rooms)?;
    Ok(())
}

fn put_entry(out: &mut Vec<u8>, entry: &Entry) -> Result<(), WriteFault>
    ensures is { OnOk result (out.new.items ≡ out.old.items ++ entry_bytes entry.now) }
    ensures fitting { (maps : ℕ) → maps ≤ 224 → FitsEntry maps entry.now →
        RefusedForMemoryAlone result }
{
    put_u16(out, entry.pc())?;
    put_u32(out, entry.budget())?;
    put_u16(out, entry.least())?;
    put_rooms(out, entry.rooms())?;
    put_frames(out, entry.frames())?;
    Ok(())
}

/// An entry, which is read first if it isn't held as a value.
fn put_leaf(alloc: Global, out: &mut Vec<u8>, leaf: &Leaf) -> Result<(), WriteFault>
    ensures is { OnOk result (out.new.items ≡ out.old.items ++ entry_bytes leaf.now) }
    ensures fitting { (maps : ℕ) → maps ≤ 224 → FitsEntry maps leaf.now →
        RefusedForMemoryAlone result }
{
    match leaf.kind() {
        Kind::Read(entry) => {
            put_entry(out, entry)?;
            return Ok(());
        }
        Kind::Spelled(unread) => {
            let entry = unread.entry(alloc)?;
            put_entry(out, &entry)?;
            return Ok(());
        }
    }
}

fn put_leaf_list(alloc: Global, out: &mut Vec<u8>, leaves: &[Leaf]) -> Result<(), WriteFault>
    ensures is { OnOk result (out.new.items ≡ out.old.items ++ flat_map entry_bytes leaves.now) }
    ensures fitting { (maps : ℕ) → maps ≤ 224 → AllByRecursion (FitsEntry maps) leaves.now →
        RefusedForMemoryAlone result }
{
    for leaf in leaves {
        put_leaf(alloc, out, leaf)?;
    }
    Ok(())
}

fn put_entries(alloc: Global, out: &mut Vec<u8>, leaves: &[Leaf]) -> Result<(), WriteFault>
    ensures is { OnOk result (out.new.items ≡ out.old.items ++ entries_bytes leaves.now) }
    ensures fitting { (maps : ℕ) → maps ≤ 224 → length leaves.now < 2 ^ 32 →
        AllByRecursion (FitsEntry maps) leaves.now → RefusedForMemoryAlone result }
{
    if leaves.len() > 4294967295 {
        return Err(WriteFault::TooLarge);
    }
    put_u32(out, leaves.len() as u32)?;
    put_leaf_list(alloc, out, leaves)?;
    Ok(())
}

fn put_code(out: &mut Vec<u8>, code: &[u8]) -> Result<(), WriteFault>
    ensures is { OnOk result (out.new.items ≡ out.old.items ++ code_bytes code.now) }
    ensures fitting { length code.now < 8 * 2 ^ 16 → RefusedForMemoryAlone result }
{
    let slots = code.len() / 8;
    if slots > 65535 {
        return Err(WriteFault::TooLarge);
    }
    put_u16(out, slots as u16)?;
    out.extend_from_slice(code)?;
    Ok(())
}

/// Writes the only spelling of a certificate.
///
/// `TooLarge`: a number is too large for its field. `Memory`: an allocation failed.
pub fn write(alloc: Global, certificate: &Certificate) -> Result<Vec<u8>, WriteFault>
    // The bytes written are the spelling.
    ensures spelled { IfOk result (λ v. v.items ≡ spelling certificate.now) }
    // A certificate that fits is refused only for lack of memory. The byte of a map's region is 32 plus the map's
    // number, so there are at most 224 maps.
    ensures fitting { (maps : ℕ) → maps ≤ 224 → FitsCertificate maps certificate.now →
        RefusedForMemoryAlone result }
{
    let mut out = Vec::new(alloc);
    out.extend_from_slice(b"APC2")?;
    out.push(certificate.hook().number())?;
    put_code(&mut out, certificate.code())?;
    put_entries(alloc, &mut out, certificate.entries())?;
    Ok(out)
}
