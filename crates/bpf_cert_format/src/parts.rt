//! Reads call frames, bytes known to follow labels, and entries.

ghost use Rattle.std.specs.Prelude.{◌≡◌, ◌<◌, ◌≤◌, ◌++◌, OnOk, IsTrue, length, drop, replicate, slice_index_or, slice_set};
ghost use Rattle.bpf_absval.specs.declared.slot.AbsSlot.TheVariants.{Unset};
ghost use Rattle.bpf_cert_format.specs.Answers.{Gives};
ghost use Rattle.bpf_cert_format.specs.Reading.{many, value_at as reads_value, cell_at as reads_cell, frame_at as reads_frame, frames_at as reads_frames, is_main_first as begins_with_main, room_at as reads_room, rooms_at as reads_rooms, entry_at as reads_entry, are_rising as rise};

use crate::entry::Entry;
use crate::fault::ReadFault;
use crate::fields::{byte_at, u16_at, u32_at};
use crate::frame::{Frame, Registers};
use crate::slots::Slots;
use crate::values::{cell_at, value_at};
use bpf_absval::{AbsSlot, AbsVal, Room};
use std::alloc::{AllocError, Global};

/// What R0 to R9 may hold.
fn registers_at(maps: usize, frames: usize, bytes: &[u8]) -> Result<(Registers, &[u8]), ReadFault>
    requires few_maps { maps ≤ 16 }
    requires few_frames { frames ≤ 8 }
    ensures is { Gives (λ x. (x.0, x.1.now)) result (many (reads_value maps frames) 10 bytes.now) }
{
    let mut values = [AbsVal::Unset; 10];
    let mut rest = bytes;
    for number in 0..10 {
        match value_at(maps, frames, rest) {
            Err(fault) => return Err(fault),
            Ok((value, after)) => {
                values[number] = value;
                rest = after;
            }
        }
    }
    Ok((Registers::new(values), rest))
}

/// Sets a slot that is unset so far.
fn put_cell(stack: &mut Slots, index: usize, cell: AbsSlot) -> Result<(), AllocError>
    requires inside { index < 64 }
    requires unset { slice_index_or stack.old index Unset ≡ Unset }
    ensures is { OnOk result (stack.new ≡ slice_set stack.old index cell) }
{
    if matches!(cell, AbsSlot::Unset) {
        return Ok(());
    }
    stack.set(index, cell)?;
    Ok(())
}

/// What the 64 slots of a stack may hold.
fn stack_at(
    alloc: Global,
    maps: usize,
    frames: usize,
    bytes: &[u8],
) -> Result<(Slots, &[u8]), ReadFault>
    requires few_maps { maps ≤ 16 }
    requires few_frames { frames ≤ 8 }
    ensures is { Gives (λ x. (x.0, x.1.now)) result (many (reads_cell maps frames) 64 bytes.now) }
{
    let mut stack = Slots::unset(alloc);
    let mut rest = bytes;
    for index in 0..64 {
        match cell_at(maps, frames, rest) {
            Err(fault) => return Err(fault),
            Ok((cell, after)) => {
                put_cell(&mut stack, index, cell)?;
                rest = after;
            }
        }
    }
    Ok((stack, rest))
}

/// True only if the first 64 bytes are 0: a stack of which nothing is known.
fn begins_unset(bytes: &[u8]) -> bool
    requires whole { 64 ≤ length bytes.now }
    ensures is { IsTrue result → bytes.now ≡ replicate 64 0 ++ drop 64 bytes.now }
{
    for index in 0..64 {
        if bytes[index] != 0 {
            return false;
        }
    }
    true
}

/// Like `stack_at`, with a shortcut for a stack of which nothing is known.
fn any_stack_at(
    alloc: Global,
    maps: usize,
    frames: usize,
    bytes: &[u8],
) -> Result<(Slots, &[u8]), ReadFault>
    requires few_maps { maps ≤ 16 }
    requires few_frames { frames ≤ 8 }
    ensures is { Gives (λ x. (x.0, x.1.now)) result (many (reads_cell maps frames) 64 bytes.now) }
{
    if bytes.len() >= 64 && begins_unset(bytes) {
        let (_, rest) = bytes.split_at(64);
        return Ok((Slots::unset(alloc), rest));
    }
    match stack_at(alloc, maps, frames, bytes) {
        Err(fault) => Err(fault),
        Ok((stack, rest)) => Ok((stack, rest)),
    }
}

/// One of `frames` call frames.
#[tactic(auto, unfolding(crate::specs::Reading::frame_at))]
fn frame_at(
    alloc: Global,
    maps: usize,
    frames: usize,
    bytes: &[u8],
) -> Result<(Frame, &[u8]), ReadFault>
    requires few_maps { maps ≤ 16 }
    requires few_frames { frames ≤ 8 }
    ensures is { Gives (λ x. (x.0, x.1.now)) result (reads_frame maps frames bytes.now) }
{
    let (return_slot, rest) = u16_at(bytes)?;
    match registers_at(maps, frames, rest) {
        Err(fault) => Err(fault),
        Ok((registers, rest)) => match any_stack_at(alloc, maps, frames, rest) {
            Err(fault) => Err(fault),
            Ok((stack, rest)) => {
                let frame = Frame {
                    return_slot,
                    registers,
                    stack,
                };
                Ok((frame, rest))
            }
        },
    }
}

/// `frames` call frames.
fn frame_list_at(
    alloc: Global,
    maps: usize,
    frames: usize,
    bytes: &[u8],
) -> Result<(Vec<Frame>, &[u8]), ReadFault>
    requires few_maps { maps ≤ 16 }
    requires few_frames { frames ≤ 8 }
    ensures is { Gives (λ x. (x.0.items, x.1.now)) result
        (many (reads_frame maps frames) frames bytes.now) }
{
    let mut list = Vec::with_capacity(alloc, frames)?;
    let mut rest = bytes;
    for _ in 0..frames {
        match frame_at(alloc, maps, frames, rest) {
            Err(fault) => return Err(fault),
            Ok((frame, after)) => {
                list.push(frame)?;
                rest = after;
            }
        }
    }
    Ok((list, rest))
}

/// Whether the main function's frame, which has return slot 0, comes first.
fn is_main_first(frames: &[Frame]) -> bool
    ensures is { result ≡ begins_with_main frames.now }
{
    match frames {
        [] => false,
        [main, ..] => main.return_slot == 0,
    }
}

/// One to eight call frames, the main function's first.
#[tactic(auto, unfolding(crate::specs::Reading::frames_at))]
fn frames_at(alloc: Global, maps: usize, bytes: &[u8]) -> Result<(Vec<Frame>, &[u8]), ReadFault>
    requires few_maps { maps ≤ 16 }
    ensures is { Gives (λ x. (x.0.items, x.1.now)) result (reads_frames maps bytes.now) }
{
    let (count, rest) = byte_at(bytes)?;
    if count < 1 || count > 8 {
        return Err(ReadFault::Malformed);
    }
    match frame_list_at(alloc, maps, count as usize, rest) {
        Err(fault) => Err(fault),
        Ok((frames, rest)) => {
            if !is_main_first(&frames) {
                return Err(ReadFault::Malformed);
            }
            Ok((frames, rest))
        }
    }
}

/// A label, and how many bytes are known to follow it.
#[tactic(auto, unfolding(crate::specs::Reading::room_at))]
fn room_at(bytes: &[u8]) -> Result<(Room, &[u8]), ReadFault>
    ensures is { Gives (λ x. (x.0, x.1.now)) result (reads_room bytes.now) }
{
    let (label, rest) = u16_at(bytes)?;
    let (size, rest) = u16_at(rest)?;
    Ok((Room { label, size }, rest))
}

/// `count` of these.
fn room_list_at(alloc: Global, count: u16, bytes: &[u8]) -> Result<(Vec<Room>, &[u8]), ReadFault>
    ensures is { Gives (λ x. (x.0.items, x.1.now)) result (many reads_room count bytes.now) }
{
    let mut list = Vec::new(alloc);
    let mut rest = bytes;
    for _ in 0..count {
        let (room, after) = room_at(rest)?;
        list.push(room)?;
        rest = after;
    }
    Ok((list, rest))
}

/// Whether labels rise from 1 on, and each is followed by at most 2400 known bytes.
fn are_rising(rooms: &[Room]) -> bool
    ensures is { result ≡ rise 0 rooms.now }
{
    let mut above = 0;
    for room in rooms {
        if room.label <= above || room.size > 2400 {
            return false;
        }
        above = room.label;
    }
    true
}

/// The bytes known to follow labels.
#[tactic(auto, unfolding(crate::specs::Reading::rooms_at))]
fn rooms_at(alloc: Global, bytes: &[u8]) -> Result<(Vec<Room>, &[u8]), ReadFault>
    ensures is { Gives (λ x. (x.0.items, x.1.now)) result (reads_rooms bytes.now) }
{
    let (count, rest) = u16_at(bytes)?;
    let (rooms, rest) = room_list_at(alloc, count, rest)?;
    if !are_rising(&rooms) {
        return Err(ReadFault::Malformed);
    }
    Ok((rooms, rest))
}

/// An entry.
#[tactic(auto, unfolding(crate::specs::Reading::entry_at))]
pub(crate) fn entry_at(
    alloc: Global,
    maps: usize,
    bytes: &[u8],
) -> Result<(Entry, &[u8]), ReadFault>
    requires few_maps { maps ≤ 16 }
    ensures is { Gives (λ x. (x.0, x.1.now)) result (reads_entry maps bytes.now) }
{
    let (pc, rest) = u16_at(bytes)?;
    let (budget, rest) = u32_at(rest)?;
    let (least, rest) = u16_at(rest)?;
    let (rooms, rest) = rooms_at(alloc, rest)?;
    match frames_at(alloc, maps, rest) {
        Err(fault) => Err(fault),
        Ok((frames, rest)) => Ok((Entry::new(pc, budget, least, rooms, frames), rest)),
    }
}
