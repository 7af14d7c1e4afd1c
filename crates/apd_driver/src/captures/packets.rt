//! The packets of a run's lines, as blocks of a capture.

ghost use Rattle.std.specs.Prelude.{◌≡◌, ◌≤◌, ◌++◌, IfOk, OnOk, length};
ghost use Rattle.std.specs.List.{flat_map};
ghost use Rattle.std.specs.String.{string_bytes};
ghost use Rattle.capture.specs.Writing.{blocks_of};
ghost use Rattle.apd_driver.specs.Capturing.{any_dropped, is_dropped, line_comment, line_packets, out_packets, received, received_comment, report_packets, time_after, time_after_all, told_packets, up_comment, up_to};

use crate::captures::ethernet::ethernet;
use crate::{Report, Told};
use ap_model::{Out, Up};
use apd_script::{Command, Numbered};
use capture::{NewPacket, Side, append_packet};
use std::alloc::{AllocError, Global};

/// Nanoseconds of a unit of time.
const UNIT: u64 = 1_024_000;

/// The time after a command.
pub(crate) fn time_after(time: u64, command: &Command<'_>) -> u64
    ensures is { result ≡ time_after time command.now }
{
    match *command {
        Command::Tick(units) => time.saturating_add(u64::from(units) * UNIT),
        Command::Frame(_)
        | Command::Kick { .. }
        | Command::Close { .. }
        | Command::Load { .. }
        | Command::Unload(_)
        | Command::Adopt { .. }
        | Command::Store { .. }
        | Command::Read(_)
        | Command::Sum(_)
        | Command::Wait => time,
    }
}

/// The time after commands.
pub(crate) fn time_after_all(time: u64, commands: &[Numbered<'_>]) -> u64
    ensures is { result ≡ time_after_all time commands.now }
{
    let mut now = time;
    for numbered in commands {
        now = time_after(now, &numbered.command);
    }
    now
}

/// How many of the first reports are on lines up to this one.
pub(crate) fn up_to(line: u64, reports: &[Report]) -> usize
    ensures is { result ≡ up_to line reports.now }
    ensures within { result ≤ length reports.now }
{
    let mut count = 0;
    'reports: while count < reports.len() {
        if reports[count].line > line {
            return count;
        }
        count += 1;
    }
    count
}

fn is_dropped(told: &Told) -> bool
    ensures is { result ≡ is_dropped told.now }
{
    matches!(
        told,
        Told::Handled {
            dropped: Some(_),
            ..
        }
    )
}

fn any_dropped(reports: &[Report]) -> bool
    ensures is { result ≡ any_dropped reports.now }
{
    reports.iter().any(|report| is_dropped(&report.told))
}

fn line_comment(alloc: Global, line: u64) -> Result<String, AllocError>
    ensures is { IfOk result (λ text. string_bytes text ≡ line_comment line) }
{
    format!(in alloc; "line {line}")
}

fn received_comment(alloc: Global, line: u64, dropped: bool) -> Result<String, AllocError>
    ensures is { IfOk result (λ text. string_bytes text ≡ received_comment line dropped) }
{
    if dropped {
        return format!(in alloc; "line {line} drop");
    }
    line_comment(alloc, line)
}

fn up_comment(alloc: Global, line: u64, mark: u8) -> Result<String, AllocError>
    ensures is { IfOk result (λ text. string_bytes text ≡ up_comment line mark) }
{
    format!(in alloc; "line {line} mark {mark}")
}

/// Appends the packet of a command's frame, if it has one.
fn append_received(
    alloc: Global,
    blocks: &mut Vec<u8>,
    time: u64,
    numbered: &Numbered<'_>,
    dropped: bool,
) -> Result<(), AllocError>
    ensures ok { OnOk result (blocks.new.items ≡ blocks.old.items
        ++ blocks_of (received time numbered.now.line dropped numbered.now.command)) }
{
    match numbered.command {
        Command::Frame(text) => {
            let frame = text.bytes(alloc)?;
            let comment = received_comment(alloc, numbered.line, dropped)?;
            let packet = NewPacket {
                side: Side::In,
                time,
                bytes: frame.as_slice(),
                comment: comment.as_bytes(),
            };
            append_packet(alloc, blocks, packet)
        }
        Command::Tick(_)
        | Command::Kick { .. }
        | Command::Close { .. }
        | Command::Load { .. }
        | Command::Unload(_)
        | Command::Adopt { .. }
        | Command::Store { .. }
        | Command::Read(_)
        | Command::Sum(_)
        | Command::Wait => Ok(()),
    }
}

/// Appends the packet of a frame that is sent.
fn append_sent(
    alloc: Global,
    blocks: &mut Vec<u8>,
    time: u64,
    line: u64,
    frame: &[u8],
) -> Result<(), AllocError>
    ensures ok { OnOk result (blocks.new.items ≡ blocks.old.items
        ++ blocks_of (out_packets time line (Out.Send frame.now))) }
{
    let comment = line_comment(alloc, line)?;
    let packet = NewPacket {
        side: Side::Out,
        time,
        bytes: frame,
        comment: comment.as_bytes(),
    };
    append_packet(alloc, blocks, packet)
}

/// Appends the packet of data that is passed up.
fn append_up(
    alloc: Global,
    blocks: &mut Vec<u8>,
    time: u64,
    line: u64,
    up: &Up,
) -> Result<(), AllocError>
    ensures ok { OnOk result (blocks.new.items ≡ blocks.old.items
        ++ blocks_of (out_packets time line (Out.Up up.now))) }
{
    let frame = ethernet(alloc, up)?;
    let comment = up_comment(alloc, line, up.mark)?;
    let packet = NewPacket {
        side: Side::Up,
        time,
        bytes: frame.as_slice(),
        comment: comment.as_bytes(),
    };
    append_packet(alloc, blocks, packet)
}

fn append_out(
    alloc: Global,
    blocks: &mut Vec<u8>,
    time: u64,
    line: u64,
    out: &Out,
) -> Result<(), AllocError>
    ensures ok { OnOk result (blocks.new.items ≡ blocks.old.items
        ++ blocks_of (out_packets time line out.now)) }
{
    match out {
        Out::Send(frame) => append_sent(alloc, blocks, time, line, frame.bytes()),
        Out::Up(up) => append_up(alloc, blocks, time, line, up),
        Out::Note(_) => Ok(()),
    }
}

fn append_outs(
    alloc: Global,
    blocks: &mut Vec<u8>,
    time: u64,
    line: u64,
    outs: &[Out],
) -> Result<(), AllocError>
    ensures ok { OnOk result (blocks.new.items ≡ blocks.old.items
        ++ blocks_of (flat_map (out_packets time line) outs.now)) }
{
    for out in outs {
        append_out(alloc, blocks, time, line, out)?;
    }
    Ok(())
}

/// Appends the packets of a report.
fn append_report(
    alloc: Global,
    blocks: &mut Vec<u8>,
    time: u64,
    report: &Report,
) -> Result<(), AllocError>
    ensures ok { OnOk result (blocks.new.items ≡ blocks.old.items
        ++ blocks_of (report_packets time report.now)) }
{
    match &report.told {
        Told::Handled { outs, .. } => {
            append_outs(alloc, blocks, time, report.line, outs.as_slice())
        }
        Told::Memory
        | Told::Loaded { .. }
        | Told::Fault(_)
        | Told::Refused { .. }
        | Told::Certificate { .. }
        | Told::Unreadable(_)
        | Told::Word { .. }
        | Told::Malformed { .. } => Ok(()),
    }
}

fn append_reports(
    alloc: Global,
    blocks: &mut Vec<u8>,
    time: u64,
    reports: &[Report],
) -> Result<(), AllocError>
    ensures ok { OnOk result (blocks.new.items ≡ blocks.old.items
        ++ blocks_of (flat_map (report_packets time) reports.now)) }
{
    for report in reports {
        append_report(alloc, blocks, time, report)?;
    }
    Ok(())
}

/// Appends the packets of a command at its time, in nanoseconds since the start, and of the reports on its line.
pub(crate) fn append_line(
    alloc: Global,
    blocks: &mut Vec<u8>,
    time: u64,
    numbered: &Numbered<'_>,
    reports: &[Report],
) -> Result<(), AllocError>
    ensures ok { OnOk result (blocks.new.items ≡ blocks.old.items
        ++ blocks_of (line_packets time numbered.now reports.now)) }
{
    append_received(alloc, blocks, time, numbered, any_dropped(reports))?;
    append_reports(alloc, blocks, time, reports)
}
