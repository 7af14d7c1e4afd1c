//! Single lines of a script.

ghost use Rattle.std.specs.Prelude.{◌≡◌, ◌++◌, ◌<◌, IfOk, codes};
ghost use Rattle.std.specs.String.{string_bytes};
ghost use Rattle.capture.specs.Radiotap.{bytes_in};
ghost use Rattle.apd_policies.specs.Script.{reason_of, left_out_line, frame_line, frame_lines, packet_lines, tick_line, time_lines, wait_lines, others_line};

use capture::LeftOut;
use std::alloc::{AllocError, Global};
use std::fmt::Write;

/// Why a packet is left out, in words.
fn reason(left_out: LeftOut) -> &'static str
    ensures is { result.now ≡ reason_of left_out }
{
    match left_out {
        LeftOut::Cut => "it was cut when it was captured",
        LeftOut::Radiotap => "its radiotap header is damaged",
        LeftOut::CheckSequence => "its frame check sequence is cut",
        LeftOut::WrongCheckSequence => "its frame check sequence is wrong",
        LeftOut::LinkType(_) =>
            "its link type is neither 105 (802.11) nor 127 (802.11 with radiotap)",
    }
}

fn append_left_out(text: &mut String, number: u64, reason: &str) -> Result<(), AllocError>
    ensures ok { IfOk result
        (λ _. string_bytes text.new ≡ string_bytes text.old ++ left_out_line number reason.now) }
{
    writeln!(text, "# packet {number} is left out: {reason}")?;
    Ok(())
}

fn append_frame(alloc: Global, text: &mut String, frame: &[u8]) -> Result<(), AllocError>
    ensures ok { IfOk result
        (λ _. string_bytes text.new ≡ string_bytes text.old ++ frame_line frame.now) }
{
    let digits = hex::encode(alloc, frame)?;
    writeln!(text, "frame {digits}")?;
    Ok(())
}

/// Appends the line of a frame, or says that it is left out, since it has no bytes or more than 2400.
fn append_bytes(
    alloc: Global,
    text: &mut String,
    number: u64,
    frame: &[u8],
) -> Result<(), AllocError>
    ensures ok { IfOk result
        (λ _. string_bytes text.new ≡ string_bytes text.old ++ frame_lines number frame.now) }
{
    if frame.is_empty() {
        return append_left_out(text, number, "it has no bytes");
    }
    if frame.len() > 2400 {
        return append_left_out(text, number, "it has more than 2400 bytes");
    }
    append_frame(alloc, text, frame)
}

/// Appends the line of a packet: its frame, or why it is left out.
pub(crate) fn append_packet(
    alloc: Global,
    text: &mut String,
    number: u64,
    frame: Result<&[u8], LeftOut>,
) -> Result<(), AllocError>
    ensures ok { IfOk result (λ _. string_bytes text.new
        ≡ string_bytes text.old ++ packet_lines number (bytes_in frame.entry)) }
{
    match frame {
        Ok(frame) => append_bytes(alloc, text, number, frame),
        Err(left_out) => append_left_out(text, number, reason(left_out)),
    }
}

fn append_tick(text: &mut String, units: u64) -> Result<(), AllocError>
    ensures ok { IfOk result
        (λ _. string_bytes text.new ≡ string_bytes text.old ++ tick_line units) }
{
    writeln!(text, "tick {units}")?;
    Ok(())
}

/// Appends `tick N` for the N units from `clock` to a later `now`, at most 4294967295, if `ticks` is set.
pub(crate) fn append_time(
    text: &mut String,
    ticks: bool,
    clock: u64,
    now: u64,
) -> Result<(), AllocError>
    ensures ok { IfOk result
        (λ _. string_bytes text.new ≡ string_bytes text.old ++ time_lines ticks clock now) }
{
    if ticks && clock < now {
        append_tick(text, (now - clock).min(4_294_967_295))?;
    }
    Ok(())
}

/// Appends `wait` after each 1000th packet.
pub(crate) fn append_wait(text: &mut String, number: u64) -> Result<(), AllocError>
    ensures ok { IfOk result
        (λ _. string_bytes text.new ≡ string_bytes text.old ++ wait_lines number) }
{
    if number % 1000 == 0 {
        writeln!(text, "wait")?;
    }
    Ok(())
}

/// Appends how many packets aren't kept, if there are any.
pub(crate) fn append_others(text: &mut String, count: usize) -> Result<(), AllocError>
    ensures ok { IfOk result
        (λ _. string_bytes text.new ≡ string_bytes text.old ++ others_line count) }
{
    if count > 0 {
        writeln!(
            text,
            "# {count} frames that aren't for the access point are left out"
        )?;
    }
    Ok(())
}
