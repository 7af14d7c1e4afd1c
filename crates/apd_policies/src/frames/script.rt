//! The script of a capture.

ghost use Rattle.std.specs.Prelude.{◌≡◌, ◌+◌, ◌<◌, ◌++◌, [], true, false, IfOk, OnOk};
ghost use Rattle.std.specs.String.{string_bytes};
ghost use Rattle.capture.specs.Radiotap.{bytes_in};
ghost use Rattle.capture.specs.Walks.{packets_in};
ghost use Rattle.apd_policies.specs.Chosen.{is_kept};
ghost use Rattle.apd_policies.specs.Script.{start_of, unit_of, kept_lines, clock_after, script_of};

use crate::frames::chosen::{Bssid, count_others, is_kept};
use crate::frames::lines::{append_others, append_packet, append_time, append_wait};
use capture::{LeftOut, Recording, Walk};
use std::alloc::{AllocError, Global};
use std::marker::Model;

/// The unit of 1024 microseconds after the start in which a time lies; 0 if it is earlier or unknown.
pub fn unit(start: u64, time: Option<u64>) -> u64
    ensures is { result ≡ unit_of start time }
{
    match time {
        Some(time) => time.saturating_sub(start) / 1_024_000,
        None => 0,
    }
}

/// How a capture becomes a script: with the time between frames or without, and with all frames or, if an access point
/// is named, those for it.
#[derive(Clone, Copy, Debug, PartialEq, Eq)]
pub struct Manner {
    pub ticks: bool,
    pub bssid: Option<Bssid>,
}

/// A packet with this number comes at the unit `now`; `clock` is the latest unit before.
#[derive(Clone, Copy)]
struct Arrival {
    number: u64,
    clock: u64,
    now: u64,
}

/// Appends the time before a packet and its line, if it is kept; returns the latest unit after that.
fn append_arrival(
    alloc: Global,
    text: &mut String,
    manner: Manner,
    arrival: Arrival,
    frame: Result<&[u8], LeftOut>,
) -> Result<u64, AllocError>
    ensures lines { IfOk result (λ _. string_bytes text.new ≡ string_bytes text.old
        ++ kept_lines (is_kept manner.bssid (bytes_in frame.entry)) manner.ticks arrival.number
        arrival.clock arrival.now (bytes_in frame.entry)) }
    ensures clock { IfOk result (λ clock. clock ≡ clock_after
        (is_kept manner.bssid (bytes_in frame.entry)) arrival.clock arrival.now) }
{
    if is_kept(manner.bssid, frame) {
        append_time(text, manner.ticks, arrival.clock, arrival.now)?;
        append_packet(alloc, text, arrival.number, frame)?;
        return Ok(arrival.clock.max(arrival.now));
    }
    Ok(arrival.clock)
}

/// How long a piece of a script gets before it ends, in bytes.
const PIECE: usize = 1 << 16;

/// The rest of a capture's script: the lines of the packets that are still to come, and the last comment.
#[derive(Drop)]
pub struct ScriptRest<'a> {
    walk: Walk<'a>,
    /// No more packets than this are still to come.
    left: usize,
    manner: Manner,
    start: u64,
    /// How many packets have come.
    done: u64,
    /// The latest unit so far.
    clock: u64,
    /// How many packets aren't kept; 0 after the last comment.
    others: usize,
}

impl<'a> Model for ScriptRest<'a> {
    ghost use Rattle.std.specs.Prelude.{◌≤◌, ◌<◌, ◌^◌, ◌+◌, length};
    ghost use Rattle.apd_policies.specs.Script.{Rest, rest_from};

    ghost Value = { Rest };

    ghost view = { λ s. rest_from s.manner.ticks s.manner.bssid s.start (s.done + 1) s.clock s.walk s.others };

    ghost invariant = { λ s. (length s.walk ≤ s.left) × (s.done + s.left < 2 ^ 64) };
}

impl<'a> ScriptRest<'a> {
    /// The whole script of a capture.
    pub fn new(
        alloc: Global,
        recording: Recording<'a>,
        manner: Manner,
    ) -> Result<ScriptRest<'a>, AllocError>
        ensures whole { IfOk result (λ rest. rest.bytes
            ≡ script_of manner.ticks manner.bssid (packets_in recording.entry.bytes.now)) }
    {
        let start = first_time(alloc, recording)?;
        let others = count_others(alloc, manner.bssid, recording)?;
        Ok(ScriptRest {
            walk: recording.walk(alloc),
            left: recording.count,
            manner,
            start,
            done: 0,
            clock: 0,
            others,
        })
    }

    /// Moves the lines of the next packet to the end of a text, or, after the last one, the last comment. Returns
    /// whether there was a packet.
    pub fn append_next(&mut self, alloc: Global, text: &mut String) -> Result<bool, AllocError>
        ensures moved { OnOk result
            (string_bytes text.new ++ self.new.bytes ≡ string_bytes text.old ++ self.old.bytes) }
        ensures fewer { IfOk result
            (λ more. more ≡ true → self.new.packets + 1 ≡ self.old.packets) }
        ensures last { IfOk result (λ more. more ≡ false → self.new.bytes ≡ []) }
    {
        let Some(packet) = self.walk.next()? else {
            append_others(text, self.others)?;
            self.others = 0;
            return Ok(false);
        };
        let number = self.done + 1;
        let now = unit(self.start, packet.time);
        let clock = self.clock;
        let arrival = Arrival { number, clock, now };
        self.clock = append_arrival(alloc, text, self.manner, arrival, packet.frame)?;
        append_wait(text, number)?;
        self.done = number;
        self.left -= 1;
        Ok(true)
    }

    /// Moves the lines of packets to the end of a text, until it has 65536 bytes or there is no packet left. Returns
    /// whether there may be more to come.
    pub fn append_piece(&mut self, alloc: Global, text: &mut String) -> Result<bool, AllocError>
        ensures moved { OnOk result
            (string_bytes text.new ++ self.new.bytes ≡ string_bytes text.old ++ self.old.bytes) }
        ensures fewer { IfOk result
            (λ more. more ≡ true → self.new.packets < self.old.packets) }
        ensures last { IfOk result (λ more. more ≡ false → self.new.bytes ≡ []) }
    {
        while self.append_next(alloc, text)? {
            if text.len() >= PIECE {
                return Ok(true);
            }
        }
        Ok(false)
    }
}

/// The first known time of a capture, in nanoseconds; 0 if there is none.
pub fn first_time(alloc: Global, recording: Recording<'_>) -> Result<u64, AllocError>
    ensures is { IfOk result (λ time. time ≡ start_of (packets_in recording.entry.bytes.now)) }
{
    let mut walk = recording.walk(alloc);
    while let Some(packet) = walk.next()? {
        if let Some(time) = packet.time {
            return Ok(time);
        }
    }
    Ok(0)
}

/// The packets of a capture as a script: a line `frame HEX` for each frame that is kept, after `tick N` for the units of
/// 1024 microseconds that have passed, if they are wanted; a comment for each packet that has no frame; a line `wait`
/// after each 1000th packet; and a comment that counts the frames that aren't kept. No time passes before a packet whose
/// time is unknown.
pub fn script_text(
    alloc: Global,
    recording: Recording<'_>,
    manner: Manner,
) -> Result<String, AllocError>
    ensures is { IfOk result (λ text. string_bytes text
        ≡ script_of manner.ticks manner.bssid (packets_in recording.entry.bytes.now)) }
{
    let mut rest = ScriptRest::new(alloc, recording, manner)?;
    let mut text = String::new(alloc);
    while rest.append_next(alloc, &mut text)? {}
    Ok(text)
}
