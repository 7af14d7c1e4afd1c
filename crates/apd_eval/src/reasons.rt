//! Why packets of a capture weren't judged.

ghost use Rattle.std.specs.Prelude.{◌≡◌, ◌≤◌, ◌-◌, ◌^◌, IfOk, slice_index_or, string_bytes, if◌then◌else◌};
ghost use Rattle.capture.specs.Radiotap.{bytes_in};
ghost use Rattle.capture.specs.Walks.{packets_in};
ghost use Rattle.apd_eval.specs.Unjudged.{octet, is_judged, is_for, is_encrypted, reason_of, is_same, no_packets, with_packet, AreAtMost, other_kind, reasons_of, separator, with_part, parts_behind, parts_text, colon, none_line, others_line, lonely_line, none_text, json_reasons};

use crate::follow::{Replay, is_received};
use bpf_regions::Hook;
use capture::LeftOut;
use std::alloc::{AllocError, Global};
use std::fmt::Write;

/// Why a packet wasn't judged.
#[derive(Clone, Copy)]
pub enum Reason {
    /// The capture has no frame of 1 to 2400 bytes.
    NoFrame,
    /// The frame isn't of the kind that the hook judges.
    OtherKind,
    /// Its receiver has another address than the access point.
    OtherReceiver,
    Encrypted,
    /// The access point refused it by itself: the station is not associated, say, or asks for another network.
    Unasked,
}

/// How many packets weren't judged, for each reason.
#[derive(Clone, Copy)]
pub struct Reasons {
    pub missing: usize,
    pub other: usize,
    pub elsewhere: usize,
    pub encrypted: usize,
    /// Refused before any program.
    pub refused: usize,
    /// How many requests for an association were received, judged or not.
    pub requests: usize,
}

impl Reason {
    fn is_same(self, other: Reason) -> bool
        ensures is { result ≡ is_same self other }
    {
        match (self, other) {
            (Reason::NoFrame, Reason::NoFrame) => true,
            (Reason::OtherKind, Reason::OtherKind) => true,
            (Reason::OtherReceiver, Reason::OtherReceiver) => true,
            (Reason::Encrypted, Reason::Encrypted) => true,
            (Reason::Unasked, Reason::Unasked) => true,
            _ => false,
        }
    }
}

/// 1 if a test holds, otherwise 0.
fn one_if(test: bool) -> usize
    ensures is { result ≡ (if test then 1 else 0) }
    ensures few { result ≤ 1 }
{
    if test { 1 } else { 0 }
}

impl Reasons {
    /// Of no packets.
    fn none() -> Reasons
        ensures is { result ≡ no_packets }
    {
        Reasons {
            missing: 0,
            other: 0,
            elsewhere: 0,
            encrypted: 0,
            refused: 0,
            requests: 0,
        }
    }

    /// The same with one more packet, which wasn't judged for this reason, and by the hook of associations for that.
    fn with(self, reason: Reason, at_association: Reason) -> Reasons
        requires room { AreAtMost (2 ^ 64 - 2) self }
        ensures is { result ≡ with_packet self reason at_association }
    {
        Reasons {
            missing: self.missing + one_if(reason.is_same(Reason::NoFrame)),
            other: self.other + one_if(reason.is_same(Reason::OtherKind)),
            elsewhere: self.elsewhere + one_if(reason.is_same(Reason::OtherReceiver)),
            encrypted: self.encrypted + one_if(reason.is_same(Reason::Encrypted)),
            refused: self.refused + one_if(reason.is_same(Reason::Unasked)),
            requests: self.requests + one_if(at_association.is_same(Reason::Unasked)),
        }
    }
}

/// The frames that a hook doesn't judge.
fn other_kind(hook: Hook) -> &'static str
    ensures is { result.now ≡ other_kind hook }
{
    match hook {
        Hook::Association => "no association request",
        Hook::Addba => "no ADDBA request",
        Hook::Data => "not data",
    }
}

/// The octet at an index, or 0 past the end.
fn octet(bytes: &[u8], at: usize) -> u8
    ensures is { result ≡ octet bytes.now at }
{
    match bytes.get(at) {
        Some(octet) => *octet,
        None => 0,
    }
}

/// Whether the hook judges frames of this kind: by type and subtype in the first octet, of an action frame also by
/// category and action (IEEE 802.11-2016, 9.2.4.1.3, 9.6.5.2). Data without a body isn't judged.
fn is_judged(hook: Hook, bytes: &[u8]) -> bool
    ensures is { result ≡ is_judged hook bytes.now }
{
    let first = octet(bytes, 0);
    match hook {
        Hook::Association => first == 0x00 || first == 0x20,
        Hook::Addba => {
            first == 0xd0 && 26 <= bytes.len() && octet(bytes, 24) == 3 && octet(bytes, 25) == 0
        }
        Hook::Data => first % 4 == 0 && first / 4 % 4 == 2 && first / 64 % 2 == 0,
    }
}

/// Whether the frame's receiver has this address, in octets 4 to 9.
fn is_for(address: [u8; 6], bytes: &[u8]) -> bool
    ensures is { result ≡ is_for address bytes.now }
{
    10 <= bytes.len() && bytes[4..10] == address[..]
}

/// Whether the flag Protected Frame is set, in the second octet (9.2.4.1.9).
fn is_encrypted(bytes: &[u8]) -> bool
    ensures is { result ≡ is_encrypted bytes.now }
{
    octet(bytes, 1) / 64 % 2 == 1
}

/// The first reason for which a frame wasn't judged by this hook of an access point with this address.
fn reason_of(hook: Hook, address: [u8; 6], frame: Result<&[u8], LeftOut>) -> Reason
    ensures is { result ≡ reason_of hook address (bytes_in frame.entry) }
{
    match frame {
        Err(_) => Reason::NoFrame,
        Ok(bytes) => {
            if !is_received(bytes) {
                Reason::NoFrame
            } else if !is_judged(hook, bytes) {
                Reason::OtherKind
            } else if !is_for(address, bytes) {
                Reason::OtherReceiver
            } else if is_encrypted(bytes) {
                Reason::Encrypted
            } else {
                Reason::Unasked
            }
        }
    }
}

/// How many packets weren't judged for each reason, if this many were.
pub(crate) fn reasons_of(
    alloc: Global,
    hook: Hook,
    replay: Replay<'_>,
    judged: usize,
) -> Result<Reasons, AllocError>
    ensures is { IfOk result (λ reasons. reasons ≡ reasons_of hook replay.entry.link.now.bssid
        (packets_in replay.entry.recording.bytes.now) judged) }
{
    let address = replay.link.bssid().octets();
    let mut passed = Reasons::none();
    let mut walk = replay.recording.walk(alloc);
    while let Some(packet) = walk.next()? {
        let reason = reason_of(hook, address, packet.frame);
        let at_association = reason_of(Hook::Association, address, packet.frame);
        passed = passed.with(reason, at_association);
    }
    let refused = passed.refused.saturating_sub(judged);
    Ok(Reasons { refused, ..passed })
}

/// What separates a list so far from its next part.
fn separator(text: &str) -> &'static str
    ensures is { result.now ≡ separator text.now }
{
    if text.is_empty() { "" } else { ", " }
}

/// Appends a part to a list, if the part counts anything.
#[tactic(auto, unfolding(crate::specs::Unjudged::with_part))]
fn append_part(text: &mut String, count: usize, what: &str) -> Result<(), AllocError>
    ensures ok { IfOk result
        (λ _. string_bytes text.new ≡ with_part (string_bytes text.old) count what.now) }
{
    if count == 0 {
        return Ok(());
    }
    let separator = separator(text.as_str());
    write!(text, "{separator}{count} {what}")?;
    Ok(())
}

/// Appends the reasons that apply, with how many packets each.
fn append_parts(text: &mut String, hook: Hook, reasons: Reasons) -> Result<(), AllocError>
    ensures ok { IfOk result
        (λ _. string_bytes text.new ≡ parts_behind (string_bytes text.old) hook reasons) }
{
    append_part(text, reasons.missing, "without a frame")?;
    append_part(text, reasons.other, other_kind(hook))?;
    append_part(text, reasons.elsewhere, "to another address")?;
    append_part(text, reasons.encrypted, "encrypted")?;
    append_part(text, reasons.refused, "refused before any program")?;
    Ok(())
}

/// The list of the reasons that apply, with how many packets each.
fn parts_text(alloc: Global, hook: Hook, reasons: Reasons) -> Result<String, AllocError>
    ensures is { IfOk result (λ text. string_bytes text ≡ parts_text hook reasons) }
{
    let mut text = String::new(alloc);
    append_parts(&mut text, hook, reasons)?;
    Ok(text)
}

/// What stands before a list, if it isn't empty.
fn colon(parts: &str) -> &'static str
    ensures is { result.now ≡ colon parts.now }
{
    if parts.is_empty() { "" } else { ": " }
}

/// The line of sums of a table without rows.
fn none_line(alloc: Global, packets: usize, parts: &str) -> Result<String, AllocError>
    ensures is { IfOk result (λ text. string_bytes text ≡ none_line packets parts.now) }
{
    let colon = colon(parts);
    format!(in alloc; "judged 0 of {packets} packets{colon}{parts}\n")
}

/// The line below the sums of a table with rows, if some packets weren't judged.
fn others_line(alloc: Global, parts: &str) -> Result<String, AllocError>
    ensures is { IfOk result (λ text. string_bytes text ≡ others_line parts.now) }
{
    if parts.is_empty() {
        return Ok(String::new(alloc));
    }
    format!(in alloc; "not judged: {parts}\n")
}

/// What is said if frames were refused, and no request for an association was received.
fn lonely_line(reasons: Reasons) -> &'static str
    ensures is { result.now ≡ lonely_line reasons }
{
    if reasons.requests == 0 && 0 < reasons.refused {
        "no station associates in this capture, and frames of a station that is not associated come to no program\n"
    } else {
        ""
    }
}

/// The sums of a table without rows.
pub(crate) fn none_text(alloc: Global, hook: Hook, replay: Replay<'_>) -> Result<String, AllocError>
    ensures is { IfOk result (λ text. string_bytes text ≡ none_text hook
        replay.entry.link.now.bssid (packets_in replay.entry.recording.bytes.now)) }
{
    let reasons = reasons_of(alloc, hook, replay, 0)?;
    let parts = parts_text(alloc, hook, reasons)?;
    let mut text = none_line(alloc, replay.count(), parts.as_str())?;
    text.push_str(lonely_line(reasons))?;
    Ok(text)
}

/// Which packets weren't judged, as a line below the sums; no text if all were.
pub(crate) fn others_text(alloc: Global, hook: Hook, reasons: Reasons) -> Result<String, AllocError>
    ensures is { IfOk result
        (λ text. string_bytes text ≡ others_line (parts_text hook reasons)) }
{
    let parts = parts_text(alloc, hook, reasons)?;
    others_line(alloc, parts.as_str())
}

/// The same counts in JSON, as the end of an object.
pub(crate) fn json_reasons(alloc: Global, reasons: Reasons) -> Result<String, AllocError>
    ensures is { IfOk result (λ text. string_bytes text ≡ json_reasons reasons) }
{
    let Reasons {
        missing,
        other,
        elsewhere,
        encrypted,
        refused,
        ..
    } = reasons;
    format!(in alloc;
        ",\"not_judged\":{{\"without_frame\":{missing},\"other_kind\":{other},\"other_address\":{elsewhere},\"encrypted\":{encrypted},\"refused\":{refused}}}}}\n"
    )
}
