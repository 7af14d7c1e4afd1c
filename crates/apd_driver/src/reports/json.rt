//! Outputs as JSON, one object a line.

ghost use Rattle.std.specs.Prelude.{◌≡◌, ◌++◌, IfOk, Some, string_bytes, codes};
ghost use Rattle.hex.specs.Hex.{encode_lower};
ghost use Rattle.apd_driver.specs.Json.{addresses_members, drop_json, json_line, loaded_members, note_members, numbers_members, out_members, outs_json, send_members, sent_members, tid_value, up_members};

use crate::reports::notice::{DropMembers, Dropped, Members, notice_of};
use crate::reports::words::{append, append_shown};
use ap_model::{Out, Up};
use mac_types::Tid;
use std::alloc::{AllocError, Global};
use std::fmt;

/// A TID, or `null`.
#[derive(Clone, Copy)]
struct TidValue(Option<Tid>);

impl fmt::Display for TidValue {
    ghost output = { λ t. Some (tid_value t.0) };

    fn fmt<W: fmt::Write>(&self, f: &mut fmt::Formatter<W>) -> fmt::Result {
        match self.0 {
            None => write!(f, "null"),
            Some(tid) => write!(f, "{tid}"),
        }
    }
}

/// A frame that means nothing else to its station, as members.
fn send_members(alloc: Global, frame: &[u8]) -> Result<String, AllocError>
    ensures is { IfOk result (λ text. string_bytes text ≡ send_members frame.now) }
{
    let digits = hex::encode(alloc, frame)?;
    format!(in alloc; "\"event\":\"send\",\"frame\":\"{digits}\"")
}

/// A frame as members.
fn sent_members(alloc: Global, frame: &[u8]) -> Result<String, AllocError>
    ensures is { IfOk result (λ text. string_bytes text ≡ sent_members frame.now) }
{
    match notice_of(frame) {
        Some(notice) => format!(in alloc; "{}", Members(notice)),
        None => send_members(alloc, frame),
    }
}

/// Whom data comes from, and whom it goes to, as members.
#[derive(Clone, Copy)]
struct Addresses<'a>(&'a Up);

impl fmt::Display for Addresses<'_> {
    ghost output = { λ a. Some (addresses_members a.0.now) };

    fn fmt<W: fmt::Write>(&self, f: &mut fmt::Formatter<W>) -> fmt::Result {
        let source = self.0.source;
        let destination = self.0.destination;
        write!(
            f,
            "\"source\":\"{source}\",\"destination\":\"{destination}\""
        )
    }
}

/// The TID, the number and the mark of data, as members.
#[derive(Clone, Copy)]
struct Numbers<'a>(&'a Up);

impl fmt::Display for Numbers<'_> {
    ghost output = { λ n. Some (numbers_members n.0.now) };

    fn fmt<W: fmt::Write>(&self, f: &mut fmt::Formatter<W>) -> fmt::Result {
        let tid = TidValue(self.0.tid);
        let number = self.0.number;
        let mark = self.0.mark;
        write!(f, "\"tid\":{tid},\"number\":{number},\"mark\":{mark}")
    }
}

/// Data that is passed up, as members.
fn up_members(alloc: Global, up: &Up) -> Result<String, AllocError>
    ensures is { IfOk result (λ text. string_bytes text ≡ up_members up.now) }
{
    let body = hex::encode(alloc, up.body.bytes())?;
    let addresses = Addresses(up);
    let numbers = Numbers(up);
    format!(in alloc; "\"event\":\"up\",{addresses},{numbers},\"body\":\"{body}\"")
}

/// A note as members.
fn note_members(alloc: Global, note: u8) -> Result<String, AllocError>
    ensures is { IfOk result (λ text. string_bytes text ≡ note_members note) }
{
    format!(in alloc; "\"event\":\"note\",\"number\":{note}")
}

/// An output as members.
fn out_members(alloc: Global, out: &Out) -> Result<String, AllocError>
    ensures is { IfOk result (λ text. string_bytes text ≡ out_members out.now) }
{
    match out {
        Out::Send(frame) => sent_members(alloc, frame.bytes()),
        Out::Up(up) => up_members(alloc, up),
        Out::Note(note) => note_members(alloc, *note),
    }
}

/// Appends the object of a line with these members.
fn append_object(text: &mut Vec<u8>, line: u64, members: &str) -> Result<(), AllocError>
    ensures ok { IfOk result (λ _. text.new.items ≡ text.old.items
        ++ json_line line members.now) }
{
    append(text, "{\"line\":")?;
    append_shown(text, format_args!("{line},{members}"))?;
    append(text, "}\n")?;
    Ok(())
}

fn append_out_json(
    alloc: Global,
    text: &mut Vec<u8>,
    line: u64,
    out: &Out,
) -> Result<(), AllocError>
    ensures ok { IfOk result (λ _. text.new.items ≡ text.old.items
        ++ json_line line (out_members out.now)) }
{
    let members = out_members(alloc, out)?;
    append_object(text, line, members.as_str())
}

/// Appends an object for each output.
pub(crate) fn append_outs_json(
    alloc: Global,
    text: &mut Vec<u8>,
    line: u64,
    outs: &[Out],
) -> Result<(), AllocError>
    ensures ok { IfOk result (λ _. text.new.items ≡ text.old.items
        ++ outs_json line outs.now) }
{
    for out in outs {
        append_out_json(alloc, text, line, out)?;
    }
    Ok(())
}

/// Appends an object if data was dropped.
pub(crate) fn append_drop_json(
    text: &mut Vec<u8>,
    line: u64,
    dropped: Option<Dropped>,
) -> Result<(), AllocError>
    ensures ok { IfOk result (λ _. text.new.items ≡ text.old.items
        ++ drop_json line dropped) }
{
    if let Some(dropped) = dropped {
        append(text, "{\"line\":")?;
        append_shown(text, format_args!("{line},{}", DropMembers(dropped)))?;
        append(text, "}\n")?;
    }
    Ok(())
}

/// The members of a program that is in force, with its budget.
#[derive(Clone, Copy)]
struct Loaded(u32);

impl fmt::Display for Loaded {
    ghost output = { λ loaded. Some (loaded_members loaded.0) };

    fn fmt<W: fmt::Write>(&self, f: &mut fmt::Formatter<W>) -> fmt::Result {
        write!(f, "\"event\":\"loaded\",\"budget\":{}", self.0)
    }
}

/// Appends the object of a program that is in force.
pub(crate) fn append_loaded_json(
    text: &mut Vec<u8>,
    line: u64,
    budget: u32,
) -> Result<(), AllocError>
    ensures ok { IfOk result (λ _. text.new.items ≡ text.old.items
        ++ json_line line (loaded_members budget)) }
{
    append(text, "{\"line\":")?;
    append_shown(text, format_args!("{line},{}", Loaded(budget)))?;
    append(text, "}\n")?;
    Ok(())
}
