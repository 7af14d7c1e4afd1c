//! Reports as text.

ghost use Rattle.std.specs.Prelude.{◌≡◌, ◌++◌, ◌∷◌, [], IfOk, Some, codes, decimal, string_bytes};
ghost use Rattle.mac_types.specs.Texts.{address_text};
ghost use Rattle.apd_driver.specs.Words.{then, out_words, tid_word};
ghost use Rattle.apd_driver.specs.Colours.{beginning, colour_in, ending};
ghost use Rattle.apd_driver.specs.Lines.{drop_text, json_text, line_of, notice_line, notice_text, noticed_out, noticed_outs, noticed_text, outs_text, report_text, styled_text, told_text, told_words, totals_text};

use crate::reports::json::{append_drop_json, append_loaded_json, append_outs_json};
use crate::reports::notice::{Dropped, Notice, notice_of};
use crate::reports::report::{Form, Report, Style, Told};
use crate::reports::words::{
    CounterWords, append, append_bytes, append_digits, append_number, append_shown, append_tid,
};
use ap_books::Totals;
use ap_model::{Out, Up};
use std::alloc::{AllocError, Global};
use std::fmt;

fn append_send(text: &mut Vec<u8>, line: u64, frame: &[u8]) -> Result<(), AllocError>
    ensures ok { IfOk result (λ _. text.new.items ≡ text.old.items
        ++ line_of line (out_words (Out.Send frame.now))) }
{
    append_number(text, line)?;
    append(text, " send ")?;
    append_digits(text, frame)?;
    append(text, "\n")
}

/// Appends how the line of data that is passed up begins: whom it comes from, and whom it goes to.
fn append_addresses(text: &mut Vec<u8>, line: u64, up: &Up) -> Result<(), AllocError>
    ensures ok { IfOk result (λ _. text.new.items ≡ text.old.items
        ++ then (decimal line) (then (codes "up")
        (then (address_text up.now.source) (address_text up.now.destination)))) }
{
    append_number(text, line)?;
    append(text, " up ")?;
    append_digits(text, up.source.octets().as_slice())?;
    append(text, " ")?;
    append_digits(text, up.destination.octets().as_slice())
}

/// Appends the TID, the number and the mark of data that is passed up, with a space before each and one at the end.
fn append_numbers(text: &mut Vec<u8>, up: &Up) -> Result<(), AllocError>
    ensures ok { IfOk result (λ _. text.new.items ≡ text.old.items
        ++ 32 ∷ then (tid_word up.now.tid)
        (then (decimal up.now.number) (then (decimal up.now.mark) []))) }
{
    append(text, " ")?;
    append_tid(text, up.tid)?;
    append(text, " ")?;
    append_number(text, up.number.number())?;
    append(text, " ")?;
    append_number(text, up.mark)?;
    append(text, " ")
}

fn append_up(text: &mut Vec<u8>, line: u64, up: &Up) -> Result<(), AllocError>
    ensures ok { IfOk result (λ _. text.new.items ≡ text.old.items
        ++ line_of line (out_words (Out.Up up.now))) }
{
    append_addresses(text, line, up)?;
    append_numbers(text, up)?;
    append_bytes(text, up.body.bytes())?;
    append(text, "\n")
}

fn append_note(text: &mut Vec<u8>, line: u64, note: u8) -> Result<(), AllocError>
    ensures ok { IfOk result (λ _. text.new.items ≡ text.old.items
        ++ line_of line (out_words (Out.Note note))) }
{
    append_shown(text, format_args!("{line} note {note}\n"))?;
    Ok(())
}

fn append_out(text: &mut Vec<u8>, line: u64, out: &Out) -> Result<(), AllocError>
    ensures ok { IfOk result (λ _. text.new.items ≡ text.old.items
        ++ line_of line (out_words out.now)) }
{
    match out {
        Out::Send(frame) => append_send(text, line, frame.bytes()),
        Out::Up(up) => append_up(text, line, up),
        Out::Note(note) => append_note(text, line, *note),
    }
}

fn append_outs(text: &mut Vec<u8>, line: u64, outs: &[Out]) -> Result<(), AllocError>
    ensures ok { IfOk result (λ _. text.new.items ≡ text.old.items
        ++ outs_text line outs.now) }
{
    for out in outs {
        append_out(text, line, out)?;
    }
    Ok(())
}

/// Appends a notice, if there is one.
fn append_notice(text: &mut Vec<u8>, line: u64, notice: Option<Notice>) -> Result<(), AllocError>
    ensures ok { IfOk result (λ _. text.new.items ≡ text.old.items
        ++ notice_line line notice) }
{
    match notice {
        Some(notice) => {
            append_shown(text, format_args!("{line} {notice}\n"))?;
            Ok(())
        }
        None => Ok(()),
    }
}

/// Appends what an output means to a station, if it means something.
fn append_meaning(text: &mut Vec<u8>, line: u64, out: &Out) -> Result<(), AllocError>
    ensures ok { IfOk result (λ _. text.new.items ≡ text.old.items
        ++ notice_text line out.now) }
{
    match out {
        Out::Send(frame) => append_notice(text, line, notice_of(frame.bytes())),
        Out::Up(_) => Ok(()),
        Out::Note(_) => Ok(()),
    }
}

/// Appends the line of an output, and what it means.
fn append_noticed(text: &mut Vec<u8>, line: u64, out: &Out) -> Result<(), AllocError>
    ensures ok { IfOk result (λ _. text.new.items ≡ text.old.items
        ++ noticed_out line out.now) }
{
    append_out(text, line, out)?;
    append_meaning(text, line, out)?;
    Ok(())
}

fn append_noticed_outs(text: &mut Vec<u8>, line: u64, outs: &[Out]) -> Result<(), AllocError>
    ensures ok { IfOk result (λ _. text.new.items ≡ text.old.items
        ++ noticed_outs line outs.now) }
{
    for out in outs {
        append_noticed(text, line, out)?;
    }
    Ok(())
}

/// Appends a line if data was dropped.
fn append_drop(text: &mut Vec<u8>, line: u64, dropped: Option<Dropped>) -> Result<(), AllocError>
    ensures ok { IfOk result (λ _. text.new.items ≡ text.old.items
        ++ drop_text line dropped) }
{
    if let Some(dropped) = dropped {
        append_shown(text, format_args!("{line} {dropped}\n"))?;
    }
    Ok(())
}

/// What became of a line without outputs, in words.
#[derive(Clone, Copy)]
struct ToldWords<'a>(&'a Told);

impl fmt::Display for ToldWords<'_> {
    ghost output = { λ words. Some (told_words words.0.now) };

    fn fmt<W: fmt::Write>(&self, f: &mut fmt::Formatter<W>) -> fmt::Result {
        match self.0 {
            Told::Handled { .. } => Ok(()),
            Told::Memory => f.write_str("memory"),
            Told::Loaded { budget, .. } => write!(f, "loaded {budget}"),
            Told::Fault(fault) => write!(f, "{fault}"),
            Told::Refused { fault, slot } => write!(f, "refused {fault} at {slot}"),
            Told::Certificate { fault } => write!(f, "certificate {fault}"),
            Told::Unreadable(_) => f.write_str("unreadable"),
            Told::Word { value } => write!(f, "word {value}"),
            Told::Malformed { why } => write!(f, "error {why}"),
        }
    }
}

/// Appends what became of a line, as lines.
fn append_told(text: &mut Vec<u8>, line: u64, told: &Told) -> Result<(), AllocError>
    ensures ok { IfOk result (λ _. text.new.items ≡ text.old.items
        ++ told_text line told.now) }
{
    match told {
        Told::Handled { outs, .. } => append_outs(text, line, outs.as_slice()),
        Told::Memory
        | Told::Loaded { .. }
        | Told::Fault(_)
        | Told::Refused { .. }
        | Told::Certificate { .. }
        | Told::Unreadable(_)
        | Told::Word { .. }
        | Told::Malformed { .. } => {
            append_shown(text, format_args!("{line} {}\n", ToldWords(told)))?;
            Ok(())
        }
    }
}

/// Appends what became of a line, with what its frames mean.
fn append_told_noticed(text: &mut Vec<u8>, line: u64, told: &Told) -> Result<(), AllocError>
    ensures ok { IfOk result (λ _. text.new.items ≡ text.old.items
        ++ noticed_text line told.now) }
{
    match told {
        Told::Handled { outs, dropped } => {
            append_noticed_outs(text, line, outs.as_slice())?;
            append_drop(text, line, *dropped)?;
            Ok(())
        }
        Told::Memory
        | Told::Loaded { .. }
        | Told::Fault(_)
        | Told::Refused { .. }
        | Told::Certificate { .. }
        | Told::Unreadable(_)
        | Told::Word { .. }
        | Told::Malformed { .. } => append_told(text, line, told),
    }
}

/// Appends what became of a line, as JSON if it has outputs or a program is in force.
fn append_told_json(
    alloc: Global,
    text: &mut Vec<u8>,
    line: u64,
    told: &Told,
) -> Result<(), AllocError>
    ensures ok { IfOk result (λ _. text.new.items ≡ text.old.items
        ++ json_text line told.now) }
{
    match told {
        Told::Handled { outs, dropped } => {
            append_outs_json(alloc, text, line, outs.as_slice())?;
            append_drop_json(text, line, *dropped)?;
            Ok(())
        }
        Told::Loaded { budget, .. } => {
            append_loaded_json(text, line, *budget)?;
            Ok(())
        }
        Told::Memory
        | Told::Fault(_)
        | Told::Refused { .. }
        | Told::Certificate { .. }
        | Told::Unreadable(_)
        | Told::Word { .. }
        | Told::Malformed { .. } => append_told(text, line, told),
    }
}

/// Appends what became of a line, in a style.
fn append_styled(
    alloc: Global,
    text: &mut Vec<u8>,
    style: Style,
    report: &Report,
) -> Result<(), AllocError>
    ensures ok { IfOk result (λ _. text.new.items ≡ text.old.items
        ++ styled_text style report.now.line report.now.told) }
{
    let line = report.line;
    let told = &report.told;
    match style {
        Style::Lines => append_told(text, line, told),
        Style::Notices => append_told_noticed(text, line, told),
        Style::Json => append_told_json(alloc, text, line, told),
    }
}

/// The colour of what became of a line, if it has one and colours are asked for.
fn colour_in(colours: bool, told: &Told) -> Option<u8>
    ensures is { result ≡ colour_in colours told.now }
{
    if !colours {
        return None;
    }
    match told {
        Told::Handled { .. } | Told::Word { .. } => None,
        Told::Loaded { .. } => Some(32),
        Told::Memory
        | Told::Fault(_)
        | Told::Refused { .. }
        | Told::Certificate { .. }
        | Told::Unreadable(_)
        | Told::Malformed { .. } => Some(31),
    }
}

/// Appends what begins a text in a colour.
fn append_beginning(text: &mut Vec<u8>, colour: Option<u8>) -> Result<(), AllocError>
    ensures ok { IfOk result (λ _. text.new.items ≡ text.old.items
        ++ beginning colour) }
{
    if let Some(colour) = colour {
        append_shown(text, format_args!("\x1b[{colour}m"))?;
    }
    Ok(())
}

/// Appends what ends it.
fn append_ending(text: &mut Vec<u8>, colour: Option<u8>) -> Result<(), AllocError>
    ensures ok { IfOk result (λ _. text.new.items ≡ text.old.items
        ++ ending colour) }
{
    if colour.is_some() {
        append_shown(text, format_args!("\x1b[{}m", 0))?;
    }
    Ok(())
}

/// Appends the lines of a report.
pub(crate) fn append_report(
    alloc: Global,
    text: &mut Vec<u8>,
    form: Form,
    report: &Report,
) -> Result<(), AllocError>
    ensures ok { IfOk result (λ _. text.new.items ≡ text.old.items
        ++ report_text form report.now) }
{
    let colour = colour_in(form.colours, &report.told);
    append_beginning(text, colour)?;
    append_styled(alloc, text, form.style, report)?;
    append_ending(text, colour)
}

/// The last line of a run.
pub(crate) fn totals_line(alloc: Global, totals: &Totals) -> Result<String, AllocError>
    ensures is { IfOk result (λ text. string_bytes text ≡ totals_text totals.now) }
{
    format!(in alloc; "total {}\n", CounterWords(*totals))
}
