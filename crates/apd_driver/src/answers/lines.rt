//! Answers as text.

ghost use Rattle.std.specs.Prelude.{◌≡◌, ◌++◌, IfOk, OnOk, codes, decimal, length, string_bytes};
ghost use Rattle.std.specs.Io.KnownBytes.{Appends};
ghost use Rattle.std.specs.List.{flat_map};
ghost use Rattle.apd_files.specs.Beginning.{AppendsBeginning};
ghost use Rattle.apd_driver.specs.Answers.{answer_text, agreement_words, entry_words, numbers_text, program_text, says_text, shape_words, station_words};
ghost use Rattle.apd_driver.specs.Lines.{line_of};
ghost use Rattle.apd_driver.specs.Words.{then, counter_words};

use crate::answers::answer::{AgreementRow, Answer, EntryRow, ProgramRow, StationRow};
use crate::answers::rows::ShapeWords;
use crate::captures::Printing;
use crate::reports::{CounterWords, PrintFault};
use ap_books::Totals;
use bpf_regions::Shape;
use std::alloc::{AllocError, Global};
use std::fmt::Write;

/// Appends the line behind a list's rows.
fn append_end(text: &mut String, line: u64, rows: usize) -> Result<(), AllocError>
    ensures ok { IfOk result (λ _. string_bytes text.new ≡ string_bytes text.old
        ++ line_of line (then (codes "end") (decimal rows))) }
{
    writeln!(text, "{line} end {rows}")?;
    Ok(())
}

fn append_usages(text: &mut String, line: u64, usages: &[String]) -> Result<(), AllocError>
    ensures ok { IfOk result (λ _. string_bytes text.new ≡ string_bytes text.old
        ++ flat_map (λ u. line_of line (then (codes "help") (string_bytes u))) usages.now) }
{
    for usage in usages {
        writeln!(text, "{line} help {usage}")?;
    }
    Ok(())
}

fn append_stations(text: &mut String, line: u64, rows: &[StationRow]) -> Result<(), AllocError>
    ensures ok { IfOk result (λ _. string_bytes text.new ≡ string_bytes text.old
        ++ flat_map (λ row. line_of line (station_words row)) rows.now) }
{
    for row in rows {
        writeln!(text, "{line} {row}")?;
    }
    Ok(())
}

fn append_agreement(text: &mut String, line: u64, row: AgreementRow) -> Result<(), AllocError>
    ensures ok { IfOk result (λ _. string_bytes text.new ≡ string_bytes text.old
        ++ line_of line (agreement_words row)) }
{
    writeln!(text, "{line} {row}")?;
    Ok(())
}

fn append_agreements(text: &mut String, line: u64, rows: &[AgreementRow]) -> Result<(), AllocError>
    ensures ok { IfOk result (λ _. string_bytes text.new ≡ string_bytes text.old
        ++ flat_map (λ row. line_of line (agreement_words row)) rows.now) }
{
    for row in rows {
        append_agreement(text, line, *row)?;
    }
    Ok(())
}

/// Appends what a program noted, if it noted anything.
fn append_says(text: &mut String, notes: &[u64]) -> Result<(), AllocError>
    ensures ok { IfOk result (λ _.
        string_bytes text.new ≡ string_bytes text.old ++ says_text notes.now) }
{
    if notes.is_empty() {
        return Ok(());
    }
    text.push_str(" says")?;
    append_numbers(text, notes)?;
    Ok(())
}

fn append_program(text: &mut String, line: u64, row: &ProgramRow) -> Result<(), AllocError>
    ensures ok { IfOk result (λ _. string_bytes text.new ≡ string_bytes text.old
        ++ line_of line (program_text row.now)) }
{
    write!(text, "{line} {row}")?;
    append_says(text, row.says.as_slice())?;
    writeln!(text, "")?;
    Ok(())
}

fn append_programs(text: &mut String, line: u64, rows: &[ProgramRow]) -> Result<(), AllocError>
    ensures ok { IfOk result (λ _. string_bytes text.new ≡ string_bytes text.old
        ++ flat_map (λ row. line_of line (program_text row)) rows.now) }
{
    for row in rows {
        append_program(text, line, row)?;
    }
    Ok(())
}

/// Appends numbers, each after a space.
fn append_numbers(text: &mut String, numbers: &[u64]) -> Result<(), AllocError>
    ensures ok { IfOk result (λ _.
        string_bytes text.new ≡ string_bytes text.old ++ numbers_text numbers.now) }
{
    for number in numbers {
        write!(text, " {number}")?;
    }
    Ok(())
}

fn append_entry(text: &mut String, line: u64, entry: &EntryRow) -> Result<(), AllocError>
    ensures ok { IfOk result (λ _. string_bytes text.new ≡ string_bytes text.old
        ++ line_of line (entry_words entry.now)) }
{
    write!(text, "{line} {}", entry.index)?;
    append_numbers(text, entry.words.as_slice())?;
    writeln!(text, "")?;
    Ok(())
}

fn append_entries(text: &mut String, line: u64, entries: &[EntryRow]) -> Result<(), AllocError>
    ensures ok { IfOk result (λ _. string_bytes text.new ≡ string_bytes text.old
        ++ flat_map (λ entry. line_of line (entry_words entry)) entries.now) }
{
    for entry in entries {
        append_entry(text, line, entry)?;
    }
    Ok(())
}

fn append_map(text: &mut String, line: u64, map: u32, shape: Shape) -> Result<(), AllocError>
    ensures ok { IfOk result (λ _. string_bytes text.new ≡ string_bytes text.old
        ++ line_of line (then (codes "map") (then (decimal map) (shape_words shape)))) }
{
    writeln!(text, "{line} map {map} {}", ShapeWords(shape))?;
    Ok(())
}

fn append_counters(text: &mut String, line: u64, totals: &Totals) -> Result<(), AllocError>
    ensures ok { IfOk result (λ _. string_bytes text.new ≡ string_bytes text.old
        ++ line_of line (counter_words totals.now)) }
{
    writeln!(text, "{line} {}", CounterWords(*totals))?;
    Ok(())
}

/// Appends the lines of an answer.
fn append_answer(text: &mut String, line: u64, answer: &Answer) -> Result<(), AllocError>
    ensures ok { IfOk result (λ _. string_bytes text.new ≡ string_bytes text.old
        ++ answer_text line answer.now) }
{
    match answer {
        Answer::Usages(usages) => {
            append_usages(text, line, usages.as_slice())?;
            append_end(text, line, usages.len())?;
            Ok(())
        }
        Answer::Stations(rows) => {
            append_stations(text, line, rows.as_slice())?;
            append_end(text, line, rows.len())?;
            Ok(())
        }
        Answer::Agreements(rows) => {
            append_agreements(text, line, rows.as_slice())?;
            append_end(text, line, rows.len())?;
            Ok(())
        }
        Answer::Programs(rows) => {
            append_programs(text, line, rows.as_slice())?;
            append_end(text, line, rows.len())?;
            Ok(())
        }
        Answer::Counters(totals) => append_counters(text, line, totals),
        Answer::Dump {
            map,
            shape,
            entries,
        } => {
            append_map(text, line, *map, *shape)?;
            append_entries(text, line, entries.as_slice())?;
            append_end(text, line, entries.len())?;
            Ok(())
        }
    }
}

/// The lines of an answer.
fn answer_text(alloc: Global, line: u64, answer: &Answer) -> Result<String, AllocError>
    ensures is { IfOk result (λ text. string_bytes text ≡ answer_text line answer.now) }
{
    let mut text = String::new(alloc);
    append_answer(&mut text, line, answer)?;
    Ok(text)
}

/// Prints the answer to the question of a line, or a prefix of it if a write or an allocation fails.
pub fn print_answer<W: Printing>(
    alloc: Global,
    writer: &mut W,
    line: u64,
    answer: &Answer,
) -> Result<(), PrintFault>
    ensures whole { OnOk result
        (Appends (W.contents writer.old) (W.contents writer.new) (answer_text line answer.now)) }
    ensures beginning { AppendsBeginning
        (W.contents writer.old) (W.contents writer.new) (answer_text line answer.now) }
    ensures kept { W.recorded writer.new ≡ W.recorded writer.old }
{
    let text = answer_text(alloc, line, answer)?;
    writer.print(text.as_bytes())?;
    Ok(())
}
