//! The table of a capture's verdicts.

ghost use Rattle.std.specs.Prelude.{◌≡◌, [], ◌∷◌, ◌++◌, IfOk, Some, decimal};
ghost use Rattle.std.specs.String.{string_bytes};
ghost use Rattle.apd_eval.specs.Sums.{judged_of, totals_in, totals_text};
ghost use Rattle.apd_eval.specs.Table.{column, station_text, row_line, json_line, line_in, front};
ghost use Rattle.apd_eval.specs.Tabled.{IsBegun};

use crate::row::{Row, TakesRows};
use crate::sums::{Course, totals_text};
use crate::tally::Tally;
use bpf_regions::{Context, Frame};
use std::alloc::{AllocError, Global};
use std::fmt;
use std::fmt::Write;

/// The heads of the columns.
const HEADS: &str = "packet  station            verdict       steps\n";

/// The station's address in a context, six pairs of hex digits.
#[derive(Clone, Copy)]
pub(crate) struct StationText<'a>(pub &'a Context);

impl fmt::Display for StationText<'_> {
    ghost output = { λ station. Some (station_text station.0.now) };

    fn fmt<W: fmt::Write>(&self, f: &mut fmt::Formatter<W>) -> fmt::Result {
        let [a, b, c, d, e, last, ..] = self.0.bytes();
        write!(f, "{a:02x}:{b:02x}:{c:02x}:{d:02x}:{e:02x}:{last:02x}")
    }
}

/// The same as a text that is padded.
pub(crate) fn station_text(alloc: Global, context: &Context) -> Result<String, AllocError>
    ensures is { IfOk result (λ text. string_bytes text ≡ station_text context.now) }
{
    format!(in alloc; "{}", StationText(context))
}

/// Appends the cells of a row.
fn append_cells(
    text: &mut String,
    packet: &str,
    station: &str,
    verdict: &str,
    steps: u32,
) -> Result<(), AllocError>
    ensures ok { IfOk result (λ _. string_bytes text.new ≡ string_bytes text.old
        ++ (column 8 packet.now ++ (column 19 station.now ++ (column 14 verdict.now
        ++ (decimal steps ++ 10 ∷ []))))) }
{
    writeln!(text, "{packet:<8}{station:<19}{verdict:<14}{steps}")?;
    Ok(())
}

fn append_row(alloc: Global, text: &mut String, row: &Row) -> Result<(), AllocError>
    ensures ok { IfOk result
        (λ _. string_bytes text.new ≡ string_bytes text.old ++ row_line row.now) }
{
    let packet = format!(in alloc; "{}", row.packet)?;
    let station = station_text(alloc, &row.ruling.context)?;
    let verdict = format!(in alloc; "{}", row.ruling.meaning())?;
    let packet = packet.as_str();
    let station = station.as_str();
    append_cells(text, packet, station, verdict.as_str(), row.ruling.steps)
}

fn append_json(text: &mut String, row: &Row) -> Result<(), AllocError>
    ensures ok { IfOk result
        (λ _. string_bytes text.new ≡ string_bytes text.old ++ json_line row.now) }
{
    let packet = row.packet;
    let station = StationText(&row.ruling.context);
    let verdict = row.ruling.meaning();
    let steps = row.ruling.steps;
    writeln!(
        text,
        "{{\"packet\":{packet},\"station\":\"{station}\",\"verdict\":\"{verdict}\",\"steps\":{steps}}}"
    )?;
    Ok(())
}

/// Appends the line of a row, in JSON or not.
fn append_line(alloc: Global, text: &mut String, row: &Row, json: bool) -> Result<(), AllocError>
    ensures ok { IfOk result
        (λ _. string_bytes text.new ≡ string_bytes text.old ++ line_in json row.now) }
{
    if json {
        return append_json(text, row);
    }
    append_row(alloc, text, row)
}

/// What stands before the lines.
fn front(json: bool) -> &'static str
    ensures is { result.now ≡ front json }
{
    if json { "" } else { HEADS }
}

/// The table of a capture's verdicts as its rows come: the lines so far, with the heads of their columns or in JSON, and
/// how many rows they are of.
#[derive(Drop)]
pub(crate) struct Table {
    alloc: Global,
    json: bool,
    text: String,
    pub tally: Tally,
}

impl Table {
    /// A table without rows.
    pub(crate) fn new(alloc: Global, json: bool) -> Result<Table, AllocError>
        ensures begun { IfOk result (IsBegun json) }
    {
        let text = String::from_str(alloc, front(json))?;
        let tally = Tally::none();
        Ok(Table {
            alloc,
            json,
            text,
            tally,
        })
    }

    /// The table with the sums of its rows.
    pub(crate) fn finish(self, course: Course<'_>) -> Result<String, AllocError>
        ensures is { IfOk result (λ text. string_bytes text ≡ string_bytes self.text
            ++ totals_text (judged_of course.entry) (totals_in self.tally) self.json) }
    {
        let sums = totals_text(self.alloc, self.tally, course, self.json)?;
        let mut text = self.text;
        text.push_str(sums.as_str())?;
        Ok(text)
    }

    /// The table with the sums of its rows, and a line below them.
    pub(crate) fn finish_above(self, course: Course<'_>, line: &str) -> Result<String, AllocError>
        ensures is { IfOk result (λ text. string_bytes text ≡ (string_bytes self.text
            ++ totals_text (judged_of course.entry) (totals_in self.tally) self.json) ++ line.now) }
    {
        let mut text = self.finish(course)?;
        text.push_str(line)?;
        Ok(text)
    }
}

impl<'a> TakesRows<'a> for Table {
    ghost use Rattle.apd_eval.specs.Tabled.{TakesRow};

    ghost taken = { λ t. t.tally.rows };

    ghost takes = { λ s row frame t. TakesRow s row t };

    fn take(&mut self, row: &Row, _frame: &Frame<'a>) -> Result<(), AllocError> {
        append_line(self.alloc, &mut self.text, row, self.json)?;
        self.tally = self.tally.with(row);
        Ok(())
    }
}
