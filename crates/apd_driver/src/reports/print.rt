//! Writing lines to a writer.

ghost use Rattle.std.specs.Prelude.{◌≡◌, ◌++◌, [], OnOk};
ghost use Rattle.std.specs.Io.KnownBytes.{Appends};
ghost use Rattle.apd_files.specs.Beginning.{AppendsBeginning};
ghost use Rattle.apd_driver.specs.Lines.{report_text, reports_text, totals_text};
ghost use Rattle.apd_driver.specs.Moving.{MovesOn};

use crate::captures::{Printing, Unrecorded};
use crate::reports::lines::{append_report, totals_line};
use crate::reports::report::{Form, Report};
use ap_books::Totals;
use apd_files::{FileFault, Unwritten};
use std::alloc::{AllocError, Global};

/// Why a text wasn't written whole.
#[derive(Clone, Copy)]
pub enum PrintFault {
    /// A write failed.
    Unwritten,
    /// The input that it answers can't be read.
    Unread,
    /// An allocation failed.
    NoMemory,
}

impl From<AllocError> for PrintFault {
    ghost use Rattle.std.specs.Prelude.{◌≡◌};
    ghost use Rattle.apd_driver.specs.declared.reports.print.PrintFault.TheVariants.{NoMemory};

    ghost from_gives = { λ _ fault. fault ≡ NoMemory };

    fn from(_error: AllocError) -> PrintFault {
        PrintFault::NoMemory
    }
}

impl From<Unrecorded> for PrintFault {
    fn from(error: Unrecorded) -> PrintFault {
        match error {
            Unrecorded::Unwritten(_) => PrintFault::Unwritten,
            Unrecorded::NoMemory => PrintFault::NoMemory,
        }
    }
}

impl From<FileFault> for PrintFault {
    fn from(error: FileFault) -> PrintFault {
        match error {
            FileFault::NoMemory => PrintFault::NoMemory,
            _ => PrintFault::Unread,
        }
    }
}

impl From<Unwritten> for PrintFault {
    ghost use Rattle.std.specs.Prelude.{◌≡◌};
    ghost use Rattle.apd_driver.specs.declared.reports.print.PrintFault.TheVariants as faults;

    ghost from_gives = { λ _ fault. fault ≡ faults.Unwritten };

    fn from(_error: Unwritten) -> PrintFault {
        PrintFault::Unwritten
    }
}

/// The length from which a text is written.
const ENOUGH: usize = 1 << 15;

/// Writes the text, and empties it.
fn flush<W: Printing>(text: &mut Vec<u8>, writer: &mut W) -> Result<(), Unwritten>
    ensures whole { OnOk result
        (Appends (W.contents writer.old) (W.contents writer.new) (text.old.items)) }
    ensures beginning { AppendsBeginning
        (W.contents writer.old) (W.contents writer.new) (text.old.items) }
    ensures empty { OnOk result (text.new.items ≡ []) }
    ensures kept { W.recorded writer.new ≡ W.recorded writer.old }
{
    writer.print(text.as_slice())?;
    text.clear();
    Ok(())
}

/// Appends the lines of a report to the text, and writes it if it is long.
fn print_report<W: Printing>(
    alloc: Global,
    text: &mut Vec<u8>,
    writer: &mut W,
    form: Form,
    report: &Report,
) -> Result<(), PrintFault>
    ensures moved { OnOk result (MovesOn (W.contents writer.old) (W.contents writer.new)
        (text.old.items ++ report_text form report.now) (text.new.items)) }
    ensures beginning { AppendsBeginning (W.contents writer.old) (W.contents writer.new)
        (text.old.items ++ report_text form report.now) }
    ensures kept { W.recorded writer.new ≡ W.recorded writer.old }
{
    append_report(alloc, text, form, report)?;
    if text.len() >= ENOUGH {
        flush(text, writer)?;
    }
    Ok(())
}

/// Prints reports in their order, beside the capture. If a write or an allocation fails, a prefix of their text was
/// written.
pub fn print_reports<W: Printing>(
    alloc: Global,
    writer: &mut W,
    form: Form,
    reports: &[Report],
) -> Result<(), PrintFault>
    ensures whole { OnOk result
        (Appends (W.contents writer.old) (W.contents writer.new) (reports_text form reports.now)) }
    ensures beginning { AppendsBeginning
        (W.contents writer.old) (W.contents writer.new) (reports_text form reports.now) }
    ensures kept { W.recorded writer.new ≡ W.recorded writer.old }
{
    let mut text = Vec::new(alloc);
    for report in reports {
        print_report(alloc, &mut text, writer, form, report)?;
    }
    flush(&mut text, writer)?;
    Ok(())
}

/// Prints the last line of a run, or a prefix of it if a write or an allocation fails.
pub fn print_totals<W: Printing>(
    alloc: Global,
    writer: &mut W,
    totals: &Totals,
) -> Result<(), PrintFault>
    ensures whole { OnOk result
        (Appends (W.contents writer.old) (W.contents writer.new) (totals_text totals.now)) }
    ensures beginning { AppendsBeginning
        (W.contents writer.old) (W.contents writer.new) (totals_text totals.now) }
    ensures kept { W.recorded writer.new ≡ W.recorded writer.old }
{
    let text = totals_line(alloc, totals)?;
    writer.print(text.as_bytes())?;
    Ok(())
}
