//! Cases for policies: the command `test`.

ghost use Rattle.std.specs.Prelude.{◌≡◌, ◌∷◌, ◌++◌, [], ℕ, List, None, IfOk, IfErr, OnOk};
ghost use Rattle.apd_cases.specs.Cases.{Spoils};
ghost use Rattle.apd_cases.specs.Said.{lines_said};
ghost use Rattle.apd_words.specs.Asked.{Test, texts_of};
ghost use Rattle.apd_program.specs.Faults.{IsMemoryOr};
ghost use Rattle.apd_program.specs.Program.{Performs};
ghost use Rattle.apd_program.specs.Testing.{IsTried, Covers, AreTested, HasNoTest, HaveNoTest};

use crate::answer::Answer;
use crate::fault::{ProgramFault, of_case};
use crate::inputs::read;
use crate::messages::complain;
use crate::output::{conclude, deliver};
use apd_cases::{Unread, line_fault, read_cases};
use apd_files::{FileKind, Files, shown};
use apd_trials::{CaseFault, Report, Row, Trouble, run_cases};
use std::alloc::Global;
use std::io::Write;

/// The fault of a text whose cases weren't read.
fn of_unread(alloc: Global, path: &str, text: &[u8], unread: Unread) -> ProgramFault
    ensures memory { unread ≡ Unread.NoMemory → result ≡ ProgramFault.NoMemory }
{
    match unread {
        Unread::Malformed(line) => of_case(alloc, path, line, &line_fault(text, line)),
        Unread::NoMemory => ProgramFault::NoMemory,
    }
}

/// The fault of a case that can't be judged.
fn of_trouble(alloc: Global, path: &str, fault: &CaseFault) -> ProgramFault {
    match fault.trouble {
        Trouble::NoMemory => ProgramFault::NoMemory,
        _ => of_case(alloc, path, fault.line, &fault.trouble),
    }
}

/// What becomes of each expectation in a file of cases.
fn try_file<F: Files>(alloc: Global, path: &str, files: &mut F) -> Result<Vec<Row>, ProgramFault>
    ensures tried { IfOk result (λ rows. IsTried (F.held files.old) path.now rows.items) }
    ensures fault { IfErr result (IsMemoryOr (HasNoTest (F.held files.old) path.now)) }
    ensures same { F.held files.new ≡ F.held files.old }
{
    let text = read(alloc, path, FileKind::Script, files)?;
    let lines = match read_cases(alloc, text.as_slice()) {
        Ok(lines) => lines,
        Err(unread) => return Err(of_unread(alloc, path, text.as_slice(), unread)),
    };
    match run_cases(alloc, lines.as_slice(), files) {
        Ok(rows) => Ok(rows),
        Err(fault) => Err(of_trouble(alloc, path, &fault)),
    }
}

/// Adds a file of cases to a report.
fn add_file<F: Files>(
    alloc: Global,
    path: &str,
    report: &mut Report,
    files: &mut F,
) -> Result<(), ProgramFault>
    ensures covers { (paths : List (List ℕ)) → Covers (F.held files.old) paths report.old
        → OnOk result (Covers (F.held files.old) (paths ++ path.now ∷ []) report.new) }
    ensures fault { IfErr result (IsMemoryOr (HasNoTest (F.held files.old) path.now)) }
    ensures same { F.held files.new ≡ F.held files.old }
{
    let rows = try_file(alloc, path, files)?;
    let name = shown(alloc, path)?;
    report.add(name.as_str(), rows.as_slice())?;
    Ok(())
}

/// The report on files of cases.
fn report_on<F: Files>(alloc: Global, paths: &[&str], files: &mut F) -> Result<Report, ProgramFault>
    ensures covers { IfOk result (Covers (F.held files.old) (texts_of paths.entry.now)) }
    ensures fault { IfErr result
        (IsMemoryOr (HaveNoTest (F.held files.old) (texts_of paths.entry.now))) }
{
    let mut report = Report::new(alloc);
    for path in paths {
        add_file(alloc, path, &mut report, files)?;
    }
    Ok(report)
}

/// What becomes of each expectation in files of cases.
fn test<F: Files>(alloc: Global, paths: &[&str], files: &mut F) -> Result<Answer, ProgramFault>
    ensures tested { IfOk result (AreTested (F.held files.old) (texts_of paths.entry.now)) }
    ensures fault { IfErr result
        (IsMemoryOr (HaveNoTest (F.held files.old) (texts_of paths.entry.now))) }
{
    let report = report_on(alloc, paths, files)?;
    let is_good = report.is_good();
    let text = report.into_text()?;
    Ok(Answer::Tested { text, is_good })
}

/// Writes what becomes of each expectation in files of cases; returns the exit status.
pub fn judge_cases<F: Files, O: Write, E: Write>(
    alloc: Global,
    paths: &[&str],
    files: &mut F,
    out: &mut O,
    err: &mut E,
) -> u8
    ensures is { Performs (F.held files.old) (Test (texts_of paths.entry.now)) None
        (O.contents out.old) (O.contents out.new) result }
{
    match test(alloc, paths, files) {
        Ok(answer) => {
            let delivered = deliver(alloc, answer, None, files, out);
            conclude(alloc, delivered, None, err)
        }
        Err(fault) => complain(alloc, &fault, err),
    }
}
