//! A whole run.

ghost use Rattle.std.specs.Prelude.{◌≡◌, ◌<◌, vec_len, IfOk, OnOk, OnErr};
ghost use Rattle.apd_driver.specs.Captures.{KeepsRun, KeepsWhole};
ghost use Rattle.apd_driver.specs.Shows.{Breaks, ShowsScript, IsBroken, status_of, Finishes, Runs};

use crate::captures::Printing;
use crate::console::Console;
use crate::crew::{Desk, Serving, Signs};
use crate::found::Found;
use crate::lines::Lines;
use crate::operating::Operating;
use crate::setting::{Setting, Staff};
use crate::threads::{Ran, Work, run_threads};
use crate::{PrintFault, print_totals};
use std::alloc::{AllocError, Global};
use std::sync::Wait;
use std::thread::Threads;

fn new_desks<W: Serving + Drop>(alloc: Global, workers: usize) -> Result<Vec<Desk<W>>, AllocError>
    ensures { IfOk result (λ desks. vec_len desks ≡ workers) }
{
    let mut desks = Vec::new(alloc);
    for _ in 0..workers {
        desks.push(Desk::new())?;
    }
    Ok(desks)
}

fn broken(fault: PrintFault) -> u8
    ensures { IsBroken result }
{
    match fault {
        PrintFault::Unwritten => 2,
        PrintFault::Unread => 2,
        PrintFault::NoMemory => 3,
    }
}

/// The status of a run, by what its printed lines say.
fn ended(found: Found) -> u8
    ensures { result ≡ status_of found.memory found.refused }
{
    if found.memory {
        3
    } else if found.refused {
        1
    } else {
        0
    }
}

/// Prints the last line, and returns the status: `own` if the line was written.
fn finish<W: Serving + Drop, O: Operating<W> + Drop, R: Wait, P: Printing>(
    rt: &R,
    alloc: Global,
    staff: Staff<W, O>,
    writer: &mut P,
    own: u8,
) -> u8
    requires all { vec_len staff.workers ≡ (O.crew staff.operator).workers }
    ensures finishes { Finishes (P.contents writer.old) (P.contents writer.new)
        (O.crew staff.operator) own result }
    ensures kept { P.recorded writer.new ≡ P.recorded writer.old }
{
    let Staff { operator, workers } = staff;
    let Ok(totals) = operator.gather(rt, workers) else {
        return broken(PrintFault::NoMemory);
    };
    match print_totals(alloc, writer, &totals) {
        Ok(()) => own,
        Err(fault) => broken(fault),
    }
}

/// Runs threads for all workers, and the lines beside them.
fn run<W, O, R, L, P>(
    rt: &R,
    alloc: Global,
    staff: Staff<W, O>,
    lines: L,
    writer: P,
) -> Ran<W, O, P>
where
    W: Serving + Send + Drop,
    O: Operating<W> + Drop,
    R: Threads + Wait + Sync,
    L: Lines + Drop,
    P: Console + Drop,
    ensures home { OnOk result.found (vec_len result.staff.workers ≡ vec_len staff.workers) }
    ensures workers { OnOk result.found
        ((O.crew result.staff.operator).workers ≡ (O.crew staff.operator).workers) }
    ensures shows { IfOk result.found (λ found. ShowsScript (P.manner writer) (L.script lines)
        (P.contents writer) (P.contents result.writer)
        (O.crew staff.operator) (O.crew result.staff.operator)
        found.memory found.refused) }
    ensures breaks { OnErr result.found (Breaks (P.manner writer) (L.script lines)
        (P.contents writer) (P.contents result.writer) (O.crew staff.operator)) }
    ensures keeps { OnOk result.found (KeepsRun (P.manner writer).form (L.script lines)
        (P.contents writer) (P.contents result.writer)
        (P.recorded writer) (P.recorded result.writer)) }
{
    let Ok(desks) = new_desks(alloc, staff.workers.len()) else {
        return Ran {
            staff,
            writer,
            found: Err(PrintFault::NoMemory),
        };
    };
    let signs = Signs::new();
    let setting = Setting {
        rt,
        alloc,
        desks: desks.as_slice(),
        signs: &signs,
        manner: writer.how(),
    };
    let task = Work {
        desks: desks.as_slice(),
        signs: &signs,
    };
    run_threads(&setting, &task, staff, lines, writer)
}

/// Runs lines: between two waits the operator follows them, one after another, each once, while the workers handle events.
/// If the writer is strict and ends the run early, or the run breaks off, these are a prefix. It returns the writer and the
/// exit status: 3 if a line says `memory`; otherwise 1 if a line was malformed, or the writer is strict and a line was
/// refused; otherwise 0. If the writer is strict, such a line ends the run after its interval. A run that breaks off has
/// status 2 or 3: 2 after a failed read or write, 3 for lack of memory, but the contract doesn't say which.
pub fn run_lines<W, O, R, L, P>(
    rt: &R,
    alloc: Global,
    staff: Staff<W, O>,
    lines: L,
    writer: P,
) -> (P, u8)
where
    W: Serving + Send + Drop,
    O: Operating<W> + Drop,
    R: Threads + Wait + Sync,
    L: Lines + Drop,
    P: Console + Drop,
    requires all { vec_len staff.workers ≡ (O.crew staff.operator).workers }
    ensures runs { Runs (P.manner writer) (L.script lines)
        (P.contents writer) (P.contents result.0) (O.crew staff.operator) result.1 }
    ensures keeps { result.1 < 2 → KeepsWhole (P.manner writer).form (L.script lines)
        (P.contents writer) (P.contents result.0)
        (P.recorded writer) (P.recorded result.0) }
{
    let Ran {
        staff,
        writer,
        found,
    } = run(rt, alloc, staff, lines, writer);
    let mut writer = writer;
    match found {
        Ok(found) => {
            let own = ended(found);
            let status = finish(rt, alloc, staff, &mut writer, own);
            (writer, status)
        }
        Err(fault) => (writer, broken(fault)),
    }
}
