//! The threads of a run.

ghost use Rattle.std.specs.Prelude.{◌≡◌, length, vec_len, IfOk, OnOk, OnErr};
ghost use Rattle.apd_driver.specs.Captures.{KeepsRun};
ghost use Rattle.apd_driver.specs.Shows.{Breaks, ShowsScript};

use crate::PrintFault;
use crate::console::Console;
use crate::crew::{Desk, Serving, Signs, Task, start_all, work};
use crate::found::Found;
use crate::lines::Lines;
use crate::operating::Operating;
use crate::setting::{Setting, Staff};
use std::sync::Wait;
use std::thread;
use std::thread::Threads;

/// What a worker's thread needs.
#[derive(Drop)]
pub(crate) struct Work<'a, W: Serving + Drop> {
    pub desks: &'a [Desk<W>],
    pub signs: &'a Signs,
}

impl<'a, W: Serving + Drop, R: Wait> Task<R> for Work<'a, W> {
    fn run(&self, rt: &R, number: usize) {
        work(rt, self.desks, number, self.signs);
    }
}

/// What is left after all threads have ended.
#[derive(Drop)]
pub(crate) struct Ran<W: Serving + Drop, O: Operating<W> + Drop, P: Drop> {
    pub staff: Staff<W, O>,
    pub writer: P,
    pub found: Result<Found, PrintFault>,
}

/// Tells each worker's thread to end.
fn end_all<W: Serving + Drop, R: Wait>(setting: &Setting<'_, W, R>) {
    for desk in setting.desks {
        desk.end(setting.rt);
    }
}

/// The operator's whole work, if all threads have started. Then each thread is told to end.
fn beside<W: Serving + Drop, O: Operating<W> + Drop, R: Wait, L: Lines + Drop, P: Console + Drop>(
    setting: &Setting<'_, W, R>,
    staff: Staff<W, O>,
    lines: L,
    writer: P,
    started: bool,
) -> Ran<W, O, P>
    requires home { vec_len staff.workers ≡ length setting.now.desks.now }
    ensures home { OnOk result.found (vec_len result.staff.workers
        ≡ length setting.now.desks.now) }
    ensures workers { OnOk result.found
        ((O.crew result.staff.operator).workers ≡ (O.crew staff.operator).workers) }
    ensures shows { IfOk result.found (λ found. ShowsScript setting.now.manner (L.script lines)
        (P.contents writer) (P.contents result.writer)
        (O.crew staff.operator) (O.crew result.staff.operator)
        found.memory found.refused) }
    ensures breaks { OnErr result.found (Breaks setting.now.manner (L.script lines)
        (P.contents writer) (P.contents result.writer) (O.crew staff.operator)) }
    ensures keeps { OnOk result.found (KeepsRun setting.now.manner.form (L.script lines)
        (P.contents writer) (P.contents result.writer)
        (P.recorded writer) (P.recorded result.writer)) }
{
    let mut staff = staff;
    let mut writer = writer;
    let found = if started {
        lines.run(setting, &mut staff, &mut writer)
    } else {
        Err(PrintFault::NoMemory)
    };
    end_all(setting);
    Ran {
        staff,
        writer,
        found,
    }
}

/// Runs a thread for each desk, and the operator beside them. It returns after all threads have ended.
pub(crate) fn run_threads<
    W: Serving + Drop,
    O: Operating<W> + Drop,
    R: Threads + Wait + Sync,
    T: Task<R> + Sync,
    L: Lines + Drop,
    P: Console + Drop,
>(setting: &Setting<'_, W, R>, task: &T, staff: Staff<W, O>, lines: L, writer: P) -> Ran<W, O, P>
    requires home { vec_len staff.workers ≡ length setting.now.desks.now }
    ensures home { OnOk result.found (vec_len result.staff.workers
        ≡ length setting.now.desks.now) }
    ensures workers { OnOk result.found
        ((O.crew result.staff.operator).workers ≡ (O.crew staff.operator).workers) }
    ensures shows { IfOk result.found (λ found. ShowsScript setting.now.manner (L.script lines)
        (P.contents writer) (P.contents result.writer)
        (O.crew staff.operator) (O.crew result.staff.operator)
        found.memory found.refused) }
    ensures breaks { OnErr result.found (Breaks setting.now.manner (L.script lines)
        (P.contents writer) (P.contents result.writer) (O.crew staff.operator)) }
    ensures keeps { OnOk result.found (KeepsRun setting.now.manner.form (L.script lines)
        (P.contents writer) (P.contents result.writer)
        (P.recorded writer) (P.recorded result.writer)) }
{
    let rt = setting.rt;
    let many = setting.desks.len();
    thread::scope(
        thread::scope_env(),
        rt,
        move |scope| -> Ran<W, O, P>
            requires { vec_len staff.workers ≡ length setting.now.desks.now }
        {
            let started = start_all(scope, rt, task, many);
            beside(setting, staff, lines, writer, started)
        },
    )
}
