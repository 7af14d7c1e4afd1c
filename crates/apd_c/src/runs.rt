//! Runs of programs.

ghost use Rattle.std.specs.Prelude.{◌≡◌, ◌≢◌, ◌≤◌, ◌↔◌, Some, IsTrue, take};
ghost use Rattle.apd_c.specs.Held.{held};
ghost use Rattle.apd_c.specs.Runs.{RunsOn, RunsCode, IsForHook, IsNumberOn, IsRunNumber};

use crate::answer::{OTHER_HOOK, OTHER_MAPS, OTHER_VALUE, OUT_OF_LIMITS};
use crate::call_port::CallPort;
use crate::handle::{Content, Handle};
use crate::maps::Maps;
use arrayvec::ArrayVec;
use bpf_helpers::{HookPort, WorkerView};
use bpf_machine::{Accepted, Exit};
use bpf_regions::{Context, Frame, Shape};

/// A program's inputs besides its frame and its maps: the clock, how many stations are associated (at most 2007), and
/// the 32 bytes of its context.
#[repr(C)]
#[derive(Clone, Copy)]
pub struct Given {
    pub clock: u64,
    pub stations: u16,
    pub context: [u8; 32],
}

/// The result of a run, if the number is 0: R0, the steps, how many notes there are, at most 16, and the notes.
#[repr(C)]
#[derive(Clone, Copy)]
pub struct Report {
    pub number: u32,
    pub steps: u32,
    pub r0: u64,
    pub count: usize,
    pub notes: [u64; 16],
}

/// Reports a run, without its number. The array beyond the run's notes is unchanged.
#[inline(always)]
fn tell(exit: Exit, notes: &ArrayVec<u64, 16>, report: &mut Report)
    ensures r0 { report.new.r0 ≡ exit.r0 }
    ensures steps { report.new.steps ≡ exit.steps }
    ensures notes { take report.new.count report.new.notes ≡ notes.now.items }
{
    let listed = notes.as_slice();
    let count = listed.len();
    report.r0 = exit.r0;
    report.steps = exit.steps;
    report.count = count;
    if count == 0 {
        return;
    }
    report.notes[..count].copy_from_slice(listed);
}

#[inline(always)]
pub(crate) fn are_alike(shapes: &[Shape], others: &[Shape]) -> bool
    ensures { IsTrue result ↔ (shapes.now ≡ others.now) }
{
    shapes == others
}

/// Whether a context is for the hook for which a program was verified.
fn is_for_hook(accepted: &Accepted, given: &Given) -> bool
    ensures { IsTrue result ↔ IsForHook accepted.now given.now }
{
    given.context[6] == accepted.hook().number()
}

/// Runs a program on a frame over maps of its shapes, lent to a port, and reports it.
#[inline(always)]
fn run_over(accepted: &Accepted, maps: &mut Maps, frame: &Frame, given: &Given, report: &mut Report)
    requires shapes { maps.old.shapes ≡ accepted.now.code.shapes }
    requires few { given.now.stations ≤ 2007 }
    ensures { RunsOn accepted.now maps.old frame.now given.now report.new maps.new }
{
    let context = Context::new(given.context);
    let view = WorkerView {
        maps: maps.tables.maps(),
        worker: 0,
        clock: given.clock,
        stations: given.stations,
    };
    let state = &mut maps.state;
    let mut port = CallPort {
        port: HookPort { view, state },
    };
    let exit = maps.machine.run(accepted, frame, &context, &mut port);
    tell(exit, maps.machine.notes(), report);
}

/// Runs a program on a frame over its maps, and returns the number.
fn run_on(
    accepted: &Accepted,
    maps: &mut Maps,
    frame: &[u8],
    given: &Given,
    report: &mut Report,
) -> u32
    ensures run { result ≡ 0 →
        RunsOn accepted.now maps.old frame.now given.now report.new maps.new }
    ensures refused { result ≢ 0 → maps.new ≡ maps.old }
    ensures number { IsNumberOn accepted.now maps.old frame.now given.now result }
{
    let Some(frame) = Frame::new(frame) else {
        return OUT_OF_LIMITS;
    };
    if given.stations > 2007 {
        return OUT_OF_LIMITS;
    }
    if !are_alike(
        maps.shapes.as_slice(),
        accepted.program().shapes().as_slice(),
    ) {
        return OTHER_MAPS;
    }
    if !is_for_hook(accepted, given) {
        return OTHER_HOOK;
    }
    run_over(accepted, maps, &frame, given, report);
    0
}

/// The same for contents.
fn run_contents(
    program: &Content,
    words: &mut Content,
    frame: &[u8],
    given: &Given,
    report: &mut Report,
) -> u32
    ensures run { result ≡ 0 → RunsCode (Some program.now) (Some words.old) frame.now given.now
        report.new (Some words.new) }
    ensures refused { result ≢ 0 → words.new ≡ words.old }
    ensures number { IsRunNumber (Some program.now) (Some words.old) frame.now given.now result }
{
    match program {
        Content::Code(accepted) => match words {
            Content::Maps(maps) => run_on(accepted, maps, frame, given, report),
            _ => OTHER_VALUE,
        },
        _ => OTHER_VALUE,
    }
}

/// Runs a program on a frame of at most 2400 bytes, over the maps that a handle holds, and reports it. The frame and
/// `given` need be valid only during the call, which waits for nothing and allocates nothing. The array beyond the
/// run's notes is unchanged.
///
/// 0: the run ended, within the program's budget. 90: the frame is longer, or there are more than 2007 stations. 91: a
/// handle doesn't hold a program or maps. 93: the program is for maps of other shapes. 95: byte 6 of the context isn't
/// the hook for which the program was verified. All but 0 leave the maps unchanged.
#[unsafe(no_mangle)]
pub extern "C" fn apd_c_run(
    code: &mut Handle,
    maps: &mut Handle,
    frame: &[u8],
    given: &Given,
    report: &mut Report,
)
    ensures run { report.new.number ≡ 0 → RunsCode (held code.old) (held maps.old) frame.now
        given.now report.new (held maps.new) }
    ensures refused { report.new.number ≢ 0 → held maps.new ≡ held maps.old }
    ensures code { held code.new ≡ held code.old }
    ensures number { IsRunNumber (held code.old) (held maps.old) frame.now given.now
        report.new.number }
{
    let Some(program) = code.lent() else {
        report.number = OTHER_VALUE;
        return;
    };
    let Some(words) = maps.lent() else {
        report.number = OTHER_VALUE;
        return;
    };
    let number = run_contents(program, words, frame, given, report);
    report.number = number;
}
