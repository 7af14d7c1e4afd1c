//! How long `run` takes for workloads, and `probe` and the entry of a run beside it: the best of several rounds. The
//! workloads are read from standard input, one a line: a name, the code in hex digits, and how many instructions are
//! executed, which isn't read. `bench/peers/workloads.py` writes some.

use crate::asked::Asked;
use crate::clock::{Work, least, print_each};
use crate::programs::{of_code, verified};
use bpf_machine::limited_run::probe;
use bpf_machine::{Accepted, Bare, ListPort, Machine, Probe};
use bpf_regions::{Context, Frame};
use std::alloc::Global;
use std::io::Input;
use std::rt::Clock;

/// A frame that the filter among the workloads passes.
fn datagram() -> [u8; 64] {
    let mut bytes = [0; 64];
    bytes[24] = 0xaa;
    bytes[25] = 0xaa;
    bytes[26] = 3;
    bytes[30] = 8;
    bytes[32] = 0x45;
    bytes[41] = 17;
    bytes[55] = 53;
    bytes
}

/// What is measured: a whole run on a machine that all runs share, a run on the tagged machine, or the entry of a run
/// with its first step.
#[derive(Clone, Copy)]
enum Way {
    Run,
    Probe,
    Enter,
}

/// A program on a frame. The number is R0.
#[derive(Drop)]
struct Running<'a, 'f> {
    way: Way,
    accepted: &'a Accepted,
    frame: Frame<'f>,
    context: Context,
    machine: Machine,
}

/// R0 and the steps of a whole run.
#[inline(never)]
fn ran(
    machine: &mut Machine,
    accepted: &Accepted,
    frame: &Frame<'_>,
    context: &Context,
) -> (u64, u32) {
    let mut port = ListPort::new(accepted.program().shapes(), &[]);
    let exit = machine.run(accepted, frame, context, &mut port);
    (exit.r0, exit.steps)
}

/// R0 of a run on the tagged machine.
#[inline(never)]
fn probed(accepted: &Accepted, frame: &Frame<'_>, context: &Context) -> u64 {
    let mut port = ListPort::new(accepted.program().shapes(), &[]);
    let limit = accepted.budget();
    match probe(accepted.program(), frame, context, &mut port, limit) {
        Probe::Ended(outcome) => outcome.r0,
        _ => 0,
    }
}

/// R0 after the first step of a run that is entered.
#[inline(never)]
fn entered(accepted: &Accepted, frame: &Frame<'_>, context: &Context) -> u64 {
    let mut port = ListPort::new(accepted.program().shapes(), &[]);
    let mut bare = Bare::enter(accepted, frame, context);
    let _goes_on = bare.step(&mut port);
    bare.register(0).number
}

impl Work for Running<'_, '_> {
    fn once(&mut self) -> u64 {
        match self.way {
            Way::Run => ran(&mut self.machine, self.accepted, &self.frame, &self.context).0,
            Way::Probe => probed(self.accepted, &self.frame, &self.context),
            Way::Enter => entered(self.accepted, &self.frame, &self.context),
        }
    }
}

/// Prints how long a program takes in one way, and each of the instructions that are executed.
fn measure<R: Clock + Eprint>(
    rt: &R,
    way: Way,
    accepted: &Accepted,
    size: Asked<'_>,
) -> Option<()> {
    let bytes = datagram();
    let frame = Frame::new(&bytes)?;
    let context = Context::new([0; 32]);
    let mut machine = Machine::new();
    let steps = match way {
        Way::Enter => 1,
        _ => u64::from(ran(&mut machine, accepted, &frame, &context).1),
    };
    let times = (size.choose(200_000, 20_000) / steps.max(20)).max(1);
    let mut work = Running {
        way,
        accepted,
        frame,
        context,
        machine,
    };
    let (nanos, sum) = least(rt, &mut work, times, size.choose(500, 2));
    print_each(rt, "  a time", nanos, times, sum);
    print_each(
        rt,
        "  an instruction",
        nanos,
        times.saturating_mul(steps),
        sum,
    );
    Some(())
}

/// Prints how long an accepted program takes on the frame, in each way.
fn measure_all<R: Clock + Eprint>(
    rt: &R,
    name: &str,
    accepted: &Accepted,
    size: Asked<'_>,
) -> Option<()> {
    let ways = [
        (Way::Run, "run"),
        (Way::Probe, "probe"),
        (Way::Enter, "enter and a step"),
    ];
    for (way, what) in ways {
        let _ = eprintln!(rt; "{name}, {what}");
        measure(rt, way, accepted, size)?;
    }
    Some(())
}

/// Prints how long the workload of a line takes. None if there is none that is accepted.
fn print_workload<R: Clock + Eprint>(
    rt: &R,
    alloc: Global,
    line: &str,
    size: Asked<'_>,
) -> Option<()> {
    let (name, rest) = line.split_once(' ')?;
    let (digits, _) = rest.split_once(' ')?;
    let code = hex::decode(alloc, digits).ok()?;
    let (accepted, _) = verified(rt, alloc, of_code(alloc, code.as_slice())?)?;
    measure_all(rt, name, &accepted, size)
}

/// Prints how long each workload takes.
pub fn print_times<R: Clock + Eprint + Input>(
    rt: &R,
    alloc: Global,
    size: Asked<'_>,
) -> Option<()> {
    for line in rt.lines(alloc) {
        print_workload(rt, alloc, line.ok()?.as_str(), size)?;
    }
    Some(())
}
