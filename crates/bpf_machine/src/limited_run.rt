//! Whole runs of any program, within a limit of steps.

ghost use Rattle.std.specs.Prelude.{◌≡◌, ◌≢◌, ℕ, List, MatchOption};
ghost use Rattle.bpf_model.specs.State.{Fault};
ghost use Rattle.bpf_model.specs.Step.{next};
ghost use Rattle.bpf_tagged.specs.Took.{IsPaired, at};
ghost use Rattle.bpf_machine.specs.Runs.{Probed, setting_of};

use crate::one_step::{keep_note, step};
use crate::silent::Silent;
use crate::{Outcome, Probe};
use arrayvec::ArrayVec;
use bpf_decode::Program;
use bpf_regions::{Context, Frame};
use bpf_tagged::{Machine, Port, Stepped};

/// The fault of the next step, if it faults. Queries no port; the machine's state afterwards is unspecified.
fn fault_ahead(program: &Program, frame: &[u8], context: &[u8], machine: &mut Machine) -> Option<u8>
    requires paired { IsPaired machine.old }
    ensures is { MatchOption result
        ((notes : List ℕ) (number : ℕ) →
        next (setting_of program.now frame.now context.now) (at machine.old notes) ≢ Fault number)
        (λ number. (notes : List ℕ) →
        next (setting_of program.now frame.now context.now) (at machine.old notes) ≡ Fault number) }
{
    let mut silent = Silent {
        shapes: program.shapes(),
    };
    match step(program, frame, context, machine, &mut silent) {
        Stepped::Faulted(number) => Some(number),
        Stepped::On(_) => None,
        Stepped::Finished(_) => None,
    }
}

/// Runs a program for at most `limit` steps. The port gets the queries of those steps, each once and in order.
/// Allocates nothing.
pub fn probe<P: Port>(
    program: &Program,
    frame: &Frame,
    context: &Context,
    port: &mut P,
    limit: u32,
) -> Probe
    requires shapes { P.shapes port.old ≡ program.now.shapes }
    ensures is { Probed P.gives (setting_of program.now frame.now context.now)
        port.old port.new limit result }
    ensures shapes { P.shapes port.new ≡ P.shapes port.old }
{
    let received = frame.bytes();
    let told = context.bytes();
    let mut machine = Machine::start();
    let mut notes = ArrayVec::new();
    let mut steps: u32 = 0;
    'steps: while steps < limit {
        let pc = machine.pc;
        match step(program, received, told, &mut machine, port) {
            Stepped::Finished(r0) => {
                return Probe::Ended(Outcome {
                    r0,
                    steps: steps + 1,
                    notes,
                });
            }
            Stepped::Faulted(number) => return Probe::Faulted { pc, number },
            Stepped::On(noted) => {
                keep_note(&mut notes, noted);
                steps += 1;
            }
        }
    }
    let pc = machine.pc;
    match fault_ahead(program, received, told, &mut machine) {
        Some(number) => Probe::Faulted { pc, number },
        None => Probe::Cut,
    }
}
