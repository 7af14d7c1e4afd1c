//! The verifier's verdict on a policy.

ghost use Rattle.std.specs.Prelude.{◌≡◌, ◌^◌, [], IfOk, option_map};
ghost use Rattle.apd_files.specs.Held.{HoldsKept};
ghost use Rattle.apd_trials.specs.Policies.{HoldsSetup, Configures, number_of_reason, IsProgramVerdict, IsUndecoded, IsVerdict, IsJudged};

use crate::fault::{Trouble, of_code, of_configuration, of_file};
use apd_cases::Policy;
use apd_config::read_configuration;
use apd_files::{FileKind, Files, read_code, read_whole};
use bpf_decode::{DecodeFault, Program, decode};
use bpf_machine::Accepted;
use bpf_regions::{Hook, Shapes};
use bpf_verifier::{Fault, Refusal, verify};
use std::alloc::Global;

/// The maps and the first draw of a configuration.
#[derive(Drop)]
pub struct Setup {
    /// The maps' shapes; a map's number is its index.
    pub shapes: Shapes,
    /// The first number drawn.
    pub draw: u64,
}

/// Why a policy isn't admitted.
#[derive(Clone, Copy, Debug, PartialEq, Eq)]
pub enum Reason {
    /// The code isn't well formed (1 to 3, 10 to 19).
    Fault(DecodeFault),
    /// The verifier refuses the program (30 to 38).
    Refused(Refusal),
}

impl Reason {
    /// Its number.
    pub fn number(self) -> u8
        ensures is { result ≡ number_of_reason self }
    {
        match self {
            Reason::Fault(fault) => fault.number(),
            Reason::Refused(refusal) => refusal.number(),
        }
    }
}

/// What the verifier says of a policy.
#[derive(Drop)]
pub enum Admission {
    /// It is admitted; `draw` is the first number that it draws.
    Accepted { program: Accepted, draw: u64 },
    Unadmitted(Reason),
}

/// No maps.
fn no_shapes(alloc: Global) -> Shapes
    ensures is { result ≡ [] }
{
    match Shapes::new(Vec::new(alloc)) {
        Some(shapes) => shapes,
        None => unreachable!(),
    }
}

/// Reads the setup of a configuration.
fn configured<F: Files>(alloc: Global, path: &str, files: &mut F) -> Result<Setup, Trouble>
    ensures setup { IfOk result (λ setup. HoldsSetup (F.held files.old) path.now setup) }
    ensures same { F.held files.new ≡ F.held files.old }
{
    let text = match read_whole(alloc, path, FileKind::Configuration, files) {
        Ok(text) => text,
        Err(why) => return Err(of_file(alloc, path, why)),
    };
    match read_configuration(alloc, text.as_slice()) {
        Ok(configuration) => Ok(Setup {
            draw: configuration.draw,
            shapes: configuration.maps,
        }),
        Err(fault) => Err(of_configuration(alloc, path, text.as_slice(), fault)),
    }
}

/// Reads the setup of a configuration. Without one, there are no maps, and 0 is drawn first.
fn setup_of<F: Files>(alloc: Global, config: Option<&str>, files: &mut F) -> Result<Setup, Trouble>
    ensures setup { IfOk result
        (Configures (F.held files.old) (option_map (λ path. path.now) config.entry)) }
    ensures same { F.held files.new ≡ F.held files.old }
{
    match config {
        Some(path) => configured(alloc, path, files),
        None => Ok(Setup {
            shapes: no_shapes(alloc),
            draw: 0,
        }),
    }
}

/// Reads code from a file, and keeps as much of it as decides its verdict.
fn code_of<F: Files>(alloc: Global, path: &str, files: &mut F) -> Result<Vec<u8>, Trouble>
    ensures code { IfOk result
        (λ code. HoldsKept (2 ^ 17) (F.held files.old) path.now code.items) }
    ensures same { F.held files.new ≡ F.held files.old }
{
    match read_code(alloc, path, files) {
        Ok(code) => Ok(code),
        Err(fault) => Err(of_code(alloc, path, fault)),
    }
}

/// Verifies a program. It fails only for lack of memory.
fn verified(alloc: Global, program: Program, hook: Hook, draw: u64) -> Result<Admission, Trouble>
    ensures says { IfOk result (IsProgramVerdict hook program draw) }
{
    match verify(alloc, program, hook) {
        Ok(program) => Ok(Admission::Accepted { program, draw }),
        Err(refusal) => match refusal.fault {
            Fault::NoMemory => Err(Trouble::NoMemory),
            _ => Ok(Admission::Unadmitted(Reason::Refused(refusal))),
        },
    }
}

/// What is said of code that isn't well formed.
fn undecoded(fault: DecodeFault) -> Result<Admission, Trouble>
    ensures fault { IfOk result (IsUndecoded fault) }
{
    match fault {
        DecodeFault::NoMemory => Err(Trouble::NoMemory),
        _ => Ok(Admission::Unadmitted(Reason::Fault(fault))),
    }
}

/// Judges code, with the maps of a setup. It fails only for lack of memory.
fn judged(alloc: Global, code: &[u8], setup: Setup, hook: Hook) -> Result<Admission, Trouble>
    ensures says { IfOk result (IsVerdict hook code.now setup) }
{
    let Setup { shapes, draw } = setup;
    match decode(alloc, code, shapes) {
        Ok(program) => verified(alloc, program, hook, draw),
        Err(fault) => undecoded(fault),
    }
}

/// Judges the code in a policy's file, with the maps of a configuration.
pub(crate) fn judge_policy<F: Files>(
    alloc: Global,
    policy: Policy<'_>,
    config: Option<&str>,
    files: &mut F,
) -> Result<Admission, Trouble>
    ensures says { IfOk result (IsJudged (F.held files.old) policy.entry.hook
        policy.entry.path.now (option_map (λ path. path.now) config.entry)) }
    ensures same { F.held files.new ≡ F.held files.old }
{
    let setup = setup_of(alloc, config, files)?;
    let code = code_of(alloc, policy.path, files)?;
    let admission = judged(alloc, code.as_slice(), setup, policy.hook)?;
    Ok(admission)
}
