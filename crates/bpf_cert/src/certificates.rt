//! Makes certificates: explores an admitted program again, and writes down what was found.

ghost use Rattle.std.specs.Prelude.{◌≡◌, ◌^◌, ℕ, IfOk, IfErr};
ghost use Rattle.bpf_prune.specs.Spending.{CountsAll, HasPassed};
ghost use Rattle.bpf_cert.specs.Certified.{Covered, IsCertificate, IsUncertified, IsUncertifiedAfter, IsUnmade};
ghost use Rattle.bpf_cert.specs.Limits.{IsStop, fault_of, fault_within, fault_written};

use crate::checker::certified_budget;
use crate::cuts::widened;
use crate::description::described;
use crate::fault::CertFault;
use crate::limit::{Stop, WithinFault};
use crate::sieve::sifted;
use bpf_cert_format::{Certificate, Leaf, WriteFault, write};
use bpf_decode::{Program, encode};
use bpf_machine::Accepted;
use bpf_prune::{Entry as Finished, Work};
use bpf_regions::Hook;
use bpf_verifier::{Fault, Refusal, StateLimit, explore_counted};
use std::alloc::{AllocError, Global};

/// Adds the entries that describe these states.
fn describe(
    alloc: Global,
    entries: &mut Vec<Leaf>,
    finished: &[Finished],
) -> Result<(), AllocError> {
    for one in finished {
        let entry = described(alloc, &one.state, one.budget)?;
        entries.push(Leaf::read(entry))?;
    }
    Ok(())
}

/// The entries that finished states give a program's certificate, without needless ones, ordered by slot and budget. In
/// that order `check` finds them fast.
fn entries_of(
    alloc: Global,
    program: &Program,
    finished: &[Finished],
    work: &mut Work,
) -> Result<Vec<Leaf>, Stop>
    ensures stop { IfErr result (IsStop (HasPassed work.new)) }
{
    let claims = widened(alloc, program, finished, work)?;
    let mut entries = Vec::new(alloc);
    for mut of_slot in sifted(alloc, program, &claims, work)? {
        of_slot.sort_by_key(|one| one.budget)?;
        describe(alloc, &mut entries, of_slot.as_slice())?;
    }
    Ok(entries)
}

/// The bytes of a certificate with these entries.
fn written(
    alloc: Global,
    program: &Program,
    hook: Hook,
    entries: Vec<Leaf>,
) -> Result<Vec<u8>, WriteFault> {
    let code = encode(alloc, program)?;
    write(alloc, &Certificate::new(hook, code, entries))
}

fn at_start(fault: Fault) -> Refusal
    ensures is { result ≡ record { fault = fault; pc = 0 } }
{
    Refusal { fault, pc: 0 }
}

/// A refusal at the start, for entries that weren't found.
fn unfound(stop: Stop) -> Refusal
    ensures is { result ≡ record { fault = fault_of stop; pc = 0 } }
{
    match stop {
        Stop::NoMemory => at_start(Fault::NoMemory),
        Stop::TooMuchWork => at_start(Fault::TooManyVisits),
    }
}

/// A refusal at the start, for bytes that turned out to be no certificate.
fn unmade(fault: WithinFault) -> Refusal
    ensures is { result ≡ record { fault = fault_within fault; pc = 0 } }
{
    match fault {
        WithinFault::Refused(CertFault::NoMemory) => at_start(Fault::NoMemory),
        WithinFault::Refused(_) | WithinFault::TooMuchWork => at_start(Fault::TooManyVisits),
    }
}

fn unwritten(fault: WriteFault) -> Refusal
    ensures is { result ≡ record { fault = fault_written fault; pc = 0 } }
{
    match fault {
        WriteFault::Memory => at_start(Fault::NoMemory),
        WriteFault::TooLarge => at_start(Fault::TooManyVisits),
    }
}

/// Returns the certificate's bytes if they show that the program is safe.
fn proved(
    alloc: Global,
    program: &Program,
    hook: Hook,
    bytes: Vec<u8>,
    work: &mut Work,
) -> Result<Vec<u8>, Refusal>
    ensures covered { IfOk result (λ made. (b : ℕ) × Covered program.now hook made.items b) }
    ensures start { IfErr result (λ e. e.pc ≡ 0) }
    ensures why { IfErr result (λ e. IsUnmade work.new e.fault) }
{
    match certified_budget(alloc, program, hook, bytes.as_slice(), work) {
        Ok(_) => Ok(bytes),
        Err(fault) => Err(unmade(fault)),
    }
}

/// The certificate that finished states give a program, if it shows that the program is safe.
fn made(
    alloc: Global,
    program: &Program,
    hook: Hook,
    finished: &[Finished],
    work: &mut Work,
) -> Result<Vec<u8>, Refusal>
    ensures covered { IfOk result (λ made. (b : ℕ) × Covered program.now hook made.items b) }
    ensures start { IfErr result (λ e. e.pc ≡ 0) }
    ensures why { IfErr result (λ e. IsUnmade work.new e.fault) }
{
    match entries_of(alloc, program, finished, work) {
        Err(stop) => Err(unfound(stop)),
        Ok(entries) => match written(alloc, program, hook, entries) {
            Err(fault) => Err(unwritten(fault)),
            Ok(bytes) => proved(alloc, program, hook, bytes, work),
        },
    }
}

/// Makes a certificate for an admitted program and its hook, from the states that `explore` lists, without needless
/// ones. The certificate has been checked: `check` accepts it, unless memory is lacking.
///
/// A program that `verify` refuses is refused here too; one admitted through `check` may be such a program. 36 at slot
/// 0 can also mean that its states don't fit a certificate. A program whose states, each counted once for every path to
/// it, are within the limit of states and meet no fault is refused only for lack of memory, or at slot 0.
pub fn certificate(alloc: Global, accepted: &Accepted) -> Result<Vec<u8>, Refusal>
    ensures certificate { IfOk result (λ bytes. IsCertificate accepted.now bytes.items) }
    ensures refused { IfErr result (IsUncertified accepted.now.code (2 ^ 22)) }
{
    certificate_within(alloc, accepted, StateLimit::MOST)
}

/// Like `certificate`, but examines at most `limit` states: a program that needs more is refused as by `verify_within`.
pub fn certificate_within(
    alloc: Global,
    accepted: &Accepted,
    limit: StateLimit,
) -> Result<Vec<u8>, Refusal>
    ensures certificate { IfOk result (λ bytes. IsCertificate accepted.now bytes.items) }
    ensures refused { IfErr result (IsUncertified accepted.now.code limit) }
{
    let limits = limit.alone();
    let mut work = Work::within(limits.units());
    certificate_counted(alloc, accepted, limit, &mut work)
}

/// Like `certificate_within`, but `work` has a limit of work, and counts each unit before it is done: of the
/// exploration as `verify_counted` does, and of making and checking the certificate as `check_counted` does. What was
/// counted before stays. The states that are examined or made again, 80 units each at least, and the comparisons are
/// within the units that are allowed. 36 is for too many states, more work than is allowed, or, at slot 0, states that
/// give no certificate.
pub fn certificate_counted(
    alloc: Global,
    accepted: &Accepted,
    limit: StateLimit,
    work: &mut Work,
) -> Result<Vec<u8>, Refusal>
    ensures certificate { IfOk result (λ bytes. IsCertificate accepted.now bytes.items) }
    ensures refused { IfErr result
        (IsUncertifiedAfter accepted.now.code limit work.old work.new) }
    ensures counted { CountsAll work.new }
{
    let program = accepted.program();
    let hook = accepted.hook();
    program.whole();
    let finished = explore_counted(alloc, program, limit, work)?;
    let certificate = made(alloc, program, hook, finished.as_slice(), work);
    work.known();
    certificate
}
