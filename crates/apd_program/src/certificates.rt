//! Making and checking certificates: the commands `cert` and `check`.

ghost use Rattle.std.specs.Prelude.{◌≡◌, IfOk, IfErr};
ghost use Rattle.apd_program.specs.Certifying.{IsCertificateWithin, IsChecked};
ghost use Rattle.apd_program.specs.Programs.{IsOfProgram};
ghost use Rattle.apd_program.specs.Refusing.{IsUnaccepted};

use crate::answer::{Answer, refused, undecoded};
use crate::fault::ProgramFault;
use crate::verdicts::limits_of;
use apd_words::Terms;
use bpf_cert::{CertFault, WithinFault, Work, certificate_counted, check_within};
use bpf_decode::{Program, decode};
use bpf_regions::{Hook, Shapes};
use bpf_verifier::verify_counted;
use std::alloc::Global;

/// The answer for a certificate that isn't accepted.
fn unaccepted(fault: WithinFault) -> Result<Answer, ProgramFault>
    ensures fault { IfOk result (IsUnaccepted fault) }
    ensures memory { IfErr result (λ e. e ≡ ProgramFault.NoMemory) }
{
    match fault {
        WithinFault::TooMuchWork => Ok(Answer::Unaccepted(fault)),
        WithinFault::Refused(why) => match why {
            CertFault::NoMemory => Err(ProgramFault::NoMemory),
            _ => Ok(Answer::Unaccepted(fault)),
        },
    }
}

/// Makes the certificate of a program, or returns the refusal.
fn certified(alloc: Global, program: Program, terms: Terms) -> Result<Answer, ProgramFault>
    ensures certificate { IfOk result (IsCertificateWithin terms program) }
    ensures memory { IfErr result (λ e. e ≡ ProgramFault.NoMemory) }
{
    let limits = limits_of(terms);
    let states = limits.states;
    let mut work = Work::within(limits.units());
    match verify_counted(alloc, program, terms.hook, states, &mut work) {
        Ok(accepted) => match certificate_counted(alloc, &accepted, states, &mut work) {
            Ok(bytes) => Ok(Answer::Certificate(bytes)),
            Err(refusal) => refused(refusal),
        },
        Err(refusal) => refused(refusal),
    }
}

/// Makes the certificate of the program that the code spells, with maps of these shapes.
pub(crate) fn certify(
    alloc: Global,
    code: &[u8],
    shapes: Shapes,
    terms: Terms,
) -> Result<Answer, ProgramFault>
    ensures certificate { IfOk result (IsOfProgram (IsCertificateWithin terms) code.now shapes) }
    ensures memory { IfErr result (λ e. e ≡ ProgramFault.NoMemory) }
{
    match decode(alloc, code, shapes) {
        Ok(program) => certified(alloc, program, terms),
        Err(fault) => undecoded(fault),
    }
}

/// For which hook a certificate's bytes are checked, and the most work that may be done, if that is limited.
#[derive(Clone, Copy)]
pub(crate) struct Inquiry<'a> {
    pub hook: Hook,
    pub bytes: &'a [u8],
    pub work: Option<u64>,
}

/// Checks the bytes of a certificate for a program.
fn checked(alloc: Global, program: Program, inquiry: Inquiry<'_>) -> Result<Answer, ProgramFault>
    ensures checked { IfOk result
        (IsChecked inquiry.entry.hook inquiry.entry.bytes.now inquiry.entry.work program) }
    ensures memory { IfErr result (λ e. e ≡ ProgramFault.NoMemory) }
{
    let Inquiry { hook, bytes, work } = inquiry;
    match check_within(alloc, program, hook, bytes, work) {
        Ok(accepted) => Ok(Answer::Accepted {
            budget: accepted.budget(),
        }),
        Err(fault) => unaccepted(fault),
    }
}

/// Checks the bytes of a certificate for the program that the code spells, with maps of these shapes.
pub(crate) fn check(
    alloc: Global,
    code: &[u8],
    shapes: Shapes,
    inquiry: Inquiry<'_>,
) -> Result<Answer, ProgramFault>
    ensures checked { IfOk result (IsOfProgram
        (IsChecked inquiry.entry.hook inquiry.entry.bytes.now inquiry.entry.work) code.now
        shapes) }
    ensures memory { IfErr result (λ e. e ≡ ProgramFault.NoMemory) }
{
    match decode(alloc, code, shapes) {
        Ok(program) => checked(alloc, program, inquiry),
        Err(fault) => undecoded(fault),
    }
}
