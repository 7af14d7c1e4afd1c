//! Adopting programs by certificates.

ghost use Rattle.std.specs.Prelude.{◌≡◌};
ghost use Rattle.apd_run.specs.Adopting.{AdoptsProgram, AdoptsCode, AdoptsFiles, certificate_told};

use crate::loads::programs::Loads;
use apd_driver::{Told, Unread};
use apd_files::{CodeFault, Files, read_certificate, read_code};
use bpf_cert::{CertFault, WithinFault};
use bpf_decode::{DecodeFault, Program, decode};
use bpf_regions::Hook;
use std::sync::Wait;
use versions::PublishFault;
use versions_checked::{CheckedFault, Offer, publish_checked_within};

/// The files of an adoption: a program's code, and its certificate.
#[derive(Clone, Copy)]
pub struct Adoption<'a> {
    pub code: &'a str,
    pub certificate: &'a str,
}

impl Loads {
    /// Reads code and a certificate from two files of hex digits, and puts the program in force for a hook if the
    /// certificate shows it safe, by a check within a limit of work, if there is one. Returns `Unreadable` if a file
    /// can't be read or doesn't hold pairs of hex digits, the code's fault, the number of the certificate's fault,
    /// `Memory`, or the budget that the certificate shows. All but the last leave the programs in force unchanged.
    pub fn adopt<R: Wait, F: Files>(
        &mut self,
        rt: &R,
        files: &mut F,
        hook: Hook,
        adoption: Adoption<'_>,
        work: Option<u64>,
    ) -> Told
        ensures adopts { AdoptsFiles (F.held files.old) work hook adoption.entry.code.now
            adoption.entry.certificate.now self.old self.new result }
        ensures same { F.held files.new ≡ F.held files.old }
    {
        let Adoption {
            code: path,
            certificate,
        } = adoption;
        let code = match read_code(self.alloc, path, files) {
            Ok(code) => code,
            Err(fault) => match fault {
                CodeFault::NoMemory => return Told::Memory,
                _ => return Told::Unreadable(Unread::Code(fault)),
            },
        };
        match read_certificate(self.alloc, certificate, files) {
            Ok(bytes) => {
                let told = self.adopt_code(rt, hook, code.as_slice(), bytes.as_slice(), work);
                return told;
            }
            Err(fault) => match fault {
                CodeFault::NoMemory => return Told::Memory,
                _ => return Told::Unreadable(Unread::Certificate(fault)),
            },
        }
    }

    fn adopt_code<R: Wait>(
        &mut self,
        rt: &R,
        hook: Hook,
        code: &[u8],
        certificate: &[u8],
        work: Option<u64>,
    ) -> Told
        ensures { AdoptsCode work hook code.now certificate.now self.old self.new result }
    {
        let Ok(shapes) = self.shapes() else {
            return Told::Memory;
        };
        match decode(self.alloc, code, shapes) {
            Ok(program) => {
                let told = self.adopt_program(rt, hook, program, certificate, work);
                return told;
            }
            Err(fault) => match fault {
                DecodeFault::NoMemory => return Told::Memory,
                _ => return Told::Fault(fault),
            },
        }
    }

    fn adopt_program<R: Wait>(
        &mut self,
        rt: &R,
        hook: Hook,
        program: Program,
        certificate: &[u8],
        work: Option<u64>,
    ) -> Told
        requires { program.shapes ≡ self.old.shapes }
        ensures { AdoptsProgram work hook program certificate.now self.old self.new result }
    {
        let slots = program.len();
        let offer = Offer {
            program,
            hook,
            certificate,
        };
        match publish_checked_within(rt, self.alloc, &mut self.publisher, offer, work) {
            Ok(budget) => return Told::Loaded { budget, slots },
            Err(CheckedFault::Certificate(fault)) => return not_certified(fault),
            Err(CheckedFault::Publication(fault)) => match fault {
                PublishFault::NoMemory => return Told::Memory,
                PublishFault::OtherShapes => unreachable!(),
            },
        }
    }
}

/// The report on a refused certificate.
fn not_certified(fault: WithinFault) -> Told
    ensures { result ≡ certificate_told fault }
{
    match fault {
        WithinFault::TooMuchWork => Told::Certificate {
            fault: fault.number(),
        },
        WithinFault::Refused(why) => match why {
            CertFault::NoMemory => Told::Memory,
            CertFault::Malformed | CertFault::Other | CertFault::NotCovered => Told::Certificate {
                fault: fault.number(),
            },
        },
    }
}
