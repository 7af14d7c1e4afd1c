//! Why a program wasn't published by its certificate.

ghost use Rattle.std.specs.Prelude.{◌≡◌};
ghost use Rattle.versions.specs.declared.fault.PublishFault.TheVariants.{NoMemory};
ghost use Rattle.versions_checked.specs.Faults.{number_of};
ghost use Rattle.versions_checked.specs.declared.fault.CheckedFault.TheVariants.{Certificate, Publication};

use bpf_cert::WithinFault;
use std::alloc::AllocFailed;
use versions::PublishFault;

/// Why a program wasn't published by its certificate.
#[derive(Clone, Copy, Debug, PartialEq, Eq)]
pub enum CheckedFault {
    /// The certificate wasn't accepted: 70 to 72, 40, or 36 if there is a limit of work.
    Certificate(WithinFault),
    /// The certificate was accepted, but the program wasn't published: 60 or 40.
    Publication(PublishFault),
}

impl CheckedFault {
    /// 70 to 72 for a certificate that isn't accepted, 36 for one that needs more work than is allowed, 60 for other
    /// shapes, 40 for lack of memory.
    pub fn number(self) -> u8
        ensures is { result ≡ number_of self }
    {
        match self {
            CheckedFault::Certificate(fault) => fault.number(),
            CheckedFault::Publication(fault) => fault.number(),
        }
    }
}

impl From<WithinFault> for CheckedFault {
    ghost from_gives = { λ fault e. e ≡ Certificate fault };

    fn from(fault: WithinFault) -> CheckedFault {
        CheckedFault::Certificate(fault)
    }
}

impl<T: Drop> From<AllocFailed<T>> for CheckedFault {
    ghost from_gives = { λ _ e. e ≡ Publication NoMemory };

    fn from(_error: AllocFailed<T>) -> CheckedFault {
        CheckedFault::Publication(PublishFault::NoMemory)
    }
}
