//! Why a certificate isn't accepted.

ghost use Rattle.std.specs.Prelude.{◌≡◌};
ghost use Rattle.bpf_cert.specs.Faults.{number_of, fault_of};
ghost use Rattle.bpf_cert.specs.declared.fault.CertFault.TheVariants.{NoMemory};

use bpf_cert_format::ReadFault;
use std::alloc::{AllocError, AllocFailed};

/// Why a certificate isn't accepted.
#[derive(Clone, Copy, Debug, PartialEq, Eq)]
pub enum CertFault {
    /// 40: an allocation failed, which says nothing about the certificate.
    NoMemory,
    /// 70: the bytes spell no certificate.
    Malformed,
    /// 71: the certificate is for another hook or another code.
    Other,
    /// 72: its entries don't show that the program is safe.
    NotCovered,
}

impl CertFault {
    /// The fault's number: 40, or 70 to 72.
    pub fn number(self) -> u8
        ensures is { result ≡ number_of self }
    {
        match self {
            CertFault::NoMemory => 40,
            CertFault::Malformed => 70,
            CertFault::Other => 71,
            CertFault::NotCovered => 72,
        }
    }
}

impl From<AllocError> for CertFault {
    ghost from_gives = { λ _ e. e ≡ NoMemory };

    fn from(_error: AllocError) -> CertFault {
        CertFault::NoMemory
    }
}

impl<T: Drop> From<AllocFailed<T>> for CertFault {
    ghost from_gives = { λ _ e. e ≡ NoMemory };

    fn from(_error: AllocFailed<T>) -> CertFault {
        CertFault::NoMemory
    }
}

/// The fault for bytes that couldn't be read.
pub(crate) fn unread(fault: ReadFault) -> CertFault
    ensures is { result ≡ fault_of fault }
{
    match fault {
        ReadFault::Memory => CertFault::NoMemory,
        ReadFault::Malformed => CertFault::Malformed,
    }
}
